//! What follows from how a run ends.

ghost use Rattle.file_service.specs.Decides.{RunDecides};

use net_io::{Desk, Port};

/// Where no call fails, the content of the file alone decides whether it is served, but for want of memory; and what is served
/// ends with 0, or with 11 where a budget is spent.
pub fn law_run_decides<P: Port, D: Desk>()
    ensures { RunDecides P.shown D.shown D.goes }
{}
