//! What callers may know of a run. It holds by the definitions of `specs/` alone, and costs nothing when it is called.

ghost use Rattle.reflector_serve.specs.Named.{CallsAreNamed};

use net_io::{Desk, Port};

/// Takes a run that was served, over ports and a desk of these types, and a place among the acts of its desk. Where the act is
/// a call that reserved a session, or gave one another configuration, it shows the books before and behind that call, and that
/// the row that the session was given stands, in the one history, for the configuration that the call named.
pub fn law_named<P: Port, D: Desk>()
    ensures { CallsAreNamed P.shown D.shown D.goes }
{}
