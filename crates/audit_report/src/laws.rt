//! What follows from how an audit ends.

ghost use Rattle.audit_report.specs.Decides.{RunDecides};

use reply_audit::one_entry;

/// Where no call fails, the status is 0 of a run that is a history, and 12 or 6 of any other, but for want of memory.
pub fn law_run_decides()
    ensures { RunDecides }
{
    one_entry();
}
