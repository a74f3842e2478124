//! The entry at the front of what was read is checked.

ghost use Rattle.std.specs.Prelude.{◌≤◌, length};
ghost use Rattle.audit_report.specs.Fronts.{ChecksEntry, ChecksFront};

use reply_audit::{Ahead, Audit, Checked, look_ahead};

/// What the front of octets is.
#[derive(Clone, Copy, Debug, PartialEq, Eq)]
pub(crate) enum Front {
    /// An entry of so many octets that holds, and was taken.
    Holds(usize),
    /// An entry that doesn't hold.
    Fails,
    /// No entry that ends within the limit.
    Bad,
    /// An entry that isn't whole yet, or nothing.
    More,
    /// There was no memory for the entry.
    Memory,
}

/// Checks the first octets, which are an entry if there is one.
fn check_entry(audit: &mut Audit, octets: &[u8], len: usize) -> Front
    requires { len ≤ length octets.now }
    ensures { ChecksEntry audit.old octets.now len result audit.new }
{
    match audit.feed(&octets[..len]) {
        Ok(Checked::Holds) => Front::Holds(len),
        Ok(Checked::Fails) => Front::Fails,
        Ok(Checked::Bad) => Front::Bad,
        Err(_) => Front::Memory,
    }
}

/// Checks the entry at the front of octets, of which an entry may have as many as the limit.
pub(crate) fn check_front(audit: &mut Audit, octets: &[u8], limit: u64) -> Front
    ensures { ChecksFront audit.old octets.now limit result audit.new }
{
    match look_ahead(octets) {
        Ahead::Whole(len) => {
            if len as u64 > limit {
                return Front::Bad;
            }
            check_entry(audit, octets, len)
        }
        Ahead::More => {
            if octets.len() as u64 > limit {
                return Front::Bad;
            }
            Front::More
        }
        Ahead::Bad => Front::Bad,
    }
}
