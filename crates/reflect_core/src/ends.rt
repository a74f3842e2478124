//! From where and to whom a reply is sent.

ghost use Rattle.std.specs.Prelude.{◌≡◌, if◌then◌else◌};
ghost use Rattle.reflect_core.specs.Ends.{usual_ends, planned_ends};

use refl_types::{Endpoint, Meta};
use tlv_actions::Plan;

/// The ends of a reply.
#[derive(Clone, Copy, Debug, PartialEq, Eq)]
pub struct Ends {
    /// The number of the local address that sends it.
    pub from: u16,
    /// Whom it is sent to.
    pub to: Endpoint,
}

/// From where a datagram arrived, to its sender.
#[inline(always)]
fn usual_ends(meta: &Meta) -> Ends
    ensures { result ≡ usual_ends meta.now }
{
    Ends {
        from: meta.local,
        to: meta.peer,
    }
}

/// Those of a plan, if it is followed.
#[inline(always)]
pub fn ends_of(followed: bool, plan: &Plan, meta: &Meta) -> Ends
    ensures { result ≡ (if followed then planned_ends plan.now else usual_ends meta.now) }
{
    if followed {
        Ends {
            from: plan.from,
            to: plan.to,
        }
    } else {
        usual_ends(meta)
    }
}
