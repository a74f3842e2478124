//! The reflection of one datagram: a function of the datagram, its session's configuration and the number that was
//! drawn (RFC 8762, section 4.3; RFC 8972; RFC 9503; RFC 5357, section 4.2). It knows no clock and no socket, and takes no memory.
#![tactic(auto)]

mod base;
mod ends;
mod judging;
mod reflecting;
mod session;
mod tails;
#[cfg(test)]
mod tests;

pub use ends::Ends;
pub use judging::{Judged, judge};
pub use reflecting::{Reply, reflect};
pub use session::{Datagram, Draw, Session};
