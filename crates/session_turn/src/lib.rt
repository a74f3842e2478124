//! The turn of a datagram, from its arrival to its reply: its session is found, it is judged, a number is drawn for it, and the
//! session is let go (RFC 8762, section 4.3). What is written and sent is the caller's.
#![tactic(auto)]

mod judging;
#[cfg(test)]
mod tests;
mod turning;

pub use turning::{Drawn, take_turn};
