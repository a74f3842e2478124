//! A worker: it receives datagrams from a port, finds the session of each in the shared table, draws its number, and sends the
//! reflection (RFC 8762, section 4.3). It takes no memory, locks nothing and waits for nothing but its port.
#![tactic(auto)]

mod buffers;
mod laws;
mod tally;
mod turning;
mod working;

pub use buffers::Buffers;
pub use laws::law_retires;
pub use tally::{Begun, Tally, WorkEnd};
pub use turning::turn;
pub use working::work;
