//! A buffer between a source of octets and what is read in them.
#![tactic(auto)]

mod ahead;

pub use ahead::{ROOM, ReadAhead, STREAM_LIMIT};
