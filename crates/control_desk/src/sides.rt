//! The connections, by what they say.

use crate::line_buffer::LineBuffer;
use crate::own::OwnSessions;
use refl_types::Address;
use twamp_control::Machine;

/// A connection of a TWAMP-Control client.
#[derive(Drop)]
pub struct ControlSide {
    pub machine: Machine,
    pub peer: Address,
    pub local: Address,
    /// The moment of its last octet, or of its opening where none came, in nanoseconds.
    pub heard: u64,
    pub sessions: OwnSessions,
}

/// Who speaks on a connection, and what was heard so far.
#[derive(Drop)]
pub enum Side {
    Control(ControlSide),
    /// The octets of the line that isn't whole yet.
    Operator(LineBuffer),
}

/// A connection that is open.
#[derive(Drop)]
pub struct OpenConnection {
    pub number: u32,
    pub side: Side,
}
