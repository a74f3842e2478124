//! The network as the reflector sees it: a port for datagrams and a desk for connections, as traits and as scripts in memory.
#![tactic(auto)]

mod desk;
mod log;
mod port;
mod script_desk;
mod script_port;
#[cfg(test)]
mod tests;

pub use desk::{ConnKind, Desk, DeskEvent, PIECE_ROOM, Timed};
pub use log::{Log, extend_within};
pub use port::{DATAGRAM_ROOM, Got, Port};
pub use script_desk::{DeskDeed, DeskItem, ScriptDesk};
pub use script_port::{PortDeed, PortItem, ScriptPort};
