//! A connection of TWAMP-Control in open mode, seen by the server, without its socket: a machine that cuts the octets
//! of the stream into messages, says what each asks of the sessions, and writes the reply (RFC 5357, section 3; RFC
//! 4656, section 3; RFC 6038, section 3).
#![tactic(auto)]

mod laws;
mod machine;
mod replies;
mod stream;
mod types;

pub use control_msgs::{Field, MsgFault, Request};
pub use laws::{client_messages, every_cut, one_talk, whole_messages};
pub use machine::Machine;
pub use types::{Ask, DeskAnswer, Message, Stage, Stepped};

#[cfg(test)]
mod tests;
