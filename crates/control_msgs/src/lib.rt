//! The messages of TWAMP-Control in open mode, both ways: what a server writes and reads, and what a client writes
//! (RFC 5357, section 3; RFC 4656, section 3; RFC 6038, section 3).
#![tactic(auto)]

mod client;
mod codes;
mod modes;
mod request;
mod server;
mod types;

pub use client::{write_request, write_set_up, write_start, write_stop};
pub use codes::{Accept, COMMAND_LEN, REQUEST, REQUEST_LEN, SET_UP_LEN, START, STOP};
pub use modes::{is_open_mode, is_symmetrical, reflects_octets};
pub use request::{octets_to_reflect, read_request};
pub use server::{write_accept, write_greeting, write_server_start, write_start_ack};
pub use types::{Field, MsgFault, Request};

#[cfg(test)]
mod tests;
