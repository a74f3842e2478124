//! The sessions of a replay, over the shared table that serves sockets: the desk's book opens, sets and closes them, and its
//! only worker is split off for each datagram and joined after it.
#![tactic(auto)]

mod changing;
mod opening;
mod reply;
mod sessions;
mod turning;

pub use sessions::{ANSWER_ROOM, SESSIONS, Sessions};

#[cfg(test)]
mod tests;
