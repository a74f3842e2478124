//! The desk: what operators and TWAMP-Control clients say becomes calls of the book, and lines and messages back.
#![tactic(auto)]

mod answering;
mod connections;
mod counts;
mod desk_room;
mod hands;
mod hearing;
mod line_buffer;
mod names;
mod operator;
mod own;
mod own_calls;
mod piece;
mod requests;
mod room;
mod running;
mod setting;
mod shown;
mod sides;
mod talking;
mod tallying;
mod ticking;

pub use counts::{DeskEnd, DeskTally};
pub use desk_room::{DeskRoom, run_desk};
