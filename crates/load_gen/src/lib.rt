//! The records of a generated load. It is this project's own.
#![tactic(auto)]

mod generating;
mod request;
mod state;

pub use generating::generate;
