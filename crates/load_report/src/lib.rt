//! A generated load, replayed in memory, and the lines that are told of it. It is this project's own.
#![tactic(auto)]

mod counting;
mod laws;
mod lines;
mod replaying;
mod reporting;

pub use laws::law_load_decides;
pub use reporting::{COUNT_LIMIT, report_load};

#[cfg(test)]
mod tests;
