//! The program over the objects that it is given.
#![tactic(auto)]

mod commands;
pub mod laws;
pub mod offline;
mod outbox;
#[cfg(test)]
mod tests;
pub mod top;
mod words;
