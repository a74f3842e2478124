//! Tests of a worker: whole works over a scripted port, on a table with a desk and a second worker.
#![tactic(auto)]

#[cfg(test)]
mod tests;
