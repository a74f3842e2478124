//! Tests of serving: runs of workers and a desk beside each other, and files that are named and served.
#![tactic(auto)]

#[cfg(test)]
mod shared;
#[cfg(test)]
mod tests;
