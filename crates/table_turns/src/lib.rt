//! Tests of the shared table: calls of the desk's book, and workers that look sessions up and draw while it opens, changes and
//! closes them.
#![tactic(auto)]

#[cfg(test)]
mod shared;
#[cfg(test)]
mod tests;
