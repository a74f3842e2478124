//! Tests of the configuration file: texts and their first faults, and files by their names.
#![tactic(auto)]

#[cfg(test)]
mod tests;
