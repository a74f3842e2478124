//! Tests of the desk: runs over a script, with what operators and clients of TWAMP-Control say.
#![tactic(auto)]

#[cfg(test)]
mod tests;
