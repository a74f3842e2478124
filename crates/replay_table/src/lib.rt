//! What each record of a replay is answered, by definitions, and what these let callers know.
#![tactic(auto)]

mod laws;

pub use laws::law_apart;
