//! Moments and spans of time in the formats of timestamps.
#![tactic(auto)]

mod timeout;
mod timestamp;

pub use timeout::timeout_nanos;
pub use timestamp::stamp;
