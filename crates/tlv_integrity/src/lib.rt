//! The HMAC TLV: whether a tail is what its sender wrote, and the seal of a reply (RFC 8972, section 4.8).
#![tactic(auto)]

mod heads;
mod integrity;
mod sealing;

pub use integrity::{Integrity, check, check_keyed};
pub use sealing::{seal, seal_keyed};
