//! What a reply has for each TLV of its request (RFC 8972, section 4).
#![tactic(auto)]

mod facts;
mod planning;
mod reply;
mod rows;

pub use facts::{Plan, ReplyFacts};
pub use planning::{may_redirect, no_reply, plan};
pub use reply::{Acted, act, copy_tlv};
pub use rows::is_understood;
