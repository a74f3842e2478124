//! The unauthenticated base packets of STAMP, and their fields.
#![tactic(auto)]

mod fields;
mod plain;

pub use fields::{ReplyBase, SenderBase, Short};
pub use plain::{PLAIN_LEN, read_plain, write_plain, write_plain_to};
