//! The TLVs that follow a base packet (RFC 8972, section 4), walked where they stand, without copying.
#![tactic(auto)]

mod codes;
mod law;
mod span;
mod walk;

pub use codes::{
    DESTINATION_NODE_ADDRESS, DIRECT_MEASUREMENT, EXTRA_PADDING, HMAC, INTEGRITY_FAILED, MALFORMED,
    RETURN_PATH, TIMESTAMP_INFORMATION, UNRECOGNIZED,
};
pub use law::law_split;
pub use span::{HEADER_LEN, Span};
pub use walk::Walk;
