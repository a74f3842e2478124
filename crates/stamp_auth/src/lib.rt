//! The authenticated base packets of STAMP, 112 octets (RFC 8762, sections 4.2.2, 4.3.2 and 4.4; RFC 8972, section 3).
#![tactic(auto)]

mod reading;
mod writing;

pub use reading::{AUTH_LEN, AuthFault, auth_sender, read_auth, read_auth_keyed};
pub use writing::{write_auth, write_auth_keyed};
