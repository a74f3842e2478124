//! The packets of TWAMP-Test in unauthenticated mode (RFC 5357, section 4), with reflected octets and symmetrical size
//! (RFC 6038, sections 4 and 5).
#![tactic(auto)]

mod reading;
mod writing;

pub use reading::{TEST_LEN, read_test};
pub use writing::{write_test, write_test_to};
