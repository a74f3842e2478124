//! Formats that are read and written octet by octet: readers of fields, a writer of fields, and the laws that tie
//! each reader to its spelling.
#![tactic(auto)]

mod places;
mod reading;
mod writing;

pub use places::{field2, field4, field8, field16};
pub use reading::{
    Unread, array4_at, array8_at, array16_at, array64_at, octet_in, octets_at, u16_at, u32_at,
    u64_at, zeros_at,
};
pub use writing::{put, put_array};
