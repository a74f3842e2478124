//! The time and the two ends of a connection.

use refl_types::Address;

/// A second, in nanoseconds.
pub const SECOND: u64 = 1_000_000_000;

/// The far end of each connection of the desk, and this one.
pub const CLIENT: Address = Address::V4([192, 0, 2, 1]);

pub const SERVER: Address = Address::V4([192, 0, 2, 10]);
