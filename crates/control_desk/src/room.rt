//! What the desk keeps of its connections and names.

ghost use Rattle.std.specs.Prelude.{◌≤◌, vec_len, vec_capacity};

use crate::names::Names;
use crate::sides::OpenConnection;

/// What the desk keeps. Room for all connections is taken at first.
#[derive(Drop)]
pub struct Places {
    pub names: Names,
    /// In the order in which they were opened.
    pub connections: Vec<OpenConnection>,
    /// The moment of the desk's first event, in nanoseconds.
    pub started: Option<u64>,
    ghost within: { vec_len connections ≤ 32 },
    ghost room: { 32 ≤ vec_capacity connections },
}
