//! What the desk works with.

use crate::counts::Counts;
use net_io::ConnKind;
use refl_types::Address;
use session_desk::DeskBook;
use session_rule::Table;

/// The table and its book, the desk and what is counted, lent for the desk's whole run.
#[derive(Drop)]
pub(crate) struct Hands<'a, D> {
    pub table: &'a Table,
    pub book: &'a mut DeskBook,
    pub desk: &'a mut D,
    pub counts: &'a mut Counts,
}

/// A connection that is heard, and the moment, in nanoseconds.
#[derive(Clone, Copy, Drop)]
pub(crate) struct Heard {
    pub conn: u32,
    pub now: u64,
}

/// Who opened a connection.
#[derive(Clone, Copy, Drop)]
pub(crate) struct Caller {
    pub kind: ConnKind,
    pub peer: Address,
    pub local: Address,
}
