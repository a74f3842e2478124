//! The sizes of a table, and the atomic steps on its words.
use session_key::Query;
use std::collections::LinkedList;

/// A table has at most so many slots.
pub const SLOT_LIMIT: u32 = 16_384;

/// A table has at most so many rows, as many as a slot's word can name.
pub const ROW_LIMIT: u32 = slot_word::GREATEST_ROW;

/// A table has at most so many workers.
pub const WORKER_LIMIT: u32 = 64;

/// How many slots, rows and workers a table has: 1 to 16,384 slots, 1 to 8,191 rows, 1 to 64 workers.
#[derive(Clone, Copy, Debug, PartialEq, Eq)]
pub struct TableSize {
    pub slots: u32,
    pub rows: u32,
    pub workers: u32,
}

/// Who makes a step: 0 is the desk, and workers have the numbers from 1.
pub type Actor = u32;

/// One atomic step on one word. `read` is the word that stood there. Slots are counted from 0; rows, workers, key
/// words and row words from 1.
#[derive(Clone, Copy)]
pub enum Step {
    /// The desk stores a word of a row.
    WriteRow {
        row: u32,
        index: u32,
        word: u64,
    },
    /// The desk stores a key word of a slot.
    WriteKey {
        slot: u32,
        index: u32,
        word: u64,
    },
    /// The desk reserves a slot that was never used.
    ReserveNew {
        slot: u32,
        row: u32,
    },
    /// The desk starts the session of a reserved slot.
    Start {
        slot: u32,
        read: u64,
    },
    /// A worker loads a slot word, for a datagram.
    Look {
        slot: u32,
        query: Query,
        read: u64,
    },
    /// A worker loads a key word of the slot that it holds.
    LoadKey {
        slot: u32,
        index: u32,
        read: u64,
    },
    /// A worker draws the next sequence number of the session that it saw.
    Draw {
        slot: u32,
        read: u64,
    },
    /// The desk splits a worker off.
    Split {
        worker: u32,
        read: u64,
    },
    /// A worker loads a word of a row.
    LoadRow {
        row: u32,
        index: u32,
        read: u64,
    },
    /// The desk exchanges the row of a session.
    Reconfigure {
        slot: u32,
        old: u32,
        new: u32,
        read: u64,
    },
    /// The desk closes a session.
    Close {
        slot: u32,
        read: u64,
    },
    /// The desk loads the slot word of a session.
    Peek {
        slot: u32,
        read: u64,
    },
    /// The desk closes a session if its slot word is the one that it expects.
    Expire {
        slot: u32,
        expected: u64,
        read: u64,
    },
    /// The desk takes a worker in again.
    Join {
        worker: u32,
        read: u64,
    },
    /// A worker announces the slot that it is about to look at.
    Announce {
        slot: u32,
    },
    /// A worker retires its announcement.
    Retire,
    /// The desk loads the announcement word of a worker.
    Scan {
        worker: u32,
        read: u64,
    },
    /// The desk reserves a slot that was used before.
    ReserveUsed {
        slot: u32,
        generation: u32,
        row: u32,
    },
}

/// A part of a worker's list of steps that a join has ended. No value of it is made: seats keep it for their contracts.
/// `from` and `to` are how many answers the desk had given before the split and before the join.
pub struct Part {
    pub worker: u32,
    pub steps: LinkedList<Step>,
    pub from: u64,
    pub to: u64,
}
