//! What the book keeps of a session.

use expiry::Note;
use refl_types::{Extra, Key, Place};

/// No live session has the key, or no reserved one the place. Whoever named it is to blame.
#[derive(Clone, Copy, Debug, PartialEq, Eq)]
pub struct NoSuch;

/// All rows are used, and none has the configuration.
#[derive(Clone, Copy, Debug, PartialEq, Eq)]
pub struct RowsFull;

/// Why no session was reserved.
#[derive(Clone, Copy, Debug, PartialEq, Eq)]
pub enum ReserveFault {
    /// The key is live or reserved.
    Duplicate(Key),
    /// A live or reserved session has the same ends in another mode: this one, the earliest reserved of these.
    ModeClash(Key),
    /// Mode Auth wants a configuration with an HMAC key (RFC 8762, section 4.2.2).
    NoKey,
    /// All rows are used, and none has the configuration.
    RowsFull,
    /// No slot may be taken. The four numbers are all slots.
    Full {
        /// The live sessions.
        live: u32,
        /// The reserved sessions.
        reserved: u32,
        /// The slots that have had all their generations.
        retired: u32,
        /// The slots that a worker has announced.
        held: u32,
    },
}

/// Why a session was not set to another configuration.
#[derive(Clone, Copy, Debug, PartialEq, Eq)]
pub enum SetFault {
    /// The key is not live.
    NoSuch,
    /// Mode Auth wants a configuration with an HMAC key (RFC 8762, section 4.2.2).
    NoKey,
    /// All rows are used, and none has the configuration.
    RowsFull,
}

/// How many sessions a tick has closed.
#[derive(Clone, Copy, Debug, PartialEq, Eq)]
pub struct Ticked {
    /// Those whose closing moment had come.
    pub closed: u32,
    /// Those that had idled away.
    pub expired: u32,
}

/// A session that is reserved or live.
#[derive(Clone, Copy)]
pub struct Session {
    pub key: Key,
    pub extra: Extra,
    /// The row of its configuration.
    pub row: u32,
    pub place: Place,
    /// How long it may idle, in nanoseconds; 0 is for ever.
    pub wait: u64,
    /// Its slot word as it was noted last, and the moment of that. Of a reserved session nothing is noted yet.
    pub note: Note,
    /// The moment from which on a tick closes it, in nanoseconds.
    pub closing: Option<u64>,
}

/// What a slot is taken by.
#[derive(Clone, Copy, Debug, PartialEq, Eq)]
pub enum Use {
    /// By no session.
    Free,
    /// By a session that is not started yet.
    Reserved,
    /// By a live session.
    Live,
}

/// A slot of the table. A free one keeps the place of the session that took it last.
#[derive(Clone, Copy)]
pub struct Slot {
    pub taken: Use,
    pub session: Session,
}
