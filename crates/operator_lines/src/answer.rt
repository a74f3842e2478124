//! What a line is answered.

use refl_types::Key;

/// Why a line isn't done.
#[derive(Clone, Copy, Debug, PartialEq, Eq)]
pub enum Refusal {
    /// The text is no line.
    Line,
    /// The octets are no configuration.
    Config,
    /// A configuration has this name.
    Exists,
    /// There are as many names as there may be.
    NamesFull,
    /// The file has no local address of this number.
    Local,
    /// No configuration has this name.
    NoConfig,
    /// A session has this key.
    Duplicate,
    /// A session has these ends in another mode.
    ModeClash,
    /// No session has this key.
    NoSuch,
    /// Mode Auth wants an HMAC key, and the configuration has none.
    NoKey,
    /// There is no room for another configuration.
    RowsFull,
    /// No slot is free: how many are live, reserved, retired, and closed but held by a worker.
    Full {
        live: u32,
        reserved: u32,
        retired: u32,
        held: u32,
    },
}

/// One line of an answer.
#[derive(Clone, Copy, Debug, PartialEq, Eq)]
pub enum Answer {
    /// The line is done.
    Done,
    /// The line is done, and this is its count: numbered datagrams, or sessions listed.
    Number(u32),
    /// One live session, and how many datagrams it has numbered.
    Listed { key: Key, number: u32 },
    /// The desk ends.
    Bye,
    /// The line isn't done.
    Refused(Refusal),
}
