//! What is counted at the desk.

ghost use Rattle.std.specs.Prelude.{◌≡◌};
ghost use Rattle.control_desk.specs.State.{is_over, is_quits};

/// How the desk ended.
#[derive(Clone, Copy, Debug, PartialEq, Eq)]
pub enum DeskEnd {
    /// The desk said that nothing happens any more.
    End,
    /// An operator sent the line `quit`.
    Quit,
    /// The next event was asked for as often as it may be.
    Budget,
    /// The desk failed 64 times in a row.
    Fault,
}

/// What the desk did. A count stands still at the last value of 64 bits.
#[derive(Clone, Copy, Debug, PartialEq, Eq)]
pub struct DeskTally {
    /// The events that were taken.
    pub events: u64,
    /// The calls of the desk that failed: for the next event, and to send.
    pub faults: u64,
    /// The sessions that were closed: by a line, with their connection, and at their closing moment.
    pub closed: u64,
    /// The sessions that idled away.
    pub expired: u64,
    pub end: DeskEnd,
}

/// The counts of a tally so far.
#[derive(Clone, Copy, Debug, PartialEq, Eq)]
pub struct Counts {
    pub events: u64,
    pub faults: u64,
    pub closed: u64,
    pub expired: u64,
}

/// How the desk goes on behind what a connection said.
#[derive(Clone, Copy, Debug, PartialEq, Eq)]
pub enum Verdict {
    /// More of the piece is read.
    GoesOn,
    /// The connection was hung up, and no more of the piece is read.
    Over,
    /// The desk ends.
    Quits,
}

impl Verdict {
    pub fn is_over(self) -> bool
        ensures { result ≡ is_over self }
    {
        matches!(self, Verdict::Over)
    }

    pub fn is_quits(self) -> bool
        ensures { result ≡ is_quits self }
    {
        matches!(self, Verdict::Quits)
    }
}
