//! What came of candidates.

/// What came of the candidates of a run with learned sessions: so many were opened and so many refused by the desk, so many were
/// left in the queue, and so many found it full. Each count stands still at the last value of 64 bits.
#[derive(Clone, Copy, Debug, PartialEq, Eq)]
pub struct Learned {
    pub opened: u64,
    pub refused: u64,
    pub left: u64,
    pub full: u64,
}
