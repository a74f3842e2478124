//! What is told of a run, or why there was none.

use control_desk::DeskTally;
use receive_worker::Tally;

/// What all workers and the desk did, and how many sessions were live at the end.
#[derive(Drop)]
pub struct Report {
    /// The worker of the first port comes first.
    pub workers: Vec<Tally>,
    pub desk: DeskTally,
    pub live: u32,
}

/// Why nothing was served.
#[derive(Clone, Copy, Debug, PartialEq, Eq)]
pub enum ServeFault {
    /// There was no memory.
    Memory,
    /// A port failed to open.
    PortOpen,
    /// The desk failed to open.
    DeskOpen,
}
