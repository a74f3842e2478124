//! How far a measurement has come, and when it ends.

ghost use Rattle.std.specs.Prelude.{◌≡◌, ◌≢◌, ◌<◌, ◌≤◌, None, IfSome};
ghost use Rattle.probe_run.specs.Ends.{call_limit};
ghost use Rattle.probe_run.specs.Counters as spec;

/// What a call of `recv` gave.
#[derive(Clone, Copy, Debug, PartialEq, Eq)]
pub enum Came {
    /// Nothing came for now.
    Idle,
    /// Nothing comes any more.
    Over,
    /// The call failed.
    Failed,
    /// A datagram of the peer came.
    Reply,
    /// A datagram of another came.
    Foreign,
}

/// How a measurement ended.
#[derive(Clone, Copy, Debug, PartialEq, Eq)]
pub enum ProbeEnd {
    /// All requests were sent, and the wait after the last was over.
    Finished,
    /// The port said that nothing comes any more.
    End,
    /// The last 64 calls of `recv` failed.
    PortFault,
    /// `recv` was called 10,000,000 times.
    Budget,
}

/// Failures in a row that end a measurement.
const FAULT_LIMIT: u32 = 64;

/// The most calls of `recv`.
const CALL_LIMIT: u32 = 10_000_000;

/// How often `recv` was called, how many of the last calls failed in a row, and how many datagrams of others came.
#[derive(Clone, Copy, Debug, PartialEq, Eq)]
pub struct Progress {
    pub calls: u32,
    pub failed: u32,
    pub foreign: u32,
}

impl Progress {
    /// That of a measurement that hasn't begun.
    pub(crate) fn new() -> Progress
        ensures { result ≡ spec.at_first }
    {
        Progress {
            calls: 0,
            failed: 0,
            foreign: 0,
        }
    }

    /// Counts a call of `recv`.
    pub(crate) fn add(&mut self, came: Came)
        requires calls { self.old.calls < call_limit }
        requires failed { self.old.failed ≤ self.old.calls }
        requires foreign { self.old.foreign ≤ self.old.calls }
        ensures { self.new ≡ spec.with_call self.old came }
    {
        self.calls += 1;
        match came {
            Came::Failed => self.failed += 1,
            Came::Idle | Came::Over | Came::Reply => self.failed = 0,
            Came::Foreign => {
                self.failed = 0;
                self.foreign += 1;
            }
        }
    }

    /// The end that is due after the last call of `recv`, which gave this.
    pub(crate) fn end(&self, came: Came) -> Option<ProbeEnd>
        ensures going { result ≡ None → self.now.calls ≢ call_limit }
        ensures unfinished { IfSome result (λ e. e ≢ ProbeEnd.Finished) }
        ensures value { result ≡ spec.end_at self.now came }
    {
        if came == Came::Over {
            return Some(ProbeEnd::End);
        }
        if self.failed == FAULT_LIMIT {
            return Some(ProbeEnd::PortFault);
        }
        if self.calls == CALL_LIMIT {
            return Some(ProbeEnd::Budget);
        }
        None
    }
}
