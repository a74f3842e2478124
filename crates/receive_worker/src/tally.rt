//! What a worker counts, and how it ends.

ghost use Rattle.std.specs.Prelude.{◌≡◌, ◌≢◌, ◌≤◌, ◌<◌, ◌^◌, ◌+◌, ◌-◌, None};
ghost use Rattle.receive_worker.specs.Tally.{AddsUp, with_begun};
ghost use Rattle.receive_worker.specs.Work.{Progress, due_by, progress_by};

use refl_types::Unanswered;

/// What a call of `recv` began.
#[derive(Clone, Copy, Debug, PartialEq, Eq)]
pub enum Begun {
    /// Nothing came for now.
    Idle,
    /// Nothing comes any more.
    Over,
    /// The call failed.
    Failed,
    /// A datagram came, and this became of it.
    Turned(Result<(), Unanswered>),
}

/// How a worker ended.
#[derive(Clone, Copy, Debug, PartialEq, Eq)]
pub enum WorkEnd {
    /// Its port said that nothing comes any more.
    End,
    /// As many datagrams were taken as it was to take.
    Limit,
    /// It called `recv` as often as it was to.
    Budget,
    /// The last 64 calls of `recv` failed.
    PortFault,
}

/// What a worker counts: the datagrams that it took, what became of each, and the calls of `recv` that failed.
#[derive(Clone, Copy, Debug, PartialEq, Eq)]
pub struct Tally {
    pub taken: u64,
    /// Those whose reply was sent.
    pub sent: u64,
    /// Those of no session.
    pub no_session: u64,
    /// Those shorter than the base packet of their session's mode.
    pub short: u64,
    /// Those whose base packet had another HMAC.
    pub bad_hmac: u64,
    /// Those whose session's configuration changed meanwhile to one that doesn't reflect them.
    pub changed: u64,
    /// Those whose sender asked for no reply.
    pub no_reply: u64,
    /// Those whose reply could not be sent.
    pub send_fault: u64,
    /// Calls of `recv` that failed.
    pub recv_fault: u64,
    pub end: WorkEnd,
}

/// Failures in a row that end a worker.
const FAULT_LIMIT: u64 = 64;

impl Tally {
    ghost use Rattle.receive_worker.specs.declared.tally.WorkEnd.TheVariants.{Budget};
    ghost use Rattle.receive_worker.specs.Tally.{no_tally};

    /// That of a worker that hasn't begun.
    pub(crate) fn new() -> Tally
        ensures { result ≡ no_tally Budget }
    {
        Tally {
            taken: 0,
            sent: 0,
            no_session: 0,
            short: 0,
            bad_hmac: 0,
            changed: 0,
            no_reply: 0,
            send_fault: 0,
            recv_fault: 0,
            end: WorkEnd::Budget,
        }
    }

    /// Counts what a call of `recv` began, where at most `calls` calls were made before.
    pub(crate) fn add(&mut self, begun: &Begun, calls: u64)
        requires room { AddsUp calls self.old }
        requires limit { calls < 2 ^ 64 - 1 }
        ensures { self.new ≡ with_begun self.old begun.now }
    {
        match *begun {
            Begun::Idle | Begun::Over => {}
            Begun::Failed => self.recv_fault += 1,
            Begun::Turned(outcome) => {
                self.taken += 1;
                match outcome {
                    Ok(()) => self.sent += 1,
                    Err(Unanswered::NoSession) => self.no_session += 1,
                    Err(Unanswered::Short) => self.short += 1,
                    Err(Unanswered::BadHmac) => self.bad_hmac += 1,
                    Err(Unanswered::NoReply) => self.no_reply += 1,
                    Err(Unanswered::Changed { .. }) => self.changed += 1,
                    Err(Unanswered::SendFault) => self.send_fault += 1,
                }
            }
        }
    }
}

/// The end that is due after a round, in which so many calls of `recv` were made, datagrams taken and calls failed in a row.
pub(crate) fn due(
    limit: u64,
    turns: u64,
    calls: u64,
    taken: u64,
    failed: u64,
    begun: &Begun,
) -> Option<WorkEnd>
    ensures going { result ≡ None → calls ≢ turns }
    ensures value { result ≡ due_by limit turns (record { calls = calls; taken = taken; failed = failed }) begun.now }
{
    if matches!(begun, Begun::Over) {
        return Some(WorkEnd::End);
    }
    if limit != 0 && taken == limit {
        return Some(WorkEnd::Limit);
    }
    if calls == turns {
        return Some(WorkEnd::Budget);
    }
    if failed == FAULT_LIMIT {
        return Some(WorkEnd::PortFault);
    }
    None
}

/// How many calls of `recv` failed in a row, where so many did before the last.
pub(crate) fn failed_in_a_row(failed: u64, begun: &Begun) -> u64
    requires { failed < 2 ^ 64 - 1 }
    ensures row { (p : Progress) → p.failed ≡ failed → result ≡ (progress_by p begun.now).failed }
    ensures more { result ≤ failed + 1 }
{
    match begun {
        Begun::Failed => failed + 1,
        Begun::Idle | Begun::Over | Begun::Turned(_) => 0,
    }
}
