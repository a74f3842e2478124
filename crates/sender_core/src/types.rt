//! The plan of a session sender, and what it answers.

/// The most requests of a plan.
pub const COUNT_LIMIT: u32 = 100_000;

/// What a session sender is to do.
#[derive(Clone, Copy, Debug, PartialEq, Eq)]
pub struct SendPlan {
    /// The STAMP Session Identifier.
    pub ssid: u16,
    /// How many requests it sends: 1 to 100,000.
    pub count: u32,
    /// Nanoseconds from the moment of one request to that of the next.
    pub gap: u64,
    /// Nanoseconds that it waits after the last request.
    pub wait: u64,
}

/// Why there is no session sender.
#[derive(Clone, Copy, Debug, PartialEq, Eq)]
pub enum SenderFault {
    /// There was no memory.
    Memory,
    /// The plan has no request, or more than 100,000. The caller is to blame.
    BadPlan,
}

/// What is due at a moment.
#[derive(Clone, Copy, Debug, PartialEq, Eq)]
pub enum Due {
    /// The request of this number.
    Send(u32),
    /// Nothing for now.
    Later,
    /// Nothing any more.
    Finished,
}

/// What octets were taken for.
#[derive(Clone, Copy, Debug, PartialEq, Eq)]
pub enum Taken {
    /// The first reply to a request.
    New,
    /// A further reply to a request.
    Double,
    /// No reply to a request of this sender.
    Stranger,
}

/// The least and the greatest delay, in parts of 2^32 of a second.
#[derive(Clone, Copy, Debug, PartialEq, Eq)]
pub struct Range {
    pub least: i64,
    pub greatest: i64,
}

/// What is counted of a session.
#[derive(Clone, Copy, Debug, PartialEq, Eq)]
pub struct Counts {
    /// Requests.
    pub sent: u32,
    /// Requests that were answered.
    pub received: u32,
    /// Further replies. The count stands still at the last value of 64 bits.
    pub doubles: u64,
    /// What was no reply. The count stands still at the last value of 64 bits.
    pub strangers: u64,
    /// Requests that the reflector didn't number, as far as the numbers of its replies tell.
    pub forward_lost: u32,
    /// Numbers from the least to the greatest of the new replies that no new reply has. A request that was doubled on its way
    /// counts here as well.
    pub backward_lost: u64,
    /// The delays from here to the reflector, of replies with NTP's timestamps.
    pub forward: Option<Range>,
    /// The delays from the reflector to here, of replies with NTP's timestamps.
    pub backward: Option<Range>,
}
