//! Causes for which nothing is done.

/// There was no memory.
#[derive(Clone, Copy, Debug, PartialEq, Eq)]
pub struct Memory;

/// The place of a session in the table: its slot, and which use of the slot it is.
#[derive(Clone, Copy, Debug, PartialEq, Eq)]
pub struct Place {
    pub slot: u32,
    pub generation: u32,
}

/// Why a datagram of a session is not reflected.
#[derive(Clone, Copy, Debug, PartialEq, Eq)]
pub enum Silent {
    /// It is shorter than the base packet of its mode. The sender is to blame.
    Short,
    /// The HMAC of its base packet is another. The sender or the network is to blame.
    BadHmac,
    /// Its sender asked for no reply, by the Control Code of a Return Path (RFC 9503, section 4.1.1).
    NoReply,
}

/// Why a datagram was not answered.
#[derive(Clone, Copy, Debug, PartialEq, Eq)]
pub enum Unanswered {
    /// No session matched it.
    NoSession,
    /// It was shorter than the base packet of its session's mode.
    Short,
    /// The HMAC of its base packet was another.
    BadHmac,
    /// Its sender asked for no reply.
    NoReply,
    /// The configuration changed while it was answered: it would have been reflected under the one that was seen, and
    /// not under the one that was in force at its draw. The two are told by their rows.
    Changed { seen: u32, drawn: u32 },
    /// The reply could not be sent.
    SendFault,
}
