//! What the reply to a datagram rests on besides its configuration.

use refl_types::Endpoint;

/// From where and to whom a reply is sent, and which TLVs of the request say so (RFC 9503).
#[derive(Clone, Copy, Debug, PartialEq, Eq)]
pub struct Plan {
    /// The number of the local address that sends it.
    pub from: u16,
    /// Whom it is sent to.
    pub to: Endpoint,
    /// The place in the tail of the first Destination Node Address (type 9), where that type is understood.
    pub nine: Option<usize>,
    /// Its place, where it is acted on and names an address of the reflector's own.
    pub own_at: Option<usize>,
    /// The place of the first Return Path (type 10), where it is followed.
    pub path_at: Option<usize>,
}

/// What is told of a reply besides its configuration.
#[derive(Clone, Copy, Debug)]
pub struct ReplyFacts<'a> {
    /// The number that was drawn, modulo 2^32: how many replies were sent before.
    pub n: u32,
    /// From where and to whom it is sent.
    pub plan: &'a Plan,
}
