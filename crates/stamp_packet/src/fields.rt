//! The fields of base packets (RFC 8762, section 4; RFC 8972, section 3).

/// What a session sender writes into a base packet.
#[derive(Clone, Copy, Debug, PartialEq, Eq)]
pub struct SenderBase {
    /// The Sequence Number.
    pub sequence: u32,
    /// The Timestamp, in the sender's format.
    pub timestamp: [u8; 8],
    /// The Error Estimate.
    pub error: [u8; 2],
    /// The STAMP Session Identifier.
    pub ssid: u16,
}

/// What the reflector writes into a base packet.
#[derive(Clone, Copy, Debug, PartialEq, Eq)]
pub struct ReplyBase {
    /// The Sequence Number.
    pub sequence: u32,
    /// The Timestamp of sending.
    pub timestamp: [u8; 8],
    /// The reflector's Error Estimate.
    pub error: [u8; 2],
    /// The STAMP Session Identifier.
    pub ssid: u16,
    /// The Receive Timestamp.
    pub received: [u8; 8],
    /// The fields of the request, which are copied.
    pub sender: SenderBase,
    /// The TTL or Hop Limit of the request.
    pub ttl: u8,
}

/// There are fewer octets than the base packet has. The sender is to blame.
#[derive(Clone, Copy, Debug, PartialEq, Eq)]
pub struct Short;
