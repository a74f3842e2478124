//! What a session request says, and what is wrong with one (RFC 5357, section 3.5).

use refl_types::Address;

/// The field of a request for which it is refused. The client is to blame.
#[derive(Clone, Copy, Debug, PartialEq, Eq)]
pub enum Field {
    /// The command number isn't that of a session request.
    Command,
    /// The IP version is neither 4 nor 6.
    Ipvn,
    /// The client asks the server to be more than a reflector.
    Conf,
    /// The client asks for a send schedule, which a reflector has none of.
    Slots,
    /// The packets are to be marked, as by a DSCP.
    TypeP,
    /// No packets can come from port 0.
    SenderPort,
}

/// The first field that is refused, and the place of its first octet in the message, counted from 0.
#[derive(Clone, Copy, Debug, PartialEq, Eq)]
pub struct MsgFault {
    pub octet: u16,
    pub field: Field,
}

/// What a client asks for in a Request-TW-Session.
#[derive(Clone, Copy, Debug, PartialEq, Eq)]
pub struct Request {
    /// The address of the session sender. Without one it is the client's.
    pub sender: Option<Address>,
    /// The address of the session reflector. Without one it is the server's.
    pub receiver: Option<Address>,
    /// The test packets go over IPv6, not IPv4.
    pub v6: bool,
    pub sender_port: u16,
    pub receiver_port: u16,
    /// How long packets are reflected after a Stop-Sessions, as a 64-bit NTP timestamp (RFC 5905, section 6).
    pub timeout: [u8; 8],
    /// The octets that the server gives back in its answer (RFC 6038, section 3.2).
    pub octets: [u8; 2],
    /// How many octets of padding the reflector gives back (RFC 6038, section 3.2).
    pub reflect: u16,
}
