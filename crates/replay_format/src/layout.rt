//! The tags of records and of answers, and the lengths of their bodies.

/// The tag of a record that opens a session.
pub const OPEN_TAG: u8 = 1;

/// The tag of a record that gives a session another configuration.
pub const SET_TAG: u8 = 2;

/// The tag of a record that closes a session.
pub const CLOSE_TAG: u8 = 3;

/// The tag of a record of a datagram.
pub const DATAGRAM_TAG: u8 = 4;

/// The tag of a record that lists the reflector's own addresses.
pub const LOCALS_TAG: u8 = 5;

/// The tag of the answer to an Open.
pub const OPENED_TAG: u8 = 129;

/// The tag of the answer to a Set.
pub const SET_ANSWER_TAG: u8 = 130;

/// The tag of the answer to a Close.
pub const CLOSED_TAG: u8 = 131;

/// The tag of the answer to a datagram.
pub const DATAGRAM_ANSWER_TAG: u8 = 132;

/// The tag of the answer to a list of addresses.
pub const LISTED_TAG: u8 = 133;

/// The tag of what is told where a stream leaves its grammar.
pub const LEFT_TAG: u8 = 255;

/// Octets of the body of an Open.
pub const OPEN_LEN: u8 = 103;

/// Octets of the body of a Set.
pub const SET_LEN: u8 = 100;

/// Octets of the body of a Close.
pub const CLOSE_LEN: u8 = 24;

/// Octets of an endpoint.
pub const ENDPOINT_LEN: usize = 19;

/// Octets of a datagram's record before the datagram's own.
pub const DATAGRAM_HEAD: usize = 44;

/// Octets of the body of a datagram's record before the datagram's own.
pub const DATAGRAM_FIELDS: usize = 39;

/// Octets of the longest body of a datagram's record.
pub const DATAGRAM_BODY_LIMIT: usize = 65_546;

/// Octets of the body of an answer before the reply.
pub const REPLY_FIELDS: u32 = 26;
