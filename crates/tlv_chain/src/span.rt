//! Where a TLV stands (RFC 8972, section 4).

/// Octets of the header of a TLV: flags, type and length.
pub const HEADER_LEN: usize = 4;

/// A whole TLV of a tail, by its place.
#[derive(Clone, Copy, Debug, PartialEq, Eq)]
pub struct Span {
    /// The place of its first octet in the tail.
    pub at: usize,
    /// Its flags.
    pub flags: u8,
    /// Its type.
    pub kind: u8,
    /// How many octets its value has.
    pub len: u16,
}
