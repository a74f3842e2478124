//! The types of TLVs (RFC 8972, section 4; RFC 9503, sections 3 and 4), and their flags (RFC 8972, section 4).

/// Extra Padding (RFC 8972, section 4.1).
pub const EXTRA_PADDING: u8 = 1;

/// Timestamp Information (RFC 8972, section 4.3).
pub const TIMESTAMP_INFORMATION: u8 = 3;

/// Direct Measurement (RFC 8972, section 4.5).
pub const DIRECT_MEASUREMENT: u8 = 5;

/// HMAC (RFC 8972, section 4.8).
pub const HMAC: u8 = 8;

/// Destination Node Address (RFC 9503, section 3).
pub const DESTINATION_NODE_ADDRESS: u8 = 9;

/// Return Path (RFC 9503, section 4).
pub const RETURN_PATH: u8 = 10;

/// The U flag: the type isn't understood.
pub const UNRECOGNIZED: u8 = 0x80;

/// The M flag: the TLV is malformed.
pub const MALFORMED: u8 = 0x40;

/// The I flag: the integrity check failed.
pub const INTEGRITY_FAILED: u8 = 0x20;
