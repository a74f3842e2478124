//! The datagram of a session sender, with padding (RFC 8972, sections 3 and 4.1).

ghost use Rattle.std.specs.Prelude.{◌≡◌, ◌+◌, ◌<◌, ◌≤◌, ◌++◌, take};
ghost use Rattle.load_gen.specs.Generator.{base_packet, padding};

use octet_format::put;

/// Octets of a base packet and of the head of a TLV.
pub(crate) const HEAD: usize = 48;

/// Octets of the longest datagram.
pub(crate) const ROOM: usize = 111;

/// The flags and the type of an Extra Padding TLV.
const EXTRA_PADDING: [u8; 2] = [0x80, 1];

/// Such a datagram with an Error Estimate of 1 and no Timestamp: its octets stand at the front, and zeros behind them.
pub(crate) fn padded_request(sequence: u32, ssid: u16, len: u16) -> [u8; ROOM]
    requires { len < 64 }
    ensures { take (48 + len) result ≡ base_packet sequence ssid ++ padding len }
{
    let mut out = [0; ROOM];
    put(&mut out, 0, &sequence.to_be_bytes());
    put(&mut out, 12, &1u16.to_be_bytes());
    put(&mut out, 14, &ssid.to_be_bytes());
    put(&mut out, 44, &EXTRA_PADDING);
    put(&mut out, 46, &len.to_be_bytes());
    out
}
