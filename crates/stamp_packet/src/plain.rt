//! The unauthenticated base packets, 44 octets (RFC 8762, sections 4.2.1 and 4.3.1; RFC 8972, section 3).

ghost use Rattle.std.specs.Prelude.{◌≡◌, ◌≤◌, ◌++◌, length, drop, IfOk};
ghost use Rattle.std.specs.Int.{w32, to_be_bytes};
ghost use Rattle.stamp_packet.specs.Plain.{read_of, sender_of, IsRequest, plain_reply};

use crate::fields::{ReplyBase, SenderBase, Short};
use octet_format::{field2, field4, field8, put_array};

/// Octets of an unauthenticated base packet.
pub const PLAIN_LEN: usize = 44;

/// Reads a request. The octets that must be zero are ignored.
#[inline(always)]
#[tactic(auto, unfolding(crate::specs::Plain::sender_of))]
pub fn read_plain(octets: &[u8]) -> Result<SenderBase, Short>
    ensures value { result ≡ read_of octets.now }
    ensures table { IfOk result (IsRequest octets.now) }
{
    if octets.len() < PLAIN_LEN {
        return Err(Short);
    }
    Ok(SenderBase {
        sequence: u32::from_be_bytes(field4(octets, 0)),
        timestamp: field8(octets, 4),
        error: field2(octets, 12),
        ssid: u16::from_be_bytes(field2(octets, 14)),
    })
}

/// Writes a reply whose sender's number, timestamp and error estimate are given as octets.
#[inline(always)]
fn write_fields(
    reply: &ReplyBase,
    sequence: [u8; 4],
    timestamp: [u8; 8],
    error: [u8; 2],
    out: &mut [u8],
)
    requires sequence { sequence ≡ to_be_bytes w32 reply.now.sender.sequence }
    requires timestamp { timestamp ≡ reply.now.sender.timestamp }
    requires error { error ≡ reply.now.sender.error }
    requires room { 44 ≤ length out.old }
    ensures { out.new ≡ plain_reply reply.now ++ drop 44 out.old }
{
    put_array(out, 0, reply.sequence.to_be_bytes());
    put_array(out, 4, reply.timestamp);
    put_array(out, 12, reply.error);
    put_array(out, 14, reply.ssid.to_be_bytes());
    put_array(out, 16, reply.received);
    put_array(out, 24, sequence);
    put_array(out, 28, timestamp);
    put_array(out, 36, error);
    put_array(out, 38, [0, 0, reply.ttl, 0, 0, 0]);
}

/// Writes a reply into the first 44 octets. All other octets stay.
pub fn write_plain(reply: &ReplyBase, out: &mut [u8])
    requires { 44 ≤ length out.old }
    ensures { out.new ≡ plain_reply reply.now ++ drop 44 out.old }
{
    let sender = &reply.sender;
    let sequence = sender.sequence.to_be_bytes();
    write_fields(reply, sequence, sender.timestamp, sender.error, out);
}

/// Writes the reply to a request as `write_plain` does. The sender's fields are copied from the octets in which they stand.
#[inline(always)]
pub fn write_plain_to(reply: &ReplyBase, request: &[u8], out: &mut [u8])
    requires long { 44 ≤ length request.now }
    requires sender { reply.now.sender ≡ sender_of request.now }
    requires room { 44 ≤ length out.old }
    ensures { out.new ≡ plain_reply reply.now ++ drop 44 out.old }
{
    let sequence = field4(request, 0);
    write_fields(
        reply,
        sequence,
        field8(request, 4),
        field2(request, 12),
        out,
    );
}

#[cfg(test)]
mod tests {
    use super::*;

    /// A request with sequence number 5 and SSID 7.
    const REQUEST: [u8; 44] = [
        0, 0, 0, 5, 0x11, 0x22, 0x33, 0x44, 0x55, 0x66, 0x77, 0x88, 0, 1, 0, 7, 0, 0, 0, 0, 0, 0,
        0, 0, 0, 0, 0, 0, 0, 0, 0, 0, 0, 0, 0, 0, 0, 0, 0, 0, 0, 0, 0, 0,
    ];

    const SENDER: SenderBase = SenderBase {
        sequence: 5,
        timestamp: [0x11, 0x22, 0x33, 0x44, 0x55, 0x66, 0x77, 0x88],
        error: [0, 1],
        ssid: 7,
    };

    #[test]
    fn a_request_is_read_from_44_octets_on(rt: HostRuntime) {
        assert_eq!(rt; read_plain(&REQUEST), Ok(SENDER));
        assert_eq!(rt; read_plain(&[0; 43]), Err(Short));
    }

    #[test]
    fn a_reply_is_written_and_what_follows_it_stays(rt: HostRuntime) {
        let reply = ReplyBase {
            sequence: 0,
            timestamp: [0x83, 0xAA, 0x7E, 0x80, 0xFF, 0xFF, 0xFF, 0xFB],
            error: [0, 1],
            ssid: 7,
            received: [0x83, 0xAA, 0x7E, 0x80, 0, 0, 0, 0],
            sender: SENDER,
            ttl: 255,
        };
        let mut out = [0xEE; 46];
        write_plain(&reply, &mut out);
        let want = [
            0, 0, 0, 0, 0x83, 0xAA, 0x7E, 0x80, 0xFF, 0xFF, 0xFF, 0xFB, 0, 1, 0, 7, 0x83, 0xAA,
            0x7E, 0x80, 0, 0, 0, 0, 0, 0, 0, 5, 0x11, 0x22, 0x33, 0x44, 0x55, 0x66, 0x77, 0x88, 0,
            1, 0, 0, 0xFF, 0, 0, 0, 0xEE, 0xEE,
        ];
        assert_eq!(rt; out, want);
    }
}
