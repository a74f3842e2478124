//! The packet of a session reflector (RFC 5357, section 4.2.1; RFC 6038, sections 4 and 5).

ghost use Rattle.std.specs.Prelude.{◌≡◌, ◌≤◌, ◌-◌, ◌++◌, length, take, drop, replicate};
ghost use Rattle.std.specs.Int.{w32, to_be_bytes};
ghost use Rattle.refl_types.specs.Limits.{datagram_limit};
ghost use Rattle.twamp_test.specs.Request.{test_sender_of};
ghost use Rattle.twamp_test.specs.Reply.{padding_at, reflected_len, reply_len, reply_padding, test_fields, test_reply};

use crate::reading::TEST_LEN;
use octet_format::{field2, field4, field8, put, put_array};
use refl_types::Extra;
use stamp_packet::ReplyBase;

/// Octets before the padding of a reply.
const FIELDS_LEN: usize = 41;

/// The greatest number of octets that are reflected: a reply has at most 65,507.
const MAX_REFLECTED: usize = 65_466;

/// Writes the fields before the padding. The sender's number, timestamp and error estimate are given as octets.
#[inline(always)]
fn write_fields(
    reply: &ReplyBase,
    sequence: [u8; 4],
    timestamp: [u8; 8],
    error: [u8; 2],
    out: &mut [u8],
)
    requires sequence { sequence ≡ to_be_bytes w32 reply.now.sender.sequence }
    requires timestamp { timestamp ≡ reply.now.sender.timestamp }
    requires error { error ≡ reply.now.sender.error }
    requires room { 41 ≤ length out.old }
    ensures { out.new ≡ test_fields reply.now ++ drop 41 out.old }
{
    put_array(out, 0, reply.sequence.to_be_bytes());
    put_array(out, 4, reply.timestamp);
    put_array(out, 12, reply.error);
    put_array(out, 14, [0, 0]);
    put_array(out, 16, reply.received);
    put_array(out, 24, sequence);
    put_array(out, 28, timestamp);
    put_array(out, 36, error);
    put_array(out, 38, [0, 0, reply.ttl]);
}

/// Where the padding of a request begins.
fn padding_at(extra: &Extra) -> usize
    ensures { result ≡ padding_at extra.now }
{
    if extra.symmetrical {
        FIELDS_LEN
    } else {
        TEST_LEN
    }
}

/// How many octets of a request's padding are reflected.
fn reflected_len(extra: &Extra, len: usize) -> usize
    ensures { result ≡ reflected_len extra.now len }
{
    let padding = len.saturating_sub(padding_at(extra));
    usize::from(extra.reflect).min(padding).min(MAX_REFLECTED)
}

/// The octets of a request's padding that are reflected.
fn reflected<'a>(extra: &Extra, input: &'a [u8]) -> &'a [u8]
    ensures { result.now ≡ take (reflected_len extra.now (length input.now)) (drop (padding_at extra.now) input.now) }
{
    let from = padding_at(extra);
    if input.len() < from {
        return &[];
    }
    let (_, padding) = input.split_at(from);
    let (front, _) = padding.split_at(reflected_len(extra, input.len()));
    front
}

/// Writes zeros from one place up to another.
fn clear(out: &mut [u8], from: usize, to: usize)
    requires order { from ≤ to }
    requires room { to ≤ length out.old }
    ensures { out.new ≡ take from out.old ++ replicate (to - from) 0 ++ drop to out.old }
{
    out[from..to].fill(0);
}

/// Writes the padding of the reply to a request behind its fields, and answers the reply's length. Later octets stay.
#[inline(always)]
fn write_padding(extra: &Extra, input: &[u8], out: &mut [u8]) -> usize
    requires limit { length input.now ≤ datagram_limit }
    requires room { 65536 ≤ length out.old }
    ensures len { result ≡ reply_len extra.now (length input.now) }
    ensures octets { out.new ≡ take 41 out.old ++ reply_padding extra.now input.now ++ drop result out.old }
    ensures limit { result ≤ datagram_limit }
{
    let padding = reflected(extra, input);
    put(out, FIELDS_LEN, padding);
    let end = FIELDS_LEN + padding.len();
    let len = end.max(input.len());
    clear(out, end, len);
    len
}

/// Writes the reply to a request and answers its length, which is at least the request's. Later octets stay.
pub fn write_test(extra: &Extra, reply: &ReplyBase, input: &[u8], out: &mut [u8]) -> usize
    requires read { 14 ≤ length input.now }
    requires limit { length input.now ≤ datagram_limit }
    requires room { 65536 ≤ length out.old }
    ensures len { result ≡ reply_len extra.now (length input.now) }
    ensures octets { out.new ≡ test_reply extra.now reply.now input.now ++ drop result out.old }
    ensures limit { result ≤ datagram_limit }
{
    let sender = &reply.sender;
    let sequence = sender.sequence.to_be_bytes();
    write_fields(reply, sequence, sender.timestamp, sender.error, out);
    write_padding(extra, input, out)
}

/// Writes the reply to a request as `write_test` does. The sender's fields are copied from the octets in which they stand.
#[inline(always)]
pub fn write_test_to(extra: &Extra, reply: &ReplyBase, input: &[u8], out: &mut [u8]) -> usize
    requires read { 14 ≤ length input.now }
    requires sender { reply.now.sender ≡ test_sender_of input.now }
    requires limit { length input.now ≤ datagram_limit }
    requires room { 65536 ≤ length out.old }
    ensures len { result ≡ reply_len extra.now (length input.now) }
    ensures octets { out.new ≡ test_reply extra.now reply.now input.now ++ drop result out.old }
    ensures limit { result ≤ datagram_limit }
{
    let sequence = field4(input, 0);
    write_fields(reply, sequence, field8(input, 4), field2(input, 12), out);
    write_padding(extra, input, out)
}

#[cfg(test)]
mod tests {
    use super::*;
    use stamp_packet::SenderBase;
    use std::test::Fail;

    const REPLY: ReplyBase = ReplyBase {
        sequence: 0,
        timestamp: [0; 8],
        error: [0, 1],
        ssid: 7,
        received: [0; 8],
        sender: SenderBase {
            sequence: 5,
            timestamp: [0; 8],
            error: [0, 1],
            ssid: 0,
        },
        ttl: 255,
    };

    /// Octets of a reply, of a request's padding in it, and left as they were behind it.
    fn lengths(rt: HostRuntime, extra: &Extra, len: usize) -> Result<(usize, usize, usize), Fail> {
        let input = vec![in rt.alloc(); 0x11; len]?;
        let mut out = vec![in rt.alloc(); 0xEE; 65_536]?;
        if input.len() < 14 || input.len() > 65_507 || out.len() < 65_536 {
            return Err("a length".into());
        }
        let written = write_test(extra, &REPLY, &input, &mut out);
        let reflected = out.iter().filter(|octet| **octet == 0x11).count();
        let untouched = out.iter().filter(|octet| **octet == 0xEE).count();
        Ok((written, reflected, untouched))
    }

    #[test]
    fn padding_is_zeros(rt: HostRuntime) -> Result<(), Fail> {
        let extra = Extra {
            symmetrical: false,
            reflect: 0,
        };
        for (len, want, reflected) in [
            (14, 41, 0),
            (40, 41, 0),
            (41, 41, 0),
            (45, 45, 0),
            (100, 100, 0),
            (65507, 65507, 0),
        ] {
            assert_eq!(rt; lengths(rt, &extra, len)?, (want, reflected, 65_536 - want));
        }
        Ok(())
    }

    #[test]
    fn a_front_of_the_padding_is_reflected(rt: HostRuntime) -> Result<(), Fail> {
        let extra = Extra {
            symmetrical: false,
            reflect: 4,
        };
        for (len, want, reflected) in [
            (14, 41, 0),
            (40, 45, 4),
            (41, 45, 4),
            (45, 45, 4),
            (100, 100, 4),
            (65507, 65507, 4),
        ] {
            assert_eq!(rt; lengths(rt, &extra, len)?, (want, reflected, 65_536 - want));
        }
        Ok(())
    }

    #[test]
    fn all_padding_is_reflected(rt: HostRuntime) -> Result<(), Fail> {
        let extra = Extra {
            symmetrical: false,
            reflect: 65466,
        };
        for (len, want, reflected) in [
            (14, 41, 0),
            (40, 67, 26),
            (41, 68, 27),
            (45, 72, 31),
            (100, 127, 86),
            (65507, 65507, 65466),
        ] {
            assert_eq!(rt; lengths(rt, &extra, len)?, (want, reflected, 65_536 - want));
        }
        Ok(())
    }

    #[test]
    fn what_a_reply_has_no_room_for_is_not_reflected(rt: HostRuntime) -> Result<(), Fail> {
        let extra = Extra {
            symmetrical: false,
            reflect: 65535,
        };
        for (len, want, reflected) in [
            (14, 41, 0),
            (40, 67, 26),
            (41, 68, 27),
            (45, 72, 31),
            (100, 127, 86),
            (65507, 65507, 65466),
        ] {
            assert_eq!(rt; lengths(rt, &extra, len)?, (want, reflected, 65_536 - want));
        }
        Ok(())
    }

    #[test]
    fn symmetrical_padding_is_zeros(rt: HostRuntime) -> Result<(), Fail> {
        let extra = Extra {
            symmetrical: true,
            reflect: 0,
        };
        for (len, want, reflected) in [
            (14, 41, 0),
            (40, 41, 0),
            (41, 41, 0),
            (45, 45, 0),
            (100, 100, 0),
            (65507, 65507, 0),
        ] {
            assert_eq!(rt; lengths(rt, &extra, len)?, (want, reflected, 65_536 - want));
        }
        Ok(())
    }

    #[test]
    fn a_front_of_symmetrical_padding_is_reflected(rt: HostRuntime) -> Result<(), Fail> {
        let extra = Extra {
            symmetrical: true,
            reflect: 4,
        };
        for (len, want, reflected) in [
            (14, 41, 0),
            (40, 41, 0),
            (41, 41, 0),
            (45, 45, 4),
            (100, 100, 4),
            (65507, 65507, 4),
        ] {
            assert_eq!(rt; lengths(rt, &extra, len)?, (want, reflected, 65_536 - want));
        }
        Ok(())
    }

    #[test]
    fn all_symmetrical_padding_is_reflected(rt: HostRuntime) -> Result<(), Fail> {
        let extra = Extra {
            symmetrical: true,
            reflect: 65466,
        };
        for (len, want, reflected) in [
            (14, 41, 0),
            (40, 41, 0),
            (41, 41, 0),
            (45, 45, 4),
            (100, 100, 59),
            (65507, 65507, 65466),
        ] {
            assert_eq!(rt; lengths(rt, &extra, len)?, (want, reflected, 65_536 - want));
        }
        Ok(())
    }

    #[test]
    fn what_a_reply_has_no_room_for_is_not_reflected_of_symmetrical_padding(
        rt: HostRuntime,
    ) -> Result<(), Fail> {
        let extra = Extra {
            symmetrical: true,
            reflect: 65535,
        };
        for (len, want, reflected) in [
            (14, 41, 0),
            (40, 41, 0),
            (41, 41, 0),
            (45, 45, 4),
            (100, 100, 59),
            (65507, 65507, 65466),
        ] {
            assert_eq!(rt; lengths(rt, &extra, len)?, (want, reflected, 65_536 - want));
        }
        Ok(())
    }
}
