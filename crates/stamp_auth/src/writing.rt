//! Writing an authenticated reply (RFC 8762, section 4.3.2).

ghost use Rattle.std.specs.Prelude.{◌≡◌, ◌≤◌, ◌++◌, length, take, drop};
ghost use Rattle.stamp_auth.specs.Reply.{own_fields, copied_fields, auth_fields, auth_reply};

use crate::reading::COVERED;
use hmac_sha256::KeyedHash;
use octet_format::put;
use stamp_packet::ReplyBase;

/// Writes the fields up to the Receive Timestamp.
fn write_own(reply: &ReplyBase, out: &mut [u8])
    requires { 96 ≤ length out.old }
    ensures { out.new ≡ own_fields reply.now ++ drop 40 out.old }
{
    put(out, 0, &reply.sequence.to_be_bytes());
    put(out, 4, &[0; 12]);
    put(out, 16, &reply.timestamp);
    put(out, 24, &reply.error);
    put(out, 26, &reply.ssid.to_be_bytes());
    put(out, 28, &[0; 4]);
    put(out, 32, &reply.received);
}

/// Writes the fields that follow it, up to the HMAC.
fn write_copied(reply: &ReplyBase, out: &mut [u8])
    requires { 96 ≤ length out.old }
    ensures { out.new ≡ take 40 out.old ++ copied_fields reply.now ++ drop 96 out.old }
{
    put(out, 40, &[0; 8]);
    put(out, 48, &reply.sender.sequence.to_be_bytes());
    put(out, 52, &[0; 12]);
    put(out, 64, &reply.sender.timestamp);
    put(out, 72, &reply.sender.error);
    put(out, 74, &[0; 6]);
    put(
        out,
        80,
        &[reply.ttl, 0, 0, 0, 0, 0, 0, 0, 0, 0, 0, 0, 0, 0, 0, 0],
    );
}

/// Writes the fields that the HMAC covers.
fn write_fields(reply: &ReplyBase, out: &mut [u8])
    requires { 96 ≤ length out.old }
    ensures { out.new ≡ auth_fields reply.now ++ drop 96 out.old }
{
    write_own(reply, out);
    write_copied(reply, out);
}

/// Writes a reply into the first 112 octets, its HMAC included, under an HMAC key in its block form. All other octets
/// stay.
pub fn write_auth(block: &[u8; 64], reply: &ReplyBase, out: &mut [u8])
    requires { 112 ≤ length out.old }
    ensures { out.new ≡ auth_reply block.now reply.now ++ drop 112 out.old }
{
    write_auth_keyed(&KeyedHash::of(block), reply, out);
}

/// The same, under a key whose blocks are hashed.
pub fn write_auth_keyed(key: &KeyedHash, reply: &ReplyBase, out: &mut [u8])
    requires { 112 ≤ length out.old }
    ensures { out.new ≡ auth_reply key.now reply.now ++ drop 112 out.old }
{
    write_fields(reply, out);
    let (covered, _) = out.split_at(COVERED);
    let mac = key.mac128(covered, &[]);
    put(out, COVERED, &mac);
}

#[cfg(test)]
mod tests {
    use super::*;
    use hmac_sha256::block_key;
    use stamp_packet::SenderBase;

    #[test]
    fn a_reply_is_written_with_its_hmac(rt: HostRuntime) {
        let sender = SenderBase {
            sequence: 5,
            timestamp: [0x11, 0x22, 0x33, 0x44, 0x55, 0x66, 0x77, 0x88],
            error: [0, 1],
            ssid: 7,
        };
        let reply = ReplyBase {
            sequence: 0,
            timestamp: [0x83, 0xAA, 0x7E, 0x80, 0xFF, 0xFF, 0xFF, 0xFB],
            error: [0, 1],
            ssid: 7,
            received: [0x83, 0xAA, 0x7E, 0x80, 0, 0, 0, 0],
            sender,
            ttl: 255,
        };
        let mut out = [0xEE; 114];
        write_auth(&block_key(b"Jefe"), &reply, &mut out);
        let want: &[u8] =
            b"\x00\x00\x00\x00\x00\x00\x00\x00\x00\x00\x00\x00\x00\x00\x00\x00\x83\xAA\x7E\x80\xFF\xFF\xFF\xFB\x00\x01\x00\x07\x00\x00\x00\x00\x83\xAA\x7E\x80\x00\x00\x00\x00\x00\x00\x00\x00\x00\x00\x00\x00\x00\x00\x00\x05\x00\x00\x00\x00\x00\x00\x00\x00\x00\x00\x00\x00\x11\x22\x33\x44\x55\x66\x77\x88\x00\x01\x00\x00\x00\x00\x00\x00\xFF\x00\x00\x00\x00\x00\x00\x00\x00\x00\x00\x00\x00\x00\x00\x00\x81\x80\xD3\x23\x47\xE2\x67\x2F\xB7\x3C\xCB\xAC\x25\x07\x55\xD7\xEE\xEE";
        assert_eq!(rt; out.as_slice(), want);
    }
}
