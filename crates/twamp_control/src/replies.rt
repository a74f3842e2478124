//! Replies at the front of a buffer, and their parts.

ghost use Rattle.std.specs.Prelude.{◌≡◌, ◌≤◌, length, replicate};
ghost use Rattle.control_msgs.specs.Layout.{accept_session, server_start, start_ack};
ghost use Rattle.twamp_control.specs.Table.{reflected, session_id, written_over};

use control_msgs::{
    Accept, COMMAND_LEN, REQUEST_LEN, octets_to_reflect, reflects_octets, write_accept,
    write_server_start, write_start_ack,
};
use octet_format::put;
use refl_types::Place;

/// Writes a Server-Start, and says how long it is.
pub(crate) fn put_server_start(accept: u8, start: u64, out: &mut [u8; 64]) -> usize
    ensures reply { out.new ≡ written_over out.old (server_start accept start) }
    ensures len { result ≡ length (server_start accept start) }
    ensures short { result ≤ 48 }
{
    let mut reply = [0; 48];
    write_server_start(accept, start, &mut reply);
    put(out, 0, &reply);
    reply.len()
}

/// Writes an Accept-Session, and says how long it is.
fn put_session(
    accept: u8,
    port: u16,
    sid: &[u8; 16],
    reflected: &[u8; 2],
    out: &mut [u8; 64],
) -> usize
    ensures reply { out.new ≡ written_over out.old (accept_session accept port sid.now reflected.now) }
    ensures len { result ≡ length (accept_session accept port sid.now reflected.now) }
    ensures short { result ≤ 48 }
{
    let mut reply = [0; 48];
    write_accept(accept, port, sid, reflected, &mut reply);
    put(out, 0, &reply);
    reply.len()
}

/// Writes the Accept-Session of a reserved session, and says how long it is.
pub(crate) fn put_accept(
    port: u16,
    sid: &[u8; 16],
    reflected: &[u8; 2],
    out: &mut [u8; 64],
) -> usize
    ensures reply { out.new ≡ written_over out.old (accept_session 0 port sid.now reflected.now) }
    ensures len { result ≡ length (accept_session 0 port sid.now reflected.now) }
    ensures short { result ≤ 48 }
{
    put_session(Accept::Accepted.code(), port, sid, reflected, out)
}

/// Writes the Accept-Session of a refusal, and says how long it is.
pub(crate) fn put_refusal(accept: u8, reflected: &[u8; 2], out: &mut [u8; 64]) -> usize
    ensures reply { out.new ≡ written_over out.old (accept_session accept 0 (replicate 16 0) reflected.now) }
    ensures len { result ≡ length (accept_session accept 0 (replicate 16 0) reflected.now) }
    ensures short { result ≤ 48 }
{
    put_session(accept, 0, &[0; 16], reflected, out)
}

/// Writes a Start-Ack, and says how long it is.
pub(crate) fn put_start_ack(accept: u8, out: &mut [u8; 64]) -> usize
    ensures reply { out.new ≡ written_over out.old (start_ack accept) }
    ensures len { result ≡ length (start_ack accept) }
    ensures short { result ≤ 48 }
{
    let mut reply = [0; COMMAND_LEN];
    write_start_ack(accept, &mut reply);
    put(out, 0, &reply);
    reply.len()
}

/// The octets of a request that are given back in its Accept-Session (RFC 6038, section 3.3).
pub(crate) fn reflected(mode: u32, octets: &[u8; REQUEST_LEN]) -> [u8; 2]
    ensures { result ≡ reflected mode octets.now }
{
    if reflects_octets(mode) {
        octets_to_reflect(octets)
    } else {
        [0; 2]
    }
}

/// The SID of a session: its place, and the moment at which it was reserved.
pub(crate) fn session_id(place: &Place, now: u64) -> [u8; 16]
    ensures { result ≡ session_id place.now now }
{
    let mut sid = [0; 16];
    put(&mut sid, 0, &place.slot.to_be_bytes());
    put(&mut sid, 4, &place.generation.to_be_bytes());
    put(&mut sid, 8, &now.to_be_bytes());
    sid
}
