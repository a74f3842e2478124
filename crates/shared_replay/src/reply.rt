//! The answer to a datagram that is reflected.

ghost use Rattle.std.specs.Prelude.{◌≡◌, ◌≤◌, ℕ, ◌+◌, ◌++◌, List, take, drop, length};
ghost use Rattle.reflect_core.specs.Ends.{ends_told};
ghost use Rattle.replay_format.specs.Answers.{sent_octets};
ghost use Rattle.refl_types.specs.Limits.{datagram_limit};
ghost use Rattle.reflect_core.specs.Judgement.{judgement};
ghost use Rattle.reflect_core.specs.declared.judging.Judged.TheVariants.{Reflect};
ghost use Rattle.replay_format.specs.Records.{datagram_of};
ghost use Rattle.shared_replay.specs.Turn.{IsSent};

use crate::sessions::ANSWER_ROOM;
use refl_types::{LocalAddr, Meta};
use reflect_core::{Datagram, Draw, Ends, Reply, Session};
use replay_format::{REPLY_AT, frame_reply};

/// Frames a reply as `frame_reply` does. It stands out of line, since most replies go back the way that their datagrams came.
#[cold]
#[inline(never)]
fn frame_elsewhere(ends: Ends, number: u32, len: usize, out: &mut [u8])
    requires room { 31 + len ≤ length out.old }
    requires len { len ≤ datagram_limit }
    ensures octets { out.new ≡ sent_octets (record { from = ends.from; to = ends.to; number = number; octets = take len (drop 31 out.old) }) ++ drop (31 + len) out.old }
    ensures len { (octets : List ℕ) → length (sent_octets (record { from = ends.from; to = ends.to; number = number; octets = octets })) ≡ 31 + length octets }
{
    frame_reply(ends.from, &ends.to, number, len, out);
}

/// Frames a reply to a datagram of which this is told.
fn frame(reply: &Reply, meta: &Meta, number: u32, out: &mut [u8])
    requires room { 31 + reply.now.len ≤ length out.old }
    requires len { reply.now.len ≤ datagram_limit }
    ensures octets { out.new ≡ sent_octets (record { from = (ends_told reply.now.elsewhere meta.now).from; to = (ends_told reply.now.elsewhere meta.now).to; number = number; octets = take reply.now.len (drop 31 out.old) }) ++ drop (31 + reply.now.len) out.old }
    ensures len { (octets : List ℕ) → length (sent_octets (record { from = (ends_told reply.now.elsewhere meta.now).from; to = (ends_told reply.now.elsewhere meta.now).to; number = number; octets = octets })) ≡ 31 + length octets }
{
    match &reply.elsewhere {
        None => frame_reply(meta.local, &meta.peer, number, reply.len, out),
        Some(ends) => frame_elsewhere(*ends, number, reply.len, out),
    }
}

/// Writes the answer as `write_sent` does, of any session. It stands out of line.
#[cold]
#[inline(never)]
fn write_apart(
    session: Session,
    number: u32,
    meta: Meta,
    t3: u64,
    octets: &[u8],
    locals: &[LocalAddr],
    out: &mut [u8],
) -> usize
    requires judged { judgement session.mode session.config.now octets.now ≡ Reflect }
    requires measured { meta.len ≡ length octets.now }
    requires limit { length octets.now ≤ datagram_limit }
    requires locals { length locals.now ≤ 16 }
    requires room { ANSWER_ROOM ≤ length out.old }
    ensures { IsSent locals.now session.entry.mode session.entry.extra session.entry.config.now number (datagram_of meta t3 octets.now) out.old out.new result }
{
    let datagram = Datagram {
        meta: &meta,
        octets,
        locals,
    };
    let draw = Draw {
        number,
        sending: t3,
    };
    let reply = session.reflect(&datagram, &draw, &mut out[REPLY_AT..]);
    frame(&reply, &meta, number, out);
    REPLY_AT + reply.len
}

/// Writes the answer, reply included, under the number that was drawn, and says how many octets it has.
#[inline(always)]
pub fn write_sent(
    session: &Session,
    number: u32,
    meta: &Meta,
    t3: u64,
    octets: &[u8],
    locals: &[LocalAddr],
    out: &mut [u8],
) -> usize
    requires judged { judgement session.now.mode session.now.config.now octets.now ≡ Reflect }
    requires measured { meta.now.len ≡ length octets.now }
    requires limit { length octets.now ≤ datagram_limit }
    requires locals { length locals.now ≤ 16 }
    requires room { ANSWER_ROOM ≤ length out.old }
    ensures { IsSent locals.now session.now.mode session.now.extra session.now.config.now number (datagram_of meta.now t3 octets.now) out.old out.new result }
{
    if !session.is_usual() {
        return write_apart(*session, number, *meta, t3, octets, locals, out);
    }
    let datagram = Datagram {
        meta,
        octets,
        locals,
    };
    let draw = Draw {
        number,
        sending: t3,
    };
    let reply = session.reflect_usual(&datagram, &draw, &mut out[REPLY_AT..]);
    frame_reply(meta.local, &meta.peer, number, reply.len, out);
    REPLY_AT + reply.len
}
