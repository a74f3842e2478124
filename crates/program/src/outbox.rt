//! Answers the record at the front, and holds what is due until it is written.

ghost use Rattle.std.specs.Prelude.{ℕ, ◌≡◌, ◌+◌, ◌≤◌, ◌↔◌, ◌++◌, List, [], length, take, vec_len, IsTrue, IfOk, OnOk, OnErr};
ghost use Rattle.std.specs.Io.KnownBytes.{Appends};
ghost use Rattle.port_io.specs.Outside.{Rises, AppendsFront};
ghost use Rattle.refl_types.specs.Limits.{datagram_limit};
ghost use Rattle.replay_format.specs.View.{item_of, IsMeasured};
ghost use Rattle.replay_format.specs.Records.{Arrives, Fits, datagram_of};
ghost use Rattle.replay_format.specs.Answers.{Left, answer_limit, answer_octets};
ghost use Rattle.program.specs.Answering.{AnswersBehind};

use port_io::{Failed, Sink, write_all};
use refl_types::{Memory, Meta};
use replay_format::{
    Outcome, Parsed, Record, read_ipv4_datagram, read_ipv6_datagram, read_record, write_outcome,
};
use shared_replay::{ANSWER_ROOM, Sessions};
use std::alloc::Global;

/// Octets of the buffer.
pub const ROOM: usize = 524_288;

/// What was done with the octets at the front of a stream.
#[derive(Clone, Copy, Debug, PartialEq, Eq)]
pub enum Taken {
    /// A record was answered, which has as many octets.
    Answered(usize),
    /// A record stands there that has too many octets.
    TooLong,
    /// They are the front of a record, and lack its end.
    More,
    /// No record begins with them, whatever follows.
    Bad,
}

/// Answers that are not written yet.
#[derive(Drop)]
pub struct Outbox {
    pub octets: Vec<u8>,
    pub used: usize,
    ghost within: { used ≤ vec_len octets },
    ghost room: { vec_len octets ≡ 524288 },
}

impl Outbox {
    ghost use Rattle.program.specs.Buffers.{due};
    ghost use Rattle.program.specs.Taking.{AnswersItem, IsTaken};

    /// An empty buffer. All its memory is taken here.
    pub fn make(alloc: Global) -> Result<Outbox, Memory>
        ensures { IfOk result (λ o. due o ≡ []) }
    {
        match vec![in alloc; 0u8; ROOM] {
            Ok(octets) => Ok(Outbox { octets, used: 0 }),
            Err(_) => Err(Memory),
        }
    }

    /// Whether the longest answer has room.
    pub fn has_room(&self) -> bool
        ensures { IsTrue result ↔ (self.now.used + ANSWER_ROOM ≤ ROOM) }
    {
        self.used + ANSWER_ROOM <= ROOM
    }

    /// Writes what is due.
    pub fn flush<K: Sink>(&mut self, out: &mut K) -> Result<(), Failed>
        ensures all { OnOk result (Appends (K.shown out.old).written (K.shown out.new).written (due self.old)) }
        ensures none { OnOk result ((due self.new ≡ []) × (self.new.used ≡ 0)) }
        ensures front { OnErr result (AppendsFront (K.shown out.old).written (K.shown out.new).written (due self.old)) }
        ensures kept { OnErr result (due self.new ≡ due self.old) }
        ensures still { OnOk result ((K.shown out.new).faults ≡ (K.shown out.old).faults) }
        ensures cause { OnErr result (Rises (K.shown out.old).faults (K.shown out.new).faults) }
    {
        write_all(out, &self.octets[..self.used])?;
        self.used = 0;
        Ok(())
    }

    /// Makes room for the longest answer: where there is none, what is due is written.
    pub fn make_room<K: Sink>(&mut self, out: &mut K) -> Result<(), Failed>
        ensures room { OnOk result (self.new.used + ANSWER_ROOM ≤ ROOM) }
        ensures some { OnOk result ((octets : List ℕ) × Appends (K.shown out.old).written (K.shown out.new).written octets × (octets ++ due self.new ≡ due self.old)) }
        ensures front { OnErr result (AppendsFront (K.shown out.old).written (K.shown out.new).written (due self.old)) }
        ensures kept { OnErr result (due self.new ≡ due self.old) }
        ensures still { OnOk result ((K.shown out.new).faults ≡ (K.shown out.old).faults) }
        ensures cause { OnErr result (Rises (K.shown out.old).faults (K.shown out.new).faults) }
    {
        if self.has_room() {
            return Ok(());
        }
        self.flush(out)
    }

    /// Adds the answer to a record.
    fn answer(&mut self, sessions: &mut Sessions, item: &Record)
        requires room { self.old.used + ANSWER_ROOM ≤ ROOM }
        requires measured { IsMeasured item.now }
        requires fits { Fits (item_of item.now) }
        ensures { AnswersItem (item_of item.now) self.old self.new sessions.old sessions.new }
    {
        self.used += answer_behind(sessions, item, &mut self.octets, self.used);
    }

    /// Answers the record at the front of octets, unless it has more than `limit` of them.
    #[inline]
    pub fn take(&mut self, sessions: &mut Sessions, octets: &[u8], limit: u64) -> Taken
        requires { self.old.used + ANSWER_ROOM ≤ ROOM }
        ensures { IsTaken result octets.now limit self.old self.new sessions.old sessions.new }
    {
        // Most records are whole datagrams of IPv4 peers.
        let Some((meta, t3, text, len)) = read_ipv4_datagram(octets) else {
            return self.take_other(sessions, octets, limit);
        };
        if len as u64 > limit {
            return Taken::TooLong;
        }
        self.used += reply_behind(sessions, &meta, t3, text, &mut self.octets, self.used);
        Taken::Answered(len)
    }

    /// Answers any record at the front of octets, the datagrams of IPv6 peers first.
    #[inline(never)]
    fn take_other(&mut self, sessions: &mut Sessions, octets: &[u8], limit: u64) -> Taken
        requires { self.old.used + ANSWER_ROOM ≤ ROOM }
        ensures { IsTaken result octets.now limit self.old self.new sessions.old sessions.new }
    {
        let Some((meta, t3, text, len)) = read_ipv6_datagram(octets) else {
            return self.take_any(sessions, octets, limit);
        };
        if len as u64 > limit {
            return Taken::TooLong;
        }
        self.used += reply_behind(sessions, &meta, t3, text, &mut self.octets, self.used);
        Taken::Answered(len)
    }

    /// Answers any record at the front of octets.
    #[inline(never)]
    fn take_any(&mut self, sessions: &mut Sessions, octets: &[u8], limit: u64) -> Taken
        requires { self.old.used + ANSWER_ROOM ≤ ROOM }
        ensures { IsTaken result octets.now limit self.old self.new sessions.old sessions.new }
    {
        match read_record(octets) {
            Parsed::Bad => Taken::Bad,
            Parsed::More => Taken::More,
            Parsed::Record(record, len) => {
                if len as u64 > limit {
                    return Taken::TooLong;
                }
                self.answer(sessions, &record);
                Taken::Answered(len)
            }
        }
    }

    /// Adds where the stream left its grammar.
    pub fn leave(&mut self, offset: u64)
        requires { self.old.used + ANSWER_ROOM ≤ ROOM }
        ensures { due self.new ≡ due self.old ++ answer_octets (Left offset) }
    {
        self.used += leave_behind(offset, &mut self.octets, self.used);
    }
}

/// Writes an answer from a place on.
fn answer_behind(sessions: &mut Sessions, item: &Record, octets: &mut [u8], at: usize) -> usize
    requires room { at + ANSWER_ROOM ≤ length octets.old }
    requires measured { IsMeasured item.now }
    requires fits { Fits (item_of item.now) }
    ensures fits { result ≤ answer_limit }
    ensures answer { AnswersBehind (item_of item.now) (take at octets.old) (take (at + result) octets.new) sessions.old sessions.new }
{
    sessions.answer(item, &mut octets[at..])
}

/// Writes the answer to a datagram from a place on.
#[inline(always)]
fn reply_behind(
    sessions: &mut Sessions,
    meta: &Meta,
    t3: u64,
    text: &[u8],
    octets: &mut [u8],
    at: usize,
) -> usize
    requires room { at + ANSWER_ROOM ≤ length octets.old }
    requires measured { meta.now.len ≡ length text.now }
    requires limit { length text.now ≤ datagram_limit }
    ensures fits { result ≤ answer_limit }
    ensures answer { AnswersBehind (Arrives (datagram_of meta.now t3 text.now)) (take at octets.old) (take (at + result) octets.new) sessions.old sessions.new }
{
    sessions.arrive(meta, t3, text, &mut octets[at..])
}

/// Writes an offset from a place on.
fn leave_behind(offset: u64, octets: &mut [u8], at: usize) -> usize
    requires { at + ANSWER_ROOM ≤ length octets.old }
    ensures fits { result ≤ answer_limit }
    ensures answer { take (at + result) octets.new ≡ take at octets.old ++ answer_octets (Left offset) }
{
    write_outcome(&Outcome::Left(offset), &mut octets[at..])
}
