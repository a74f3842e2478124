//! Answers are written in octets.

ghost use Rattle.std.specs.Prelude.{ℕ, List, ◌≡◌, ◌+◌, ◌≤◌, [], ◌∷◌, ◌++◌, length, take, drop};
ghost use Rattle.refl_types.specs.Limits.{datagram_limit};
ghost use Rattle.replay_format.specs.Records.{framed};
ghost use Rattle.replay_format.specs.Answers.{Answer, sent_octets, answer_of, answer_octets, answer_len, FitsAnswer, IsInRange};

use crate::code::{OpenAnswer, SetAnswer, UnsentCause};
use crate::layout::{
    CLOSED_TAG, DATAGRAM_ANSWER_TAG, LEFT_TAG, LISTED_TAG, OPENED_TAG, REPLY_FIELDS, SET_ANSWER_TAG,
};
use octet_format::put;
use refl_types::Endpoint;

/// What a record is answered.
#[derive(Clone, Copy, Debug)]
pub enum Outcome<'a> {
    /// The answer to an Open.
    Opened(OpenAnswer),
    /// The answer to a Set.
    Set(SetAnswer),
    /// The answer to a Close: how many numbers the session had drawn, modulo 2^32, or that no session has the key.
    Closed(Option<u32>),
    /// The answer to a list of addresses.
    Listed,
    /// A datagram is reflected: from which local number, to whom, under which number drawn, and with which octets.
    Sent {
        from: u16,
        to: Endpoint,
        number: u32,
        octets: &'a [u8],
    },
    /// A datagram is not reflected.
    Unsent(UnsentCause),
    /// The stream left its grammar: the offset of the first octet of the record that isn't one.
    Left(u64),
}

/// Octets of an answer before the reply that it has.
pub const REPLY_AT: usize = 31;

/// Writes the answer around a reply of as many octets, which stands from octet 31 on already. The answer's length is
/// 31 more. The reply and what follows it stay.
#[inline(always)]
pub fn frame_reply(from: u16, to: &Endpoint, number: u32, len: usize, out: &mut [u8])
    requires room { 31 + len ≤ length out.old }
    requires len { len ≤ datagram_limit }
    ensures octets { out.new ≡ sent_octets (record { from = from; to = to.now; number = number; octets = take len (drop 31 out.old) }) ++ drop (31 + len) out.old }
    ensures len { (octets : List ℕ) → length (sent_octets (record { from = from; to = to.now; number = number; octets = octets })) ≡ 31 + length octets }
{
    put(out, 0, &[DATAGRAM_ANSWER_TAG]);
    put(out, 1, &(REPLY_FIELDS + len as u32).to_be_bytes());
    put(out, 5, &[0]);
    put(out, 6, &from.to_be_bytes());
    put(out, 8, &[to.address.family()]);
    put(out, 9, &to.address.octets());
    put(out, 25, &to.port.to_be_bytes());
    put(out, 27, &number.to_be_bytes());
}

/// Writes the answer to a datagram that is reflected.
fn write_sent(from: u16, to: &Endpoint, number: u32, octets: &[u8], out: &mut [u8]) -> usize
    requires room { 31 + length octets.now ≤ length out.old }
    requires len { length octets.now ≤ datagram_limit }
    ensures octets { out.new ≡ sent_octets (record { from = from; to = to.now; number = number; octets = octets.now }) ++ drop result out.old }
    ensures count { result ≡ 31 + length octets.now }
    ensures len { length (sent_octets (record { from = from; to = to.now; number = number; octets = octets.now })) ≡ 31 + length octets.now }
{
    put(out, REPLY_AT, octets);
    frame_reply(from, to, number, octets.len(), out);
    REPLY_AT + octets.len()
}

/// What a Close is answered where no session has its key.
const NO_SUCH: u8 = 6;

/// Writes an answer whose body is one octet, and answers its length.
fn write_octet(tag: u8, octet: u8, out: &mut [u8]) -> usize
    requires { 6 ≤ length out.old }
    ensures octets { out.new ≡ framed tag (octet ∷ []) ++ drop 6 out.old }
    ensures len { result ≡ 6 }
{
    put(out, 0, &[tag, 0, 0, 0, 1, octet]);
    6
}

/// Writes the one spelling of an outcome, and answers its length. Later octets stay.
#[tactic(auto, unfolding(crate::specs::Answers::answer_octets))]
pub fn write_outcome(outcome: &Outcome, out: &mut [u8]) -> usize
    requires room { answer_len (answer_of outcome.now) ≤ length out.old }
    requires fits { FitsAnswer (answer_of outcome.now) }
    ensures octets { out.new ≡ answer_octets (answer_of outcome.now) ++ drop result out.old }
    ensures len { result ≡ length (answer_octets (answer_of outcome.now)) }
    ensures count { result ≡ answer_len (answer_of outcome.now) }
{
    match outcome {
        Outcome::Opened(answer) => write_octet(OPENED_TAG, answer.code(), out),
        Outcome::Set(answer) => write_octet(SET_ANSWER_TAG, answer.code(), out),
        Outcome::Closed(None) => write_octet(CLOSED_TAG, NO_SUCH, out),
        Outcome::Closed(Some(count)) => {
            put(out, 0, &[CLOSED_TAG, 0, 0, 0, 5, 0]);
            put(out, 6, &count.to_be_bytes());
            10
        }
        Outcome::Listed => write_octet(LISTED_TAG, 0, out),
        Outcome::Unsent(cause) => write_octet(DATAGRAM_ANSWER_TAG, cause.code(), out),
        Outcome::Left(offset) => {
            put(out, 0, &[LEFT_TAG, 0, 0, 0, 8]);
            put(out, 5, &offset.to_be_bytes());
            13
        }
        Outcome::Sent {
            from,
            to,
            number,
            octets,
        } => write_sent(*from, to, *number, octets, out),
    }
}

/// A law: no answer begins another, so answers have one reading.
pub fn one_answer()
    ensures { (a b : Answer) (x y : List ℕ) → IsInRange a → IsInRange b → answer_octets a ++ x ≡ answer_octets b ++ y → (a ≡ b) × (x ≡ y) }
{}
