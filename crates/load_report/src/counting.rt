//! How many answers there were of each kind that is told.

ghost use Rattle.std.specs.Prelude.{ℕ, ◌≡◌, ◌+◌, ◌<◌, ◌≤◌, ◌^◌, ◌&&◌, ◌==◌, get_or, length, nat_lt};
ghost use Rattle.replay_format.specs.Answers.{Answer, answer_octets};
ghost use Rattle.load_report.specs.Kinds.{one_if};

use replay_format::UnsentCause;

/// The tag of an answer to a datagram.
const DATAGRAM_ANSWER: u8 = 132;

/// What stands in place of a cause where a reply was sent.
const SENT: u8 = 0;

/// Replies, datagrams that no session matched, and octets of all answers.
#[derive(Clone, Copy, Debug, PartialEq, Eq)]
pub struct Counts {
    pub sent: u32,
    pub no_session: u32,
    pub octets: u64,
}

/// Whether the octets are an answer to a datagram with this code.
fn has_code(answer: &[u8], code: u8) -> bool
    ensures { result ≡ (nat_lt 5 (length answer.now) && get_or answer.now 0 0 == 132 && get_or answer.now 5 0 == code) }
{
    answer.len() > 5 && answer[0] == DATAGRAM_ANSWER && answer[5] == code
}

/// 1 where something holds, and else 0.
fn one_if(holds: bool) -> u32
    ensures value { result ≡ one_if holds }
    ensures small { result ≤ 1 }
{
    if holds { 1 } else { 0 }
}

impl Counts {
    ghost use Rattle.load_report.specs.Counting.{counted};

    /// Counts an answer more.
    pub fn count(&mut self, answer: &[u8])
        requires numbers { (self.old.sent < 2 ^ 31) × (self.old.no_session < 2 ^ 31) }
        requires octets { self.old.octets + length answer.now < 2 ^ 64 }
        ensures counted { (a : Answer) → answer.now ≡ answer_octets a → self.new ≡ counted self.old a }
        ensures sent { self.new.sent ≤ self.old.sent + 1 }
        ensures no_session { self.new.no_session ≤ self.old.no_session + 1 }
        ensures octets { self.new.octets ≡ self.old.octets + length answer.now }
    {
        self.sent += one_if(has_code(answer, SENT));
        self.no_session += one_if(has_code(answer, UnsentCause::NoSession.code()));
        self.octets += answer.len() as u64;
    }
}
