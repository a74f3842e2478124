//! The turn of the worker that is split off for one datagram.

ghost use Rattle.std.specs.Prelude.{◌≡◌, ◌≤◌, [], ◌++◌, drop, length};
ghost use Rattle.refl_types.specs.Limits.{datagram_limit};
ghost use Rattle.session_rule.specs.Seats.{size_of, IsWorkerOf, worker_number, worker_steps};
ghost use Rattle.session_desk.specs.Book.{steps_of};
ghost use Rattle.session_desk.specs.Fits.{reserves_in};
ghost use Rattle.replay_format.specs.Records.{datagram_of};
ghost use Rattle.replay_format.specs.Answers.{Unsent, answer_limit, answer_octets};
ghost use Rattle.replay_table.specs.Table as replay;
ghost use Rattle.shared_replay.specs.Turn.{Turned, told};
ghost use Rattle.shared_replay.specs.Stands.{IsDesk, AreKept, HasArrived};

use crate::reply::write_sent;
use crate::sessions::ANSWER_ROOM;
use refl_types::{LocalAddr, Meta, Unanswered};
use reflect_core::Session;
use replay_format::{Outcome, UnsentCause, write_outcome};
use session_desk::DeskBook;
use session_rule::{Table, WorkerSeat};
use session_table::KnownRows;
use session_turn::take_turn;
use session_world::{law_one_bound, law_turns_tell, law_words};

/// The cause that an answer tells. What comes only where others serve beside is told as if there were no session.
#[inline(always)]
fn told(why: Unanswered) -> UnsentCause
    ensures { result ≡ told why }
{
    match why {
        Unanswered::Short => UnsentCause::Short,
        Unanswered::BadHmac => UnsentCause::BadHmac,
        Unanswered::NoReply => UnsentCause::NoReply,
        Unanswered::NoSession | Unanswered::Changed { .. } | Unanswered::SendFault => {
            UnsentCause::NoSession
        }
    }
}

/// Finds the session of a datagram, and where it is reflected draws a number and writes the answer, whose length it says.
/// Otherwise it says why not, and writes nothing.
#[inline(always)]
fn turn(
    table: &Table,
    worker: &mut WorkerSeat,
    known: &mut KnownRows,
    meta: &Meta,
    t3: u64,
    octets: &[u8],
    locals: &[LocalAddr],
    out: &mut [u8],
) -> Result<usize, UnsentCause>
    requires same { IsWorkerOf table.now worker.old }
    requires fresh { worker_steps worker.old ≡ [] }
    requires measured { meta.now.len ≡ length octets.now }
    requires limit { length octets.now ≤ datagram_limit }
    requires locals { length locals.now ≤ 16 }
    requires room { ANSWER_ROOM ≤ length out.old }
    ensures same { IsWorkerOf table.now worker.new }
    ensures number { worker_number worker.new ≡ worker_number worker.old }
    ensures turned { Turned (size_of table.now) known.old known.new (worker_steps worker.new) locals.now (datagram_of meta.now t3 octets.now) out.old out.new result }
{
    let drawn = match take_turn(table, worker, known, meta, octets) {
        Ok(drawn) => drawn,
        Err(why) => return Err(told(why)),
    };
    let session = Session {
        mode: drawn.mode,
        extra: drawn.extra,
        config: known.config(drawn.row),
    };
    Ok(write_sent(&session, drawn.number, meta, t3, octets, locals, out))
}

/// Writes why a datagram is not reflected.
#[cold]
fn write_unsent(cause: UnsentCause, out: &mut [u8]) -> usize
    requires { ANSWER_ROOM ≤ length out.old }
    ensures octets { out.new ≡ answer_octets (Unsent cause) ++ drop result out.old }
    ensures len { result ≡ length (answer_octets (Unsent cause)) }
    ensures fits { result ≤ answer_limit }
{
    write_outcome(&Outcome::Unsent(cause), out)
}

/// Answers a datagram in a turn of the worker, which is split off for it and joined after it.
#[inline(always)]
pub fn arrive(
    table: &Table,
    book: &mut DeskBook,
    known: &mut KnownRows,
    meta: &Meta,
    t3: u64,
    octets: &[u8],
    locals: &[LocalAddr],
    out: &mut [u8],
) -> usize
    requires desk { IsDesk table.now book.old }
    requires known { AreKept (steps_of book.old) known.old }
    requires measured { meta.now.len ≡ length octets.now }
    requires limit { length octets.now ≤ datagram_limit }
    requires locals { length locals.now ≤ 16 }
    requires room { ANSWER_ROOM ≤ length out.old }
    ensures desk { IsDesk table.now book.new }
    ensures known { AreKept (steps_of book.new) known.new }
    ensures reserves { reserves_in (steps_of book.new) ≡ reserves_in (steps_of book.old) }
    ensures fits { result ≤ answer_limit }
    ensures arrived { (t : replay.Table) → HasArrived book.old t locals.now (datagram_of meta.now t3 octets.now) book.new out.old out.new result }
{
    law_one_bound();
    law_turns_tell();
    law_words();
    let Ok(mut worker) = book.split(table) else {
        unreachable!();
    };
    match turn(table, &mut worker, known, meta, t3, octets, locals, out) {
        Ok(len) => {
            book.join(table, worker);
            len
        }
        Err(cause) => {
            book.join(table, worker);
            write_unsent(cause, out)
        }
    }
}
