//! One turn.

ghost use Rattle.std.specs.Prelude.{◌≡◌, ◌≢◌, ℕ, List, None, Err, IfOk};
ghost use Rattle.session_world.specs.declared.steps.Step.{Step};
ghost use Rattle.refl_types.specs.declared.outcome.Unanswered.TheVariants.{SendFault};
ghost use Rattle.session_key.specs.Matching.{query_of};
ghost use Rattle.session_world.specs.Keys.{Query, ConfigParts};
ghost use Rattle.session_world.specs.Worker.{announced};
ghost use Rattle.session_rule.specs.Seats.{size_of, IsWorkerOf, IsWorkerOfOneSchedule, worker_number, worker_steps};
ghost use Rattle.session_table.specs.Drawing.{DrewRow};
ghost use Rattle.session_table.specs.Holding.{HoldsNothing, HoldsLook};
ghost use Rattle.session_table.specs.Knowing.{Keeps};
ghost use Rattle.session_table.specs.Steps.{HasCome};
ghost use Rattle.session_turn.specs.Turn.{IsJudged, KeepsFor, TookTurn, WentOn, outcome_of};

use crate::judging::{Verdict, cause_of, judge};
use refl_types::{Extra, Meta, Mode, Unanswered};
use session_rule::{Table, WorkerSeat};
use session_table::{
    DrawnRow, KnownRows, Seen, Sight, draw_row, find_by, keep_drawn, law_reads, retire,
};

/// What was drawn for a datagram's reply: a number of its session, and the row of the configuration at that moment.
#[derive(Clone, Copy, Debug, PartialEq, Eq)]
pub struct Drawn {
    /// The mode of the session.
    pub mode: Mode,
    /// What the session has agreed on besides.
    pub extra: Extra,
    /// The row of its configuration.
    pub row: u32,
    /// How many replies it sent before, modulo 2^32.
    pub number: u32,
}

/// Keeps the row under which a number was drawn, lets the session go, and judges the datagram again. It stands out of line, since
/// rows seldom change between a look and its draw.
#[cold]
#[inline(never)]
pub(crate) fn judge_again(
    table: &Table,
    seat: &mut WorkerSeat,
    known: &mut KnownRows,
    mode: Mode,
    row: u32,
    octets: &[u8],
) -> Verdict
    requires same { IsWorkerOf table.now seat.old }
    requires schedule { IsWorkerOfOneSchedule (size_of table.now) (worker_number seat.old) (worker_steps seat.old) }
    requires drew { (before : List Step) × (q : Query) × (s : Sight) × (n : ℕ) × HoldsLook (size_of table.now) before q s × DrewRow (size_of table.now) before (worker_steps seat.old) s n row }
    ensures went_on { (before : List Step) (q : Query) (s : Sight) (n : ℕ) → HoldsLook (size_of table.now) before q s → DrewRow (size_of table.now) before (worker_steps seat.old) s n row → WentOn (size_of table.now) known.old known.new before (worker_steps seat.new) s n row }
    ensures seat { HasCome table.now seat.old seat.new (worker_steps seat.new) }
    ensures nothing { HoldsNothing (worker_steps seat.new) }
    ensures retired { announced (worker_steps seat.new) ≡ None }
    ensures kept { (c : ConfigParts) × Keeps known.new row c × IsJudged mode c octets.now (outcome_of result) }
{
    law_reads();
    keep_drawn(table, seat, known, row);
    retire(table, seat);
    judge(mode, known.config(row), octets)
}

/// Finds the session of a datagram, judges the datagram, draws a number for its reply, and lets the session go. Where the row of
/// its configuration changed meanwhile, the datagram is judged again. Nothing is written or sent.
#[inline(always)]
pub fn take_turn(
    table: &Table,
    seat: &mut WorkerSeat,
    known: &mut KnownRows,
    meta: &Meta,
    octets: &[u8],
) -> Result<Drawn, Unanswered>
    requires same { IsWorkerOf table.now seat.old }
    requires nothing { HoldsNothing (worker_steps seat.old) }
    ensures turned { TookTurn table.now known.old known.new seat.old seat.new (query_of meta.now.local meta.now.peer octets.now) octets.now result }
    ensures keeps { IfOk result (λ drawn. KeepsFor known.new drawn octets.now) }
    ensures unsent { result ≢ Err SendFault }
{
    law_reads();
    let Seen::Held(sight) = find_by(table, seat, known, meta, octets) else {
        return Err(Unanswered::NoSession);
    };
    let mode = sight.key.mode;
    let verdict = judge(mode, known.config(sight.row), octets);
    let Verdict::Reflect = verdict else {
        retire(table, seat);
        return Err(cause_of(verdict));
    };
    let DrawnRow::Number { n, row } = draw_row(table, seat, &sight) else {
        retire(table, seat);
        return Err(Unanswered::NoSession);
    };
    let drawn = Drawn {
        mode,
        extra: sight.extra,
        row,
        number: n,
    };
    if row == sight.row {
        retire(table, seat);
        return Ok(drawn);
    }
    let Verdict::Reflect = judge_again(table, seat, known, mode, row, octets) else {
        return Err(Unanswered::Changed {
            seen: sight.row,
            drawn: row,
        });
    };
    Ok(drawn)
}
