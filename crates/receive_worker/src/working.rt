//! The loop of a worker.

ghost use Rattle.std.specs.Prelude.{◌≡◌, ◌+◌, ◌≤◌, ◌<◌, ◌∷◌, length, None};
ghost use Rattle.session_world.specs.declared.steps.Step.TheVariants.{Retire};
ghost use Rattle.session_world.specs.Answers.{worker_answers};
ghost use Rattle.session_world.specs.Worker.{announced};
ghost use Rattle.session_rule.specs.Seats.{size_of, IsWorkerOf, IsWorkerOfOneSchedule, worker_number, worker_steps};
ghost use Rattle.session_table.specs.Knowing.{AreRead};
ghost use Rattle.session_table.specs.Steps.{HasCome};
ghost use Rattle.session_table.specs.Holding.{HoldsNothing};
ghost use Rattle.receive_worker.specs.Accounts.{Accounts};
ghost use Rattle.receive_worker.specs.Buffers.{kept_rows};
ghost use Rattle.receive_worker.specs.Faults.{RisesBy};
ghost use Rattle.receive_worker.specs.Work.{HasGiven, IsRound, IsWork, Worked, failures_of};

use crate::buffers::Buffers;
use crate::tally::{Begun, Tally, due, failed_in_a_row};
use crate::turning::answer;
use net_io::{Got, Port};
use refl_types::LocalAddr;
use reflect_core::Datagram;
use session_rule::{Table, WorkerSeat};
use session_table::{law_reads, retire};
use session_world::law_rows_read;

/// Lets go of the rows that are kept, which another seat may have read, and of the slot that this one may still announce.
fn begin(table: &Table, seat: &mut WorkerSeat, buffers: &mut Buffers)
    requires same { IsWorkerOf table.now seat.old }
    ensures retired { announced (worker_steps seat.new) ≡ None }
    ensures nothing { HoldsNothing (worker_steps seat.new) }
    ensures seat { HasCome table.now seat.old seat.new (Retire ∷ worker_steps seat.old) }
    ensures answers { worker_answers (size_of table.now).slots (worker_steps seat.new) ≡ worker_answers (size_of table.now).slots (worker_steps seat.old) }
    ensures read { AreRead (kept_rows buffers.new) (worker_steps seat.new) }
{
    buffers.known.forget();
    retire(table, seat);
}

/// Calls `recv`, and answers the datagram that it gives.
fn round<P: Port>(
    table: &Table,
    seat: &mut WorkerSeat,
    port: &mut P,
    locals: &[LocalAddr],
    buffers: &mut Buffers,
) -> Begun
    requires same { IsWorkerOf table.now seat.old }
    requires schedule { IsWorkerOfOneSchedule (size_of table.now) (worker_number seat.old) (worker_steps seat.old) }
    requires nothing { HoldsNothing (worker_steps seat.old) }
    requires retired { announced (worker_steps seat.old) ≡ None }
    requires read { AreRead (kept_rows buffers.old) (worker_steps seat.old) }
    requires bound { 0 < length (P.shown port.old).bound }
    requires locals { length locals.now ≤ 16 }
    ensures seat { HasCome table.now seat.old seat.new (worker_steps seat.new) }
    ensures nothing { HoldsNothing (worker_steps seat.new) }
    ensures retired { announced (worker_steps seat.new) ≡ None }
    ensures read { AreRead (kept_rows buffers.new) (worker_steps seat.new) }
    ensures round { IsRound table.now locals.now seat.old seat.new (P.shown port.old) (P.shown port.new) result }
    ensures bound { (P.shown port.new).bound ≡ (P.shown port.old).bound }
    ensures made { (P.shown port.new).made ≡ (P.shown port.old).made }
    ensures faults { RisesBy (failures_of result) (P.shown port.old).faults (P.shown port.new).faults }
{
    match buffers.recv(port) {
        Err(_) => Begun::Failed,
        Ok(Got::Nothing) => Begun::Idle,
        Ok(Got::End) => Begun::Over,
        Ok(Got::Datagram(meta)) => {
            let datagram = Datagram {
                meta: &meta,
                octets: &buffers.input[..meta.len],
                locals,
            };
            let known = &mut buffers.known;
            let outcome = answer(table, seat, known, port, &datagram, &mut buffers.output);
            Begun::Turned(outcome)
        }
    }
}

/// Goes through rounds until an end is due.
fn take_all<P: Port>(
    table: &Table,
    seat: &mut WorkerSeat,
    port: &mut P,
    locals: &[LocalAddr],
    limit: u64,
    turns: u64,
    buffers: &mut Buffers,
) -> Tally
    requires same { IsWorkerOf table.now seat.old }
    requires schedule { IsWorkerOfOneSchedule (size_of table.now) (worker_number seat.old) (worker_steps seat.old) }
    requires nothing { HoldsNothing (worker_steps seat.old) }
    requires retired { announced (worker_steps seat.old) ≡ None }
    requires read { AreRead (kept_rows buffers.old) (worker_steps seat.old) }
    requires bound { 0 < length (P.shown port.old).bound }
    requires locals { length locals.now ≤ 16 }
    ensures seat { HasCome table.now seat.old seat.new (worker_steps seat.new) }
    ensures nothing { HoldsNothing (worker_steps seat.new) }
    ensures retired { announced (worker_steps seat.new) ≡ None }
    ensures works { IsWork table.now locals.now limit turns seat.old seat.new (P.shown port.old) (P.shown port.new) result }
    ensures bound { (P.shown port.new).bound ≡ (P.shown port.old).bound }
    ensures made { (P.shown port.new).made ≡ (P.shown port.old).made }
    ensures faults { RisesBy (result.recv_fault + result.send_fault) (P.shown port.old).faults (P.shown port.new).faults }
{
    law_reads();
    let mut tally = Tally::new();
    if turns == 0 {
        return tally;
    }
    let mut calls = 0;
    let mut failed = 0;
    'rounds: loop {
        let begun = round(table, seat, port, locals, buffers);
        tally.add(&begun, calls);
        calls += 1;
        failed = failed_in_a_row(failed, &begun);
        if let Some(end) = due(limit, turns, calls, tally.taken, failed, &begun) {
            tally.end = end;
            return tally;
        }
    }
}

/// Takes datagrams and answers them, until the port says that nothing comes any more, `limit` of them were taken (0: no limit),
/// `recv` was called `turns` times, or its last 64 calls failed: the first of these ends it. It takes no memory.
pub fn work<P: Port>(
    table: &Table,
    seat: &mut WorkerSeat,
    port: &mut P,
    locals: &[LocalAddr],
    limit: u64,
    turns: u64,
    buffers: &mut Buffers,
) -> Tally
    requires same { IsWorkerOf table.now seat.old }
    requires nothing { HoldsNothing (worker_steps seat.old) }
    requires bound { 0 < length (P.shown port.old).bound }
    requires locals { length locals.now ≤ 16 }
    ensures worked { Worked table.now locals.now limit turns seat.old seat.new (P.shown port.old).log (P.shown port.new).log result }
    ensures accounts { Accounts (size_of table.now).slots (worker_steps seat.old) (worker_steps seat.new) result }
    ensures coming { HasGiven limit turns (P.shown port.old) (P.shown port.new) result }
    ensures bound { (P.shown port.new).bound ≡ (P.shown port.old).bound }
    ensures made { (P.shown port.new).made ≡ (P.shown port.old).made }
    ensures faults { RisesBy (result.recv_fault + result.send_fault) (P.shown port.old).faults (P.shown port.new).faults }
{
    law_rows_read();
    let _size = table.size();
    begin(table, seat, buffers);
    let tally = take_all(table, seat, port, locals, limit, turns, buffers);
    port.done();
    tally
}
