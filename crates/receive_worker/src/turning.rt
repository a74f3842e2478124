//! One turn, from the taking of a datagram on (RFC 8762, section 4.3).

ghost use Rattle.std.specs.Prelude.{◌≡◌, ◌≤◌, ◌<◌, ◌∷◌, [], take, length, OnOk, OnErr};
ghost use Rattle.port_io.specs.Outside.{Rises};
ghost use Rattle.net_io.specs.Log.{Grows};
ghost use Rattle.reflect_core.specs.Reflection.{reflection};
ghost use Rattle.reflect_core.specs.declared.judging.Judged.TheVariants as judged;
ghost use Rattle.reflect_core.specs.Arrived.{arrived};
ghost use Rattle.reflect_core.specs.Judgement.{judgement};
ghost use Rattle.session_rule.specs.Seats.{IsWorkerOf, worker_steps};
ghost use Rattle.session_table.specs.Knowing.{AreRead};
ghost use Rattle.session_table.specs.Holding.{HoldsNothing};
ghost use Rattle.receive_worker.specs.Buffers.{received};
ghost use Rattle.receive_worker.specs.Faults.{RisesBy};
ghost use Rattle.receive_worker.specs.Turn.{LastTook, Replies, Turned, failed_sends, sent_entry};
ghost use Rattle.receive_worker.specs.Work.{arrived_at};

use crate::buffers::Buffers;
use net_io::Port;
use port_io::Failed;
use refl_types::{LocalAddr, Meta, Unanswered};
use reflect_core::{Datagram, Draw, Session};
use session_rule::{Table, WorkerSeat};
use session_table::{KnownRows, law_reads};
use session_turn::take_turn;

/// Writes the reply of any session under what was drawn, and sends it once. It stands out of line.
#[cold]
#[inline(never)]
fn send_apart<P: Port>(
    session: &Session,
    port: &mut P,
    datagram: &Datagram,
    draw: &Draw,
    output: &mut [u8],
) -> Result<(), Failed>
    requires bound { 0 < length (P.shown port.old).bound }
    requires judged { judgement session.now.mode session.now.config.now datagram.now.octets.now ≡ judged.Reflect }
    requires limit { length datagram.now.octets.now ≤ 65507 }
    requires locals { length datagram.now.locals.now ≤ 16 }
    requires room { length output.old ≡ 65536 }
    ensures bound { (P.shown port.new).bound ≡ (P.shown port.old).bound }
    ensures coming { (P.shown port.new).coming ≡ (P.shown port.old).coming }
    ensures log { Grows (P.shown port.old).log (P.shown port.new).log (sent_entry (reflection session.now.mode session.now.extra session.now.config.now draw.now (arrived datagram.now)) result ∷ []) }
    ensures made { (P.shown port.new).made ≡ (P.shown port.old).made }
    ensures still { OnOk result ((P.shown port.new).faults ≡ (P.shown port.old).faults) }
    ensures cause { OnErr result (Rises (P.shown port.old).faults (P.shown port.new).faults) }
{
    let reply = session.reflect(datagram, draw, output);
    let octets = &output[..reply.len];
    match &reply.elsewhere {
        None => port.send(datagram.meta.local, &datagram.meta.peer, octets),
        Some(ends) => port.send(ends.from, &ends.to, octets),
    }
}

/// Writes the reply under what was drawn, and sends it once.
#[inline(always)]
fn send<P: Port>(
    session: &Session,
    port: &mut P,
    datagram: &Datagram,
    draw: &Draw,
    output: &mut [u8],
) -> Result<(), Failed>
    requires bound { 0 < length (P.shown port.old).bound }
    requires judged { judgement session.now.mode session.now.config.now datagram.now.octets.now ≡ judged.Reflect }
    requires limit { length datagram.now.octets.now ≤ 65507 }
    requires locals { length datagram.now.locals.now ≤ 16 }
    requires room { length output.old ≡ 65536 }
    ensures bound { (P.shown port.new).bound ≡ (P.shown port.old).bound }
    ensures coming { (P.shown port.new).coming ≡ (P.shown port.old).coming }
    ensures log { Grows (P.shown port.old).log (P.shown port.new).log (sent_entry (reflection session.now.mode session.now.extra session.now.config.now draw.now (arrived datagram.now)) result ∷ []) }
    ensures made { (P.shown port.new).made ≡ (P.shown port.old).made }
    ensures still { OnOk result ((P.shown port.new).faults ≡ (P.shown port.old).faults) }
    ensures cause { OnErr result (Rises (P.shown port.old).faults (P.shown port.new).faults) }
{
    if !session.is_usual() {
        return send_apart(session, port, datagram, draw, output);
    }
    let reply = session.reflect_usual(datagram, draw, output);
    port.send(
        datagram.meta.local,
        &datagram.meta.peer,
        &output[..reply.len],
    )
}

/// Reads the moment, writes the reply under the number that was drawn, and sends it once.
#[inline(always)]
fn reply<P: Port>(
    session: &Session,
    port: &mut P,
    datagram: &Datagram,
    number: u32,
    output: &mut [u8],
) -> Result<(), Unanswered>
    requires bound { 0 < length (P.shown port.old).bound }
    requires judged { judgement session.now.mode session.now.config.now datagram.now.octets.now ≡ judged.Reflect }
    requires limit { length datagram.now.octets.now ≤ 65507 }
    requires locals { length datagram.now.locals.now ≤ 16 }
    requires room { length output.old ≡ 65536 }
    ensures replies { Replies session.now.mode session.now.extra session.now.config.now number (arrived datagram.now) (P.shown port.old).log (P.shown port.new).log result }
    ensures bound { (P.shown port.new).bound ≡ (P.shown port.old).bound }
    ensures coming { (P.shown port.new).coming ≡ (P.shown port.old).coming }
    ensures made { (P.shown port.new).made ≡ (P.shown port.old).made }
    ensures faults { RisesBy (failed_sends result) (P.shown port.old).faults (P.shown port.new).faults }
{
    let sending = port.now();
    match send(session, port, datagram, &Draw { number, sending }, output) {
        Ok(()) => Ok(()),
        Err(_) => Err(Unanswered::SendFault),
    }
}

/// Answers a datagram, or says why not. The rows that are kept are those that the seat has read.
#[inline(always)]
pub(crate) fn answer<P: Port>(
    table: &Table,
    seat: &mut WorkerSeat,
    known: &mut KnownRows,
    port: &mut P,
    datagram: &Datagram,
    output: &mut [u8],
) -> Result<(), Unanswered>
    requires same { IsWorkerOf table.now seat.old }
    requires nothing { HoldsNothing (worker_steps seat.old) }
    requires read { AreRead known.old (worker_steps seat.old) }
    requires bound { 0 < length (P.shown port.old).bound }
    requires limit { length datagram.now.octets.now ≤ 65507 }
    requires locals { length datagram.now.locals.now ≤ 16 }
    requires room { length output.old ≡ 65536 }
    ensures read { AreRead known.new (worker_steps seat.new) }
    ensures turned { Turned table.now (arrived datagram.now) seat.old seat.new (P.shown port.old).log (P.shown port.new).log result }
    ensures bound { (P.shown port.new).bound ≡ (P.shown port.old).bound }
    ensures coming { (P.shown port.new).coming ≡ (P.shown port.old).coming }
    ensures made { (P.shown port.new).made ≡ (P.shown port.old).made }
    ensures faults { RisesBy (failed_sends result) (P.shown port.old).faults (P.shown port.new).faults }
{
    law_reads();
    let Datagram { meta, octets, .. } = *datagram;
    let drawn = match take_turn(table, seat, known, meta, octets) {
        Ok(drawn) => drawn,
        Err(why) => return Err(why),
    };
    let session = Session {
        mode: drawn.mode,
        extra: drawn.extra,
        config: known.config(drawn.row),
    };
    reply(&session, port, datagram, drawn.number, output)
}

/// Makes one turn, from the taking of a datagram on: its session is found, its number drawn, and the reply sent, or it is told
/// why not. The rows that earlier turns kept are let go first, since another seat may have read them.
pub fn turn<P: Port>(
    table: &Table,
    seat: &mut WorkerSeat,
    port: &mut P,
    locals: &[LocalAddr],
    meta: &Meta,
    buffers: &mut Buffers,
) -> Result<(), Unanswered>
    requires same { IsWorkerOf table.now seat.old }
    requires nothing { HoldsNothing (worker_steps seat.old) }
    requires bound { 0 < length (P.shown port.old).bound }
    requires locals { length locals.now ≤ 16 }
    requires limit { meta.now.len ≤ 65507 }
    requires took { LastTook (P.shown port.old).log meta.now (take meta.now.len (received buffers.old)) }
    ensures turned { Turned table.now (arrived_at locals.now meta.now (take meta.now.len (received buffers.old))) seat.old seat.new (P.shown port.old).log (P.shown port.new).log result }
    ensures bound { (P.shown port.new).bound ≡ (P.shown port.old).bound }
    ensures coming { (P.shown port.new).coming ≡ (P.shown port.old).coming }
    ensures made { (P.shown port.new).made ≡ (P.shown port.old).made }
    ensures faults { RisesBy (failed_sends result) (P.shown port.old).faults (P.shown port.new).faults }
{
    buffers.known.forget();
    let datagram = Datagram {
        meta,
        octets: &buffers.input[..meta.len],
        locals,
    };
    answer(
        table,
        seat,
        &mut buffers.known,
        port,
        &datagram,
        &mut buffers.output,
    )
}
