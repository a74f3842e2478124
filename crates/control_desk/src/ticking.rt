//! Ticks.

ghost use Rattle.std.specs.Prelude.{◌≡◌, [], List};
ghost use Rattle.session_desk.specs.Book.{IsBookOf};
ghost use Rattle.control_desk.specs.declared.sides.OpenConnection.{OpenConnection as DeclaredConnection};
ghost use Rattle.control_desk.specs.State.{DeskState, at_connections};
ghost use Rattle.control_desk.specs.Connections.{state_of};
ghost use Rattle.control_desk.specs.Hands.{AreSame, Works};
ghost use Rattle.control_desk.specs.Plan.{Plan};
ghost use Rattle.control_desk.specs.Run.{is_started, is_idle, is_idle_side, hang_up_side, idle_plan, ticked_plan};

use crate::hands::Hands;
use crate::own_calls::hang_up_control;
use crate::room::Places;
use crate::shown::Shown;
use crate::sides::{ControlSide, OpenConnection, Side};
use twamp_control::Stage;

/// For how long a control connection may give no octet, in nanoseconds.
const IDLE_LIMIT: u64 = 900 * 1_000_000_000;

fn is_started(stage: Stage) -> bool
    ensures { result ≡ is_started stage }
{
    match stage {
        Stage::Started => true,
        Stage::SettingUp | Stage::Idle | Stage::HungUp => false,
    }
}

/// Whether a control connection has given no octet for too long.
fn is_idle(now: u64, talk: &ControlSide) -> bool
    ensures { result ≡ is_idle now talk.now }
{
    !is_started(talk.machine.stage()) && now >= IDLE_LIMIT && talk.heard <= now - IDLE_LIMIT
}

fn is_idle_side(now: u64, side: &Side) -> bool
    ensures { result ≡ is_idle_side now side.now }
{
    match side {
        Side::Operator(_) => false,
        Side::Control(talk) => is_idle(now, talk),
    }
}

/// Hangs a connection up, and ends its sessions.
fn hang_up_side<D: Shown>(hands: &mut Hands<D>, gone: &OpenConnection)
    requires book { IsBookOf hands.old.table.now hands.old.book.now }
    ensures same { AreSame hands.old hands.new }
    ensures book { IsBookOf hands.new.table.now hands.new.book.now }
    ensures done { (next : Plan) →
        Works D.seen (hang_up_side gone.now.number gone.now.side next) next hands.old hands.new }
{
    match &gone.side {
        Side::Operator(_) => hands.desk.drop_line(gone.number),
        Side::Control(talk) => hang_up_control(
            hands,
            gone.number,
            talk.machine.stage(),
            talk.sessions.list(),
        ),
    }
}

/// Hangs up each control connection that has given no octet for too long.
fn hang_up_idle<D: Shown>(places: &mut Places, hands: &mut Hands<D>, now: u64)
    requires book { IsBookOf hands.old.table.now hands.old.book.now }
    ensures same { AreSame hands.old hands.new }
    ensures book { IsBookOf hands.new.table.now hands.new.book.now }
    ensures state { state_of places.new ≡ at_connections (state_of places.old) places.new.connections.items }
    ensures done { (next : List DeclaredConnection → Plan) →
        Works D.seen (idle_plan now next [] places.old.connections.items) (next places.new.connections.items) hands.old hands.new }
{
    let mut at = 0;
    while at < places.connections.len() {
        if !is_idle_side(now, &places.connections[at].side) {
            at += 1;
            continue;
        }
        let gone = places.connections.remove(at);
        hang_up_side(hands, &gone);
    }
}

/// Time has passed: idle connections are hung up, and then the book's sessions are passed.
pub(crate) fn hear_tick<D: Shown>(places: &mut Places, hands: &mut Hands<D>, now: u64)
    requires book { IsBookOf hands.old.table.now hands.old.book.now }
    ensures same { AreSame hands.old hands.new }
    ensures book { IsBookOf hands.new.table.now hands.new.book.now }
    ensures done { (next : DeskState → Plan) →
        Works D.seen (ticked_plan now next (state_of places.old)) (next (state_of places.new)) hands.old hands.new }
{
    hang_up_idle(places, hands, now);
    let ticked = hands.book.tick(hands.table, now);
    hands.counts.add_ticked(&ticked);
}
