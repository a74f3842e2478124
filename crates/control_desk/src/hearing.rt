//! Octets of a connection, and its opening and its end.

ghost use Rattle.std.specs.Prelude.{◌≡◌, ◌<◌, ℕ, length, Some};
ghost use Rattle.session_desk.specs.Book.{Book, IsBookOf};
ghost use Rattle.session_rule.specs.declared.seats.Table.{Table};
ghost use Rattle.control_desk.specs.State.{Setting, DeskState, at_names, side_in, without};
ghost use Rattle.control_desk.specs.Connections.{state_of, settled_side};
ghost use Rattle.control_desk.specs.Hands.{AreSame, Works};
ghost use Rattle.control_desk.specs.Plan.{Plan, DeskView, Follows};
ghost use Rattle.control_desk.specs.Operator.{Next};
ghost use Rattle.control_desk.specs.Run.{opened_plan, bytes_plan, closed_plan, behind_event, greet};

use crate::connections::index_of;
use crate::counts::{Counts, Verdict};
use crate::hands::{Caller, Hands, Heard};
use crate::line_buffer::LineBuffer;
use crate::names::Names;
use crate::own::OwnSessions;
use crate::own_calls::end_sessions;
use crate::piece::hear_operator;
use crate::room::Places;
use crate::setting::Setting;
use crate::shown::Shown;
use crate::sides::{ControlSide, OpenConnection, Side};
use crate::talking::hear_control;
use control_msgs::write_greeting;
use net_io::ConnKind;
use refl_types::Config;
use session_desk::DeskBook;
use session_rule::Table;
use twamp_control::Machine;

/// A connection is opened. A number that is in use is ignored.
pub(crate) fn hear_opened<D: Shown>(
    twamp: &Option<Config>,
    places: &mut Places,
    desk: &mut D,
    counts: &mut Counts,
    heard: Heard,
    caller: &Caller,
)
    ensures { (f : Setting) (t : Table) (next : DeskState → Plan) (b : Book) → f.twamp ≡ twamp.now →
        Follows t (opened_plan f (state_of places.old) heard.conn heard.now caller.now.kind caller.now.peer caller.now.local next (side_in places.old.connections.items heard.conn)) (next (state_of places.new)) (D.seen desk.old) (D.seen desk.new) b b counts.old counts.new }
{
    if places.has(heard.conn) {
        return;
    }
    if places.refuses(twamp, caller.kind) {
        desk.drop_line(heard.conn);
        return;
    }
    match caller.kind {
        ConnKind::Operator => places.add(heard.conn, Side::Operator(LineBuffer::new())),
        ConnKind::Control => greet_client(places, desk, counts, heard, caller),
    }
}

/// Sends the greeting on a control connection, and keeps the connection where it was sent.
fn greet_client<D: Shown>(
    places: &mut Places,
    desk: &mut D,
    counts: &mut Counts,
    heard: Heard,
    caller: &Caller,
)
    requires { length places.old.connections.items < 32 }
    ensures { (t : Table) (next : DeskState → Plan) (b : Book) →
        Follows t (greet (state_of places.old) heard.conn heard.now caller.now.peer caller.now.local next ConnKind.Control) (next (state_of places.new)) (D.seen desk.old) (D.seen desk.new) b b counts.old counts.new }
{
    let mut out = [0; 64];
    write_greeting(&mut out);
    if !desk.tell(counts, heard.conn, &out) {
        desk.drop_line(heard.conn);
        return;
    }
    let side = ControlSide {
        machine: Machine::new(places.started.unwrap_or(heard.now)),
        peer: caller.peer,
        local: caller.local,
        heard: heard.now,
        sessions: OwnSessions::new(),
    };
    places.add(heard.conn, Side::Control(side));
}

/// Octets of a side.
fn hear_side<D: Shown>(
    setting: &Setting,
    names: &mut Names,
    hands: &mut Hands<D>,
    heard: Heard,
    side: &mut Side,
    octets: &[u8],
) -> Verdict
    requires book { IsBookOf hands.old.table.now hands.old.book.now }
    ensures same { AreSame hands.old hands.new }
    ensures book { IsBookOf hands.new.table.now hands.new.book.now }
    ensures done { (s : DeskState) (next : Next) →
        Works D.seen (bytes_plan setting.now (at_names s names.old) heard.conn heard.now octets.now next (Some side.old)) (next result (settled_side result heard.conn side.new (at_names s names.new))) hands.old hands.new }
{
    match side {
        Side::Operator(line) => hear_operator(setting, names, hands, heard, line, octets),
        Side::Control(talk) => {
            if hear_control(setting, hands, heard, talk, octets) {
                return Verdict::GoesOn;
            }
            Verdict::Over
        }
    }
}

/// Octets of a connection. A number that is not in use is ignored.
pub(crate) fn hear_bytes<D: Shown>(
    setting: &Setting,
    places: &mut Places,
    hands: &mut Hands<D>,
    heard: Heard,
    octets: &[u8],
) -> Verdict
    requires book { IsBookOf hands.old.table.now hands.old.book.now }
    ensures same { AreSame hands.old hands.new }
    ensures book { IsBookOf hands.new.table.now hands.new.book.now }
    ensures done { (more : DeskState → Plan) →
        Works D.seen (bytes_plan setting.now (state_of places.old) heard.conn heard.now octets.now (behind_event more) (side_in places.old.connections.items heard.conn)) (behind_event more result (state_of places.new)) hands.old hands.new }
{
    let Some(at) = index_of(&places.connections, heard.conn) else {
        return Verdict::GoesOn;
    };
    let verdict = hear_side(
        setting,
        &mut places.names,
        hands,
        heard,
        &mut places.connections[at].side,
        octets,
    );
    if verdict.is_over() {
        let _gone = places.connections.remove(at);
    }
    verdict
}

/// What the end of a connection does with its sessions.
fn end_side<D: Shown>(
    table: &Table,
    book: &mut DeskBook,
    counts: &mut Counts,
    gone: &OpenConnection,
)
    requires book { IsBookOf table.now book.old }
    ensures book { IsBookOf table.now book.new }
    ensures done { (d : DeskView D.Setup D D.steps) (s : DeskState) (n : ℕ) (next : DeskState → Plan) →
        Follows table.now (closed_plan s n next (Some gone.now.side)) (next (without s n)) d d book.old book.new counts.old counts.new }
{
    match &gone.side {
        Side::Operator(_) => {}
        Side::Control(talk) => {
            end_sessions::<D>(
                table,
                book,
                counts,
                talk.machine.stage(),
                talk.sessions.list(),
            )
        }
    }
}

/// A peer has closed its connection. A number that is not in use is ignored.
pub(crate) fn hear_closed<D: Shown>(
    places: &mut Places,
    table: &Table,
    book: &mut DeskBook,
    counts: &mut Counts,
    conn: u32,
)
    requires book { IsBookOf table.now book.old }
    ensures book { IsBookOf table.now book.new }
    ensures done { (d : DeskView D.Setup D D.steps) (next : DeskState → Plan) →
        Follows table.now (closed_plan (state_of places.old) conn next (side_in places.old.connections.items conn)) (next (state_of places.new)) d d book.old book.new counts.old counts.new }
{
    let Some(at) = index_of(&places.connections, conn) else {
        return;
    };
    let gone = places.connections.remove(at);
    end_side::<D>(table, book, counts, &gone);
}
