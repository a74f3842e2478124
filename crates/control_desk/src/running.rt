//! Events, one after the other.

ghost use Rattle.std.specs.Prelude.{◌≡◌, ◌≤◌, ◌≢◌, true, false, take, IsTrue};
ghost use Rattle.net_io.specs.Desk.{octet_count};
ghost use Rattle.session_desk.specs.Book.{IsBookOf};
ghost use Rattle.control_desk.specs.State.{Setting, DeskState};
ghost use Rattle.control_desk.specs.Connections.{state_of};
ghost use Rattle.control_desk.specs.Hands.{AreSame, Works};
ghost use Rattle.control_desk.specs.Plan.{Plan, stop};
ghost use Rattle.control_desk.specs.Run.{event_plan, behind_event, desk_plan, is_over};

use crate::counts::{DeskEnd, Verdict};
use crate::hands::{Caller, Hands, Heard};
use crate::hearing::{hear_bytes, hear_closed, hear_opened};
use crate::room::Places;
use crate::setting::Setting;
use crate::shown::Shown;
use crate::ticking::hear_tick;
use net_io::{DeskEvent, PIECE_ROOM, Timed};

/// Calls for the next event that fail in a row and end the desk.
const FAULT_LIMIT: u64 = 64;

/// Hears an event.
fn hear_event<D: Shown>(
    setting: &Setting,
    places: &mut Places,
    hands: &mut Hands<D>,
    timed: &Timed,
    piece: &[u8; PIECE_ROOM],
) -> Verdict
    requires book { IsBookOf hands.old.table.now hands.old.book.now }
    requires len { octet_count timed.now.event ≤ 4096 }
    requires going { timed.now.event ≢ DeskEvent.End }
    ensures same { AreSame hands.old hands.new }
    ensures book { IsBookOf hands.new.table.now hands.new.book.now }
    ensures done { (more : DeskState → Plan) →
        Works D.seen (event_plan setting.now (state_of places.old) timed.now.moment (take (octet_count timed.now.event) piece.now) (behind_event more) timed.now.event) (behind_event more result (state_of places.new)) hands.old hands.new }
{
    let now = timed.moment;
    match timed.event {
        DeskEvent::Opened {
            conn,
            kind,
            peer,
            local,
        } => {
            let caller = Caller { kind, peer, local };
            let heard = Heard { conn, now };
            hear_opened(
                setting.twamp(),
                places,
                hands.desk,
                hands.counts,
                heard,
                &caller,
            );
            Verdict::GoesOn
        }
        DeskEvent::Bytes { conn, len } => hear_bytes(
            setting,
            places,
            hands,
            Heard { conn, now },
            &piece[..len],
        ),
        DeskEvent::Closed { conn } => {
            hear_closed::<D>(places, hands.table, hands.book, hands.counts, conn);
            Verdict::GoesOn
        }
        DeskEvent::Tick => {
            hear_tick(places, hands, now);
            Verdict::GoesOn
        }
        DeskEvent::End => unreachable!(),
    }
}

/// Whether no event comes any more.
fn is_end(event: &DeskEvent) -> bool
    ensures end { result ≡ true → event.now ≡ DeskEvent.End }
    ensures going { result ≡ false → event.now ≢ DeskEvent.End }
{
    matches!(event, DeskEvent::End)
}

/// Whether the calls that failed in a row end the desk, where as many calls are left.
fn is_over(left: u64, failed: u64) -> bool
    ensures { result ≡ is_over left failed }
{
    left != 0 && failed >= FAULT_LIMIT
}

/// Hears event after event, until the desk ends.
pub(crate) fn hear_all<D: Shown>(
    setting: &Setting,
    places: &mut Places,
    hands: &mut Hands<D>,
    turns: u64,
) -> DeskEnd
    requires book { IsBookOf hands.old.table.now hands.old.book.now }
    requires open { IsTrue (D.seen hands.old.desk.now).shown.is_open }
    ensures same { AreSame hands.old hands.new }
    ensures book { IsBookOf hands.new.table.now hands.new.book.now }
    ensures done { Works D.seen (desk_plan setting.now turns 0 (state_of places.old)) (stop result) hands.old hands.new }
{
    let mut piece = [0; PIECE_ROOM];
    let mut left = turns;
    let mut failed = 0;
    while left > 0 {
        left -= 1;
        match hands.desk.take_event(hands.counts, &mut piece) {
            None => {
                failed += 1;
                if is_over(left, failed) {
                    return DeskEnd::Fault;
                }
            }
            Some(timed) => {
                failed = 0;
                places.begin(timed.moment);
                if is_end(&timed.event) {
                    return DeskEnd::End;
                }
                let verdict = hear_event(setting, places, hands, &timed, &piece);
                if verdict.is_quits() {
                    return DeskEnd::Quit;
                }
            }
        }
    }
    DeskEnd::Budget
}
