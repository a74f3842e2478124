//! A run of the desk over a joined desk.

ghost use Rattle.std.specs.Prelude.{◌≡◌, ◌≤◌, ℕ, List};
ghost use Rattle.session_desk.specs.Book.{IsBookOf};
ghost use Rattle.session_desk.specs.Going.{DeskWent};
ghost use Rattle.twamp_client.specs.declared.types.Wish.{Wish};
ghost use Rattle.joined_run.specs.Joining.{HasRunJoined, IsNew, event_limit};

use crate::laws::law_joined;
use control_desk::{DeskEnd, DeskRoom, DeskTally, run_desk};
use joined_desk::JoinDesk;
use session_desk::DeskBook;
use session_rule::Table;

/// Runs the desk over a joined desk as its `make` gave it, of a client as its `make` gave it, until its end: the client is then
/// granted just the sessions that were started.
pub fn run_joined(
    table: &Table,
    book: &mut DeskBook,
    room: &mut DeskRoom,
    desk: &mut JoinDesk,
    turns: u64,
) -> DeskTally
    requires book { IsBookOf table.now book.old }
    requires turns { event_limit ≤ turns }
    ensures end { (mode : ℕ) (wishes : List Wish) → IsNew mode wishes desk.old → result.end ≡ DeskEnd.End }
    ensures joined { (mode : ℕ) (wishes : List Wish) → IsNew mode wishes desk.old →
        HasRunJoined table.now room.old.setting turns room.old.state desk.old desk.new book.old book.new result }
    ensures went { DeskWent table.now book.old book.new }
    ensures book { IsBookOf table.now book.new }
{
    law_joined();
    room.law_ports();
    run_desk(table, book, room, desk, turns)
}
