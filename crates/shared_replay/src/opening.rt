//! A session is opened.

ghost use Rattle.std.specs.Prelude.{◌≡◌, suc, ◌+◌, ◌≤◌, ◌^◌, true, length};
ghost use Rattle.refl_types.specs.Keys.{is_sound};
ghost use Rattle.session_desk.specs.Book.{steps_of};
ghost use Rattle.session_desk.specs.Calls.{NoCause};
ghost use Rattle.session_desk.specs.Fits.{reserves_in};
ghost use Rattle.replay_table.specs.Table as replay;
ghost use Rattle.shared_replay.specs.Stands.{HoldsTable, IsDesk, IsDeskAfter, HasBegun, HasOpened, refusal};

use crate::sessions::SESSIONS;
use refl_types::{Config, Extra, Key};
use replay_format::OpenAnswer;
use session_desk::{DeskBook, ReserveFault, law_places_stay};
use session_rule::Table;
use session_world::{law_calls_tell, law_desk_did, law_desk_slots, law_rows_stay};

/// The answer to an opening that the book refuses.
fn refusal(fault: ReserveFault) -> OpenAnswer
    ensures { result ≡ refusal fault }
{
    match fault {
        ReserveFault::Duplicate(_) => OpenAnswer::Duplicate,
        ReserveFault::ModeClash(_) => OpenAnswer::ModeClash,
        ReserveFault::NoKey => OpenAnswer::NoKey,
        ReserveFault::RowsFull => OpenAnswer::RowsFull,
        ReserveFault::Full { .. } => OpenAnswer::Full,
    }
}

/// Opens a session that the book admits and for which there is room.
fn begin(
    table: &Table,
    book: &mut DeskBook,
    key: &Key,
    extra: &Extra,
    config: &Config,
) -> OpenAnswer
    requires desk { IsDesk table.now book.old }
    requires room { suc (length book.old.live) ≤ 1024 }
    requires cause { NoCause book.old key.now config.now }
    requires sound { is_sound key.now extra.now ≡ true }
    ensures after { IsDeskAfter table.now book.old book.new }
    ensures reserves { reserves_in (steps_of book.new) ≤ reserves_in (steps_of book.old) + 1 }
    ensures began { (t : replay.Table) → HasBegun book.old t (record { key = key.now; extra = extra.now; config = config.now }) result book.new }
{
    law_calls_tell();
    law_places_stay();
    law_rows_stay();
    book.law_fits();
    let Ok(place) = book.reserve(table, key, extra, config, 0) else {
        book.law_fits();
        return OpenAnswer::Full;
    };
    book.law_fits();
    let Ok(()) = book.start(table, &place, 0) else {
        unreachable!();
    };
    book.law_fits();
    OpenAnswer::Opened
}

/// Opens a session, or says why not: the book is asked first, then how many sessions there are.
pub fn open(
    table: &Table,
    book: &mut DeskBook,
    key: &Key,
    extra: &Extra,
    config: &Config,
) -> OpenAnswer
    requires desk { IsDesk table.now book.old }
    requires sound { is_sound key.now extra.now ≡ true }
    ensures after { IsDeskAfter table.now book.old book.new }
    ensures reserves { reserves_in (steps_of book.new) ≤ reserves_in (steps_of book.old) + 1 }
    ensures opened { (t : replay.Table) → HoldsTable book.old t → reserves_in (steps_of book.old) ≤ 2 ^ 29 → HasOpened t (record { key = key.now; extra = extra.now; config = config.now }) result book.new }
{
    law_desk_did();
    law_desk_slots();
    book.law_fits();
    if let Err(fault) = book.admits(key, config) {
        return refusal(fault);
    }
    if book.live_len() as usize == SESSIONS {
        return OpenAnswer::Full;
    }
    begin(table, book, key, extra, config)
}
