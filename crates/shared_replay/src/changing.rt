//! Sessions that are open are changed and closed.

ghost use Rattle.std.specs.Prelude.{◌≡◌};
ghost use Rattle.session_desk.specs.Book.{steps_of};
ghost use Rattle.session_desk.specs.Fits.{reserves_in};
ghost use Rattle.replay_table.specs.Table as replay;
ghost use Rattle.replay_table.specs.Apart.{AreApart};
ghost use Rattle.shared_replay.specs.Stands.{HoldsTable, IsDesk, IsDeskAfter, HasSet, HasClosed, set_refusal};

use refl_types::{Config, Key};
use replay_format::SetAnswer;
use session_desk::{DeskBook, SetFault};
use session_rule::Table;
use session_world::{law_calls_tell, law_desk_did, law_desk_slots, law_rows_stay};

/// The answer to a setting that the book refuses.
fn refusal(fault: SetFault) -> SetAnswer
    ensures { result ≡ set_refusal fault }
{
    match fault {
        SetFault::NoSuch => SetAnswer::NoSuch,
        SetFault::NoKey => SetAnswer::NoKey,
        SetFault::RowsFull => SetAnswer::RowsFull,
    }
}

/// Gives a session another configuration, or says why not. Its count stays.
pub fn set(table: &Table, book: &mut DeskBook, key: &Key, config: &Config) -> SetAnswer
    requires desk { IsDesk table.now book.old }
    ensures after { IsDeskAfter table.now book.old book.new }
    ensures reserves { reserves_in (steps_of book.new) ≡ reserves_in (steps_of book.old) }
    ensures set { (t : replay.Table) → HoldsTable book.old t → HasSet t (record { key = key.now; config = config.now }) result book.new }
{
    law_calls_tell();
    law_desk_did();
    law_desk_slots();
    law_rows_stay();
    book.law_fits();
    if let Err(fault) = book.set(table, key, config) {
        return refusal(fault);
    }
    book.law_fits();
    SetAnswer::Set
}

/// Closes the session of a key, and says how many numbers it had drawn, modulo 2^32.
pub fn close(table: &Table, book: &mut DeskBook, key: &Key) -> Option<u32>
    requires desk { IsDesk table.now book.old }
    ensures after { IsDeskAfter table.now book.old book.new }
    ensures reserves { reserves_in (steps_of book.new) ≡ reserves_in (steps_of book.old) }
    ensures closed { (t : replay.Table) → HoldsTable book.old t → AreApart t.sessions → HasClosed t key.now result book.new }
{
    law_calls_tell();
    law_rows_stay();
    book.law_fits();
    let Ok(count) = book.close(table, key) else {
        return None;
    };
    book.law_fits();
    Some(count)
}
