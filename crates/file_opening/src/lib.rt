//! The sessions of the file, opened in the desk's book before anybody is served.
#![tactic(auto)]

ghost use Rattle.std.specs.Prelude.{◌≡◌, ℕ, ◌+◌, ◌<◌, ◌≤◌, length, take, IfOk};
ghost use Rattle.session_rule.specs.Seats.{size_of};
ghost use Rattle.session_desk.specs.Book.{Book};
ghost use Rattle.session_desk.specs.Going.{DeskWent};
ghost use Rattle.conf_text.specs.Rows.{distinct, in_use};
ghost use Rattle.file_opening.specs.Opening.{size_in, IsNewBook, OpensAll, KeepsRow, OpensFile};
ghost use Rattle.file_opening.specs.Opened.{HasOpened};
ghost use Rattle.file_opening.specs.OpenedFirst.{HasOpenedFirst};

use conf_text::Conf;
use refl_types::Memory;
use session_desk::DeskBook;
use session_rule::{Table, TableSize, open_table};
use std::alloc::Global;

mod laws;
#[cfg(test)]
mod tests;

pub use laws::law_only_used;

/// A table of the file's size, and its book.
pub fn new_table(alloc: Global, conf: &Conf) -> Result<(Table, DeskBook), Memory>
    ensures size { IfOk result (λ r. size_of r.0 ≡ size_in conf.now) }
    ensures new { IfOk result (λ r. IsNewBook r.0 conf.now r.1) }
{
    let size = TableSize {
        slots: conf.slots(),
        rows: conf.rows(),
        workers: conf.workers(),
    };
    let Ok((table, seat)) = open_table(alloc, size) else {
        return Err(Memory);
    };
    let Ok(book) = DeskBook::make(alloc, seat, size) else {
        return Err(Memory);
    };
    Ok((table, book))
}

/// Opens the session of that index of the file, where those before it are open.
fn open_session(table: &Table, book: &mut DeskBook, conf: &Conf, index: usize, moment: u64)
    requires inside { index < length conf.now.sessions }
    requires first { HasOpenedFirst table.now conf.now moment index book.old }
    ensures went { DeskWent table.now book.old book.new }
    ensures opens { (first : Book) → OpensAll table.now moment (take index conf.now.sessions) first book.old → OpensAll table.now moment (take (index + 1) conf.now.sessions) first book.new }
    ensures next { HasOpenedFirst table.now conf.now moment (index + 1) book.new }
{
    let session = &conf.sessions()[index];
    let Ok(place) = book.reserve(
        table,
        &session.key,
        &session.extra,
        &session.config,
        session.wait,
    ) else {
        unreachable!();
    };
    let Ok(()) = book.start(table, &place, moment) else {
        unreachable!();
    };
}

/// Gives the configuration `twamp` a row, where the file has one. There is room, where no row but those of sessions of the file
/// was given.
fn keep_twamp(table: &Table, book: &mut DeskBook, conf: &Conf)
    requires first { (moment n : ℕ) × HasOpenedFirst table.now conf.now moment n book.old }
    requires rows { length (distinct (in_use conf.now.twamp conf.now.sessions)) ≤ conf.now.rows }
    ensures { KeepsRow table.now conf.now.twamp book.old book.new }
{
    let Some(config) = conf.twamp() else {
        return;
    };
    let Ok(()) = book.keep_row(table, config) else {
        unreachable!();
    };
}

/// Opens the sessions of the file in their order, each with its configuration and its wait, at the moment `moment`, in
/// nanoseconds since the start of 1970; and gives the configuration `twamp` a row, where the file has one. None is refused.
pub fn open_sessions(table: &Table, book: &mut DeskBook, conf: &Conf, moment: u64)
    requires new { IsNewBook table.now conf.now book.old }
    ensures opens { OpensFile table.now conf.now moment book.old book.new }
    ensures opened { HasOpened table.now conf.now moment book.old book.new }
{
    for index in 0..conf.sessions().len() {
        open_session(table, book, conf, index, moment);
    }
    keep_twamp(table, book, conf);
}
