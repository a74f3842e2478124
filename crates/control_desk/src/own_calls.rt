//! The calls of the book for the sessions of a control connection, in the order in which they were reserved.

ghost use Rattle.std.specs.Prelude.{◌≡◌, if◌then◌else◌};
ghost use Rattle.session_desk.specs.Book.{IsBookOf};
ghost use Rattle.control_desk.specs.declared.counts.Counts as declared;
ghost use Rattle.control_desk.specs.Hands.{AreSame, Works};
ghost use Rattle.control_desk.specs.Plan.{Plan, Follows, DeskView, live_place};
ghost use Rattle.control_desk.specs.Control.{same_place, start_all, abandon_all, while_own, close_one, close_all, closing_moment, close_one_at, close_all_at, stop_all, end_all, hang_up_plan};

use crate::counts::Counts;
use crate::hands::Hands;
use crate::own::OwnSession;
use crate::shown::Shown;
use session_desk::{DeskBook, Place};
use session_rule::Table;
use twamp_control::Stage;

/// Starts them.
pub(crate) fn start_sessions<D: Shown>(
    table: &Table,
    book: &mut DeskBook,
    now: u64,
    own: &[OwnSession],
)
    requires book { IsBookOf table.now book.old }
    ensures book { IsBookOf table.now book.new }
    ensures done { (d : DeskView D.Setup D D.steps) (n : declared.Counts) (more : Plan) →
        Follows table.now (start_all now own.now more) more d d book.old book.new n n }
{
    for session in own {
        let _answer = book.start(table, &session.place, now);
    }
}

/// Gives them up.
pub(crate) fn abandon_sessions<D: Shown>(table: &Table, book: &mut DeskBook, own: &[OwnSession])
    requires book { IsBookOf table.now book.old }
    ensures book { IsBookOf table.now book.new }
    ensures done { (d : DeskView D.Setup D D.steps) (n : declared.Counts) (more : Plan) →
        Follows table.now (abandon_all own.now more) more d d book.old book.new n n }
{
    for session in own {
        let _answer = book.abandon(&session.place);
    }
}

fn same_place(a: &Place, b: &Place) -> bool
    ensures { result ≡ same_place a.now b.now }
{
    a.slot == b.slot && a.generation == b.generation
}

/// Whether a started session is the connection's still.
fn is_own<D: Shown>(table: &Table, book: &DeskBook, session: &OwnSession) -> bool
    ensures { (d : DeskView D.Setup D D.steps) (n : declared.Counts) (act more : Plan) →
        Follows table.now (live_place session.now.key (while_own session.now act more)) (if result then act else more) d d book.now book.now n n }
{
    match book.live_place(&session.key) {
        Some(place) => same_place(&place, &session.place),
        None => false,
    }
}

/// Closes a started session, where it is the connection's.
fn close_session<D: Shown>(
    table: &Table,
    book: &mut DeskBook,
    counts: &mut Counts,
    session: &OwnSession,
)
    requires book { IsBookOf table.now book.old }
    ensures book { IsBookOf table.now book.new }
    ensures done { (d : DeskView D.Setup D D.steps) (more : Plan) →
        Follows table.now (close_one session.now more) more d d book.old book.new counts.old counts.new }
{
    if !is_own::<D>(table, book, session) {
        return;
    }
    match book.close(table, &session.key) {
        Ok(_) => counts.add_closed(),
        Err(_) => {}
    }
}

/// Closes the started ones.
pub(crate) fn close_sessions<D: Shown>(
    table: &Table,
    book: &mut DeskBook,
    counts: &mut Counts,
    own: &[OwnSession],
)
    requires book { IsBookOf table.now book.old }
    ensures book { IsBookOf table.now book.new }
    ensures done { (d : DeskView D.Setup D D.steps) (more : Plan) →
        Follows table.now (close_all own.now more) more d d book.old book.new counts.old counts.new }
{
    for session in own {
        close_session::<D>(table, book, counts, session);
    }
}

/// The moment at which a session ends that a Stop-Sessions stopped now.
fn closing_moment(now: u64, session: &OwnSession) -> u64
    ensures { result ≡ closing_moment now session.now }
{
    now.saturating_add(session.timeout)
}

/// Sets the closing moment of a started session, where it is the connection's.
fn close_session_at<D: Shown>(table: &Table, book: &mut DeskBook, now: u64, session: &OwnSession)
    requires book { IsBookOf table.now book.old }
    ensures book { IsBookOf table.now book.new }
    ensures done { (d : DeskView D.Setup D D.steps) (n : declared.Counts) (more : Plan) →
        Follows table.now (close_one_at now session.now more) more d d book.old book.new n n }
{
    if is_own::<D>(table, book, session) {
        let moment = closing_moment(now, session);
        let _answer = book.close_at(&session.key, moment);
    }
}

/// Sets the closing moments of the started ones.
pub(crate) fn close_sessions_at<D: Shown>(
    table: &Table,
    book: &mut DeskBook,
    now: u64,
    own: &[OwnSession],
)
    requires book { IsBookOf table.now book.old }
    ensures book { IsBookOf table.now book.new }
    ensures done { (d : DeskView D.Setup D D.steps) (n : declared.Counts) (more : Plan) →
        Follows table.now (close_all_at now own.now more) more d d book.old book.new n n }
{
    for session in own {
        close_session_at::<D>(table, book, now, session);
    }
}

/// What a Stop-Sessions does.
pub(crate) fn stop_sessions<D: Shown>(
    table: &Table,
    book: &mut DeskBook,
    now: u64,
    stage: Stage,
    own: &[OwnSession],
)
    requires book { IsBookOf table.now book.old }
    ensures book { IsBookOf table.now book.new }
    ensures done { (d : DeskView D.Setup D D.steps) (n : declared.Counts) (more : Plan) →
        Follows table.now (stop_all stage now own.now more) more d d book.old book.new n n }
{
    match stage {
        Stage::Started => close_sessions_at::<D>(table, book, now, own),
        Stage::SettingUp | Stage::Idle | Stage::HungUp => {
            abandon_sessions::<D>(table, book, own)
        }
    }
}

/// What the end of the connection does.
pub(crate) fn end_sessions<D: Shown>(
    table: &Table,
    book: &mut DeskBook,
    counts: &mut Counts,
    stage: Stage,
    own: &[OwnSession],
)
    requires book { IsBookOf table.now book.old }
    ensures book { IsBookOf table.now book.new }
    ensures done { (d : DeskView D.Setup D D.steps) (more : Plan) →
        Follows table.now (end_all stage own.now more) more d d book.old book.new counts.old counts.new }
{
    match stage {
        Stage::Started => close_sessions::<D>(table, book, counts, own),
        Stage::SettingUp | Stage::Idle | Stage::HungUp => {
            abandon_sessions::<D>(table, book, own)
        }
    }
}

/// Hangs a control connection up, and then ends its sessions.
pub(crate) fn hang_up_control<D: Shown>(
    hands: &mut Hands<D>,
    conn: u32,
    stage: Stage,
    own: &[OwnSession],
)
    requires book { IsBookOf hands.old.table.now hands.old.book.now }
    ensures same { AreSame hands.old hands.new }
    ensures book { IsBookOf hands.new.table.now hands.new.book.now }
    ensures done { (gone : Plan) →
        Works D.seen (hang_up_plan conn stage own.now gone) gone hands.old hands.new }
{
    hands.desk.drop_line(conn);
    end_sessions::<D>(hands.table, hands.book, hands.counts, stage, own);
}
