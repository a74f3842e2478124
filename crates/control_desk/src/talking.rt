//! What the messages of a control connection do.

ghost use Rattle.std.specs.Prelude.{◌≡◌, ◌≤◌, [], ◌∷◌, List, length, drop, if◌then◌else◌};
ghost use Rattle.twamp_control.specs.Connection.{unless_hung_up};
ghost use Rattle.session_rule.specs.declared.seats.Table.{Table};
ghost use Rattle.session_desk.specs.Book.{Book, IsBookOf};
ghost use Rattle.control_desk.specs.declared.sides.ControlSide.{ControlSide as DeclaredSide};
ghost use Rattle.control_desk.specs.State.{Setting};
ghost use Rattle.control_desk.specs.Hands.{AreSame, Works};
ghost use Rattle.control_desk.specs.Plan.{Plan, Follows};
ghost use Rattle.control_desk.specs.Control.{send_some, reply_plan, message_plan, control_plan};

use crate::counts::Counts;
use crate::hands::{Hands, Heard};
use crate::own_calls::{hang_up_control, start_sessions, stop_sessions};
use crate::requests::reserve_session;
use crate::setting::Setting;
use crate::shown::Shown;
use crate::sides::ControlSide;
use session_rule::Table;
use twamp_control::{Ask, DeskAnswer, Message, Stage};

/// Sends octets, if there are any. Whether they were sent.
fn send_some<D: Shown>(desk: &mut D, counts: &mut Counts, conn: u32, octets: &[u8]) -> bool
    ensures { (t : Table) (sent failed : Plan) (b : Book) →
        Follows t (send_some conn octets.now sent failed) (if result then sent else failed) (D.seen desk.old) (D.seen desk.new) b b counts.old counts.new }
{
    match octets {
        [] => true,
        [_, ..] => desk.tell(counts, conn, octets),
    }
}

/// The stage in which the connection's sessions are, where its own was `before` and is `after`.
fn stage_behind(before: Stage, after: Stage) -> Stage
    ensures { result ≡ unless_hung_up after before after }
{
    match after {
        Stage::HungUp => before,
        Stage::SettingUp | Stage::Idle | Stage::Started => after,
    }
}

/// Sends the reply to a message, if it has one, and hangs the connection up where the table says so, or where the reply
/// couldn't be sent. Whether the connection goes on.
fn reply<D: Shown>(
    hands: &mut Hands<D>,
    heard: Heard,
    side: &mut ControlSide,
    message: &Message,
    answer: &DeskAnswer,
) -> bool
    requires book { IsBookOf hands.old.table.now hands.old.book.now }
    ensures same { AreSame hands.old hands.new }
    ensures book { IsBookOf hands.new.table.now hands.new.book.now }
    ensures done { (more : DeclaredSide → Plan) (gone : Plan) →
        Works D.seen (reply_plan heard.conn heard.now more gone message.now side.old answer.now) (if result then more side.new else gone) hands.old hands.new }
{
    let before = side.machine.stage();
    let mut out = [0; 64];
    let stepped = side.machine.step(message, answer, heard.now, &mut out);
    let stage = stage_behind(before, side.machine.stage());
    if !send_some(hands.desk, hands.counts, heard.conn, &out[..stepped.len]) {
        hang_up_control(hands, heard.conn, stage, side.sessions.list());
        return false;
    }
    if stepped.hang_up {
        hang_up_control(hands, heard.conn, stage, side.sessions.list());
        return false;
    }
    true
}

/// Does what a message asks. What was done.
fn do_asked<D: Shown>(
    setting: &Setting,
    hands: &mut Hands<D>,
    heard: Heard,
    side: &mut ControlSide,
    message: &Message,
) -> DeskAnswer
    requires book { IsBookOf hands.old.table.now hands.old.book.now }
    ensures same { AreSame hands.old hands.new }
    ensures book { IsBookOf hands.new.table.now hands.new.book.now }
    ensures done { (more : DeclaredSide → Plan) (gone : Plan) →
        Works D.seen (message_plan setting.now heard.conn heard.now more gone side.old (message.now ∷ [])) (reply_plan heard.conn heard.now more gone message.now side.new result) hands.old hands.new }
{
    match side.machine.ask(message) {
        Ask::Reserve(request) => {
            reserve_session::<D>(
                setting.locals(),
                setting.twamp(),
                hands.table,
                hands.book,
                side,
                &request,
            )
        }
        Ask::StartAll => {
            start_sessions::<D>(hands.table, hands.book, heard.now, side.sessions.list());
            DeskAnswer::Done
        }
        Ask::StopAll { .. } => {
            let current = side.machine.stage();
            stop_sessions::<D>(
                hands.table,
                hands.book,
                heard.now,
                current,
                side.sessions.list(),
            );
            side.sessions.clear();
            DeskAnswer::Done
        }
        Ask::Nothing => DeskAnswer::Done,
        Ask::HangUp => DeskAnswer::Done,
    }
}

/// Does what a message asks, and replies. Whether the connection goes on.
fn hear_message<D: Shown>(
    setting: &Setting,
    hands: &mut Hands<D>,
    heard: Heard,
    side: &mut ControlSide,
    message: &Message,
) -> bool
    requires book { IsBookOf hands.old.table.now hands.old.book.now }
    ensures same { AreSame hands.old hands.new }
    ensures book { IsBookOf hands.new.table.now hands.new.book.now }
    ensures done { (more : DeclaredSide → Plan) (gone : Plan) →
        Works D.seen (message_plan setting.now heard.conn heard.now more gone side.old (message.now ∷ [])) (if result then more side.new else gone) hands.old hands.new }
{
    let answer = do_asked(setting, hands, heard, side, message);
    reply(hands, heard, side, message, &answer)
}

/// The octets from a place on.
fn rest_of(octets: &[u8], at: usize) -> &[u8]
    requires { at ≤ length octets.now }
    ensures { result.now ≡ drop at octets.now }
{
    &octets[at..]
}

/// Takes octets of a control connection, until it is hung up. Whether it goes on.
pub(crate) fn hear_control<D: Shown>(
    setting: &Setting,
    hands: &mut Hands<D>,
    heard: Heard,
    side: &mut ControlSide,
    octets: &[u8],
) -> bool
    requires book { IsBookOf hands.old.table.now hands.old.book.now }
    ensures same { AreSame hands.old hands.new }
    ensures book { IsBookOf hands.new.table.now hands.new.book.now }
    ensures done { (more : DeclaredSide → Plan) (gone : Plan) →
        Works D.seen (control_plan setting.now heard.conn heard.now more gone side.old octets.now) (if result then more side.new else gone) hands.old hands.new }
{
    let mut at = 0;
    while at < octets.len() {
        side.heard = heard.now;
        let (taken, maybe) = side.machine.feed(rest_of(octets, at));
        at += taken;
        let Some(message) = maybe else {
            return true;
        };
        if !hear_message(setting, hands, heard, side, &message) {
            return false;
        }
    }
    true
}
