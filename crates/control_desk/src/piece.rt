//! The octets of an operator.

ghost use Rattle.std.specs.Prelude.{ℕ, List, ◌∷◌};
ghost use Rattle.session_desk.specs.Book.{IsBookOf};
ghost use Rattle.control_desk.specs.State.{Setting, DeskState, at_names};
ghost use Rattle.control_desk.specs.Hands.{AreSame, Works};
ghost use Rattle.control_desk.specs.Operator.{Next, operator_plan, behind_octet, settled_piece};

use crate::answering::send_line;
use crate::counts::Verdict;
use crate::hands::{Hands, Heard};
use crate::line_buffer::LineBuffer;
use crate::names::Names;
use crate::operator::hear_line;
use crate::setting::Setting;
use crate::shown::Shown;
use operator_lines::{Answer, Refusal};

const LINE_FEED: u8 = 10;

/// Takes an octet of an operator.
fn hear_octet<D: Shown>(
    setting: &Setting,
    names: &mut Names,
    hands: &mut Hands<D>,
    heard: Heard,
    line: &mut LineBuffer,
    octet: u8,
) -> Verdict
    requires book { IsBookOf hands.old.table.now hands.old.book.now }
    ensures same { AreSame hands.old hands.new }
    ensures book { IsBookOf hands.new.table.now hands.new.book.now }
    ensures done { (s : DeskState) (next : Next) (rest : List ℕ) →
        Works D.seen (operator_plan setting.now heard.conn heard.now (at_names s names.old) next line.old (octet ∷ rest)) (behind_octet setting.now heard.conn heard.now next line.new rest result (at_names s names.new)) hands.old hands.new }
{
    if line.is_full() {
        let _sent = send_line(
            hands.desk,
            hands.counts,
            heard.conn,
            &Answer::Refused(Refusal::Line),
        );
        hands.desk.drop_line(heard.conn);
        return Verdict::Over;
    }
    line.push(octet);
    if octet != LINE_FEED {
        return Verdict::GoesOn;
    }
    let verdict = hear_line(setting, names, hands, heard, line.octets());
    line.clear();
    verdict
}

/// Takes octets of an operator, until the connection is over or the desk ends.
pub(crate) fn hear_operator<D: Shown>(
    setting: &Setting,
    names: &mut Names,
    hands: &mut Hands<D>,
    heard: Heard,
    line: &mut LineBuffer,
    octets: &[u8],
) -> Verdict
    requires book { IsBookOf hands.old.table.now hands.old.book.now }
    ensures same { AreSame hands.old hands.new }
    ensures book { IsBookOf hands.new.table.now hands.new.book.now }
    ensures done { (s : DeskState) (next : Next) →
        Works D.seen (operator_plan setting.now heard.conn heard.now (at_names s names.old) next line.old octets.now) (next result (settled_piece result heard.conn line.new (at_names s names.new))) hands.old hands.new }
{
    for octet in octets {
        match hear_octet(setting, names, hands, heard, line, *octet) {
            Verdict::GoesOn => {}
            Verdict::Over => return Verdict::Over,
            Verdict::Quits => return Verdict::Quits,
        }
    }
    Verdict::GoesOn
}
