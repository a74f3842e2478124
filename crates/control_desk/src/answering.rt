//! Answers to operators.

ghost use Rattle.std.specs.Prelude.{◌≡◌, if◌then◌else◌};
ghost use Rattle.session_rule.specs.declared.seats.Table.{Table};
ghost use Rattle.session_desk.specs.Book.{Book};
ghost use Rattle.operator_lines.specs.Answers.{answer_text};
ghost use Rattle.control_desk.specs.State.{DeskState, settled};
ghost use Rattle.control_desk.specs.Plan.{Plan, Follows, send};
ghost use Rattle.control_desk.specs.Operator.{Next, say};

use crate::counts::{Counts, Verdict};
use crate::shown::Shown;
use operator_lines::{Answer, write_answer};

/// Sends a line, and says whether it was sent.
pub(crate) fn send_line<D: Shown>(
    desk: &mut D,
    counts: &mut Counts,
    conn: u32,
    line: &Answer,
) -> bool
    ensures { (t : Table) (ok failed : Plan) (b : Book) →
        Follows t (send conn (answer_text line.now) ok failed) (if result then ok else failed) (D.seen desk.old) (D.seen desk.new) b b counts.old counts.new }
{
    let mut out = [0; 512];
    let len = write_answer(line, &mut out);
    desk.tell(counts, conn, &out[..len])
}

/// Sends a line. Where that fails, the connection is hung up.
pub(crate) fn answer<D: Shown>(
    desk: &mut D,
    counts: &mut Counts,
    conn: u32,
    line: &Answer,
) -> Verdict
    ensures { (t : Table) (s : DeskState) (next : Next) (b : Book) →
        Follows t (say conn line.now s next) (next result (settled result conn s)) (D.seen desk.old) (D.seen desk.new) b b counts.old counts.new }
{
    if send_line(desk, counts, conn, line) {
        return Verdict::GoesOn;
    }
    desk.drop_line(conn);
    Verdict::Over
}
