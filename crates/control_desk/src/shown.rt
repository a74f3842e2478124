//! A desk as the plan sees it: each thing that it does is an act of the plan.

use crate::counts::Counts;
use net_io::{Desk, PIECE_ROOM, Timed};

/// A desk whose calls are told as acts of a plan.
pub trait Shown: Desk {
    ghost use Rattle.std.specs.Prelude.{◌≡◌, ◌≤◌, ℕ, List, IsTrue, IfSome, length, take, if◌then◌else◌};
    ghost use Rattle.net_io.specs.declared.desk.Timed.{Timed};
    ghost use Rattle.net_io.specs.Desk.{DeskEntry, octet_count};
    ghost use Rattle.session_rule.specs.declared.seats.Table.{Table};
    ghost use Rattle.session_desk.specs.Book.{Book};
    ghost use Rattle.control_desk.specs.declared.counts.Counts as declared;
    ghost use Rattle.control_desk.specs.Plan.{DeskView, Plan, Follows, hear, heard_plan, send, hang_up};

    // How it goes on by an entry of its log.
    ghost steps: { Self → DeskEntry → Self → Type 0 };
    // Itself, and what it shows of itself.
    ghost seen: { Self → DeskView Self.Setup Self steps };

    /// Waits for the next event, and counts it or the failure. The octets that come with it stand at the front of the buffer.
    fn take_event(&mut self, counts: &mut Counts, buf: &mut [u8; PIECE_ROOM]) -> Option<Timed>
        requires { IsTrue (seen self.old).shown.is_open }
        ensures len { IfSome result (λ t. octet_count t.event ≤ 4096) }
        ensures done { (t : Table) (given : Timed → List ℕ → Plan) (failed : Plan) (b : Book) →
            Follows t (hear given failed) (heard_plan given failed buf.new result) (seen self.old) (seen self.new) b b counts.old counts.new };

    /// Sends octets on a connection, and says whether they were sent. A failure is counted.
    fn tell(&mut self, counts: &mut Counts, conn: u32, octets: &[u8]) -> bool
        ensures { (t : Table) (ok failed : Plan) (b : Book) →
            Follows t (send conn octets.now ok failed) (if result then ok else failed) (seen self.old) (seen self.new) b b counts.old counts.new };

    /// Hangs a connection up.
    fn drop_line(&mut self, conn: u32)
        ensures { (t : Table) (next : Plan) (b : Book) (n : declared.Counts) →
            Follows t (hang_up conn next) next (seen self.old) (seen self.new) b b n n };
}

impl<D: Desk> Shown for D {
    ghost use Rattle.std.specs.Prelude.{◌≡◌, ◌≤◌, ℕ, List, IsTrue, IfSome, length, take, if◌then◌else◌};
    ghost use Rattle.net_io.specs.declared.desk.Timed.{Timed};
    ghost use Rattle.net_io.specs.Desk.{DeskEntry, octet_count};
    ghost use Rattle.session_rule.specs.declared.seats.Table.{Table};
    ghost use Rattle.session_desk.specs.Book.{Book};
    ghost use Rattle.control_desk.specs.declared.counts.Counts as declared;
    ghost use Rattle.control_desk.specs.Plan.{DeskView, Plan, Follows, view_of, hear, heard_plan, send, hang_up};

    ghost steps = { D.goes };

    ghost seen = { λ d. view_of d (D.shown d) };

    fn take_event(&mut self, counts: &mut Counts, buf: &mut [u8; PIECE_ROOM]) -> Option<Timed> {
        match self.next(buf) {
            Ok(timed) => {
                counts.add_event();
                Some(timed)
            }
            Err(_) => {
                counts.add_fault();
                None
            }
        }
    }

    fn tell(&mut self, counts: &mut Counts, conn: u32, octets: &[u8]) -> bool {
        match self.send(conn, octets) {
            Ok(()) => true,
            Err(_) => {
                counts.add_fault();
                false
            }
        }
    }

    fn drop_line(&mut self, conn: u32) {
        self.hang_up(conn);
    }
}
