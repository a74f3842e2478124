//! The fate of a live session at a tick.

ghost use Rattle.std.specs.Prelude.{◌≡◌, ℕ, ◌+◌, ◌^◌, ◌<◌, ◌≤◌, true, length, slice_index_or};
ghost use Rattle.slot_word.specs.Fields.{is_open_word};
ghost use Rattle.session_world.specs.Desk.{is_open};
ghost use Rattle.session_world.specs.declared.steps.TableSize.{TableSize};
ghost use Rattle.session_rule.specs.Seats.{size_of, IsDeskOf, desk_steps, joined_parts, IsDeskOfOneSchedule};
ghost use Rattle.session_desk.specs.Ticking.{is_due};
ghost use Rattle.session_desk.specs.Slots.{session_in, is_live, AreSlots, IsOrder, Reaches};
ghost use Rattle.session_desk.specs.Passing.{HasPassed, HavePassed, once_closed, once_expired};

use crate::reach::{shrink, start_of};
use crate::session::{Slot, Ticked};
use crate::slots::{free_at, note_at, slot_at};
use expiry::{Verdict, judge_note};
use session_rule::{Seat, Table, close_slot, expire_slot, peek_slot};

/// What has become of a live session.
#[derive(Clone, Copy, Debug, PartialEq, Eq)]
pub enum Passed {
    /// It is live still.
    Stays,
    /// It was closed, since its closing moment had come.
    Closed,
    /// It was closed, since it had idled away.
    Expired,
}

/// Whether a closing moment has come.
fn is_due(closing: Option<u64>, now: u64) -> bool
    ensures { result ≡ is_due now closing }
{
    match closing {
        None => false,
        Some(moment) => moment <= now,
    }
}

/// Passes a live session at a moment: closes it where its closing moment has come; looks at it where not, and closes it
/// where it has idled away, unless it draws meanwhile.
pub fn pass_slot(table: &Table, seat: &mut Seat, slots: &mut Vec<Slot>, at: u32, now: u64) -> Passed
    requires same { IsDeskOf table.now seat.old }
    requires inside { (at < length slots.old.items) × (at < (size_of table.now).slots) }
    requires live { is_open (desk_steps seat.old) at ≡ true }
    requires noted { is_open_word (session_in slots.old.items at).note.word ≡ true }
    ensures { HasPassed table.now seat.old slots.old.items at now result seat.new slots.new.items }
{
    let session = &slot_at(slots, at).session;
    let (note, wait) = (session.note, session.wait);
    if is_due(session.closing, now) {
        close_slot(table, seat, at);
        free_at(slots, at);
        return Passed::Closed;
    }
    let word = peek_slot(table, seat, at);
    match judge_note(&note, word, now, wait) {
        Verdict::Keep => Passed::Stays,
        Verdict::Renew => {
            note_at(slots, at, word, now);
            Passed::Stays
        }
        Verdict::Expire => {
            let found = expire_slot(table, seat, at, word);
            if found == word {
                free_at(slots, at);
                Passed::Expired
            } else {
                note_at(slots, at, found, now);
                Passed::Stays
            }
        }
    }
}

/// Ends walks earlier where a session is gone.
fn settle(reach: &mut Vec<u32>, slots: &[Slot], at: u32, passed: Passed)
    requires count { length slots.now < 2 ^ 31 }
    requires inside { at < length slots.now }
    requires width { length reach.old.items ≡ length slots.now }
    requires range { (i : ℕ) → slice_index_or reach.old.items i 0 ≤ length slots.now }
    ensures width { length reach.new.items ≡ length slots.now }
    ensures range { (i : ℕ) → slice_index_or reach.new.items i 0 ≤ length slots.now }
    ensures reaches { (z : TableSize) → z.slots ≡ length slots.now → Reaches z slots.now reach.old.items → Reaches z slots.now reach.new.items }
{
    if passed != Passed::Stays {
        let start = start_of(slots, at);
        shrink(reach, slots, start);
    }
}

impl Ticked {
    /// With one session more.
    fn with(self, passed: Passed) -> Ticked
        requires room { (self.closed < 2 ^ 31) × (self.expired < 2 ^ 31) }
        ensures closed { result.closed ≡ self.closed + once_closed passed }
        ensures expired { result.expired ≡ self.expired + once_expired passed }
    {
        match passed {
            Passed::Stays => self,
            Passed::Closed => Ticked {
                closed: self.closed + 1,
                expired: self.expired,
            },
            Passed::Expired => Ticked {
                closed: self.closed,
                expired: self.expired + 1,
            },
        }
    }
}

/// Passes the live sessions in their order.
pub fn pass_all(
    table: &Table,
    seat: &mut Seat,
    slots: &mut Vec<Slot>,
    reach: &mut Vec<u32>,
    live: &[u32],
    now: u64,
) -> Ticked
    requires same { IsDeskOf table.now seat.old }
    requires size { (size_of table.now).slots < 2 ^ 31 }
    requires schedule { IsDeskOfOneSchedule (size_of table.now) (desk_steps seat.old) (joined_parts seat.old) }
    requires slots { AreSlots (size_of table.now) (desk_steps seat.old) slots.old.items }
    requires order { IsOrder is_live slots.old.items live.now }
    requires width { length reach.old.items ≡ length slots.old.items }
    requires range { (i : ℕ) → slice_index_or reach.old.items i 0 ≤ length slots.old.items }
    ensures passed { HavePassed table.now seat.old slots.old.items live.now now result seat.new slots.new.items }
    ensures width { length reach.new.items ≡ length slots.old.items }
    ensures range { (i : ℕ) → slice_index_or reach.new.items i 0 ≤ length slots.old.items }
    ensures reaches { Reaches (size_of table.now) slots.old.items reach.old.items → Reaches (size_of table.now) slots.new.items reach.new.items }
{
    let mut ticked = Ticked {
        closed: 0,
        expired: 0,
    };
    for at in live {
        let passed = pass_slot(table, seat, slots, *at, now);
        settle(reach, slots, *at, passed);
        ticked = ticked.with(passed);
    }
    ticked
}
