//! The book.

ghost use Rattle.std.specs.Prelude.{◌≡◌, ◌<◌, ◌≤◌, ℕ, IfOk, IfErr, IsOk, [], true, false};
ghost use Rattle.refl_types.specs.Keys.{is_sound};
ghost use Rattle.session_world.specs.Desk.{is_split};
ghost use Rattle.session_rule.specs.declared.seats.Table.{Table};
ghost use Rattle.session_rule.specs.Seats.{size_of, IsNewTable, IsWorkerOf};
ghost use Rattle.session_desk.specs.Book.{IsBookOf, steps_of};
ghost use Rattle.session_desk.specs.Fits.{BookFits};
ghost use Rattle.session_desk.specs.Parting.{IsUnused, first_book, HasSplit, IsJoined};
ghost use Rattle.session_desk.specs.Makes.{Makes, admits, reserves, keeps_row, starts, abandons, sets, closes, closes_at, counts, ticks, tells_length, tells_key, tells_place};

use crate::finding::{excluding, free_slot, is_reserved_at, live_slot_of, same_key};
use crate::order::{drop_slot, keep_live, keep_taken, push_slot};
use crate::reach::{no_reach, shrink, start_of, widen};
use crate::refusing::{earliest_clash, is_full, lacks_key, want_of_slots};
use crate::session::{NoSuch, ReserveFault, RowsFull, SetFault, Slot, Ticked};
use crate::slots::{
    free_at, new_session, next_place, reserve_at, set_closing_at, set_row_at, slot_at, start_at,
    unused_slots,
};
use crate::ticking::pass_all;
use crate::writing::{scan_all, use_row, write_session};
use config_rows::{RowBook, law_words as law_configs};
use refl_types::{Config, Extra, Key, Memory, Place};
use session_key::place;
use session_rule::{
    Seat, Table, TableSize, WorkerSeat, close_slot, join_worker, peek_slot, reconfigure,
    split_worker, start_slot,
};
use session_world::{law_desk_did, law_desk_slots, law_walks, law_words};
use slot_word::{law_closed, unpack};
use std::alloc::Global;
use std::marker::Model;

/// The desk's seat, and what the desk keeps of its sessions. Contracts see it as a `Book`.
#[derive(Drop)]
pub struct DeskBook {
    seat: Seat,
    size: TableSize,
    rows: RowBook,
    slots: Vec<Slot>,
    /// The live slots in the order of starting.
    live: Vec<u32>,
    /// The reserved slots in the order of reserving.
    reserved: Vec<u32>,
    /// Both in the order of reserving.
    taken: Vec<u32>,
    /// How far from each slot the sessions lie whose walks start there.
    reach: Vec<u32>,
}

impl Model for DeskBook {
    ghost use Rattle.std.specs.Prelude.{◌≤◌, vec_capacity};
    ghost use Rattle.session_desk.specs.Book.{Book};
    ghost use Rattle.session_desk.specs.Kept.{IsKept, IsScheduled, book_of};
    ghost use Rattle.session_rule.specs.Seats.{desk_steps};

    ghost Value = { Book };

    ghost view = { λ b. book_of b.seat b.size b.rows b.slots.items b.live.items b.reserved.items b.taken.items };

    ghost invariant = { λ b. IsKept b.size (desk_steps b.seat) b.rows b.slots.items b.live.items b.reserved.items b.taken.items b.reach.items × IsScheduled b.size b.seat × (b.size.slots ≤ vec_capacity b.live) × (b.size.slots ≤ vec_capacity b.reserved) × (b.size.slots ≤ vec_capacity b.taken) };
}

impl DeskBook {
    /// The book of a table that was never used. It takes all its memory here; only want of memory refuses it, and then
    /// the seat is given up.
    pub fn make(alloc: Global, seat: Seat, size: TableSize) -> Result<DeskBook, Memory>
        requires new { IsUnused size seat }
        ensures made { IfOk result (λ book. book ≡ first_book seat size) }
        ensures same { (t : Table) → IsNewTable size t seat → IfOk result (IsBookOf t) }
    {
        let Ok(rows) = RowBook::make(alloc, size.rows) else {
            return Err(Memory);
        };
        let Ok(slots) = unused_slots(alloc, size.slots) else {
            return Err(Memory);
        };
        let Ok(live) = Vec::with_capacity(alloc, size.slots as usize) else {
            return Err(Memory);
        };
        let Ok(reserved) = Vec::with_capacity(alloc, size.slots as usize) else {
            return Err(Memory);
        };
        let Ok(taken) = Vec::with_capacity(alloc, size.slots as usize) else {
            return Err(Memory);
        };
        let Ok(reach) = no_reach(alloc, size.slots) else {
            return Err(Memory);
        };
        Ok(DeskBook {
            seat,
            size,
            rows,
            slots,
            live,
            reserved,
            taken,
            reach,
        })
    }

    /// What the book says of its sessions and rows always holds. It costs nothing.
    pub fn law_fits(&self)
        ensures { BookFits self.now }
    {
        law_desk_did();
        let _size = &self.size;
    }

    /// Splits a worker off: the least number from 1 on that isn't split off now. It needs no memory, and always succeeds.
    #[inline(always)]
    pub fn split(&mut self, table: &Table) -> Result<WorkerSeat, Memory>
        requires same { IsBookOf table.now self.old }
        requires room { (j : ℕ) × (0 < j) × (j ≤ (size_of table.now).workers) × (is_split (steps_of self.old) j ≡ false) }
        ensures always { IsOk result }
        ensures split_off { IfOk result (HasSplit table.now self.old self.new) }
        ensures same { IsBookOf table.now self.new }
    {
        let Ok(worker) = split_worker(table, &mut self.seat) else {
            unreachable!();
        };
        Ok(worker)
    }

    /// Joins a worker: its part of its number's list ends, and the number may be split off again.
    #[inline(always)]
    pub fn join(&mut self, table: &Table, worker: WorkerSeat)
        requires same { IsBookOf table.now self.old }
        requires worker { IsWorkerOf table.now worker }
        ensures joined { IsJoined table.now self.old worker self.new }
        ensures same { IsBookOf table.now self.new }
    {
        join_worker(table, &mut self.seat, worker);
    }

    /// Whether a session of the key with the configuration would be refused, whatever slots are free. It looks at no
    /// word of the table.
    pub fn admits(&self, key: &Key, config: &Config) -> Result<(), ReserveFault>
        ensures { (t : Table) → Makes t (admits key.now config.now result) self.now self.now }
    {
        if let Some(at) = excluding(&self.slots, &self.reach, key) {
            if same_key(&slot_at(&self.slots, at).session.key, key) {
                return Err(ReserveFault::Duplicate(*key));
            }
            let Some(other) = earliest_clash(&self.slots, &self.taken, key) else {
                unreachable!();
            };
            return Err(ReserveFault::ModeClash(other));
        }
        if lacks_key(key, config) {
            return Err(ReserveFault::NoKey);
        }
        if is_full(&self.rows, config) {
            return Err(ReserveFault::RowsFull);
        }
        Ok(())
    }

    /// Reserves a slot for a session, which may idle for `wait` nanoseconds (0 is for ever). Answers its place. Each
    /// announcement is loaded once, and only where nothing else stands against the session.
    pub fn reserve(
        &mut self,
        table: &Table,
        key: &Key,
        extra: &Extra,
        config: &Config,
        wait: u64,
    ) -> Result<Place, ReserveFault>
        requires same { IsBookOf table.now self.old }
        requires sound { is_sound key.now extra.now ≡ true }
        ensures made { Makes table.now (reserves key.now extra.now config.now wait result) self.old self.new }
        ensures same { IsBookOf table.now self.new }
    {
        if let Err(fault) = self.admits(key, config) {
            return Err(fault);
        }
        law_configs();
        law_desk_did();
        law_desk_slots();
        law_walks();
        let words = scan_all(table, &mut self.seat, self.size.workers);
        let start = place(key.local, &key.peer, self.size.slots);
        let Some(at) = free_slot(&self.slots, &words, self.size.workers, start) else {
            return Err(want_of_slots(&self.slots, self.live.len(), self.reserved.len()));
        };
        let place = next_place(slot_at(&self.slots, at), at);
        let Ok(row) = write_session(
            table,
            &mut self.seat,
            &mut self.rows,
            &place,
            key,
            extra,
            config,
        ) else {
            unreachable!();
        };
        let session = new_session(key, extra, row, &place, wait);
        reserve_at(&mut self.slots, &session);
        push_slot(&mut self.reserved, place.slot);
        push_slot(&mut self.taken, place.slot);
        widen(&mut self.reach, self.size.slots, start, place.slot);
        Ok(place)
    }

    /// Gives a configuration a row, if it has none, so that no session with it is refused for want of rows.
    pub fn keep_row(&mut self, table: &Table, config: &Config) -> Result<(), RowsFull>
        requires same { IsBookOf table.now self.old }
        ensures made { Makes table.now (keeps_row config.now result) self.old self.new }
        ensures same { IsBookOf table.now self.new }
    {
        law_configs();
        law_desk_did();
        let Ok(_row) = use_row(table, &mut self.seat, &mut self.rows, config) else {
            return Err(RowsFull);
        };
        Ok(())
    }

    /// Opens the reserved session of a place, with count 0, and notes its word at the moment `now`, in nanoseconds.
    pub fn start(&mut self, table: &Table, place: &Place, now: u64) -> Result<(), NoSuch>
        requires same { IsBookOf table.now self.old }
        ensures made { Makes table.now (starts place.now now result) self.old self.new }
        ensures same { IsBookOf table.now self.new }
    {
        if !is_reserved_at(&self.slots, place) {
            return Err(NoSuch);
        }
        law_closed();
        law_desk_did();
        law_desk_slots();
        let word = start_slot(table, &mut self.seat, place.slot);
        start_at(&mut self.slots, place.slot, word, now);
        drop_slot(&mut self.reserved, place.slot);
        push_slot(&mut self.live, place.slot);
        Ok(())
    }

    /// Gives up the reserved session of a place.
    pub fn abandon(&mut self, place: &Place) -> Result<(), NoSuch>
        ensures made { (t : Table) → Makes t (abandons place.now result) self.old self.new }
        ensures same { (t : Table) → IsBookOf t self.old → IsBookOf t self.new }
    {
        if !is_reserved_at(&self.slots, place) {
            return Err(NoSuch);
        }
        free_at(&mut self.slots, place.slot);
        drop_slot(&mut self.reserved, place.slot);
        drop_slot(&mut self.taken, place.slot);
        let start = start_of(&self.slots, place.slot);
        shrink(&mut self.reach, &self.slots, start);
        Ok(())
    }

    /// Gives the live session of a key another configuration.
    pub fn set(&mut self, table: &Table, key: &Key, config: &Config) -> Result<(), SetFault>
        requires same { IsBookOf table.now self.old }
        ensures made { Makes table.now (sets key.now config.now result) self.old self.new }
        ensures same { IsBookOf table.now self.new }
    {
        let Some(at) = live_slot_of(&self.slots, &self.reach, key) else {
            return Err(SetFault::NoSuch);
        };
        if lacks_key(key, config) {
            return Err(SetFault::NoKey);
        }
        law_configs();
        law_desk_did();
        let Ok(row) = use_row(table, &mut self.seat, &mut self.rows, config) else {
            return Err(SetFault::RowsFull);
        };
        let old = slot_at(&self.slots, at).session.row;
        reconfigure(table, &mut self.seat, at, old, row);
        set_row_at(&mut self.slots, at, row);
        Ok(())
    }

    /// Closes the live session of a key. Answers how many numbers it had drawn, modulo 2^32.
    pub fn close(&mut self, table: &Table, key: &Key) -> Result<u32, NoSuch>
        requires same { IsBookOf table.now self.old }
        ensures made { Makes table.now (closes key.now result) self.old self.new }
        ensures same { IsBookOf table.now self.new }
    {
        let Some(at) = live_slot_of(&self.slots, &self.reach, key) else {
            return Err(NoSuch);
        };
        let word = close_slot(table, &mut self.seat, at);
        free_at(&mut self.slots, at);
        drop_slot(&mut self.live, at);
        drop_slot(&mut self.taken, at);
        let start = start_of(&self.slots, at);
        shrink(&mut self.reach, &self.slots, start);
        Ok(unpack(word).sequence)
    }

    /// Sets the moment, in nanoseconds, from which on a tick closes the live session of a key. It replaces an earlier one.
    pub fn close_at(&mut self, key: &Key, moment: u64) -> Result<(), NoSuch>
        ensures made { (t : Table) → Makes t (closes_at key.now moment result) self.old self.new }
        ensures same { (t : Table) → IsBookOf t self.old → IsBookOf t self.new }
    {
        let Some(at) = live_slot_of(&self.slots, &self.reach, key) else {
            return Err(NoSuch);
        };
        set_closing_at(&mut self.slots, at, moment);
        Ok(())
    }

    /// Counts the numbers that the live session of a key has drawn, modulo 2^32.
    pub fn count(&mut self, table: &Table, key: &Key) -> Result<u32, NoSuch>
        requires same { IsBookOf table.now self.old }
        ensures made { Makes table.now (counts key.now result) self.old self.new }
        ensures same { IsBookOf table.now self.new }
    {
        let Some(at) = live_slot_of(&self.slots, &self.reach, key) else {
            return Err(NoSuch);
        };
        law_words();
        let word = peek_slot(table, &mut self.seat, at);
        Ok(unpack(word).sequence)
    }

    /// Passes the live sessions in the order of starting at the moment `now`, in nanoseconds. One whose closing moment has
    /// come is closed. Any other is looked at, and closed where its word is as noted and its wait has passed, unless it
    /// draws meanwhile; where its word has changed it is noted anew.
    pub fn tick(&mut self, table: &Table, now: u64) -> Ticked
        requires same { IsBookOf table.now self.old }
        ensures made { Makes table.now (ticks now result) self.old self.new }
        ensures same { IsBookOf table.now self.new }
    {
        law_words();
        let ticked = pass_all(
            table,
            &mut self.seat,
            &mut self.slots,
            &mut self.reach,
            &self.live,
            now,
        );
        keep_live(&mut self.live, &self.slots);
        keep_taken(&mut self.taken, &self.slots);
        ticked
    }

    /// How many sessions are live.
    pub fn live_len(&self) -> u32
        ensures { (t : Table) → Makes t (tells_length result) self.now self.now }
    {
        self.live.len() as u32
    }

    /// The key of a live session by its number in the order of starting, from 0 on; none past the last.
    pub fn live_at(&self, index: u32) -> Option<Key>
        ensures { (t : Table) → Makes t (tells_key index result) self.now self.now }
    {
        let Some(at) = self.live.get(index as usize) else {
            return None;
        };
        Some(slot_at(&self.slots, *at).session.key)
    }

    /// The place of the live session of a key; none where the key isn't live.
    pub fn live_place(&self, key: &Key) -> Option<Place>
        ensures { (t : Table) → Makes t (tells_place key.now result) self.now self.now }
    {
        let Some(at) = live_slot_of(&self.slots, &self.reach, key) else {
            return None;
        };
        Some(slot_at(&self.slots, at).session.place)
    }
}
