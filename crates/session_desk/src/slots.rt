//! The slots of the book, and what calls make of their sessions.

ghost use Rattle.std.specs.Prelude.{◌≡◌, ◌+◌, ◌^◌, ◌<◌, length, slice_set, IfOk};
ghost use Rattle.session_desk.specs.Slots.{slot_in, free_slot_of, AreUnused, started_slot, set_slot, closing_slot, noted_slot, freed};
ghost use Rattle.slot_word.specs.Fields.{greatest_generation};
ghost use Rattle.session_desk.specs.Sessions.{new_session};

use crate::session::{Session, Slot, Use};
use expiry::Note;
use refl_types::{Address, Endpoint, Extra, Key, Mode, Place};
use slot_word::CLOSED;
use std::alloc::{AllocError, Global};

/// A slot that was never used.
fn unused(slot: u32) -> Slot
    ensures { result ≡ free_slot_of slot }
{
    let peer = Endpoint {
        address: Address::V4([0; 4]),
        port: 0,
    };
    let key = Key {
        local: 0,
        peer,
        mode: Mode::Plain,
        ssid: 0,
    };
    let extra = Extra {
        symmetrical: false,
        reflect: 0,
    };
    let place = Place {
        slot,
        generation: 0,
    };
    Slot {
        taken: Use::Free,
        session: new_session(&key, &extra, 0, &place, 0),
    }
}

/// As many slots that were never used.
pub fn unused_slots(alloc: Global, count: u32) -> Result<Vec<Slot>, AllocError>
    ensures { IfOk result (λ slots. AreUnused slots.items count) }
{
    let mut slots = Vec::new(alloc);
    for slot in 0..count {
        slots.push(unused(slot))?;
    }
    Ok(slots)
}

/// What the book keeps for a slot.
#[tactic(auto, using(crate::proofs::Orders::read_slot))]
#[inline]
pub fn slot_at(slots: &[Slot], at: u32) -> &Slot
    requires { at < length slots.now }
    ensures { result.now ≡ slot_in slots.now at }
{
    &slots[at as usize]
}

/// Keeps a new session for a slot, which is reserved.
pub fn reserve_at(slots: &mut Vec<Slot>, session: &Session)
    requires { session.now.place.slot < length slots.old.items }
    ensures { slots.new.items ≡ slice_set slots.old.items session.now.place.slot (record { taken = Use.Reserved; session = session.now }) }
{
    slots[session.place.slot as usize] = Slot {
        taken: Use::Reserved,
        session: *session,
    };
}

/// Makes a reserved session live: a start has read that word.
#[tactic(auto, using(crate::proofs::Orders::read_slot))]
pub fn start_at(slots: &mut Vec<Slot>, at: u32, word: u64, now: u64)
    requires { at < length slots.old.items }
    ensures { slots.new.items ≡ slice_set slots.old.items at (started_slot slots.old.items at word now) }
{
    let slot = &mut slots[at as usize];
    slot.taken = Use::Live;
    slot.session.note = Note {
        word: word & !CLOSED,
        moment: now,
    };
    slot.session.closing = None;
}

/// Frees a slot of its session.
#[tactic(auto, using(crate::proofs::Orders::read_slot))]
pub fn free_at(slots: &mut Vec<Slot>, at: u32)
    requires { at < length slots.old.items }
    ensures { slots.new.items ≡ slice_set slots.old.items at (freed slots.old.items at) }
{
    slots[at as usize].taken = Use::Free;
}

/// Gives a live session another row.
#[tactic(auto, using(crate::proofs::Orders::read_slot))]
pub fn set_row_at(slots: &mut Vec<Slot>, at: u32, row: u32)
    requires { at < length slots.old.items }
    ensures { slots.new.items ≡ slice_set slots.old.items at (set_slot slots.old.items at row) }
{
    slots[at as usize].session.row = row;
}

/// Sets the moment at which a live session is to be closed.
#[tactic(auto, using(crate::proofs::Orders::read_slot))]
pub fn set_closing_at(slots: &mut Vec<Slot>, at: u32, moment: u64)
    requires { at < length slots.old.items }
    ensures { slots.new.items ≡ slice_set slots.old.items at (closing_slot slots.old.items at moment) }
{
    slots[at as usize].session.closing = Some(moment);
}

/// Notes the word of a live session anew.
#[tactic(auto, using(crate::proofs::Orders::read_slot))]
pub fn note_at(slots: &mut Vec<Slot>, at: u32, word: u64, moment: u64)
    requires { at < length slots.old.items }
    ensures { slots.new.items ≡ slice_set slots.old.items at (noted_slot slots.old.items at word moment) }
{
    slots[at as usize].session.note = Note { word, moment };
}

/// The place of the next session in a slot.
pub fn next_place(slot: &Slot, at: u32) -> Place
    requires { slot.now.session.place.generation < greatest_generation }
    ensures { result ≡ record { slot = at; generation = slot.now.session.place.generation + 1 } }
{
    Place {
        slot: at,
        generation: slot.session.place.generation + 1,
    }
}

/// A session that is reserved.
pub fn new_session(key: &Key, extra: &Extra, row: u32, place: &Place, wait: u64) -> Session
    ensures { result ≡ new_session key.now extra.now row place.now wait }
{
    Session {
        key: *key,
        extra: *extra,
        row,
        place: *place,
        wait,
        note: Note { word: 0, moment: 0 },
        closing: None,
    }
}
