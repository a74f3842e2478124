//! Finding sessions by their keys and by their places.

ghost use Rattle.std.specs.Prelude.{◌≡◌, ℕ, ◌<◌, ◌≤◌, ◌==◌, ◌^◌, true, false, ◌&&◌, List, length, IfSome, IfNone, slice_index_or};
ghost use Rattle.refl_types.specs.Same.{same_key};
ghost use Rattle.session_world.specs.declared.steps.TableSize.{TableSize};
ghost use Rattle.session_world.specs.declared.steps.Step.{Step};
ghost use Rattle.session_world.specs.Keys.{next_slot};
ghost use Rattle.session_key.specs.Matching.{excludes};
ghost use Rattle.session_desk.specs.Sessions.{is_at, is_of, has_mode_clash};
ghost use Rattle.session_desk.specs.Slots.{slot_in, session_in, taken_in, is_taken, is_live, is_reserving, may_take, AreSlots, IsAlone, IsFirst, Reaches};

use crate::session::{Slot, Use};
use crate::slots::slot_at;
use crate::writing::is_named;
use refl_types::{Key, Place};
use session_key::place;
use session_world::law_walks;
use slot_word::GREATEST_GENERATION;

/// Whether the slot of a place is reserved under that place.
pub fn is_reserved_at(slots: &[Slot], place: &Place) -> bool
    ensures { result ≡ (is_reserving (taken_in slots.now place.now.slot) && is_at place.now (session_in slots.now place.now.slot)) }
{
    match slots.get(place.slot as usize) {
        None => false,
        Some(slot) => {
            matches!(slot.taken, Use::Reserved)
                && slot.session.place.slot == place.slot
                && slot.session.place.generation == place.generation
        }
    }
}

#[tactic(auto, unfolding(refl_types::specs::Same::same_key))]
pub fn same_key(a: &Key, b: &Key) -> bool
    ensures { result ≡ same_key a.now b.now }
{
    a == b
}

/// Whether the slot is taken by the session of a key.
fn holds(slot: &Slot, key: &Key) -> bool
    ensures { result ≡ (is_taken slot.now.taken && is_of key.now slot.now.session) }
{
    match slot.taken {
        Use::Free => false,
        Use::Reserved | Use::Live => same_key(&slot.session.key, key),
    }
}

/// The slot after this one, past the last the first.
#[tactic(auto, unfolding(session_world::specs::Keys::next_slot))]
fn next_slot(at: u32, count: u32) -> u32
    requires { at < count }
    ensures { result ≡ next_slot count at }
{
    if at + 1 == count { 0 } else { at + 1 }
}

/// The slot of the reserved or live session with a key.
pub fn slot_of(slots: &[Slot], reach: &[u32], key: &Key) -> Option<u32>
    requires some { (0 < length slots.now) × (length slots.now < 2 ^ 31) }
    requires width { length reach.now ≡ length slots.now }
    requires range { (i : ℕ) → slice_index_or reach.now i 0 ≤ length slots.now }
    ensures found { IfSome result (λ i. (i < length slots.now) × (is_taken (taken_in slots.now i) ≡ true) × (is_of key.now (session_in slots.now i) ≡ true)) }
    ensures none { IfNone result ((z : TableSize) → z.slots ≡ length slots.now → Reaches z slots.now reach.now → (i : ℕ) → i < z.slots → is_taken (taken_in slots.now i) ≡ true → is_of key.now (session_in slots.now i) ≡ false) }
{
    law_walks();
    let count = slots.len() as u32;
    let mut at = place(key.local, &key.peer, count);
    for _ in 0..reach[at as usize] {
        if holds(slot_at(slots, at), key) {
            return Some(at);
        }
        at = next_slot(at, count);
    }
    None
}

/// Whether a slot is live; one that isn't there isn't.
pub fn is_live_at(slots: &[Slot], at: u32) -> bool
    ensures { result ≡ is_live (taken_in slots.now at) }
{
    match slots.get(at as usize) {
        None => false,
        Some(slot) => matches!(slot.taken, Use::Live),
    }
}

/// Whether a slot is live or reserved; one that isn't there is neither.
pub fn is_taken_at(slots: &[Slot], at: u32) -> bool
    ensures { result ≡ is_taken (taken_in slots.now at) }
{
    match slots.get(at as usize) {
        None => false,
        Some(slot) => !matches!(slot.taken, Use::Free),
    }
}

/// The slot of the live session with a key.
pub fn live_slot_of(slots: &[Slot], reach: &[u32], key: &Key) -> Option<u32>
    requires some { (0 < length slots.now) × (length slots.now < 2 ^ 31) }
    requires width { length reach.now ≡ length slots.now }
    requires range { (i : ℕ) → slice_index_or reach.now i 0 ≤ length slots.now }
    ensures found { IfSome result (λ i. (i < length slots.now) × (is_live (taken_in slots.now i) ≡ true) × (is_of key.now (session_in slots.now i) ≡ true)) }
    ensures none { IfNone result ((z : TableSize) (ds : List Step) → AreSlots z ds slots.now → Reaches z slots.now reach.now → (i : ℕ) → i < z.slots → is_live (taken_in slots.now i) ≡ true → is_of key.now (session_in slots.now i) ≡ false) }
{
    let Some(at) = slot_of(slots, reach, key) else {
        return None;
    };
    if is_live_at(slots, at) {
        Some(at)
    } else {
        None
    }
}

/// Whether a reserve may take the slot.
fn may_take(slots: &[Slot], at: u32, words: &[u64; 64], workers: u32) -> bool
    requires inside { at < length slots.now }
    requires workers { workers ≤ 64 }
    ensures { result ≡ may_take slots.now workers words.now at }
{
    let slot = slot_at(slots, at);
    match slot.taken {
        Use::Reserved | Use::Live => false,
        Use::Free => {
            let generation = slot.session.place.generation;
            generation == 0 || (generation < GREATEST_GENERATION && !is_named(words, workers, at))
        }
    }
}

/// The first slot from the start on that a reserve may take.
pub fn free_slot(slots: &[Slot], words: &[u64; 64], workers: u32, start: u32) -> Option<u32>
    requires some { (start < length slots.now) × (length slots.now < 2 ^ 31) }
    requires workers { workers ≤ 64 }
    ensures found { IfSome result (λ i. IsFirst slots.now workers words.now start i) }
    ensures none { IfNone result ((j : ℕ) → j < length slots.now → may_take slots.now workers words.now j ≡ false) }
{
    law_walks();
    let count = slots.len() as u32;
    let mut at = start;
    for _ in 0..count {
        if may_take(slots, at, words, workers) {
            return Some(at);
        }
        at = next_slot(at, count);
    }
    None
}

/// Whether a key has the same ends as another, in another mode.
#[tactic(auto, unfolding(crate::specs::Sessions::has_mode_clash))]
pub fn clashes(a: &Key, b: &Key) -> bool
    ensures { result ≡ has_mode_clash a.now b.now }
{
    a.local == b.local && a.peer == b.peer && a.mode != b.mode
}

/// Whether two sessions may not have these keys at once.
#[tactic(auto, unfolding(session_key::specs::Matching::excludes, crate::specs::Sessions::has_mode_clash))]
fn key_excludes(a: &Key, b: &Key) -> bool
    ensures { result ≡ excludes a.now b.now }
{
    same_key(a, b) || clashes(a, b)
}

/// Whether the slot is taken by a session that excludes the key.
fn excludes(slot: &Slot, key: &Key) -> bool
    ensures { result ≡ (is_taken slot.now.taken && excludes slot.now.session.key key.now) }
{
    match slot.taken {
        Use::Free => false,
        Use::Reserved | Use::Live => key_excludes(&slot.session.key, key),
    }
}

/// The slot of a session that excludes a key.
pub fn excluding(slots: &[Slot], reach: &[u32], key: &Key) -> Option<u32>
    requires some { (0 < length slots.now) × (length slots.now < 2 ^ 31) }
    requires width { length reach.now ≡ length slots.now }
    requires range { (i : ℕ) → slice_index_or reach.now i 0 ≤ length slots.now }
    ensures found { IfSome result (λ i. (i < length slots.now) × ((is_taken (taken_in slots.now i) && excludes (session_in slots.now i).key key.now) ≡ true)) }
    ensures none { IfNone result ((z : TableSize) → z.slots ≡ length slots.now → Reaches z slots.now reach.now → IsAlone z slots.now key.now) }
{
    law_walks();
    let count = slots.len() as u32;
    let mut at = place(key.local, &key.peer, count);
    for _ in 0..reach[at as usize] {
        if excludes(slot_at(slots, at), key) {
            return Some(at);
        }
        at = next_slot(at, count);
    }
    None
}
