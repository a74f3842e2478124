//! How far from each slot the sessions lie whose walks start there: no walk needs to go further.

ghost use Rattle.std.specs.Prelude.{◌≡◌, ℕ, ◌+◌, ◌^◌, ◌<◌, ◌≤◌, true, ◌&&◌, ◌==◌, max, length, replicate, IfOk, slice_set, slice_index, slice_index_or};
ghost use Rattle.session_world.specs.Keys.{distance};
ghost use Rattle.session_world.specs.declared.steps.TableSize.{TableSize};
ghost use Rattle.session_key.specs.Placing.{place_of};
ghost use Rattle.session_desk.specs.Slots.{key_in, taken_in, is_taken, Reaches};

use crate::session::{Slot, Use};
use crate::slots::slot_at;
use session_key::place;
use session_world::law_walks;
use std::alloc::{AllocError, Global};

/// The reach of as many slots where there are no sessions.
pub fn no_reach(alloc: Global, count: u32) -> Result<Vec<u32>, AllocError>
    ensures { IfOk result (λ reach. reach.items ≡ replicate count 0) }
{
    vec![in alloc; 0; count as usize]
}

/// How many slots further than `start` a slot is, past the last to the first.
#[tactic(auto, unfolding(session_world::specs::Keys::distance))]
fn distance(count: u32, start: u32, at: u32) -> u32
    requires { (start < count) × (at < count) × (count < 2 ^ 31) }
    ensures value { result ≡ distance count start at }
    ensures range { result < count }
{
    if start <= at {
        at - start
    } else {
        at + count - start
    }
}

/// Lets walks from a start come to a slot.
pub fn widen(reach: &mut Vec<u32>, count: u32, start: u32, at: u32)
    requires { (start < count) × (at < count) × (count < 2 ^ 31) × (length reach.old.items ≡ count) }
    ensures { reach.new.items ≡ slice_set reach.old.items start (max (slice_index reach.old.items start) (distance count start at + 1)) }
{
    let far = distance(count, start, at) + 1;
    reach[start as usize] = far.max(reach[start as usize]);
}

/// The slot that is so much further than a start.
#[tactic(auto, unfolding(session_world::specs::Keys::distance))]
fn slot_after(count: u32, start: u32, passed: u32) -> u32
    requires { (start < count) × (passed < count) × (count < 2 ^ 31) }
    ensures range { result < count }
    ensures distance { distance count start result ≡ passed }
{
    let at = start + passed;
    if at < count { at } else { at - count }
}

/// Where walks for the session that a slot has, or had last, start.
pub fn start_of(slots: &[Slot], at: u32) -> u32
    requires inside { at < length slots.now }
    requires count { length slots.now < 2 ^ 31 }
    ensures value { result ≡ place_of (key_in slots.now at).local (key_in slots.now at).peer (length slots.now) }
    ensures range { result < length slots.now }
{
    let key = &slot_at(slots, at).session.key;
    place(key.local, &key.peer, slots.len() as u32)
}

/// Whether the slot is taken by a session whose walks start at a slot.
fn starts_at(slots: &[Slot], at: u32, start: u32) -> bool
    requires inside { at < length slots.now }
    requires count { length slots.now < 2 ^ 31 }
    ensures { result ≡ (is_taken (taken_in slots.now at) && (place_of (key_in slots.now at).local (key_in slots.now at).peer (length slots.now) == start)) }
{
    match slot_at(slots, at).taken {
        Use::Free => false,
        Use::Reserved | Use::Live => start_of(slots, at) == start,
    }
}

/// Lets walks from a start end at the last session that they are for.
pub fn shrink(reach: &mut Vec<u32>, slots: &[Slot], start: u32)
    requires count { length slots.now < 2 ^ 31 }
    requires inside { start < length slots.now }
    requires width { length reach.old.items ≡ length slots.now }
    requires range { (i : ℕ) → slice_index_or reach.old.items i 0 ≤ length slots.now }
    ensures width { length reach.new.items ≡ length slots.now }
    ensures range { (i : ℕ) → slice_index_or reach.new.items i 0 ≤ length slots.now }
    ensures reaches { (z : TableSize) → z.slots ≡ length slots.now → Reaches z slots.now reach.old.items → Reaches z slots.now reach.new.items }
{
    law_walks();
    let count = slots.len() as u32;
    let mut far = reach[start as usize];
    while far > 0 && !starts_at(slots, slot_after(count, start, far - 1), start) {
        far -= 1;
    }
    reach[start as usize] = far;
}
