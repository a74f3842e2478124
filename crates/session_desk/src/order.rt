//! The orders of slots: those of live sessions in the order of starting, those of reserved sessions in the order of
//! reserving, and those of both in the order of reserving.

ghost use Rattle.std.specs.Prelude.{◌≡◌, ◌<◌, ◌==◌, ◌++◌, ◌∷◌, [], not, length, vec_capacity};
ghost use Rattle.std.specs.List.{filter};
ghost use Rattle.session_desk.specs.Slots.{taken_in, is_live, is_taken};

use crate::finding::{is_live_at, is_taken_at};
use crate::session::Slot;

/// Takes a slot out of an order.
pub fn drop_slot(order: &mut Vec<u32>, slot: u32)
    ensures items { order.new.items ≡ filter (λ j. not (j == slot)) order.old.items }
    ensures room { vec_capacity order.new ≡ vec_capacity order.old }
{
    order.retain(|j| *j != slot);
}

/// Puts a slot at the end of an order that has room.
pub fn push_slot(order: &mut Vec<u32>, slot: u32)
    requires room { length order.old.items < vec_capacity order.old }
    ensures items { order.new.items ≡ order.old.items ++ slot ∷ [] }
    ensures room { vec_capacity order.new ≡ vec_capacity order.old }
{
    order.push_reserved(slot);
}

/// Leaves the live slots alone in an order.
pub fn keep_live(order: &mut Vec<u32>, slots: &[Slot])
    ensures items { order.new.items ≡ filter (λ j. is_live (taken_in slots.now j)) order.old.items }
    ensures room { vec_capacity order.new ≡ vec_capacity order.old }
{
    order.retain(|j| is_live_at(slots, *j));
}

/// Leaves the live and the reserved slots alone in an order.
pub fn keep_taken(order: &mut Vec<u32>, slots: &[Slot])
    ensures items { order.new.items ≡ filter (λ j. is_taken (taken_in slots.now j)) order.old.items }
    ensures room { vec_capacity order.new ≡ vec_capacity order.old }
{
    order.retain(|j| is_taken_at(slots, *j));
}
