//! Why a session is not reserved.

ghost use Rattle.std.specs.Prelude.{◌≡◌, ◌↔◌, ◌&&◌, ◌+◌, ◌^◌, ◌<◌, ◌≤◌, ◌==◌, ℕ, not, true, nat_lt, length, slice_index, map, find, count_by, IsTrue, Some, None, if◌then◌else◌};
ghost use Rattle.std.specs.List.{list_any};
ghost use Rattle.refl_types.specs.Same.{same_key};
ghost use Rattle.config_rows.specs.Rows.{IsSought};
ghost use Rattle.config_rows.specs.declared.book.Sought as Sought;
ghost use Rattle.session_world.specs.Keys.{is_auth, has_key};
ghost use Rattle.session_desk.specs.Sessions.{has_mode_clash};
ghost use Rattle.session_desk.specs.Slots.{key_in, is_spent, is_left_over};

use crate::finding::clashes;
use crate::session::{ReserveFault, Slot, Use};
use crate::slots::slot_at;
use config_rows::{RowBook, Sought};
use refl_types::{Config, Key, Mode};
use slot_word::GREATEST_GENERATION;

/// The first key of an order that has the same ends in another mode.
pub fn earliest_clash(slots: &[Slot], order: &[u32], key: &Key) -> Option<Key>
    requires inside { (i : ℕ) → i < length order.now → slice_index order.now i < length slots.now }
    ensures { result ≡ find (λ j. has_mode_clash j key.now) (map (key_in slots.now) order.now) }
{
    for at in order {
        let other = &slot_at(slots, *at).session.key;
        if clashes(other, key) {
            return Some(*other);
        }
    }
    None
}

/// Whether the mode wants an HMAC key that the configuration does not have.
pub fn lacks_key(key: &Key, config: &Config) -> bool
    ensures { result ≡ (is_auth key.now && not (has_key config.now)) }
{
    match key.mode {
        Mode::Plain | Mode::Twamp => false,
        Mode::Auth => match &config.as_parts().key {
            Some(_) => false,
            None => true,
        },
    }
}

/// Whether the configuration has no row and none is left.
pub fn is_full(rows: &RowBook, config: &Config) -> bool
    ensures { IsTrue result ↔ IsSought rows.now config.now Sought.RowsFull }
{
    match rows.seek(config) {
        Sought::Known(_) | Sought::Next(_) => false,
        Sought::RowsFull => true,
    }
}

/// Whether a free slot has had all its generations.
fn is_spent(slot: &Slot) -> bool
    ensures { result ≡ is_spent slot.now }
{
    match slot.taken {
        Use::Reserved | Use::Live => false,
        Use::Free => slot.session.place.generation >= GREATEST_GENERATION,
    }
}

/// Whether a free slot has a generation left.
fn is_left_over(slot: &Slot) -> bool
    ensures { result ≡ is_left_over slot.now }
{
    match slot.taken {
        Use::Reserved | Use::Live => false,
        Use::Free => slot.session.place.generation < GREATEST_GENERATION,
    }
}

/// The refusal where no slot may be taken, of so many sessions.
pub fn want_of_slots(slots: &[Slot], live: usize, reserved: usize) -> ReserveFault
    requires count { length slots.now < 2 ^ 31 }
    requires live { live < 2 ^ 31 }
    requires reserved { reserved < 2 ^ 31 }
    ensures { result ≡ ReserveFault.Full live reserved (count_by is_spent slots.now) (count_by is_left_over slots.now) }
{
    ReserveFault::Full {
        live: live as u32,
        reserved: reserved as u32,
        retired: slots.iter().filter(|slot| is_spent(slot)).count() as u32,
        held: slots.iter().filter(|slot| is_left_over(slot)).count() as u32,
    }
}
