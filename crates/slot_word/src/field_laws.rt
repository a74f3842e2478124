//! What callers may know of a slot's word.

ghost use Rattle.std.specs.Prelude.{◌≡◌, ℕ, ◌+◌, ◌-◌, ◌*◌, ◌%◌, ◌^◌, ◌<◌, ◌≤◌, Bool, true, false, not, bit_and, bit_or, bit_xor};
ghost use Rattle.slot_word.specs.Fields.{sequence_unit, generation_unit, row_unit, closed_bit, greatest_generation, greatest_row, sequence_in, generation_in, row_in, is_open_word, word_of, HasFields, Drawn, Keeps, Exchanged};

use crate::{CLOSED, DRAW, GENERATION_UNIT, GREATEST_GENERATION, GREATEST_ROW};

/// A word has the fields that it is made of, each word is made of its fields, and no field is above its greatest number.
pub fn law_fields()
    ensures fields { (sequence generation row : ℕ) (closed : Bool) → sequence < 2 ^ 32 → generation ≤ greatest_generation → row ≤ greatest_row → HasFields (word_of sequence generation row closed) sequence generation row closed }
    ensures back { (n : ℕ) → word_of (sequence_in n) (generation_in n) (row_in n) (not (is_open_word n)) ≡ n }
    ensures sequence { (n : ℕ) → n < 2 ^ 64 → sequence_in n < 2 ^ 32 }
    ensures generation { (n : ℕ) → generation_in n ≤ greatest_generation }
    ensures row { (n : ℕ) → row_in n ≤ greatest_row }
{}

/// A draw, which adds one sequence number modulo 2^64, changes that number alone.
pub fn law_draw()
    ensures { (n : ℕ) → Drawn n ((n + sequence_unit) % 2 ^ 64) }
{}

/// To set or to clear the closed bit changes nothing else.
pub fn law_closed()
    ensures closing { (n : ℕ) → Keeps n (bit_or n (closed_bit true)) }
    ensures closed { (n : ℕ) → is_open_word (bit_or n (closed_bit true)) ≡ false }
    ensures opening { (n : ℕ) → n < 2 ^ 64 → Keeps n (bit_and n (2 ^ 64 - 2)) }
    ensures opened { (n : ℕ) → n < 2 ^ 64 → is_open_word (bit_and n (2 ^ 64 - 2)) ≡ true }
{}

/// To xor both rows into a word exchanges its row alone.
pub fn law_exchange()
    ensures { (n old new : ℕ) → row_in n ≡ old → new ≤ greatest_row → Exchanged n (bit_xor n (bit_xor old new * row_unit)) new }
{}

/// The constants of the code are the numbers of the definition.
pub fn law_constants()
    ensures row { GREATEST_ROW ≡ greatest_row }
    ensures generation { GREATEST_GENERATION ≡ greatest_generation }
    ensures unit { GENERATION_UNIT ≡ generation_unit }
    ensures draw { DRAW ≡ sequence_unit }
    ensures closed { CLOSED ≡ closed_bit true }
{}
