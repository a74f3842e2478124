//! The word of a slot: the sequence number of the next reply, how often the slot was used, the row of its
//! configuration and whether it is closed.
#![tactic(auto)]

ghost use Rattle.std.specs.Prelude.{◌≡◌, ◌≤◌, not};
ghost use Rattle.slot_word.specs.Fields.{greatest_generation, greatest_row, sequence_in, generation_in, row_in, is_open_word, word_of};

mod field_laws;

pub use field_laws::{law_closed, law_constants, law_draw, law_exchange, law_fields};

/// How many bits of a word the row takes. The generation takes what the sequence number, the row and the closed bit leave.
pub const ROW_BITS: u32 = 13;

/// The greatest row that a word has room for: 8,191.
pub const GREATEST_ROW: u32 = (1 << ROW_BITS) - 1;

/// The greatest generation that a word has room for: 262,143.
pub const GREATEST_GENERATION: u32 = (1 << (31 - ROW_BITS)) - 1;

/// What one generation counts for in a word.
pub const GENERATION_UNIT: u64 = 2 << ROW_BITS;

/// What is added to a word to draw its sequence number.
pub const DRAW: u64 = 1 << 32;

/// The bit of a word that is set where the slot is closed.
pub const CLOSED: u64 = 1;

/// What a slot's word says.
#[derive(Clone, Copy, Debug, PartialEq, Eq)]
pub struct Fields {
    /// The sequence number of the next reply.
    pub sequence: u32,
    /// How often the slot was used: at most `GREATEST_GENERATION`.
    pub generation: u32,
    /// The row of its configuration, counted from 1 to at most `GREATEST_ROW`, or 0 for none.
    pub row: u32,
    /// No datagram is answered.
    pub closed: bool,
}

/// The word of these fields.
#[tactic(auto, unfolding(crate::specs::Fields::word_of))]
pub fn pack(fields: &Fields) -> u64
    requires generation { fields.now.generation ≤ greatest_generation }
    requires row { fields.now.row ≤ greatest_row }
    ensures { result ≡ word_of fields.now.sequence fields.now.generation fields.now.row fields.now.closed }
{
    let closed = if fields.closed { CLOSED } else { 0 };
    u64::from(fields.sequence) * DRAW
        + u64::from(fields.generation) * GENERATION_UNIT
        + u64::from(fields.row) * 2
        + closed
}

/// The fields of a word.
#[tactic(auto, unfolding(crate::specs::Fields::sequence_in, crate::specs::Fields::generation_in, crate::specs::Fields::row_in, crate::specs::Fields::is_open_word))]
pub fn unpack(word: u64) -> Fields
    ensures sequence { result.sequence ≡ sequence_in word }
    ensures generation { result.generation ≡ generation_in word }
    ensures row { result.row ≡ row_in word }
    ensures closed { result.closed ≡ not (is_open_word word) }
{
    Fields {
        sequence: (word / DRAW) as u32,
        generation: (word % DRAW / GENERATION_UNIT) as u32,
        row: (word % GENERATION_UNIT / 2) as u32,
        closed: word % 2 == 1,
    }
}

#[cfg(test)]
mod tests {
    use super::*;

    #[test]
    fn a_draw_at_the_last_sequence_number_leaves_the_other_fields(rt: HostRuntime) {
        let word = 0xFFFF_FFFF_0000_C004;
        let fields = Fields {
            sequence: 4294967295,
            generation: 3,
            row: 2,
            closed: false,
        };
        assert_eq!(rt; unpack(word), fields);
        assert_eq!(rt; pack(&fields), word);
        assert_eq!(rt; word.wrapping_add(DRAW), 0x0000_0000_0000_C004);
        assert!(rt; unpack(word | CLOSED).closed);
    }
}
