//! The words of a table, changed by one step after the other in one thread.
ghost use Rattle.std.specs.Prelude.{◌≡◌, ◌<◌, true, length, slice_index, IfOk};
ghost use Rattle.slot_word.specs.Fields.{word_of};
ghost use Rattle.session_world.specs.Words.{first_words, word_index, word_after, words_after};

use crate::steps::{Actor, Step, TableSize};
use refl_types::Memory;
use slot_word::{CLOSED, DRAW, GENERATION_UNIT};
use std::alloc::Global;

/// The words of a table: five of each slot, twelve of each row, and the announcement word of each worker.
#[derive(Drop)]
pub struct World {
    pub words: Vec<u64>,
}

// The slot word of a closed slot with sequence number 0.
#[tactic(auto, unfolding(slot_word::specs::Fields::word_of))]
fn closed_word(generation: u32, row: u32) -> u64
    ensures { result ≡ word_of 0 generation row true }
{
    u64::from(generation) * GENERATION_UNIT + u64::from(row) * 2 + CLOSED
}

impl Step {
    /// Which word the step of this actor is on.
    pub fn word_index(&self, size: &TableSize, actor: Actor) -> usize
        ensures { result ≡ word_index size.now actor self.now }
    {
        let rows = 5 * size.slots as usize;
        let announcements = rows + 12 * size.rows as usize;
        match *self {
            Step::WriteRow { row, index, .. } | Step::LoadRow { row, index, .. } => {
                rows + 12 * (row as usize).saturating_sub(1) + (index as usize).saturating_sub(1)
            }
            Step::WriteKey { slot, index, .. } | Step::LoadKey { slot, index, .. } => {
                5 * slot as usize + index as usize
            }
            Step::ReserveNew { slot, .. }
            | Step::Start { slot, .. }
            | Step::Look { slot, .. }
            | Step::Draw { slot, .. }
            | Step::Reconfigure { slot, .. }
            | Step::Close { slot, .. }
            | Step::Peek { slot, .. }
            | Step::Expire { slot, .. }
            | Step::ReserveUsed { slot, .. } => 5 * slot as usize,
            Step::Split { .. } | Step::Join { .. } => 0,
            Step::Announce { .. } | Step::Retire => {
                announcements + (actor as usize).saturating_sub(1)
            }
            Step::Scan { worker, .. } => announcements + (worker as usize).saturating_sub(1),
        }
    }

    /// What the step leaves where this word stood.
    pub fn word_after(&self, found: u64) -> u64
        ensures { result ≡ word_after self.now found }
    {
        match *self {
            Step::WriteRow { word, .. } | Step::WriteKey { word, .. } => word,
            Step::ReserveNew { row, .. } => closed_word(1, row),
            Step::ReserveUsed {
                generation,
                row,
                ..
            } => closed_word(generation, row),
            Step::Start { .. } => found & (u64::MAX - 1),
            Step::Draw { .. } => found.wrapping_add(DRAW),
            Step::Reconfigure { old, new, .. } => found ^ (u64::from(old ^ new) * 2),
            Step::Close { .. } => found | CLOSED,
            Step::Expire { expected, .. } => {
                if found == expected {
                    expected | CLOSED
                } else {
                    found
                }
            }
            Step::Announce { slot } => u64::from(slot) + 1,
            Step::Retire => 0,
            Step::Look { .. }
            | Step::LoadKey { .. }
            | Step::Split { .. }
            | Step::LoadRow { .. }
            | Step::Peek { .. }
            | Step::Join { .. }
            | Step::Scan { .. } => found,
        }
    }
}

impl World {
    /// The words of a table of this size at first: each slot is closed and was never used, and all other words are 0.
    /// Only want of memory refuses it.
    #[tactic(auto, using(crate::proofs::FirstWords::fresh_more))]
    pub fn first(alloc: Global, size: &TableSize) -> Result<World, Memory>
        ensures { IfOk result (λ w. w.words.items ≡ first_words size.now) }
    {
        let mut words = Vec::new(alloc);
        for _ in 0..size.slots {
            if words.extend_from_slice(&[1, 0, 0, 0, 0]).is_err() {
                return Err(Memory);
            }
        }
        let rest = 12 * size.rows as usize + size.workers as usize;
        if words.resize(5 * size.slots as usize + rest, 0).is_err() {
            return Err(Memory);
        }
        Ok(World { words })
    }

    /// Takes one step, and answers the word that stood there.
    pub fn take(&mut self, size: &TableSize, actor: Actor, step: &Step) -> u64
        requires inside { word_index size.now actor step.now < length self.old.words.items }
        ensures found { result ≡ slice_index self.old.words.items (word_index size.now actor step.now) }
        ensures words { self.new.words.items ≡ words_after size.now self.old.words.items actor step.now }
    {
        let index = step.word_index(size, actor);
        let found = self.words[index];
        self.words[index] = step.word_after(found);
        found
    }
}
