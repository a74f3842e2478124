//! What the steps of the desk say, and when one is allowed.
use super::{Move, excludes, is_open_word, key_of};
use crate::{Step, TableSize};
use refl_types::{Key, Mode};

/// Whether the slot is open.
pub fn is_open(moves: &[Move], slot: u32) -> bool {
    let mut open = false;
    for m in moves {
        match m.step {
            Step::Start { slot: s, .. } if s == slot => open = true,
            Step::Close { slot: s, .. } if s == slot => open = false,
            Step::Expire {
                slot: s,
                expected,
                read,
            } if s == slot && read == expected => open = false,
            _ => {}
        }
    }
    open
}

pub fn generation(moves: &[Move], slot: u32) -> u32 {
    let mut last = 0;
    for m in moves {
        match m.step {
            Step::ReserveNew { slot: s, .. } if s == slot => last = 1,
            Step::ReserveUsed {
                slot: s,
                generation,
                ..
            } if s == slot => last = generation,
            _ => {}
        }
    }
    last
}

pub fn row_of(moves: &[Move], slot: u32) -> u32 {
    let mut last = 0;
    for m in moves {
        match m.step {
            Step::ReserveNew { slot: s, row } if s == slot => last = row,
            Step::ReserveUsed { slot: s, row, .. } if s == slot => last = row,
            Step::Reconfigure { slot: s, new, .. } if s == slot => last = new,
            _ => {}
        }
    }
    last
}

pub fn key_words(moves: &[Move], slot: u32) -> [u64; 4] {
    let mut words = [0; 4];
    for m in moves {
        if let Step::WriteKey {
            slot: s,
            index,
            word,
        } = m.step
        {
            if s == slot && 1 <= index && index <= 4 {
                words[index as usize - 1] = word;
            }
        }
    }
    words
}

pub fn key(moves: &[Move], slot: u32) -> Key {
    key_of(&key_words(moves, slot))
}

pub fn is_reserved(moves: &[Move], slot: u32) -> bool {
    let mut reserved = false;
    for m in moves {
        match m.step {
            Step::ReserveNew { slot: s, .. } if s == slot => reserved = true,
            Step::ReserveUsed { slot: s, .. } if s == slot => reserved = true,
            Step::WriteKey { slot: s, .. } if s == slot => reserved = false,
            Step::Start { slot: s, .. } if s == slot => reserved = false,
            _ => {}
        }
    }
    reserved
}

pub fn rows_written(moves: &[Move]) -> u32 {
    let mut count = 0u32;
    for m in moves {
        if let Step::WriteRow { .. } = m.step {
            count = count.saturating_add(1);
        }
    }
    count
}

pub fn is_complete(moves: &[Move], row: u32) -> bool {
    0 < row && u64::from(row) * 12 <= u64::from(rows_written(moves))
}

pub fn row_word(moves: &[Move], row: u32, index: u32) -> u64 {
    let mut last = 0;
    for m in moves {
        if let Step::WriteRow {
            row: r,
            index: i,
            word,
        } = m.step
        {
            if r == row && i == index {
                last = word;
            }
        }
    }
    last
}

// Bit 26 of the first word says that the configuration has an HMAC key.
pub fn is_keyed_for(moves: &[Move], slot: u32, row: u32) -> bool {
    key(moves, slot).mode != Mode::Auth || row_word(moves, row, 1) >> 26 & 1 == 1
}

pub fn is_new_row(moves: &[Move], row: u32, last: u64) -> bool {
    for earlier in 1..row {
        let mut same = row_word(moves, earlier, 12) == last;
        for index in 1..12 {
            same = same && row_word(moves, earlier, index) == row_word(moves, row, index);
        }
        if same {
            return false;
        }
    }
    true
}

pub fn ends_use(step: &Step, slot: u32) -> bool {
    match *step {
        Step::ReserveNew { slot: s, .. } => s == slot,
        Step::ReserveUsed { slot: s, .. } => s == slot,
        Step::Close { slot: s, .. } => s == slot,
        Step::Expire {
            slot: s,
            expected,
            read,
        } => s == slot && read == expected,
        _ => false,
    }
}

pub fn is_scanned_since(moves: &[Move], slot: u32, worker: u32) -> bool {
    let mut scanned = false;
    for m in moves {
        if ends_use(&m.step, slot) {
            scanned = false;
        }
        if let Step::Scan { worker: w, read } = m.step {
            if w == worker && read != u64::from(slot) + 1 {
                scanned = true;
            }
        }
    }
    scanned
}

pub fn is_written_since(moves: &[Move], slot: u32, index: u32) -> bool {
    let mut written = false;
    for m in moves {
        if ends_use(&m.step, slot) {
            written = false;
        }
        if let Step::WriteKey {
            slot: s,
            index: i,
            ..
        } = m.step
        {
            if s == slot && i == index {
                written = true;
            }
        }
    }
    written
}

pub fn is_split(moves: &[Move], worker: u32) -> bool {
    let mut split = false;
    for m in moves {
        match m.step {
            Step::Split { worker: w, .. } if w == worker => split = true,
            Step::Join { worker: w, .. } if w == worker => split = false,
            _ => {}
        }
    }
    split
}

pub fn may_reuse(size: &TableSize, moves: &[Move], slot: u32) -> bool {
    let used = generation(moves, slot);
    let mut scanned = true;
    for worker in 0..size.workers {
        scanned = scanned && is_scanned_since(moves, slot, worker.saturating_add(1));
    }
    0 < used && used < slot_word::GREATEST_GENERATION && !is_open(moves, slot) && scanned
}

pub fn may_reserve(size: &TableSize, moves: &[Move], slot: u32, row: u32) -> bool {
    let mut written = true;
    for index in 1..5 {
        written = written && is_written_since(moves, slot, index);
    }
    let key = key(moves, slot);
    let mut passed = true;
    if 0 < size.slots {
        let mut at = session_key::place(key.local, &key.peer, size.slots);
        for _ in 0..size.slots {
            if at == slot {
                break;
            }
            passed = passed && generation(moves, at) != 0;
            at = if at.saturating_add(1) >= size.slots {
                0
            } else {
                at.saturating_add(1)
            };
        }
    }
    slot < size.slots && written && is_complete(moves, row) && passed
}

pub fn may_start(size: &TableSize, moves: &[Move], slot: u32) -> bool {
    let mut alone = true;
    for other in 0..size.slots {
        alone = alone
            && !(is_open(moves, other) && excludes(&key(moves, other), &key(moves, slot)));
    }
    slot < size.slots
        && is_reserved(moves, slot)
        && alone
        && is_keyed_for(moves, slot, row_of(moves, slot))
}

pub fn desk_may(size: &TableSize, moves: &[Move], step: &Step) -> bool {
    match *step {
        Step::WriteRow { row, index, word } => {
            let next = u64::from(row) * 12 + u64::from(index);
            1 <= row
                && row <= size.rows
                && 1 <= index
                && index <= 12
                && next == u64::from(rows_written(moves)) + 13
                && (index != 12 || is_new_row(moves, row, word))
        }
        Step::WriteKey { slot, index, .. } => {
            slot < size.slots
                && 1 <= index
                && index <= 4
                && (generation(moves, slot) == 0 || may_reuse(size, moves, slot))
        }
        Step::ReserveNew { slot, row } => {
            generation(moves, slot) == 0 && may_reserve(size, moves, slot, row)
        }
        Step::ReserveUsed {
            slot,
            generation: next,
            row,
        } => {
            u64::from(next) == u64::from(generation(moves, slot)) + 1
                && may_reuse(size, moves, slot)
                && may_reserve(size, moves, slot, row)
        }
        Step::Start { slot, .. } => may_start(size, moves, slot),
        Step::Reconfigure { slot, old, new, .. } => {
            is_open(moves, slot)
                && old == row_of(moves, slot)
                && is_complete(moves, new)
                && is_keyed_for(moves, slot, new)
        }
        Step::Close { slot, .. } | Step::Peek { slot, .. } => is_open(moves, slot),
        Step::Expire { slot, expected, .. } => is_open(moves, slot) && is_open_word(expected),
        Step::Split { worker, .. } => {
            let mut lower = true;
            for other in 1..worker {
                lower = lower && is_split(moves, other);
            }
            1 <= worker && worker <= size.workers && !is_split(moves, worker) && lower
        }
        Step::Join { worker, .. } => is_split(moves, worker),
        Step::Scan { worker, .. } => 1 <= worker && worker <= size.workers,
        _ => false,
    }
}
