//! What the steps of a worker say, when one is allowed, and what it answers.
use super::{Answer, Move, count_in, fields, is_open_word, key_of};
use crate::{Query, Step, TableSize};

/// A worker's last look. The words are those that it has read since.
#[derive(Clone, Copy)]
pub struct LastLook {
    slot: u32,
    query: Query,
    read: u64,
    live: bool,
    words: [u64; 4],
    has_read: [bool; 4],
    number: u32,
}

impl LastLook {
    fn has_key(&self) -> bool {
        self.has_read[0] && self.has_read[1] && self.has_read[2] && self.has_read[3]
    }

    fn matches(&self) -> bool {
        self.query.matches(&key_of(&self.words))
    }

    fn is_passed(&self) -> bool {
        if is_open_word(self.read) {
            self.has_key() && !self.matches()
        } else {
            fields(self.read).generation != 0
        }
    }
}

pub fn announced(moves: &[Move], worker: u32) -> Option<u32> {
    let mut last = None;
    for m in moves {
        if m.actor == worker {
            match m.step {
                Step::Announce { slot } => last = Some(slot),
                Step::Retire => last = None,
                _ => {}
            }
        }
    }
    last
}

pub fn holds(moves: &[Move], worker: u32, slot: u32) -> bool {
    let mut held = false;
    for m in moves {
        if m.actor == worker {
            match m.step {
                Step::Announce { .. } | Step::Retire => held = false,
                Step::Look { slot: s, read, .. } if s == slot && is_open_word(read) => held = true,
                _ => {}
            }
        }
    }
    held
}

pub fn names_row(moves: &[Move], worker: u32, row: u32) -> bool {
    let mut named = false;
    for m in moves {
        if m.actor == worker {
            match m.step {
                Step::Look { read, .. } | Step::Draw { read, .. } => {
                    named = named || fields(read).row == row
                }
                _ => {}
            }
        }
    }
    named
}

pub fn after_look(
    slots: u32,
    last: Option<LastLook>,
    slot: u32,
    query: Query,
    read: u64,
) -> LastLook {
    let begins = 0 < slots && slot == session_key::place(query.local, &query.peer, slots.max(1));
    let mut number = if begins { 1 } else { 0 };
    if let Some(l) = last {
        let next = if l.slot.saturating_add(1) >= slots {
            0
        } else {
            l.slot.saturating_add(1)
        };
        if l.number != 0 && l.number != slots && l.query == query && slot == next && l.is_passed() {
            number = l.number.saturating_add(1);
        }
    }
    LastLook {
        slot,
        query,
        read,
        live: true,
        words: [0; 4],
        has_read: [false; 4],
        number,
    }
}

pub fn after_key(look: &LastLook, slot: u32, index: u32, read: u64) -> LastLook {
    let mut l = *look;
    if l.live && is_open_word(l.read) && slot == l.slot && 1 <= index && index <= 4 {
        l.words[index as usize - 1] = read;
        l.has_read[index as usize - 1] = true;
    }
    l
}

// What a step makes of the last look.
pub fn next_look(slots: u32, last: Option<LastLook>, step: &Step) -> Option<LastLook> {
    match *step {
        Step::Look { slot, query, read } => Some(after_look(slots, last, slot, query, read)),
        Step::LoadKey { slot, index, read } => match last {
            Some(l) => Some(after_key(&l, slot, index, read)),
            None => None,
        },
        Step::Draw { .. } => None,
        Step::Announce { .. } | Step::Retire => match last {
            Some(l) => Some(LastLook { live: false, ..l }),
            None => None,
        },
        _ => last,
    }
}

pub fn ends_walk(slots: u32, before: &LastLook, after: &LastLook) -> Option<Answer> {
    if before.number == 0 || before.has_key() || !after.has_key() {
        None
    } else if after.matches() {
        Some(Answer::Seen {
            query: after.query,
            key: key_of(&after.words),
            row: fields(after.read).row,
        })
    } else if after.number == slots {
        Some(Answer::Missed { query: after.query })
    } else {
        None
    }
}

// What a step of a worker answers.
pub fn step_gives(slots: u32, last: Option<LastLook>, step: &Step) -> Option<Answer> {
    match *step {
        Step::Look { slot, query, read } => {
            let l = after_look(slots, last, slot, query, read);
            let f = fields(read);
            if l.number != 0 && f.closed && (f.generation == 0 || l.number == slots) {
                Some(Answer::Missed { query })
            } else {
                None
            }
        }
        Step::LoadKey { slot, index, read } => match last {
            Some(l) => ends_walk(slots, &l, &after_key(&l, slot, index, read)),
            None => None,
        },
        Step::Draw { read, .. } => match last {
            Some(l) if is_open_word(read) => Some(Answer::Drew {
                key: key_of(&l.words),
                number: count_in(read),
                row: fields(read).row,
            }),
            Some(l) => Some(Answer::Late { query: l.query }),
            None => None,
        },
        _ => None,
    }
}

pub fn last_look(slots: u32, moves: &[Move], worker: u32) -> Option<LastLook> {
    let mut last = None;
    for m in moves {
        if m.actor == worker {
            last = next_look(slots, last, &m.step);
        }
    }
    last
}

pub fn has_seen(last: Option<LastLook>, slot: u32) -> bool {
    match last {
        Some(l) => {
            l.slot == slot
                && l.live
                && is_open_word(l.read)
                && l.has_key()
                && l.matches()
                && l.number != 0
        }
        None => false,
    }
}

pub fn worker_may(size: &TableSize, moves: &[Move], worker: u32, step: &Step) -> bool {
    match *step {
        Step::Announce { slot } => slot < size.slots,
        Step::Retire => true,
        Step::Look { slot, .. } => slot < size.slots && announced(moves, worker) == Some(slot),
        Step::LoadKey { slot, index, .. } => 1 <= index && index <= 4 && holds(moves, worker, slot),
        Step::Draw { slot, .. } => {
            holds(moves, worker, slot) && has_seen(last_look(size.slots, moves, worker), slot)
        }
        Step::LoadRow { row, index, .. } => {
            1 <= row
                && row <= size.rows
                && 1 <= index
                && index <= 12
                && names_row(moves, worker, row)
        }
        _ => false,
    }
}
