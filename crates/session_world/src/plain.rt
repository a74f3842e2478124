//! The definitions once more, as a plain program over the list of all steps so far, for the small schedules of the tests.
//! Each worker has one part.
mod desk;
mod table;
mod worker;

use crate::{Actor, Query, Step, TableSize, World};
use desk::{desk_may, is_split, key, row_of};
use refl_types::{Address, Endpoint, Key, Memory, Mode};
use std::alloc::Global;
pub use table::{gives, is_legal};
use worker::{next_look, step_gives, worker_may};

/// A step of an actor.
#[derive(Clone, Copy)]
pub struct Move {
    pub actor: Actor,
    pub step: Step,
}

/// An answer. Configurations are named by their rows.
#[derive(Clone, Copy, Debug, PartialEq, Eq)]
pub enum Answer {
    Opened { key: Key, row: u32 },
    Configured { key: Key, row: u32 },
    Counted { key: Key, count: u64, row: u32 },
    Closed { key: Key, count: u64 },
    Expired { key: Key, count: u64, row: u32 },
    Seen { query: Query, key: Key, row: u32 },
    Drew { key: Key, number: u64, row: u32 },
    Missed { query: Query },
    Late { query: Query },
}

/// An answer and who gave it.
#[derive(Clone, Copy, Debug, PartialEq, Eq)]
pub struct Event {
    pub by: Actor,
    pub answer: Answer,
}

/// Why a plan did not go through: the place of a step that is not allowed, or want of memory.
#[derive(Clone, Copy, Debug, PartialEq, Eq)]
pub enum Stop {
    Refused(usize),
    Memory,
}

impl From<Memory> for Stop {
    fn from(_: Memory) -> Stop {
        Stop::Memory
    }
}

// ---- the fields of words

fn is_open_word(word: u64) -> bool {
    word % 2 == 0
}

fn fields(word: u64) -> slot_word::Fields {
    slot_word::unpack(word)
}

fn count_in(word: u64) -> u64 {
    u64::from(fields(word).sequence)
}

/// The key of four words, with an IPv4 address.
pub fn key_of(words: &[u64; 4]) -> Key {
    let octets = words[0].to_be_bytes();
    let ends = words[2].to_be_bytes();
    let mode = match u16::from_be_bytes([ends[6], ends[7]]) / 2 {
        0 => Mode::Plain,
        1 => Mode::Auth,
        _ => Mode::Twamp,
    };
    Key {
        local: u16::from_be_bytes([ends[4], ends[5]]),
        peer: Endpoint {
            address: Address::V4([octets[0], octets[1], octets[2], octets[3]]),
            port: u16::from_be_bytes([ends[0], ends[1]]),
        },
        mode,
        ssid: u16::from_be_bytes([ends[2], ends[3]]),
    }
}

fn excludes(one: &Key, other: &Key) -> bool {
    *one == *other || (one.local == other.local && one.peer == other.peer && one.mode != other.mode)
}

fn is_allowed(size: &TableSize, moves: &[Move], m: &Move) -> bool {
    if m.actor == 0 {
        desk_may(size, moves, &m.step)
    } else {
        is_split(moves, m.actor) && worker_may(size, moves, m.actor, &m.step)
    }
}

// ---- runs

fn with_read(step: &Step, found: u64) -> Step {
    let read = found;
    match *step {
        Step::Start { slot, .. } => Step::Start { slot, read },
        Step::Look { slot, query, .. } => Step::Look { slot, query, read },
        Step::LoadKey { slot, index, .. } => Step::LoadKey { slot, index, read },
        Step::Draw { slot, .. } => Step::Draw { slot, read },
        Step::Split { worker, .. } => Step::Split { worker, read },
        Step::LoadRow { row, index, .. } => Step::LoadRow { row, index, read },
        Step::Reconfigure { slot, old, new, .. } => Step::Reconfigure {
            slot,
            old,
            new,
            read,
        },
        Step::Close { slot, .. } => Step::Close { slot, read },
        Step::Peek { slot, .. } => Step::Peek { slot, read },
        Step::Expire { slot, expected, .. } => Step::Expire {
            slot,
            expected,
            read,
        },
        Step::Join { worker, .. } => Step::Join { worker, read },
        Step::Scan { worker, .. } => Step::Scan { worker, read },
        other => other,
    }
}

/// Runs a plan, in which nothing is read yet, and gives its steps with what they read. It stops at the first that is not
/// allowed.
pub fn play(alloc: Global, size: &TableSize, plan: &[Move]) -> Result<Vec<Move>, Stop> {
    let mut world = World::first(alloc, size)?;
    let mut moves: Vec<Move> = Vec::new(alloc);
    let mut at = 0;
    for m in plan {
        let index = m.step.word_index(size, m.actor);
        if index >= world.words.len() || !is_allowed(size, &moves, m) {
            return Err(Stop::Refused(at));
        }
        let found = world.take(size, m.actor, &m.step);
        let step = with_read(&m.step, found);
        if moves
            .push(Move {
                actor: m.actor,
                step,
            })
            .is_err()
        {
            return Err(Stop::Memory);
        }
        at = at.saturating_add(1);
    }
    Ok(moves)
}

fn desk_gives(before: &[Move], step: &Step) -> Option<Answer> {
    match *step {
        Step::Start { slot, .. } => Some(Answer::Opened {
            key: key(before, slot),
            row: row_of(before, slot),
        }),
        Step::Reconfigure { slot, new, .. } => Some(Answer::Configured {
            key: key(before, slot),
            row: new,
        }),
        Step::Close { slot, read } => Some(Answer::Closed {
            key: key(before, slot),
            count: count_in(read),
        }),
        Step::Peek { slot, read } => Some(Answer::Counted {
            key: key(before, slot),
            count: count_in(read),
            row: fields(read).row,
        }),
        Step::Expire {
            slot,
            expected,
            read,
        } => {
            let key = key(before, slot);
            let count = count_in(read);
            let row = fields(read).row;
            if read == expected {
                Some(Answer::Expired { key, count, row })
            } else {
                Some(Answer::Counted { key, count, row })
            }
        }
        _ => None,
    }
}

/// The answers of an actor, in order.
pub fn answers(
    alloc: Global,
    size: &TableSize,
    moves: &[Move],
    actor: Actor,
) -> Result<Vec<Answer>, Memory> {
    let mut given: Vec<Answer> = Vec::new(alloc);
    let mut before: Vec<Move> = Vec::new(alloc);
    let mut last = None;
    for m in moves {
        let mut answer = None;
        if m.actor == actor {
            if actor == 0 {
                answer = desk_gives(&before, &m.step);
            } else {
                answer = step_gives(size.slots, last, &m.step);
                last = next_look(size.slots, last, &m.step);
            }
        }
        if let Some(a) = answer {
            if given.push(a).is_err() {
                return Err(Memory);
            }
        }
        if before.push(*m).is_err() {
            return Err(Memory);
        }
    }
    Ok(given)
}
