//! The one-thread table, and which events are a legal history.
use super::{Answer, Event, excludes};
use crate::Actor;
use refl_types::{Key, Memory};
use std::alloc::Global;

/// A bound key.
#[derive(Clone, Copy)]
struct Session {
    key: Key,
    row: u32,
    count: u64,
}

fn find(table: &[Session], key: &Key) -> Option<Session> {
    for s in table {
        if s.key == *key {
            return Some(*s);
        }
    }
    None
}

fn is_legal_at(table: &[Session], event: &Event) -> bool {
    match event.answer {
        Answer::Opened { key, .. } => {
            let mut alone = true;
            for s in table {
                alone = alone && !excludes(&s.key, &key);
            }
            event.by == 0 && alone
        }
        Answer::Configured { key, .. } => event.by == 0 && find(table, &key).is_some(),
        Answer::Counted { key, count, row } | Answer::Expired { key, count, row } => {
            match find(table, &key) {
                Some(s) => event.by == 0 && s.count == count && s.row == row,
                None => false,
            }
        }
        Answer::Closed { key, count } => match find(table, &key) {
            Some(s) => event.by == 0 && s.count == count,
            None => false,
        },
        Answer::Seen { query, key, row } => match find(table, &key) {
            Some(s) => event.by != 0 && s.row == row && query.matches(&key),
            None => false,
        },
        Answer::Drew { key, number, row } => match find(table, &key) {
            Some(s) => event.by != 0 && s.count == number && s.row == row,
            None => false,
        },
        Answer::Missed { query } | Answer::Late { query } => {
            let mut free = true;
            for s in table {
                free = free && !query.matches(&s.key);
            }
            event.by != 0 && free
        }
    }
}

// The table after an event.
fn table_after(alloc: Global, table: &[Session], answer: &Answer) -> Result<Vec<Session>, Memory> {
    let mut next: Vec<Session> = Vec::new(alloc);
    for s in table {
        let mut now = Some(*s);
        match *answer {
            Answer::Configured { key, row } if key == s.key => {
                now = Some(Session { row, ..*s });
            }
            Answer::Drew { key, .. } if key == s.key => {
                now = Some(Session {
                    count: s.count.saturating_add(1),
                    ..*s
                });
            }
            Answer::Closed { key, .. } | Answer::Expired { key, .. } if key == s.key => now = None,
            _ => {}
        }
        if let Some(kept) = now {
            if next.push(kept).is_err() {
                return Err(Memory);
            }
        }
    }
    if let Answer::Opened { key, row } = *answer {
        if next.push(Session { key, row, count: 0 }).is_err() {
            return Err(Memory);
        }
    }
    Ok(next)
}

/// Whether the events are a legal history.
pub fn is_legal(alloc: Global, events: &[Event]) -> Result<bool, Memory> {
    let mut table: Vec<Session> = Vec::new(alloc);
    for e in events {
        if !is_legal_at(&table, e) {
            return Ok(false);
        }
        table = table_after(alloc, &table, &e.answer)?;
    }
    Ok(true)
}

/// Whether the events of the actor are just these answers, in order.
pub fn gives(events: &[Event], actor: Actor, answers: &[Answer]) -> bool {
    let mut at = 0;
    for e in events {
        if e.by == actor {
            if at >= answers.len() || answers[at] != e.answer {
                return false;
            }
            at += 1;
        }
    }
    at == answers.len()
}
