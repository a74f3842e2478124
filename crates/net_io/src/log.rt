//! A log in memory, with a fixed room.

ghost use Rattle.std.specs.Prelude.{◌≡◌, ◌+◌, ◌≤◌, ◌<◌, ◌++◌, ◌∷◌, Some, None, [], IfOk, MatchOption, length, take, drop, sum_by, slice_get, vec_len, vec_capacity};
ghost use Rattle.net_io.specs.Log.{noted, entry_at, entries_of};

use refl_types::Memory;
use std::alloc::Global;
use std::marker::Model;

/// What an object did, entry by entry, each with its octets. A log that finds no room for an entry tells nothing from then on.
#[derive(Drop)]
pub struct Log<E> {
    entries: Vec<(E, usize)>,
    octets: Vec<u8>,
    entry_room: usize,
    octet_room: usize,
    is_told: bool,
}

impl<E> Model for Log<E> {
    ghost use Rattle.std.specs.Prelude.{◌≡◌, ◌≤◌, Some, None, length, sum_by, vec_len, vec_capacity, if◌then◌else◌};
    ghost use Rattle.net_io.specs.Log.{LogState, entries_of};

    ghost Value = { LogState E };

    ghost view = { λ l. record { told = if l.is_told then Some (entries_of l.entries.items l.octets.items) else None; entries = l.entry_room; octets = l.octet_room } };

    ghost invariant = { λ l. (vec_len l.entries ≤ l.entry_room) × (l.entry_room ≤ vec_capacity l.entries)
        × (vec_len l.octets ≤ l.octet_room) × (l.octet_room ≤ vec_capacity l.octets) × (sum_by (λ e. e.1) l.entries.items ≡ length l.octets.items) };
}

impl<E: Copy> Log<E> {
    /// An empty log. All its room is taken here.
    pub fn make(alloc: Global, entries: usize, octets: usize) -> Result<Log<E>, Memory>
        ensures { IfOk result (λ l. l ≡ record { told = Some []; entries = entries; octets = octets }) }
    {
        let (Ok(made), Ok(held)) = (
            Vec::with_capacity(alloc, entries),
            Vec::with_capacity(alloc, octets),
        ) else {
            return Err(Memory);
        };
        Ok(Log {
            entries: made,
            octets: held,
            entry_room: entries,
            octet_room: octets,
            is_told: true,
        })
    }

    /// The entry at a place, with its octets, where the log is told and has one there.
    pub fn get(&self, at: usize) -> Option<(E, &[u8])>
        ensures { MatchOption result (entry_at self.now at ≡ None) (λ r. entry_at self.now at ≡ Some (r.0, r.1.now)) }
    {
        if !self.is_told || at >= self.entries.len() {
            return None;
        }
        Some(entry_of(&self.entries, &self.octets, at))
    }

    /// Adds an entry, where there is room for it.
    pub fn note(&mut self, entry: E, octets: &[u8])
        ensures { self.new ≡ noted self.old entry octets.now }
    {
        if !self.is_told {
            return;
        }
        if self.entries.len() == self.entry_room
            || self.octet_room - self.octets.len() < octets.len()
        {
            self.is_told = false;
            return;
        }
        extend_within(&mut self.octets, octets);
        push_within(&mut self.entries, (entry, octets.len()));
    }
}

/// The entry at a place, with its octets.
fn entry_of<'a, E: Copy>(entries: &[(E, usize)], octets: &'a [u8], at: usize) -> (E, &'a [u8])
    requires within { at < length entries.now }
    requires whole { sum_by (λ e. e.1) entries.now ≡ length octets.now }
    ensures { slice_get (entries_of entries.now octets.now) at ≡ Some (result.0, result.1.now) }
{
    let from = octets_before(entries, at, octets.len());
    let entry = entries[at];
    (entry.0, part_of(octets, from, entry.1))
}

/// So many octets from a place on.
fn part_of(octets: &[u8], from: usize, len: usize) -> &[u8]
    requires { from + len ≤ length octets.now }
    ensures { result.now ≡ take len (drop from octets.now) }
{
    &octets[from..from + len]
}

/// How many octets stand before an entry.
fn octets_before<E>(entries: &[(E, usize)], at: usize, limit: usize) -> usize
    requires within { at ≤ length entries.now }
    requires fits { sum_by (λ e. e.1) entries.now ≤ limit }
    ensures { result ≡ sum_by (λ e. e.1) (take at entries.now) }
{
    let mut from = 0;
    for entry in &entries[..at] {
        from += entry.1;
    }
    from
}

/// Adds items for which there is room.
pub fn extend_within<T: Copy>(items: &mut Vec<T>, more: &[T])
    requires { vec_len items.old + length more.now ≤ vec_capacity items.old }
    ensures items { items.new.items ≡ items.old.items ++ more.now }
    ensures capacity { vec_capacity items.old ≤ vec_capacity items.new }
{
    if items.extend_from_slice(more).is_err() {
        unreachable!();
    }
}

/// Adds an item for which there is room.
fn push_within<T: Drop>(items: &mut Vec<T>, item: T)
    requires { vec_len items.old < vec_capacity items.old }
    ensures items { items.new.items ≡ items.old.items ++ item ∷ [] }
    ensures capacity { vec_capacity items.old ≤ vec_capacity items.new }
{
    if items.push(item).is_err() {
        unreachable!();
    }
}
