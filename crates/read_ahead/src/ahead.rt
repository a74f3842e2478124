//! A buffer between a source and the records in it.

ghost use Rattle.std.specs.Prelude.{ℕ, ◌≡◌, ◌+◌, ◌<◌, ◌≤◌, ◌++◌, List, [], length, drop, take, vec_len, IfOk, OnOk, OnErr};
ghost use Rattle.std.specs.Io.KnownBytes.{Consumes, ReadConsumes, Keeps, IsAtEnd};
ghost use Rattle.port_io.specs.Outside.{Rises};

use port_io::{Failed, Source};
use refl_types::Memory;
use std::alloc::Global;

/// Octets of the buffer.
pub const ROOM: usize = 524_288;

/// Octets of the longest stream that is read.
pub const STREAM_LIMIT: u64 = 1 << 30;

/// Octets that were read ahead of what was taken.
#[derive(Drop)]
pub struct ReadAhead {
    pub octets: Vec<u8>,
    pub from: usize,
    pub to: usize,
    ghost ordered: { from ≤ to },
    ghost within: { to ≤ vec_len octets },
    ghost room: { vec_len octets ≡ 524288 },
}

impl ReadAhead {
    ghost use Rattle.read_ahead.specs.Buffers.{pending};

    /// An empty buffer. All its memory is taken here.
    pub fn make(alloc: Global) -> Result<ReadAhead, Memory>
        ensures { IfOk result (λ r. pending r ≡ []) }
    {
        match room(alloc) {
            Ok(octets) => Ok(ReadAhead {
                octets,
                from: 0,
                to: 0,
            }),
            Err(fault) => Err(fault),
        }
    }

    /// The octets that are not taken yet.
    pub fn pending(&self) -> &[u8]
        ensures { result.now ≡ pending self.now }
    {
        &self.octets[self.from..self.to]
    }

    /// Takes octets from the front.
    pub fn advance(&mut self, count: usize)
        requires { count ≤ length (pending self.old) }
        ensures { pending self.new ≡ drop count (pending self.old) }
    {
        self.from += count;
    }

    /// Moves what is pending to the front of the buffer.
    fn compact(&mut self)
        ensures same { pending self.new ≡ pending self.old }
        ensures front { self.new.from ≡ 0 }
    {
        let (from, to) = (self.from, self.to);
        self.octets.copy_within(from..to, 0);
        self.from = 0;
        self.to = to - from;
    }

    /// Reads more octets behind those that are pending. 0 is the end of the source.
    pub fn fill<S: Source>(&mut self, input: &mut S) -> Result<usize, Failed>
        requires { length (pending self.old) < ROOM }
        ensures ok { IfOk result (λ n. (octets : List ℕ) × (length octets ≡ n) × (pending self.new ≡ pending self.old ++ octets)
            × Consumes (S.left input.old) (S.left input.new) octets × (n ≡ 0 → IsAtEnd (S.left input.new)) × (n ≤ ROOM)) }
        ensures err { OnErr result ((pending self.new ≡ pending self.old) × Keeps (S.left input.old) (S.left input.new)) }
        ensures still { OnOk result (S.faults input.new ≡ S.faults input.old) }
        ensures cause { OnErr result (Rises (S.faults input.old) (S.faults input.new)) }
    {
        self.compact();
        let count = read_behind(input, &mut self.octets, self.to)?;
        self.to += count;
        Ok(count)
    }
}

/// The octets of an empty buffer.
fn room(alloc: Global) -> Result<Vec<u8>, Memory>
    ensures { IfOk result (λ octets. vec_len octets ≡ 524288) }
{
    match vec![in alloc; 0u8; ROOM] {
        Ok(octets) => Ok(octets),
        Err(_) => Err(Memory),
    }
}

/// Reads into the places from `to` on.
fn read_behind<S: Source>(input: &mut S, octets: &mut [u8], to: usize) -> Result<usize, Failed>
    requires { to < length octets.old }
    ensures bound { IfOk result (λ n. to + n ≤ length octets.old) }
    ensures octets { ReadConsumes (S.left input.old) (S.left input.new) result (drop to octets.new) }
    ensures kept { take to octets.new ≡ take to octets.old }
    ensures still { OnOk result (S.faults input.new ≡ S.faults input.old) }
    ensures cause { OnErr result (Rises (S.faults input.old) (S.faults input.new)) }
{
    let count = input.read(&mut octets[to..])?;
    Ok(count)
}
