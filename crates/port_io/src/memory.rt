//! A source and a sink in memory. The numbers of the calls that fail are given, counted from 1.

ghost use Rattle.std.specs.Prelude.{◌≡◌, [], length, min, take, IfOk, IsOk};

use crate::outside::{Failed, Sink, Source, count_failure};
use crate::plan::FailurePlan;
use refl_types::Memory;
use std::alloc::Global;
use std::marker::Model;

/// A source in memory.
#[derive(Drop)]
pub struct MemSource {
    octets: Vec<u8>,
    at: usize,
    plan: FailurePlan,
    faults: u64,
}

impl Model for MemSource {
    ghost use Rattle.std.specs.Prelude.{◌≤◌, drop, vec_len};
    ghost use Rattle.port_io.specs.Memory.{SourceState};

    ghost Value = { SourceState };

    ghost view = { λ s. record { left = drop s.at s.octets.items; plan = s.plan; faults = s.faults } };

    ghost invariant = { λ s. s.at ≤ vec_len s.octets };
}

impl MemSource {
    ghost use Rattle.port_io.specs.Memory.{SourceState};

    /// A source of these octets. It takes no memory of its own.
    pub fn make(_alloc: Global, octets: Vec<u8>, failing: Vec<u64>) -> Result<MemSource, Memory>
        ensures always { IsOk result }
        ensures value { IfOk result (λ s. s ≡ record { left = octets.items; plan = record { failing = failing.items; calls = 0 }; faults = 0 }) }
    {
        Ok(MemSource {
            octets,
            at: 0,
            plan: FailurePlan::make(failing),
            faults: 0,
        })
    }
}

impl Source for MemSource {
    ghost use Rattle.std.specs.Prelude.{◌≡◌, ◌≤◌, ◌↔◌, length, min, Some, IsTrue, IsErr, IfOk, OnOk, OnErr};
    ghost use Rattle.std.specs.Io.KnownBytes.{ReadConsumes};
    ghost use Rattle.port_io.specs.Outside.{Rises};
    ghost use Rattle.port_io.specs.Memory.{SourceState, next_fails, source_read, source_failed};

    ghost left = { λ s. Some s.left };

    ghost faults = { λ s. s.faults };

    fn read(&mut self, buf: &mut [u8]) -> Result<usize, Failed>
        ensures bound { IfOk result (λ n. n ≤ length buf.new) }
        ensures octets { ReadConsumes (Some self.old.left) (Some self.new.left) result buf.new }
        ensures still { OnOk result (self.new.faults ≡ self.old.faults) }
        ensures cause { OnErr result (Rises self.old.faults self.new.faults) }
        // Just the planned calls fail, and each is counted once.
        ensures planned { IsErr result ↔ IsTrue (next_fails self.old.plan) }
        ensures failed { OnErr result (self.new ≡ source_failed self.old) }
        // Otherwise as much is read as there is, and as has room.
        ensures full { IfOk result (λ n. n ≡ min (length buf.old) (length self.old.left)) }
        ensures taken { IfOk result (λ n. self.new ≡ source_read self.old n) }
    {
        if self.plan.next_fails() {
            return Err(count_failure(&mut self.faults));
        }
        let count = copy_front(&self.octets[self.at..], buf);
        self.at += count;
        Ok(count)
    }
}

/// Copies as many octets as there are and as there is room for.
fn copy_front(octets: &[u8], buf: &mut [u8]) -> usize
    ensures count { result ≡ min (length buf.old) (length octets.now) }
    ensures front { take result buf.new ≡ take result octets.now }
{
    let count = buf.len().min(octets.len());
    buf[..count].copy_from_slice(&octets[..count]);
    count
}

/// A sink in memory with a fixed room.
#[derive(Drop)]
pub struct MemSink {
    octets: Vec<u8>,
    room: usize,
    plan: FailurePlan,
    faults: u64,
}

impl Model for MemSink {
    ghost use Rattle.std.specs.Prelude.{◌≤◌, vec_len, vec_capacity};
    ghost use Rattle.port_io.specs.Memory.{SinkState};

    ghost Value = { SinkState };

    ghost view = { λ s. record { written = s.octets.items; room = s.room; plan = s.plan; faults = s.faults } };

    ghost invariant = { λ s. (vec_len s.octets ≤ s.room) × (s.room ≤ vec_capacity s.octets) };
}

impl MemSink {
    ghost use Rattle.port_io.specs.Memory.{SinkState};

    /// A sink with room for as many octets, which is taken now.
    pub fn make(alloc: Global, room: usize, failing: Vec<u64>) -> Result<MemSink, Memory>
        ensures { IfOk result (λ s. s ≡ record { written = []; room = room; plan = record { failing = failing.items; calls = 0 }; faults = 0 }) }
    {
        match Vec::with_capacity(alloc, room) {
            Ok(octets) => Ok(MemSink {
                octets,
                room,
                plan: FailurePlan::make(failing),
                faults: 0,
            }),
            Err(_) => Err(Memory),
        }
    }

    /// The octets that were written.
    pub fn written(&self) -> &[u8]
        ensures { result.now ≡ self.now.written }
    {
        &self.octets
    }
}

impl Sink for MemSink {
    ghost use Rattle.std.specs.Prelude.{◌≡◌, ◌<◌, ◌≤◌, ◌+◌, ◌↔◌, ◌⊎◌, length, Some, IsTrue, IsErr, IfOk, OnOk, OnErr};
    ghost use Rattle.std.specs.Io.KnownBytes.{WriteAppends};
    ghost use Rattle.port_io.specs.Outside.{Rises};
    ghost use Rattle.port_io.specs.Memory.{SinkState, next_fails, sink_written, sink_failed};

    ghost shown = { λ s. record { written = Some s.written; faults = s.faults } };

    fn write(&mut self, octets: &[u8]) -> Result<usize, Failed>
        ensures bound { IfOk result (λ n. n ≤ length octets.now) }
        ensures some { IfOk result (λ n. 0 < length octets.now → 0 < n) }
        ensures octets { WriteAppends (Some self.old.written) (Some self.new.written) result octets.now }
        ensures still { OnOk result (self.new.faults ≡ self.old.faults) }
        ensures cause { OnErr result (Rises self.old.faults self.new.faults) }
        // Just the planned calls fail, and those for whose octets there is no room. Each is counted once.
        ensures planned { IsErr result ↔ (IsTrue (next_fails self.old.plan) ⊎ self.old.room < length self.old.written + length octets.now) }
        ensures failed { OnErr result (self.new ≡ sink_failed self.old) }
        // Otherwise all is written.
        ensures whole { IfOk result (λ n. n ≡ length octets.now) }
        ensures added { OnOk result (self.new ≡ sink_written self.old octets.now) }
    {
        if self.plan.next_fails() || octets.len() > self.room - self.octets.len() {
            return Err(count_failure(&mut self.faults));
        }
        if self.octets.extend_from_slice(octets).is_err() {
            unreachable!();
        }
        Ok(octets.len())
    }
}
