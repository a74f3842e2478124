//! A port in memory that follows a script.

ghost use Rattle.std.specs.Prelude.{◌≡◌, ◌≤◌, map, drop, length, All, vec_capacity};
ghost use Rattle.refl_types.specs.Limits.{datagram_limit};
ghost use Rattle.net_io.specs.Log.{first_or, noted};
ghost use Rattle.net_io.specs.Port.{datagram_len, got_entry, ended};
ghost use Rattle.net_io.specs.ScriptPort.{IsWhole, item_entry, got_deed, got_octets};

use crate::log::{Log, extend_within};
use crate::port::{Got, Port};
use port_io::{Failed, FailurePlan, count_failure};
use refl_types::{Endpoint, LocalAddr, Memory, Meta};
use std::alloc::Global;
use std::marker::Model;

/// The most local addresses that a port is bound to.
const LOCALS: usize = 16;

/// What a receive gives, in a script.
#[derive(Drop)]
pub enum PortItem {
    Datagram { meta: Meta, octets: Vec<u8> },
    Nothing,
    End,
}

/// What a port did, without the octets.
#[derive(Clone, Copy, Debug, PartialEq, Eq)]
pub enum PortDeed {
    /// It gave a datagram.
    Took(Meta),
    /// It gave nothing for now.
    Quiet,
    /// It gave its end.
    Ended,
    RecvFailed,
    /// This moment was read.
    Read(u64),
    Sent { from: u16, to: Endpoint },
    SendFailed { from: u16, to: Endpoint },
    /// Its worker has ended.
    Done,
}

/// A port that gives what its script says, and sends nowhere. Its log has a fixed room.
#[derive(Drop)]
pub struct ScriptPort {
    bound: Vec<LocalAddr>,
    items: Vec<PortItem>,
    at: usize,
    moments: Vec<u64>,
    read: usize,
    last: u64,
    log: Log<PortDeed>,
    opens: FailurePlan,
    shares: FailurePlan,
    receives: FailurePlan,
    sends: FailurePlan,
    faults: u64,
}

impl Model for ScriptPort {
    ghost use Rattle.std.specs.Prelude.{◌≤◌, All, drop, map, vec_len, vec_capacity};
    ghost use Rattle.net_io.specs.ScriptPort.{ScriptPortState, item_entry, IsWhole};

    ghost Value = { ScriptPortState };

    ghost view = { λ s. record {
      bound = s.bound.items;
      coming = map item_entry (drop s.at s.items.items);
      moments = drop s.read s.moments.items;
      last = s.last;
      log = s.log;
      opens = s.opens;
      shares = s.shares;
      receives = s.receives;
      sends = s.sends;
      faults = s.faults;
    } };

    ghost invariant = { λ s. (vec_len s.bound ≤ 16) × (16 ≤ vec_capacity s.bound) × (s.at ≤ vec_len s.items) × (s.read ≤ vec_len s.moments) × All IsWhole s.items.items };
}

impl ScriptPort {
    ghost use Rattle.std.specs.Prelude.{◌≡◌, [], map, All, Some, None, MatchOption, IfOk};
    ghost use Rattle.net_io.specs.Log.{entry_at};
    ghost use Rattle.net_io.specs.ScriptPort.{ScriptPortState, item_entry, IsWhole};

    /// A port that gives these items, and at each reading of its clock the next of these moments. The numbers of the calls
    /// that fail are given method by method, counted from 1. The log has room for so many entries and octets in all. All
    /// memory is taken here.
    pub fn make(
        alloc: Global,
        items: Vec<PortItem>,
        moments: Vec<u64>,
        fail_open: Vec<u64>,
        fail_share: Vec<u64>,
        fail_recv: Vec<u64>,
        fail_send: Vec<u64>,
        entries: usize,
        octets: usize,
    ) -> Result<ScriptPort, Memory>
        requires { All IsWhole items.items }
        ensures { IfOk result (λ s. s ≡ record {
          bound = [];
          coming = map item_entry items.items;
          moments = moments.items;
          last = 0;
          log = record { told = Some []; entries = entries; octets = octets };
          opens = record { failing = fail_open.items; calls = 0 };
          shares = record { failing = fail_share.items; calls = 0 };
          receives = record { failing = fail_recv.items; calls = 0 };
          sends = record { failing = fail_send.items; calls = 0 };
          faults = 0;
        }) }
    {
        let log = Log::make(alloc, entries, octets)?;
        let Ok(bound) = Vec::with_capacity(alloc, LOCALS) else {
            return Err(Memory);
        };
        Ok(ScriptPort {
            bound,
            items,
            at: 0,
            moments,
            read: 0,
            last: 0,
            log,
            opens: FailurePlan::make(fail_open),
            shares: FailurePlan::make(fail_share),
            receives: FailurePlan::make(fail_recv),
            sends: FailurePlan::make(fail_send),
            faults: 0,
        })
    }

    /// The entry of the log at a place, with its octets, where the log is told and has one there.
    pub fn entry(&self, at: usize) -> Option<(PortDeed, &[u8])>
        ensures { MatchOption result (entry_at self.now.log at ≡ None) (λ r. entry_at self.now.log at ≡ Some (r.0, r.1.now)) }
    {
        self.log.get(at)
    }
}

impl Port for ScriptPort {
    ghost use Rattle.std.specs.Prelude.{◌≡◌, ◌<◌, ◌≤◌, ◌↔◌, [], ◌∷◌, length, Some, IsTrue, IsErr, IfOk, OnOk, OnErr};
    ghost use Rattle.refl_types.specs.Limits.{datagram_limit};
    ghost use Rattle.port_io.specs.Outside.{Rises};
    ghost use Rattle.port_io.specs.Memory.{next_fails};
    ghost use Rattle.net_io.specs.Log.{Grows};
    ghost use Rattle.net_io.specs.Port.{Receives, recv_entry, send_entry, read, done, datagram_len};
    ghost use Rattle.net_io.specs.ScriptPort.{ScriptPortState, told_log, opened, shared, received, next_moment, moment_read, sent_on, ended_work};

    type Setup = ();

    ghost shown = { λ s. record { bound = s.bound; coming = Some s.coming; log = told_log s; made = tt; faults = s.faults } };

    fn open(&mut self, locals: &[LocalAddr]) -> Result<(), Failed>
        requires some { 1 ≤ length locals.now }
        requires few { length locals.now ≤ 16 }
        ensures bound { OnOk result (self.new.bound ≡ locals.now) }
        ensures unbound { OnErr result (self.new.bound ≡ self.old.bound) }
        ensures coming { Some self.new.coming ≡ Some self.old.coming }
        ensures log { told_log self.new ≡ told_log self.old }
        ensures still { OnOk result (self.new.faults ≡ self.old.faults) }
        ensures cause { OnErr result (Rises self.old.faults self.new.faults) }
        // Just the planned calls fail.
        ensures planned { IsErr result ↔ IsTrue (next_fails self.old.opens) }
        ensures after { self.new ≡ opened self.old locals.now result }
    {
        if self.opens.next_fails() {
            return Err(count_failure(&mut self.faults));
        }
        rebind(&mut self.bound, locals);
        Ok(())
    }

    fn share(&mut self, first: &ScriptPort) -> Result<(), Failed>
        requires { 0 < length first.now.bound }
        ensures bound { OnOk result (self.new.bound ≡ first.now.bound) }
        ensures unbound { OnErr result (self.new.bound ≡ self.old.bound) }
        ensures coming { Some self.new.coming ≡ Some self.old.coming }
        ensures log { told_log self.new ≡ told_log self.old }
        ensures still { OnOk result (self.new.faults ≡ self.old.faults) }
        ensures cause { OnErr result (Rises self.old.faults self.new.faults) }
        ensures planned { IsErr result ↔ IsTrue (next_fails self.old.shares) }
        ensures after { self.new ≡ shared self.old first.now.bound result }
    {
        if self.shares.next_fails() {
            return Err(count_failure(&mut self.faults));
        }
        rebind(&mut self.bound, &first.bound);
        Ok(())
    }

    fn recv(&mut self, buf: &mut [u8]) -> Result<Got, Failed>
        requires bound { 0 < length self.old.bound }
        requires room { length buf.old ≡ 65536 }
        ensures len { IfOk result (λ got. datagram_len got ≤ datagram_limit) }
        ensures bound { self.new.bound ≡ self.old.bound }
        ensures coming { Receives (Some self.old.coming) (Some self.new.coming) buf.new result }
        ensures log { Grows (told_log self.old) (told_log self.new) (recv_entry buf.new result ∷ []) }
        ensures still { OnOk result (self.new.faults ≡ self.old.faults) }
        ensures cause { OnErr result (Rises self.old.faults self.new.faults) }
        ensures planned { IsErr result ↔ IsTrue (next_fails self.old.receives) }
        ensures after { self.new ≡ received self.old buf.new result }
    {
        if self.receives.next_fails() {
            self.log.note(PortDeed::RecvFailed, &[]);
            return Err(count_failure(&mut self.faults));
        }
        let got = item_at(&self.items, self.at, buf);
        self.at = self.items.len().min(self.at + 1);
        note_got(&mut self.log, &got, buf);
        Ok(got)
    }

    fn now(&mut self) -> u64
        ensures bound { self.new.bound ≡ self.old.bound }
        ensures coming { Some self.new.coming ≡ Some self.old.coming }
        ensures log { Grows (told_log self.old) (told_log self.new) (read result ∷ []) }
        ensures still { self.new.faults ≡ self.old.faults }
        // The next moment, and the last again where none is left.
        ensures moment { result ≡ next_moment self.old }
        ensures after { self.new ≡ moment_read self.old }
    {
        let moment = moment_at(&self.moments, self.read, self.last);
        self.read = self.moments.len().min(self.read + 1);
        self.last = moment;
        self.log.note(PortDeed::Read(moment), &[]);
        moment
    }

    fn send(&mut self, from: u16, to: &Endpoint, octets: &[u8]) -> Result<(), Failed>
        requires { 0 < length self.old.bound }
        ensures bound { self.new.bound ≡ self.old.bound }
        ensures coming { Some self.new.coming ≡ Some self.old.coming }
        ensures log { Grows (told_log self.old) (told_log self.new) (send_entry from to.now octets.now result ∷ []) }
        ensures still { OnOk result (self.new.faults ≡ self.old.faults) }
        ensures cause { OnErr result (Rises self.old.faults self.new.faults) }
        ensures planned { IsErr result ↔ IsTrue (next_fails self.old.sends) }
        ensures after { self.new ≡ sent_on self.old from to.now octets.now result }
    {
        let to = *to;
        if self.sends.next_fails() {
            self.log.note(PortDeed::SendFailed { from, to }, octets);
            return Err(count_failure(&mut self.faults));
        }
        self.log.note(PortDeed::Sent { from, to }, octets);
        Ok(())
    }

    fn done(&mut self)
        ensures bound { self.new.bound ≡ self.old.bound }
        ensures coming { Some self.new.coming ≡ Some self.old.coming }
        ensures log { Grows (told_log self.old) (told_log self.new) (done ∷ []) }
        ensures still { self.new.faults ≡ self.old.faults }
        ensures after { self.new ≡ ended_work self.old }
    {
        self.log.note(PortDeed::Done, &[]);
    }
}

/// Puts other local addresses in place of those that are there.
fn rebind(bound: &mut Vec<LocalAddr>, locals: &[LocalAddr])
    requires room { 16 ≤ vec_capacity bound.old }
    requires few { length locals.now ≤ 16 }
    ensures value { bound.new.items ≡ locals.now }
    ensures room { vec_capacity bound.old ≤ vec_capacity bound.new }
{
    bound.clear();
    extend_within(bound, locals);
}

/// What an item of a script makes a receive give; the end where there is none. A datagram's octets go to the front of the
/// buffer.
fn item_at(items: &[PortItem], at: usize, buf: &mut [u8]) -> Got
    requires whole { All IsWhole items.now }
    requires room { length buf.old ≡ 65536 }
    ensures len { datagram_len result ≤ datagram_limit }
    ensures item { got_entry buf.new result ≡ first_or ended (map item_entry (drop at items.now)) }
{
    match items.get(at) {
        Some(PortItem::Datagram { meta, octets }) => {
            buf[..octets.len()].copy_from_slice(octets);
            Got::Datagram(*meta)
        }
        Some(PortItem::Nothing) => Got::Nothing,
        Some(PortItem::End) | None => Got::End,
    }
}

/// The moment at a place, and the last one where there is none.
fn moment_at(moments: &[u64], at: usize, last: u64) -> u64
    ensures { result ≡ first_or last (drop at moments.now) }
{
    moments.get(at).copied().unwrap_or(last)
}

/// Adds to a log what a receive gave, with a datagram's octets at the front of the buffer.
fn note_got(log: &mut Log<PortDeed>, got: &Got, buf: &[u8])
    requires { datagram_len got.now ≤ length buf.now }
    ensures { log.new ≡ noted log.old (got_deed got.now) (got_octets got.now buf.now) }
{
    match got {
        Got::Datagram(meta) => log.note(PortDeed::Took(*meta), &buf[..meta.len]),
        Got::Nothing => log.note(PortDeed::Quiet, &[]),
        Got::End => log.note(PortDeed::Ended, &[]),
    }
}
