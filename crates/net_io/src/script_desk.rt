//! A desk in memory that follows a script.

ghost use Rattle.std.specs.Prelude.{◌≡◌, ◌≤◌, [], map, take, drop, length, All};
ghost use Rattle.net_io.specs.Log.{first_or};
ghost use Rattle.net_io.specs.Desk.{gave, octet_count, piece_limit};
ghost use Rattle.net_io.specs.ScriptDesk.{IsWhole, item_entry, end_at};

use crate::desk::{Desk, DeskEvent, Timed};
use crate::log::Log;
use port_io::{Failed, FailurePlan, count_failure};
use refl_types::{LocalAddr, Memory};
use std::alloc::Global;
use std::marker::Model;

/// What a desk gives, in a script: an event and the octets that come with it.
#[derive(Drop)]
pub struct DeskItem {
    /// Nanoseconds since the start of 1970.
    pub moment: u64,
    pub event: DeskEvent,
    pub octets: Vec<u8>,
}

/// What a desk did, without the octets.
#[derive(Clone, Copy, Debug, PartialEq, Eq)]
pub enum DeskDeed {
    Opened {
        control: Option<LocalAddr>,
        operator: Option<LocalAddr>,
    },
    OpenFailed,
    Gave(Timed),
    NextFailed,
    Sent {
        conn: u32,
    },
    SendFailed {
        conn: u32,
    },
    HungUp {
        conn: u32,
    },
    Finished,
}

/// A desk that gives what its script says, and sends nowhere. Its log has a fixed room.
#[derive(Drop)]
pub struct ScriptDesk {
    is_open: bool,
    items: Vec<DeskItem>,
    at: usize,
    last: u64,
    log: Log<DeskDeed>,
    opens: FailurePlan,
    nexts: FailurePlan,
    sends: FailurePlan,
    faults: u64,
}

impl Model for ScriptDesk {
    ghost use Rattle.std.specs.Prelude.{◌≤◌, All, drop, map, vec_len};
    ghost use Rattle.net_io.specs.ScriptDesk.{ScriptDeskState, item_entry, IsWhole};

    ghost Value = { ScriptDeskState };

    ghost view = { λ s. record {
      is_open = s.is_open;
      coming = map item_entry (drop s.at s.items.items);
      last = s.last;
      log = s.log;
      opens = s.opens;
      nexts = s.nexts;
      sends = s.sends;
      faults = s.faults;
    } };

    ghost invariant = { λ s. (s.at ≤ vec_len s.items) × All IsWhole s.items.items };
}

impl ScriptDesk {
    ghost use Rattle.std.specs.Prelude.{◌≡◌, [], map, All, Some, None, false, MatchOption, IfOk};
    ghost use Rattle.net_io.specs.Log.{entry_at};
    ghost use Rattle.net_io.specs.ScriptDesk.{ScriptDeskState, item_entry, IsWhole};

    /// A desk that gives these items. The numbers of the calls that fail are given method by method, counted from 1. The log
    /// has room for so many entries and octets in all. All memory is taken here.
    pub fn make(
        alloc: Global,
        items: Vec<DeskItem>,
        fail_open: Vec<u64>,
        fail_next: Vec<u64>,
        fail_send: Vec<u64>,
        entries: usize,
        octets: usize,
    ) -> Result<ScriptDesk, Memory>
        requires { All IsWhole items.items }
        ensures { IfOk result (λ s. s ≡ record {
          is_open = false;
          coming = map item_entry items.items;
          last = 0;
          log = record { told = Some []; entries = entries; octets = octets };
          opens = record { failing = fail_open.items; calls = 0 };
          nexts = record { failing = fail_next.items; calls = 0 };
          sends = record { failing = fail_send.items; calls = 0 };
          faults = 0;
        }) }
    {
        let log = Log::make(alloc, entries, octets)?;
        Ok(ScriptDesk {
            is_open: false,
            items,
            at: 0,
            last: 0,
            log,
            opens: FailurePlan::make(fail_open),
            nexts: FailurePlan::make(fail_next),
            sends: FailurePlan::make(fail_send),
            faults: 0,
        })
    }

    /// The entry of the log at a place, with its octets, where the log is told and has one there.
    pub fn entry(&self, at: usize) -> Option<(DeskDeed, &[u8])>
        ensures { MatchOption result (entry_at self.now.log at ≡ None) (λ r. entry_at self.now.log at ≡ Some (r.0, r.1.now)) }
    {
        self.log.get(at)
    }
}

impl Desk for ScriptDesk {
    ghost use Rattle.std.specs.Prelude.{◌≡◌, ◌≤◌, ◌↔◌, [], ◌∷◌, length, Some, IsTrue, IsErr, IfOk, OnOk, OnErr};
    ghost use Rattle.port_io.specs.Outside.{Rises};
    ghost use Rattle.port_io.specs.Memory.{next_fails};
    ghost use Rattle.net_io.specs.Log.{Grows};
    ghost use Rattle.net_io.specs.Desk.{Gives, next_entry, send_entry, open_entry, hung_up, finished, octet_count, piece_limit};
    ghost use Rattle.net_io.specs.declared.script_desk.DeskDeed.TheVariants.{HungUp, Finished};
    ghost use Rattle.net_io.specs.ScriptDesk.{ScriptDeskState, told_log, after_open, after_next, after_send, after_deed};

    type Setup = ();

    ghost shown = { λ s. record { is_open = s.is_open; coming = Some s.coming; log = told_log s; made = tt; faults = s.faults } };

    fn open(
        &mut self,
        control: Option<LocalAddr>,
        operator: Option<LocalAddr>,
    ) -> Result<(), Failed>
        ensures open { OnOk result (IsTrue self.new.is_open) }
        ensures not_open { OnErr result (self.new.is_open ≡ self.old.is_open) }
        ensures coming { Some self.new.coming ≡ Some self.old.coming }
        ensures log { Grows (told_log self.old) (told_log self.new) (open_entry control operator result ∷ []) }
        ensures still { OnOk result (self.new.faults ≡ self.old.faults) }
        ensures cause { OnErr result (Rises self.old.faults self.new.faults) }
        // Just the planned calls fail.
        ensures planned { IsErr result ↔ IsTrue (next_fails self.old.opens) }
        ensures after { self.new ≡ after_open self.old control operator result }
    {
        if self.opens.next_fails() {
            self.log.note(DeskDeed::OpenFailed, &[]);
            return Err(count_failure(&mut self.faults));
        }
        self.log.note(DeskDeed::Opened { control, operator }, &[]);
        self.is_open = true;
        Ok(())
    }

    fn next(&mut self, buf: &mut [u8]) -> Result<Timed, Failed>
        requires open { IsTrue self.old.is_open }
        requires room { piece_limit ≤ length buf.old }
        ensures len { IfOk result (λ t. octet_count t.event ≤ piece_limit) }
        ensures open { self.new.is_open ≡ self.old.is_open }
        ensures coming { Gives (Some self.old.coming) (Some self.new.coming) buf.new result }
        ensures log { Grows (told_log self.old) (told_log self.new) (next_entry buf.new result ∷ []) }
        ensures still { OnOk result (self.new.faults ≡ self.old.faults) }
        ensures cause { OnErr result (Rises self.old.faults self.new.faults) }
        ensures planned { IsErr result ↔ IsTrue (next_fails self.old.nexts) }
        ensures after { self.new ≡ after_next self.old buf.new result }
    {
        if self.nexts.next_fails() {
            self.log.note(DeskDeed::NextFailed, &[]);
            return Err(count_failure(&mut self.faults));
        }
        let (timed, len) = item_at(&self.items, self.at, self.last, buf);
        self.at = self.items.len().min(self.at + 1);
        self.last = timed.moment;
        self.log.note(DeskDeed::Gave(timed), &buf[..len]);
        Ok(timed)
    }

    fn send(&mut self, conn: u32, octets: &[u8]) -> Result<(), Failed>
        ensures open { self.new.is_open ≡ self.old.is_open }
        ensures coming { Some self.new.coming ≡ Some self.old.coming }
        ensures log { Grows (told_log self.old) (told_log self.new) (send_entry conn octets.now result ∷ []) }
        ensures still { OnOk result (self.new.faults ≡ self.old.faults) }
        ensures cause { OnErr result (Rises self.old.faults self.new.faults) }
        ensures planned { IsErr result ↔ IsTrue (next_fails self.old.sends) }
        ensures after { self.new ≡ after_send self.old conn octets.now result }
    {
        if self.sends.next_fails() {
            self.log.note(DeskDeed::SendFailed { conn }, octets);
            return Err(count_failure(&mut self.faults));
        }
        self.log.note(DeskDeed::Sent { conn }, octets);
        Ok(())
    }

    fn hang_up(&mut self, conn: u32)
        ensures open { self.new.is_open ≡ self.old.is_open }
        ensures coming { Some self.new.coming ≡ Some self.old.coming }
        ensures log { Grows (told_log self.old) (told_log self.new) (hung_up conn ∷ []) }
        ensures still { self.new.faults ≡ self.old.faults }
        ensures after { self.new ≡ after_deed self.old (HungUp conn) }
    {
        self.log.note(DeskDeed::HungUp { conn }, &[]);
    }

    fn finish(&mut self)
        ensures coming { Some self.new.coming ≡ Some self.old.coming }
        ensures log { Grows (told_log self.old) (told_log self.new) (finished ∷ []) }
        ensures still { self.new.faults ≡ self.old.faults }
        ensures after { self.new ≡ after_deed self.old Finished }
    {
        self.log.note(DeskDeed::Finished, &[]);
    }
}

/// The event at a place of a script, and how many octets come with it, which go to the front of the buffer. Where there is none,
/// it is the end, at the last moment.
fn item_at(items: &[DeskItem], at: usize, last: u64, buf: &mut [u8]) -> (Timed, usize)
    requires whole { All IsWhole items.now }
    requires room { piece_limit ≤ length buf.old }
    ensures len { result.1 ≡ octet_count result.0.event }
    ensures few { result.1 ≤ piece_limit }
    ensures item { gave result.0 (take (octet_count result.0.event) buf.new) ≡ first_or (gave (end_at last) []) (map item_entry (drop at items.now)) }
{
    match items.get(at) {
        Some(item) => {
            let len = item.octets.len();
            buf[..len].copy_from_slice(&item.octets);
            let timed = Timed {
                moment: item.moment,
                event: item.event,
            };
            (timed, len)
        }
        None => {
            let timed = Timed {
                moment: last,
                event: DeskEvent::End,
            };
            (timed, 0)
        }
    }
}
