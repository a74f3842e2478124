//! A session sender.

ghost use Rattle.std.specs.Prelude.{◌≡◌, ◌↔◌, ◌≤◌, ◌<◌, ◌+◌, ◌*◌, ◌++◌, ◌∷◌, [], ℕ, List, Err, IfOk, IsTrue, length, vec_len, vec_capacity};
ghost use Rattle.sender_core.specs.Sending.{IsBadPlan, due_at, request_octets, last_moment};
ghost use Rattle.sender_core.specs.Deeds.{Deed, sending, arrival as arrived, taken};
ghost use Rattle.sender_core.specs.Counting.{counts_of};

use crate::reply::request_of;
use crate::request::write_request;
use crate::tally::Tally;
use crate::types::{COUNT_LIMIT, Counts, Due, SendPlan, SenderFault, Taken};
use std::alloc::{AllocError, Global};
use std::marker::Model;

/// A session sender. Contracts see it as a `Measurement`: the plan, the start, the moments of all requests, which of them were
/// answered, and what was counted of the replies.
#[derive(Drop)]
pub struct Sender {
    plan: SendPlan,
    start: u64,
    moments: Vec<u64>,
    answered: Vec<bool>,
    tally: Tally,
}

impl Model for Sender {
    ghost use Rattle.std.specs.Prelude.{◌≡◌, ◌≤◌, vec_capacity, vec_len};
    ghost use Rattle.sender_core.specs.State.{Measurement, answered_count};

    ghost Value = { Measurement };

    ghost view = { λ s. record {
      plan = s.plan;
      start = s.start;
      sendings = s.moments.items;
      answered = s.answered.items;
      tally = s.tally;
    } };

    ghost invariant = { λ s. record {
      few : s.plan.count ≤ 100000;
      room : s.plan.count ≤ vec_capacity s.moments;
      within : vec_len s.moments ≤ s.plan.count;
      places : vec_len s.answered ≡ s.plan.count;
      received : s.tally.received ≡ answered_count s.answered.items;
    } };
}

fn last_of(moments: &[u64]) -> u64
    ensures { result ≡ last_moment moments.now }
{
    match moments {
        [] => 0,
        [.., last] => *last,
    }
}

/// Whether so many gaps of a plan have passed.
fn has_passed(start: u64, gaps: u32, gap: u64, now: u64) -> bool
    ensures { IsTrue result ↔ (start + gaps * gap ≤ now) }
{
    u128::from(start) + u128::from(gaps) * u128::from(gap) <= u128::from(now)
}

impl Sender {
    ghost use Rattle.sender_core.specs.State.{IsAfter, Keeps};

    /// A sender that has sent nothing. All its memory is taken here.
    pub fn make(alloc: Global, plan: SendPlan, start: u64) -> Result<Sender, SenderFault>
        ensures made { IfOk result (λ m. (m.plan ≡ plan) × (m.start ≡ start) × IsAfter [] m) }
        ensures bad_plan { (result ≡ Err SenderFault.BadPlan) ↔ IsBadPlan plan }
    {
        if plan.count == 0 || plan.count > COUNT_LIMIT {
            return Err(SenderFault::BadPlan);
        }
        match Sender::with_room(alloc, plan, start) {
            Ok(sender) => Ok(sender),
            Err(_) => Err(SenderFault::Memory),
        }
    }

    fn with_room(alloc: Global, plan: SendPlan, start: u64) -> Result<Sender, AllocError>
        requires { plan.count ≤ 100000 }
        ensures { IfOk result (λ m. (m.plan ≡ plan) × (m.start ≡ start) × IsAfter [] m) }
    {
        let moments = Vec::with_capacity(alloc, plan.count as usize)?;
        let answered = vec![in alloc; false; plan.count as usize]?;
        Ok(Sender {
            plan,
            start,
            moments,
            answered,
            tally: Tally::new(),
        })
    }

    /// What is due at a moment. Each request has its moment, `gap` after that of the one before; after the last, `wait` goes by.
    pub fn due(&self, now: u64) -> Due
        ensures { result ≡ due_at self.now.plan self.now.start self.now.sendings now }
    {
        let sent = self.moments.len() as u32;
        if sent < self.plan.count {
            if has_passed(self.start, sent, self.plan.gap, now) {
                return Due::Send(sent);
            }
            return Due::Later;
        }
        if has_passed(last_of(&self.moments), 1, self.plan.wait, now) {
            return Due::Finished;
        }
        Due::Later
    }

    /// Writes the request that is due, and keeps its moment.
    pub fn request(&mut self, now: u64, out: &mut [u8; 44])
        requires { (sequence : ℕ) × (due_at self.old.plan self.old.start self.old.sendings now ≡ Due.Send sequence) }
        ensures octets { out.new ≡ request_octets self.old.plan.ssid (length self.old.sendings) now }
        ensures sent { self.new.sendings ≡ self.old.sendings ++ now ∷ [] }
        ensures after { (ds : List Deed) → IsAfter ds self.old → IsAfter (sending now ∷ ds) self.new }
        ensures plan { self.new.plan ≡ self.old.plan }
        ensures start { self.new.start ≡ self.old.start }
    {
        write_request(self.plan.ssid, self.moments.len() as u32, now, out);
        push_within(&mut self.moments, now);
    }

    /// Takes octets that came, and says whether they are a reply to a request of this sender that had none before.
    pub fn accept(&mut self, octets: &[u8], arrival: u64) -> Taken
        ensures answer { (ds : List Deed) → IsAfter ds self.old → result ≡ taken self.old.plan.ssid ds octets.now }
        ensures after { (ds : List Deed) → IsAfter ds self.old → IsAfter (arrived octets.now arrival ∷ ds) self.new }
        ensures kept { Keeps self.old self.new }
    {
        let Some(sequence) = request_of(self.plan.ssid, &self.moments, octets) else {
            self.tally.add_stranger();
            return Taken::Stranger;
        };
        if self.answered[sequence] {
            self.tally.add_double();
            return Taken::Double;
        }
        self.answered[sequence] = true;
        self.tally.add(octets, arrival);
        Taken::New
    }

    /// What was counted and measured.
    pub fn counts(&self) -> Counts
        ensures { (ds : List Deed) → IsAfter ds self.now → result ≡ counts_of self.now.plan.ssid ds }
    {
        self.tally.counts(self.moments.len() as u32)
    }
}

/// Adds an item for which there is room.
fn push_within(items: &mut Vec<u64>, item: u64)
    requires { vec_len items.old < vec_capacity items.old }
    ensures items { items.new.items ≡ items.old.items ++ item ∷ [] }
    ensures capacity { vec_capacity items.old ≤ vec_capacity items.new }
{
    if items.push(item).is_err() {
        unreachable!();
    }
}
