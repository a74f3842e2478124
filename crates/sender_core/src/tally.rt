//! What is counted of the replies.

ghost use Rattle.std.specs.Prelude.{◌≡◌, ◌<◌, ◌≤◌, ◌-◌, ◌^◌, length};
ghost use Rattle.sender_core.specs.Counting.{difference_32, difference_64};
ghost use Rattle.sender_core.specs.Adding as spec;

use crate::reply::{departure_in, has_ntp_clock, ntp_number, number_in, receipt_in, timestamp_in};
use crate::types::{Counts, Range};
use std::marker::Model;

/// The number of the first reply, and the least and the greatest difference of a reply's number from it. Contracts see them as
/// `KeptNumbers`.
#[derive(Clone, Copy, Debug, PartialEq, Eq)]
pub struct Numbers {
    pub first: u32,
    pub least: i32,
    pub greatest: i32,
}

impl Model for Numbers {
    ghost use Rattle.sender_core.specs.Kept.{KeptNumbers};

    ghost Value = { KeptNumbers };

    ghost view = { λ n. record { first = n.first; least = n.least; greatest = n.greatest } };

    ghost inverse = { λ n. record { first = n.first; least = n.least; greatest = n.greatest } };
}

/// What is counted of the replies. Contracts see it as a `Kept`.
#[derive(Clone, Copy, Debug, PartialEq, Eq)]
pub struct Tally {
    pub received: u32,
    pub doubles: u64,
    pub strangers: u64,
    pub numbers: Option<Numbers>,
    pub forward: Option<Range>,
    pub backward: Option<Range>,
}

impl Model for Tally {
    ghost use Rattle.sender_core.specs.Kept.{Kept};

    ghost Value = { Kept };

    ghost view = { λ t. record {
      received = t.received;
      doubles = t.doubles;
      strangers = t.strangers;
      numbers = t.numbers;
      forward = t.forward;
      backward = t.backward;
    } };

    ghost inverse = { λ t. record {
      received = t.received;
      doubles = t.doubles;
      strangers = t.strangers;
      numbers = t.numbers;
      forward = t.forward;
      backward = t.backward;
    } };
}

fn difference32(a: u32, b: u32) -> i32
    ensures { result ≡ difference_32 a b }
{
    a.wrapping_sub(b).cast_signed()
}

fn difference64(a: u64, b: u64) -> i64
    ensures { result ≡ difference_64 a b }
{
    a.wrapping_sub(b).cast_signed()
}

/// A range with one delay more.
fn with_delay(range: Option<Range>, delay: i64) -> Option<Range>
    ensures { result ≡ spec.with_delay range delay }
{
    let Some(range) = range else {
        return Some(Range {
            least: delay,
            greatest: delay,
        });
    };
    Some(Range {
        least: range.least.min(delay),
        greatest: range.greatest.max(delay),
    })
}

/// The numbers with one more.
fn with_number(numbers: Option<Numbers>, number: u32) -> Option<Numbers>
    ensures { result ≡ spec.with_number numbers number }
{
    let Some(numbers) = numbers else {
        let none = difference32(number, number);
        return Some(Numbers {
            first: number,
            least: none,
            greatest: none,
        });
    };
    let difference = difference32(number, numbers.first);
    Some(Numbers {
        first: numbers.first,
        least: numbers.least.min(difference),
        greatest: numbers.greatest.max(difference),
    })
}

impl Tally {
    ghost use Rattle.sender_core.specs.Counting.{counts_by};
    ghost use Rattle.sender_core.specs.State.{no_tally, with_reply, with_double, with_stranger, span_of};

    /// That of a sender which has got nothing.
    pub(crate) fn new() -> Tally
        ensures { result ≡ no_tally }
    {
        Tally {
            received: 0,
            doubles: 0,
            strangers: 0,
            numbers: None,
            forward: None,
            backward: None,
        }
    }

    /// Counts a new reply.
    pub(crate) fn add(&mut self, octets: &[u8], arrival: u64)
        requires long { 44 ≤ length octets.now }
        requires room { self.old.received < 2 ^ 32 - 1 }
        ensures { self.new ≡ with_reply self.old octets.now arrival }
    {
        self.received += 1;
        self.numbers = with_number(self.numbers, number_in(octets));
        if !has_ntp_clock(octets) {
            return;
        }
        let forward = difference64(receipt_in(octets), timestamp_in(octets));
        let backward = difference64(ntp_number(arrival), departure_in(octets));
        self.forward = with_delay(self.forward, forward);
        self.backward = with_delay(self.backward, backward);
    }

    /// Counts a further reply to a request.
    pub(crate) fn add_double(&mut self)
        ensures { self.new ≡ with_double self.old }
    {
        self.doubles = self.doubles.saturating_add(1);
    }

    /// Counts what was no reply.
    pub(crate) fn add_stranger(&mut self)
        ensures { self.new ≡ with_stranger self.old }
    {
        self.strangers = self.strangers.saturating_add(1);
    }

    /// How many numbers there are from the least to the greatest that came.
    fn span(&self) -> u64
        ensures value { result ≡ span_of self.now.numbers }
    {
        match self.numbers {
            None => 0,
            Some(numbers) => u64::from(numbers.greatest.abs_diff(numbers.least)) + 1,
        }
    }

    /// What is counted of so many requests.
    pub(crate) fn counts(&self, sent: u32) -> Counts
        ensures { result ≡ counts_by sent (span_of self.now.numbers) self.now.received self.now.doubles self.now.strangers self.now.forward self.now.backward }
    {
        let span = self.span();
        let received = self.received;
        Counts {
            sent,
            received,
            doubles: self.doubles,
            strangers: self.strangers,
            forward_lost: sent - u64::from(sent).min(span) as u32,
            backward_lost: span - span.min(u64::from(received)),
            forward: self.forward,
            backward: self.backward,
        }
    }
}
