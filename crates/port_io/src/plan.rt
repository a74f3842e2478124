//! Calls of objects in memory that fail as planned.

ghost use Rattle.std.specs.Prelude.{◌≡◌};
ghost use Rattle.port_io.specs.Memory.{next_fails, one_call_on};

use std::marker::Model;

/// Which calls of a method fail: their numbers, counted from 1.
#[derive(Drop)]
pub struct FailurePlan {
    failing: Vec<u64>,
    calls: u64,
}

impl Model for FailurePlan {
    ghost use Rattle.port_io.specs.Memory.{PlannedFailures};

    ghost Value = { PlannedFailures };

    ghost view = { λ p. record { failing = p.failing.items; calls = p.calls } };
}

impl FailurePlan {
    /// No call was made yet.
    pub fn make(failing: Vec<u64>) -> FailurePlan
        ensures { result ≡ record { failing = failing.items; calls = 0 } }
    {
        FailurePlan { failing, calls: 0 }
    }

    /// Counts a call, and says whether it fails.
    pub fn next_fails(&mut self) -> bool
        ensures answer { result ≡ next_fails self.old }
        ensures after { self.new ≡ one_call_on self.old }
    {
        self.calls = self.calls.saturating_add(1);
        self.failing.contains(&self.calls)
    }
}
