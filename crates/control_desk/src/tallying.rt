//! Counting.

ghost use Rattle.std.specs.Prelude.{◌≡◌};

use crate::counts::Counts;
use session_desk::Ticked;

impl Counts {
    ghost use Rattle.std.specs.Prelude.{◌≡◌};
    ghost use Rattle.control_desk.specs.Plan.{plus};

    pub(crate) fn add_fault(&mut self)
        ensures { self.new ≡ record self.old { faults = plus self.old.faults 1 } }
    {
        self.faults = self.faults.saturating_add(1);
    }

    pub(crate) fn add_event(&mut self)
        ensures { self.new ≡ record self.old { events = plus self.old.events 1 } }
    {
        self.events = self.events.saturating_add(1);
    }

    pub(crate) fn add_ticked(&mut self, ticked: &Ticked)
        ensures { self.new ≡ record self.old { closed = plus self.old.closed ticked.now.closed; expired = plus self.old.expired ticked.now.expired } }
    {
        self.closed = self.closed.saturating_add(u64::from(ticked.closed));
        self.expired = self.expired.saturating_add(u64::from(ticked.expired));
    }

    pub(crate) fn add_closed(&mut self)
        ensures { self.new ≡ record self.old { closed = plus self.old.closed 1 } }
    {
        self.closed = self.closed.saturating_add(1);
    }
}
