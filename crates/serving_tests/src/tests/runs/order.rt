//! One order of all that ports and a desk give in a run.

use std::alloc::Global;
use std::process::Abort;
use std::sync::Arc;
use std::sync::atomic::{AtomicU64, Ordering};
use std::thread;

/// How often an object looks whether its turn has come before it takes this turn and all others at once.
const LOOKS: u32 = 10_000_000;

/// How much of the order is over.
#[derive(Drop)]
pub struct Order {
    over: Arc<AtomicU64, Global>,
}

impl Order {
    pub fn new(rt: &impl Abort, alloc: Global) -> Order {
        Order {
            over: Arc::new(alloc, AtomicU64::new(0)).expect(rt, "a counter"),
        }
    }

    /// An object that gives something at each of these places, which are counted from 0.
    pub fn seat(&self, rt: &impl Abort, mut places: Vec<u64>) -> Turns {
        places.reverse();
        Turns {
            over: Arc::try_clone(&self.over).expect(rt, "a counter"),
            places,
            is_giving: false,
        }
    }
}

/// The turns of one object.
#[derive(Drop)]
pub struct Turns {
    over: Arc<AtomicU64, Global>,
    places: Vec<u64>,
    is_giving: bool,
}

impl Turns {
    /// What was given last is over.
    pub fn end(&mut self) {
        if self.is_giving {
            self.over.fetch_add(1, Ordering::SeqCst);
            self.is_giving = false;
        }
    }

    /// Waits for the next turn, where there is one. What was given last is over.
    pub fn take(&mut self) {
        self.end();
        let Some(place) = self.places.pop() else {
            return;
        };
        self.is_giving = true;
        for _look in 0..LOOKS {
            if self.over.load(Ordering::SeqCst) >= place {
                return;
            }
            thread::yield_now();
        }
        self.places.clear();
    }
}
