// A gate that holds one call.
use crate::Gate;
use lang_core::Name;
use std::sync::{Condvar, CondvarTimeouts, Mutex, Wait};
use std::time::{Clock, Duration};

/// A gate that holds one call of all that pass it until it is opened, so that a test can see what
/// goes on beside it.
#[derive(Drop)]
pub struct MemoryGate<'a, W: Wait + Clock> {
    rt: &'a W,
    held: u64,
    patience: Duration,
    passing: Mutex<Passing>,
    changed: Condvar,
}

// How many calls started and ended, and whether the gate is open.
#[derive(Drop)]
struct Passing {
    started: u64,
    ended: u64,
    open: bool,
}

impl<'a, W: Wait + Clock> MemoryGate<'a, W> {
    /// A gate that holds the call with this number, counted from 1, but no longer than `patience`.
    pub fn new(rt: &'a W, held: u64, patience: Duration) -> Self {
        let passing = Passing {
            started: 0,
            ended: 0,
            open: false,
        };
        MemoryGate {
            rt,
            held,
            patience,
            passing: Mutex::new(passing),
            changed: Condvar::new(),
        }
    }

    /// Waits, but no longer than `patience`, until so many calls have started, and says whether
    /// they have.
    pub fn wait_started(&self, calls: u64) -> bool {
        let passing = self.passing.lock(self.rt);
        let (passing, _) = self.changed.wait_timeout_while(
            self.rt,
            passing,
            self.patience,
            |passing| passing.started < calls,
        );
        calls <= passing.started
    }

    /// Lets the call go on that is held, and all later ones.
    pub fn open(&self) {
        self.passing.lock(self.rt).open = true;
        self.changed.notify_all();
    }

    /// How many calls have ended.
    pub fn ended(&self) -> u64 {
        self.passing.lock(self.rt).ended
    }
}

impl<'a, W: Wait + Clock> Gate for MemoryGate<'a, W> {
    fn call_starts(&self, _dest: &Name) {
        let mut passing = self.passing.lock(self.rt);
        passing.started = passing.started.saturating_add(1);
        let is_held = passing.started == self.held;
        self.changed.notify_all();
        self.changed.wait_timeout_while(
            self.rt,
            passing,
            self.patience,
            |passing| is_held && !passing.open,
        );
    }

    fn call_ends(&self, _dest: &Name) {
        let mut passing = self.passing.lock(self.rt);
        passing.ended = passing.ended.saturating_add(1);
    }
}
