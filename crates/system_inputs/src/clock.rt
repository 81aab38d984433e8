// The clock of the machine.
ghost use Rattle.std.specs.Prelude.{◌≡◌, ◌≤◌, None, IfSome};

use lang_core::LAST_MOMENT;
use recorded_inputs::Clock;
use std::time::{self, SystemTime, UNIX_EPOCH};

/// The time of day in seconds since 1970, and 0 where the system doesn't tell it.
#[derive(Drop)]
pub struct SystemClock<'a, R: time::Clock> {
    rt: &'a R,
}

impl<'a, R: time::Clock> SystemClock<'a, R> {
    /// The clock of the machine that the program runs on.
    pub fn new(rt: &'a R) -> Self {
        SystemClock { rt }
    }

    fn seconds(&self) -> u64 {
        let Ok(now) = SystemTime::now(self.rt) else {
            return 0;
        };
        match now.duration_since(UNIX_EPOCH) {
            Ok(since) => since.as_secs(),
            Err(_) => 0,
        }
    }
}

impl<'a, R: time::Clock> Clock for SystemClock<'a, R> {
    ghost coming = { λ _. None };

    fn now(&mut self) -> u64
        ensures most { result ≤ LAST_MOMENT }
    {
        self.seconds().min(LAST_MOMENT)
    }
}
