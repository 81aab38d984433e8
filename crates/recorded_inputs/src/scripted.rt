// The clock and the words of a script.
ghost use Rattle.std.specs.Prelude.{◌≡◌, ◌≤◌, ◌<◌, ◌%◌};
ghost use Rattle.recorded_inputs.specs.Drawing.{next_word};

use crate::traits::{Clock, Words};
use lang_core::LAST_MOMENT;
use std::marker::Model;

/// How many values a script's words have.
const WORD_VALUES: u64 = 65537;

/// A clock that tells one moment until it is set.
pub struct ScriptClock {
    moment: u64,
}

impl Drop for ScriptClock {
    fn drop(self) {
        let Self { moment: _ } = self;
    }
}

impl Model for ScriptClock {
    ghost use Rattle.std.specs.Prelude.{◌≤◌};
    ghost use Rattle.recorded_inputs.specs.Scripted.{SetClock};

    ghost Value = { SetClock };

    ghost view = { λ c. record { moment = c.moment } };

    ghost invariant = { λ c. c.moment ≤ 9223372036854775807 };
}

impl ScriptClock {
    /// A clock at moment 0.
    pub fn new() -> ScriptClock
        ensures { result.moment ≡ 0 }
    {
        ScriptClock { moment: 0 }
    }

    /// Sets the moment, which is at most 9,223,372,036,854,775,807.
    pub fn set(&mut self, moment: u64)
        requires { moment ≤ LAST_MOMENT }
        ensures { self.new.moment ≡ moment }
    {
        self.moment = moment;
    }
}

impl Clock for ScriptClock {
    ghost use Rattle.std.specs.Prelude.{Some};

    ghost coming = { λ c. Some (λ _. c.moment) };

    fn now(&mut self) -> u64
        // The trait's clauses.
        ensures most { result ≤ LAST_MOMENT }
        ensures next { result ≡ self.old.moment }
        ensures rest { self.new ≡ self.old }
    {
        self.moment
    }
}

/// Words of which each follows from the one before: 75 times it and 74, modulo 65,537.
pub struct ScriptWords {
    x: u64,
}

impl Drop for ScriptWords {
    fn drop(self) {
        let Self { x: _ } = self;
    }
}

impl Model for ScriptWords {
    ghost use Rattle.std.specs.Prelude.{◌<◌};
    ghost use Rattle.recorded_inputs.specs.Scripted.{Seeded};

    ghost Value = { Seeded };

    ghost view = { λ w. record { x = w.x } };

    ghost invariant = { λ w. w.x < 65537 };
}

impl ScriptWords {
    /// Words whose last one was 1.
    pub fn new() -> ScriptWords
        ensures { result.x ≡ 1 }
    {
        ScriptWords { x: 1 }
    }

    /// Goes on as if `n` modulo 65,537 had been the last word.
    pub fn seed(&mut self, n: u64)
        ensures { self.new.x ≡ n % 65537 }
    {
        self.x = n % WORD_VALUES;
    }

    /// The word that was drawn last, or what was set in its place.
    pub fn last(&self) -> u64
        ensures last { result ≡ self.now.x }
        ensures below { self.now.x < WORD_VALUES }
    {
        self.x
    }
}

impl Words for ScriptWords {
    ghost use Rattle.std.specs.Prelude.{Some, suc};
    ghost use Rattle.recorded_inputs.specs.Drawing.{word_after};

    ghost coming = { λ w. Some (λ i. word_after (suc i) w.x) };

    fn word(&mut self) -> u64
        ensures next { result ≡ next_word self.old.x }
        ensures rest { self.new.x ≡ next_word self.old.x }
    {
        self.x = (75 * self.x + 74) % WORD_VALUES;
        self.x
    }
}
