// Where readings and words come from.
ghost use Rattle.std.specs.Prelude.{◌≡◌, ◌≤◌, ℕ, Option, IfSome};
ghost use Rattle.recorded_inputs.specs.Drawing.{after};

use lang_core::LAST_MOMENT;

/// A clock.
pub trait Clock {
    /// The readings that are to come, from the 0th on, where the clock tells them.
    ghost coming: { Self → Option (ℕ → ℕ) };

    /// The moment, at most 9,223,372,036,854,775,807.
    fn now(&mut self) -> u64
        ensures most { result ≤ LAST_MOMENT }
        ensures next { IfSome (coming self.old) (λ readings. result ≡ readings 0) }
        ensures rest { coming self.new ≡ after 1 (coming self.old) };
}

/// A source of random words.
pub trait Words {
    /// The words that are to come, from the 0th on, where the source tells them.
    ghost coming: { Self → Option (ℕ → ℕ) };

    /// The next word.
    fn word(&mut self) -> u64
        ensures next { IfSome (coming self.old) (λ words. result ≡ words 0) }
        ensures rest { coming self.new ≡ after 1 (coming self.old) };
}
