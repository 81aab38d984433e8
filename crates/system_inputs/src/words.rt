// Random words of the machine.
ghost use Rattle.std.specs.Prelude.{None};

use recorded_inputs::Words;
use std::random::RandomSource;

/// Words of the system's random source. Where that gives none, each follows from the one before.
#[derive(Drop)]
pub struct SystemWords<'a, R: RandomSource> {
    rt: &'a R,
    last: u64,
}

impl<'a, R: RandomSource> SystemWords<'a, R> {
    /// The words of the machine that the program runs on.
    pub fn new(rt: &'a R) -> Self {
        SystemWords { rt, last: 1 }
    }

    // A word of the source, or the next of a linear congruential generator.
    fn next(&self) -> u64 {
        let mut bytes = [0u8; 8];
        match self.rt.fill_bytes(&mut bytes) {
            Ok(()) => u64::from_le_bytes(bytes),
            Err(_) => self.last.wrapping_mul(6364136223846793005).wrapping_add(1),
        }
    }
}

impl<'a, R: RandomSource> Words for SystemWords<'a, R> {
    ghost coming = { λ _. None };

    fn word(&mut self) -> u64 {
        self.last = self.next();
        self.last
    }
}
