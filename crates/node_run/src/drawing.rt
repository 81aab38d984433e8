// The clock and the random words, which all workers share.
ghost use Rattle.std.specs.Prelude.{◌≡◌, IfSome};
ghost use Rattle.lang_core.specs.declared.inputs.Inputs.{Inputs};
ghost use Rattle.recorded_inputs.specs.Drawing.{after, HasWords};
ghost use Rattle.node_run.specs.Drawn.{IsDrawnOf};

use lang_core::Inputs;
use recorded_inputs::{Clock, Words, draw};
use std::sync::{Mutex, Wait};

/// What a request is given from outside its rows.
pub trait Draw {
    // What is drawn here.
    ghost drawn: { Inputs → Type 0 };

    /// One reading of the clock and eight words, which nobody else gets.
    fn inputs<W: Wait>(&self, rt: &W) -> Inputs
        ensures { drawn result };
}

#[derive(Drop)]
struct Sources<'a, C: Clock, V: Words> {
    clock: &'a mut C,
    words: &'a mut V,
}

impl<'a, C: Clock, V: Words> Sources<'a, C, V> {
    // What comes next of both.
    fn draw(&mut self) -> Inputs
        ensures moment { IfSome (C.coming self.old.clock.now) (λ readings. result.moment ≡ readings 0) }
        ensures words { IfSome (V.coming self.old.words.now) (λ coming. HasWords coming result) }
        ensures clock_rest { C.coming self.new.clock.now ≡ after 1 (C.coming self.old.clock.now) }
        ensures words_rest { V.coming self.new.words.now ≡ after 8 (V.coming self.old.words.now) }
    {
        draw(self.clock, self.words)
    }
}

/// A clock and words behind a lock.
#[derive(Drop)]
pub struct Drawing<'a, C: Clock, V: Words> {
    sources: Mutex<Sources<'a, C, V>>,
}

impl<'a, C: Clock, V: Words> Drawing<'a, C, V> {
    pub fn new(clock: &'a mut C, words: &'a mut V) -> Self {
        Drawing {
            sources: Mutex::new(Sources { clock, words }),
        }
    }
}

impl<'a, C: Clock, V: Words> Draw for Drawing<'a, C, V> {
    ghost drawn = { IsDrawnOf C.coming V.coming };

    fn inputs<W: Wait>(&self, rt: &W) -> Inputs {
        self.sources.lock(rt).draw()
    }
}
