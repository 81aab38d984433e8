// What a world is given from outside.
ghost use Rattle.std.specs.Prelude.{◌≡◌, ◌%◌, ◌<◌, min};
ghost use Rattle.call_registers.specs.Changes.{raised};
ghost use Rattle.recorded_inputs.specs.Drawing.{drawn, word_after};
ghost use Rattle.world_core.specs.Environments.{fresh_environment};

use lang_core::{FaultNote, Inputs, LAST_MOMENT};
use recorded_inputs::{ScriptClock, ScriptWords, draw_script};
use std::marker::Model;

/// A clock, random words, and how many exchanges failed.
#[derive(Drop)]
pub(crate) struct Environment {
    /// The moment that the clock tells.
    moment: u64,
    /// The word that was drawn last, or what was set in its place.
    word: u64,
    losses: u64,
}

impl Model for Environment {
    ghost use Rattle.std.specs.Prelude.{◌<◌, ◌≤◌};
    ghost use Rattle.world_core.specs.Environments.{Environment, environment_code};

    ghost Value = { Environment };

    ghost coded = { environment_code };

    ghost view = { λ e. record { moment = e.moment; x = e.word; losses = e.losses } };

    ghost invariant = { λ e. (e.moment ≤ 9223372036854775807) × (e.word < 65537) };
}

/// What is drawn for an event, and the word that is the last then.
#[derive(Clone, Copy)]
pub(crate) struct Drawn {
    pub inputs: Inputs,
    word: u64,
    ghost small: { word < 65537 },
}

impl Environment {
    /// Moment 0, the word 1 before the first, and no losses.
    pub fn new() -> Environment
        ensures { result ≡ fresh_environment }
    {
        Environment {
            moment: 0,
            word: 1,
            losses: 0,
        }
    }

    /// One reading of the clock, and the next eight words. They aren't used up before `use_up`.
    pub fn draw(&self) -> Drawn
        ensures inputs { result.inputs ≡ drawn self.now.moment self.now.x }
        ensures word { result.word ≡ word_after 8 self.now.x }
    {
        let mut clock = ScriptClock::new();
        clock.set(self.moment);
        let mut words = ScriptWords::new();
        words.seed(self.word);
        let inputs = draw_script(&mut clock, &mut words);
        Drawn {
            inputs,
            word: words.last(),
        }
    }

    /// The words go on behind those that were drawn.
    pub fn use_up(&mut self, drawn: Drawn)
        ensures { self.new ≡ record self.old { x = drawn.word } }
    {
        self.word = drawn.word;
    }

    /// What is told of the next exchange that fails.
    pub fn note(&self) -> FaultNote
        ensures before { result.before ≡ self.now.losses }
        ensures after { result.after ≡ raised self.now.losses }
    {
        FaultNote {
            before: self.losses,
            after: self.losses.saturating_add(1),
        }
    }

    /// The exchange of which this note tells failed.
    pub fn lose(&mut self, note: FaultNote)
        ensures { self.new ≡ record self.old { losses = note.after } }
    {
        self.losses = note.after;
    }

    /// Sets the clock; a moment later than the last is the last.
    pub fn set_moment(&mut self, moment: u64)
        ensures { self.new ≡ record self.old { moment = min moment 9223372036854775807 } }
    {
        self.moment = moment.min(LAST_MOMENT);
    }

    /// Words go on behind this number modulo 65,537.
    pub fn set_word(&mut self, n: u64)
        ensures { self.new ≡ record self.old { x = n % 65537 } }
    {
        self.word = n % 65537;
    }
}
