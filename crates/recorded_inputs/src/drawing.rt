// One reading and eight words.
ghost use Rattle.std.specs.Prelude.{◌≡◌, IfSome};
ghost use Rattle.recorded_inputs.specs.Drawing.{after, drawn, word_after, HasWords};

use crate::scripted::{ScriptClock, ScriptWords};
use crate::traits::{Clock, Words};
use lang_core::Inputs;

/// One reading of the clock, then eight words, in order.
pub fn draw<C: Clock, W: Words>(clock: &mut C, words: &mut W) -> Inputs
    ensures moment { IfSome (C.coming clock.old) (λ readings. result.moment ≡ readings 0) }
    ensures words { IfSome (W.coming words.old) (λ coming. HasWords coming result) }
    ensures clock_rest { C.coming clock.new ≡ after 1 (C.coming clock.old) }
    ensures words_rest { W.coming words.new ≡ after 8 (W.coming words.old) }
{
    let moment = clock.now();
    let w1 = words.word();
    let w2 = words.word();
    let w3 = words.word();
    let w4 = words.word();
    let w5 = words.word();
    let w6 = words.word();
    let w7 = words.word();
    let w8 = words.word();
    Inputs {
        moment,
        w1,
        w2,
        w3,
        w4,
        w5,
        w6,
        w7,
        w8,
    }
}

/// What is drawn of a script's clock and words; the clock stays, and the words go on by eight.
pub fn draw_script(clock: &mut ScriptClock, words: &mut ScriptWords) -> Inputs
    ensures drawn { result ≡ drawn clock.old.moment words.old.x }
    ensures clock { clock.new ≡ clock.old }
    ensures words { words.new.x ≡ word_after 8 words.old.x }
{
    let inputs = draw(clock, words);
    let _last = words.last();
    inputs
}
