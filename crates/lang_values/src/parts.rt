// The pieces of a text that is cut at each separator.
ghost use Rattle.std.specs.Prelude.{◌≡◌, IfOk};
ghost use Rattle.std.specs.Option.{option_map};
ghost use Rattle.lang_values.specs.Parts.{cut, piece};

use lang_core::{NoMemory, Text};
use std::alloc::Global;

// The text before the first place of the separator, and after it.
fn cut<'a>(text: &'a str, by: &str) -> Option<(&'a str, &'a str)>
    ensures { option_map (λ p. (p.0.now, p.1.now)) result ≡ cut by.now text.now }
{
    text.split_once(by)
}

/// Piece `n` of a text, counted from 0; None exactly where there are fewer.
#[tactic(auto, using(crate::proofs::CutLemmas::piece_more, crate::proofs::CutLemmas::piece_first))]
pub fn piece(alloc: Global, text: &Text, by: &Text, n: u64) -> Result<Option<Text>, NoMemory>
    ensures { IfOk result (λ found. found ≡ piece n by.now text.now) }
{
    let mut rest = text.as_str();
    let mut left = n;
    while left > 0 {
        match cut(rest, by.as_str()) {
            Some((_, after)) => rest = after,
            None => return Ok(None),
        }
        left -= 1;
    }
    match cut(rest, by.as_str()) {
        Some((before, _)) => Ok(Some(Text::of(alloc, before)?)),
        None => Ok(Some(Text::of(alloc, rest)?)),
    }
}
