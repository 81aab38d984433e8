// Texts and keys read from their escapes.
ghost use Rattle.std.specs.Prelude.{◌≡◌, IfOk};
ghost use Rattle.std.specs.Option.{option_map};
ghost use Rattle.dump_words.specs.Escapes.{at_backslash, escape_at, unescaped};

use lang_core::{NoMemory, Text};
use std::alloc::Global;

// What stands before the first backslash and what behind it, if there is one.
fn cut_backslash(text: &str) -> Option<(&str, &str)>
    ensures { option_map (λ parts. (parts.0.now, parts.1.now)) result ≡ at_backslash text.now }
{
    text.split_once('\\')
}

// What the first byte behind a backslash stands for, and what stands behind it.
fn cut_escape(in_key: bool, text: &str) -> Option<(&'static str, &str)>
    ensures { option_map (λ parts. (parts.0.now, parts.1.now)) result ≡ escape_at in_key text.now }
{
    if let Some(rest) = text.strip_prefix('\\') {
        return Some(("\\", rest));
    }
    if let Some(rest) = text.strip_prefix('n') {
        return Some(("\n", rest));
    }
    if let Some(rest) = text.strip_prefix('r') {
        return Some(("\r", rest));
    }
    if !in_key {
        return None;
    }
    if let Some(rest) = text.strip_prefix('s') {
        return Some((" ", rest));
    }
    None
}

// Piece by piece.
fn read_pieces(alloc: Global, in_key: bool, body: &str) -> Result<Option<Text>, NoMemory>
    ensures { IfOk result (λ text. text ≡ unescaped in_key body.now) }
{
    let mut text = String::new(alloc);
    let mut rest = body;
    while let Some((front, behind)) = cut_backslash(rest) {
        text.push_str(front)?;
        let Some((byte, more)) = cut_escape(in_key, behind) else {
            return Ok(None);
        };
        text.push_str(byte)?;
        rest = more;
    }
    text.push_str(rest)?;
    Ok(Some(Text::shared(text)?))
}

/// What a key, or another text, stands for: `\\`, `\n` and `\r` in it are a backslash, a line feed and a carriage return,
/// and in a key `\s` is a space. None exactly where it has another use of a backslash.
#[tactic(auto, using(crate::proofs::EscapeLemmas::whole_piece))]
pub(crate) fn unescaped(alloc: Global, in_key: bool, body: &str) -> Result<Option<Text>, NoMemory>
    ensures { IfOk result (λ text. text ≡ unescaped in_key body.now) }
{
    // A text without a backslash, as most are, stands for itself: no string is made on the way to it.
    match cut_backslash(body) {
        None => Ok(Some(Text::of(alloc, body)?)),
        Some(_) => read_pieces(alloc, in_key, body),
    }
}
