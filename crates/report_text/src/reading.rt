// Bodies read from their escapes.
ghost use Rattle.std.specs.Prelude.{◌≡◌, ℕ, List, Some, IfOk};
ghost use Rattle.report_text.specs.Reports.{escaped_body};
ghost use Rattle.std.specs.Option.{option_map};
ghost use Rattle.report_text.specs.Escapes.{at_backslash, escape_at, unescaped};

use lang_core::{NoMemory, Text};
use std::alloc::Global;

// What stands before the first backslash and what behind it, if there is one.
fn cut_backslash(text: &str) -> Option<(&str, &str)>
    ensures { option_map (λ parts. (parts.0.now, parts.1.now)) result ≡ at_backslash text.now }
{
    text.split_once('\\')
}

// What the first byte behind a backslash stands for, and what stands behind it.
fn cut_escape(text: &str) -> Option<(&'static str, &str)>
    ensures { option_map (λ parts. (parts.0.now, parts.1.now)) result ≡ escape_at text.now }
{
    if let Some(rest) = text.strip_prefix('\\') {
        return Some(("\\", rest));
    }
    if let Some(rest) = text.strip_prefix('n') {
        return Some(("\n", rest));
    }
    if let Some(rest) = text.strip_prefix('r') {
        return Some(("\r", rest));
    }
    None
}

// Piece by piece.
fn read_pieces(alloc: Global, body: &str) -> Result<Option<Text>, NoMemory>
    ensures { IfOk result (λ text. text ≡ unescaped body.now) }
{
    let mut text = String::new(alloc);
    let mut rest = body;
    while let Some((front, behind)) = cut_backslash(rest) {
        text.push_str(front)?;
        let Some((byte, more)) = cut_escape(behind) else {
            return Ok(None);
        };
        text.push_str(byte)?;
        rest = more;
    }
    text.push_str(rest)?;
    Ok(Some(Text::shared(text)?))
}

// A body without a backslash, as most are, stands for itself: no string is made on the way to its text.
#[tactic(auto, using(crate::proofs::EscapeLemmas::whole_piece))]
fn read_escapes(alloc: Global, body: &str) -> Result<Option<Text>, NoMemory>
    ensures { IfOk result (λ text. text ≡ unescaped body.now) }
{
    match cut_backslash(body) {
        None => Ok(Some(Text::of(alloc, body)?)),
        Some(_) => read_pieces(alloc, body),
    }
}

/// What a body stands for: `\\`, `\n` and `\r` in it are a backslash, a line feed and a carriage return. None exactly
/// where it has another use of a backslash.
#[tactic(auto, using(crate::proofs::PrintedBodies::reads_back))]
pub fn unescaped(alloc: Global, body: &str) -> Result<Option<Text>, NoMemory>
    ensures text { IfOk result (λ text. text ≡ unescaped body.now) }
    // A body as it is printed reads back.
    ensures printed { (text : List ℕ) → body.now ≡ escaped_body text → IfOk result (λ read. read ≡ Some text) }
{
    read_escapes(alloc, body)
}
