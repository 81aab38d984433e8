// What a line says.
ghost use Rattle.std.specs.Prelude.{◌≡◌, ◌++◌, ◌<◌, ◌^◌, IfNone, IfOk, IfSome, List, None, Some, decimal, ℕ, false, true};
ghost use Rattle.store_lines.specs.Seals.{IsMark, IsPiece, has_text, numbered, spelled, words};
ghost use Rattle.store_lines.specs.declared.piece.Piece.{Piece};

use crate::line::Line;
use crate::piece::Piece;
use crate::seals::{SMALL, number_before, spell};
use std::alloc::{AllocError, Global};

// Whether this is the line of a piece at its number.
fn is_spelled(alloc: Global, at: u64, piece: &Piece, line: &[u8]) -> Result<bool, AllocError>
    ensures yes { IfOk result (λ is. is ≡ true → spelled at piece.now ≡ line.now) }
    ensures no { IfOk result (λ is. is ≡ false → spelled at piece.now ≡ line.now → ⊥) }
{
    let again = spell(alloc, at, piece)?;
    Ok(again.as_slice() == line)
}

// What stands in a line of this number between its number and its digest; nothing where there is no room for these.
fn text_within(alloc: Global, at: u64, line: &[u8]) -> Result<Vec<u8>, AllocError>
    ensures { IfOk result (λ found. (first : ℕ) (text : List ℕ) → numbered first at text ≡ line.now → found.items ≡ text) }
{
    let front = number_before(alloc, at)?.len();
    if line.len() < 17 || line.len() - 17 < front {
        return Ok(Vec::new(alloc));
    }
    Vec::from_slice(alloc, &line[front..line.len() - 17])
}

// The number with these digits.
pub(crate) fn number_of(digits: &[u8]) -> Option<u64>
    ensures { (n : ℕ) → n < 2 ^ 64 → digits.now ≡ decimal n → result ≡ Some n }
{
    match str::from_utf8(digits) {
        Ok(text) => text.parse::<u64>().ok(),
        Err(_) => None,
    }
}

// The number behind a word.
fn number_behind(text: &[u8], word: &[u8]) -> Option<u64>
    ensures number { (n : ℕ) → n < 2 ^ 64 → text.now ≡ word.now ++ decimal n → result ≡ Some n }
    ensures other { ((behind : List ℕ) → text.now ≡ word.now ++ behind → ⊥) → result ≡ None }
{
    match text.strip_prefix(word) {
        Some(digits) => number_of(digits),
        None => None,
    }
}

// Which mark has these words.
fn mark_with(said: &[u8]) -> Option<Piece>
    ensures { (mark : Piece) → IsMark mark → IsPiece mark → words mark ≡ said.now → result ≡ Some mark }
{
    match number_behind(said, b"safe ") {
        Some(len) => Some(Piece::Safe(len)),
        None => Some(Piece::Stopped(number_behind(said, b"stopped ")?)),
    }
}

// Whether a line ends with a small letter, as those do that are no marks.
fn ends_small(line: &[u8]) -> bool
    ensures { result ≡ has_text line.now }
{
    if line.is_empty() {
        return false;
    }
    line[line.len() - 1] >= SMALL
}

// Which piece a line with this between its number and its digest may be.
fn piece_with(line: &[u8], text: Vec<u8>) -> Piece
    ensures { (at : ℕ) (piece : Piece) → IsPiece piece → spelled at piece ≡ line.now → words piece ≡ text.items → result ≡ piece }
{
    if ends_small(line) {
        return Piece::Text(Line::new(text));
    }
    match mark_with(&text) {
        Some(mark) => mark,
        None => Piece::Text(Line::new(text)),
    }
}

/// What a line of this number says; None where it is not of its form, or its digest is another.
pub fn piece_of(alloc: Global, at: u64, line: &[u8]) -> Result<Option<Piece>, AllocError>
    ensures right { IfOk result (λ found. IfSome found (λ piece. spelled at piece ≡ line.now)) }
    ensures is_piece { IfOk result (λ found. IfSome found IsPiece) }
    ensures wrong { IfOk result (λ found. IfNone found ((piece : Piece) → IsPiece piece → spelled at piece ≡ line.now → ⊥)) }
{
    let text = text_within(alloc, at, line)?;
    let piece = piece_with(line, text);
    if is_spelled(alloc, at, &piece, line)? {
        Ok(Some(piece))
    } else {
        Ok(None)
    }
}
