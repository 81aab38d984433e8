// Marks in bytes that are no whole lines.
ghost use Rattle.std.specs.Prelude.{◌≡◌, ◌++◌, ◌<◌, ◌≤◌, ◌^◌, IfOk, List, Some, codes, decimal, length, slice_index, take, ℕ, false, true};
ghost use Rattle.store_lines.specs.Lines.{Lacks};
ghost use Rattle.store_lines.specs.Readings.{BeginsAbove, IsAhead, IsMarkAbove};
ghost use Rattle.store_lines.specs.Seals.{IsMark};

use crate::ends::end_of;
use crate::piece::Piece;
use crate::reading::{number_of, piece_of};
use std::alloc::{AllocError, Global};

/// A mark is no longer than this, with the end of its line.
pub const LONGEST_MARK: usize = 67;

const SPACE: u8 = 32;

const LINE_END: u8 = 10;

// The place of the first space; how long the line is where it has none.
fn space_in(line: &[u8]) -> usize
    ensures within { result ≤ length line.now }
    ensures front { Lacks 32 (take result line.now) }
    ensures space { result < length line.now → slice_index line.now result ≡ 32 }
{
    for (i, b) in line.iter().enumerate() {
        if *b == SPACE {
            return i;
        }
    }
    line.len()
}

// The number in front of a line's first space.
fn number_in(line: &[u8]) -> Option<u64>
    ensures { (n : ℕ) (behind : List ℕ) → n < 2 ^ 64 → line.now ≡ decimal n ++ (codes " " ++ behind) → result ≡ Some n }
{
    number_of(&line[..space_in(line)])
}

// Whether this is no text.
fn is_mark(piece: &Piece) -> bool
    ensures yes { result ≡ true → IsMark piece.now }
    ensures no { result ≡ false → IsMark piece.now → ⊥ }
{
    match piece {
        Piece::Text(_) => false,
        Piece::Safe(_) | Piece::Stopped(_) => true,
    }
}

// Whether this line is a mark of a greater number than this.
fn is_mark_above(alloc: Global, line: &[u8], lines: u64) -> Result<bool, AllocError>
    ensures yes { IfOk result (λ is. is ≡ true → IsMarkAbove lines line.now) }
    ensures no { IfOk result (λ is. is ≡ false → IsMarkAbove lines line.now → ⊥) }
{
    let Some(number) = number_in(line) else {
        return Ok(false);
    };
    if number <= lines {
        return Ok(false);
    }
    let Some(piece) = piece_of(alloc, number, line)? else {
        return Ok(false);
    };
    Ok(is_mark(&piece))
}

// Whether these bytes begin with the line of a mark of a greater number than this.
fn begins_above(alloc: Global, bytes: &[u8], lines: u64) -> Result<bool, AllocError>
    ensures yes { IfOk result (λ is. is ≡ true → BeginsAbove lines bytes.now) }
    ensures no { IfOk result (λ is. is ≡ false → BeginsAbove lines bytes.now → ⊥) }
{
    let front = &bytes[..bytes.len().min(LONGEST_MARK)];
    let Some(end) = end_of(front) else {
        return Ok(false);
    };
    if front[end] != LINE_END {
        return Ok(false);
    }
    is_mark_above(alloc, &front[..end], lines)
}

/// Whether a mark of a greater number than this begins among the first so many bytes of these.
pub fn mark_ahead(
    alloc: Global,
    bytes: &[u8],
    lines: u64,
    within: usize,
) -> Result<bool, AllocError>
    ensures yes { IfOk result (λ is. is ≡ true → IsAhead lines within bytes.now) }
    ensures no { IfOk result (λ is. is ≡ false → IsAhead lines within bytes.now → ⊥) }
{
    for at in 0..within.min(bytes.len()) {
        if bytes[at] != 0 && begins_above(alloc, &bytes[at..], lines)? {
            return Ok(true);
        }
    }
    Ok(false)
}
