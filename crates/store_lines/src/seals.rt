// How lines are numbered and sealed.
ghost use Rattle.std.specs.Prelude.{◌≡◌, ◌+◌, ◌%◌, ◌≤◌, ◌++◌, ◌∷◌, [], IfOk, IsErrOf, OnErr, OnOk, codes, decimal};
ghost use Rattle.store_lines.specs.Lines.{IsLine};
ghost use Rattle.store_lines.specs.Seals.{letters, marked, numbered, spelled};
ghost use Rattle.store_lines.specs.declared.piece.Piece.{Piece};

use crate::batch::{Batch, NotTaken};
use crate::line::Line;
use crate::piece::Piece;
use sqlite_disk::digest_of;
use std::alloc::{AllocError, Global};

// The first of the sixteen letters in which the digests of texts are spelled, and the first of those of marks.
pub(crate) const SMALL: u8 = 97;

const CAPITAL: u8 = 65;

fn letter_at(first: u8, n: u64) -> u8
    requires { first ≤ 97 }
    ensures { result ≡ first + n % 16 }
{
    first + (n % 16) as u8
}

// A number as sixteen letters.
fn letters_of(first: u8, n: u64) -> [u8; 16]
    requires { first ≤ 97 }
    ensures { result ≡ letters first n }
{
    [
        letter_at(first, n),
        letter_at(first, n / 16),
        letter_at(first, n / 256),
        letter_at(first, n / 4096),
        letter_at(first, n / 65536),
        letter_at(first, n / 1048576),
        letter_at(first, n / 16777216),
        letter_at(first, n / 268435456),
        letter_at(first, n / 4294967296),
        letter_at(first, n / 68719476736),
        letter_at(first, n / 1099511627776),
        letter_at(first, n / 17592186044416),
        letter_at(first, n / 281474976710656),
        letter_at(first, n / 4503599627370496),
        letter_at(first, n / 72057594037927936),
        letter_at(first, n / 1152921504606846976),
    ]
}

// What stands before a line's text.
pub(crate) fn number_before(alloc: Global, at: u64) -> Result<Vec<u8>, AllocError>
    ensures { IfOk result (λ front. front.items ≡ decimal at ++ codes " ") }
{
    let number = format!(in alloc; "{at} ")?;
    Vec::from_slice(alloc, number.as_bytes())
}

// `NUMBER TEXT DIGEST`, the digest spelled from this letter on.
fn numbered(alloc: Global, first: u8, at: u64, text: &[u8]) -> Result<Vec<u8>, AllocError>
    requires { first ≤ 97 }
    ensures { IfOk result (λ line. line.items ≡ numbered first at text.now) }
{
    let mut line = number_before(alloc, at)?;
    line.extend_from_slice(text)?;
    line.extend_from_slice(b" ")?;
    line.extend_from_slice(&letters_of(first, digest_of(at, text)))?;
    Ok(line)
}

// The line of a mark, with how long the file is.
fn marked(alloc: Global, at: u64, word: &str, len: u64) -> Result<Vec<u8>, AllocError>
    ensures { IfOk result (λ line. line.items ≡ marked at (word.now ++ (codes " " ++ decimal len))) }
{
    let words = format!(in alloc; "{word} {len}")?;
    numbered(alloc, CAPITAL, at, words.as_bytes())
}

// The line of a piece at its number.
pub(crate) fn spell(alloc: Global, at: u64, piece: &Piece) -> Result<Vec<u8>, AllocError>
    ensures { IfOk result (λ line. line.items ≡ spelled at piece.now) }
{
    match piece {
        Piece::Text(text) => numbered(alloc, SMALL, at, text.bytes()),
        Piece::Safe(len) => marked(alloc, at, "safe", *len),
        Piece::Stopped(len) => marked(alloc, at, "stopped", *len),
    }
}

/// Adds the line of a piece to a batch. Refused, the batch is as before.
pub fn put_piece(alloc: Global, batch: &mut Batch, at: u64, piece: &Piece) -> Result<(), NotTaken>
    ensures ok { OnOk result (batch.new ≡ batch.old ++ spelled at piece.now ∷ []) }
    ensures err { OnErr result (batch.new ≡ batch.old) }
    ensures no_line { IsErrOf result NotTaken.NoLine → IsLine (spelled at piece.now) → ⊥ }
{
    let line = spell(alloc, at, piece)?;
    batch.push(&line)
}

/// Adds the line of a text to a batch. Refused, the batch is as before.
pub fn put_text(alloc: Global, batch: &mut Batch, at: u64, text: &Line) -> Result<(), NotTaken>
    ensures ok { OnOk result (batch.new ≡ batch.old ++ spelled at (Piece.Text text.now) ∷ []) }
    ensures err { OnErr result (batch.new ≡ batch.old) }
    ensures no_line { IsErrOf result NotTaken.NoLine → IsLine (spelled at (Piece.Text text.now)) → ⊥ }
{
    let line = numbered(alloc, SMALL, at, text.bytes())?;
    batch.push(&line)
}
