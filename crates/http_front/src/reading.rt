// Heads and bodies taken from a source.
ghost use Rattle.std.specs.Prelude.{◌≡◌, ◌≤◌, None, Some, drop, length, IfOk, OnErr, IsErrOf};
ghost use Rattle.std.specs.Option.{ForSome};
ghost use Rattle.io_edge.specs.Edge.{Took, TookUpTo, IsAtEnd, ReadFails};
ghost use Rattle.http_front.specs.Answers.{UnlessInterrupted};
ghost use Rattle.http_front.specs.Reading.{HeadTaken, body_behind, taken_byte};

use crate::ends::{ends_head, has_begun};
use crate::message::FrontRefused;
use crate::texts::text_of;
use io_edge::{Failed, Source};
use lang_base::{Bytes, Text};
use std::alloc::Global;

/// The most bytes of a head.
pub const LONGEST_HEAD: u64 = 16384;

/// The most bytes that one read of a body asks for.
const PIECE: usize = 4096;

// The next byte, or None at the source's end.
fn read_byte<S: Source>(source: &mut S) -> Result<Option<u8>, Failed>
    ensures took { IfOk result (λ byte. Took (S.reads source.old) (S.reads source.new) (taken_byte byte)) }
    ensures end { IfOk result (λ byte. byte ≡ None → IsAtEnd (S.reads source.new)) }
    ensures taken { TookUpTo 1 (S.reads source.old) (S.reads source.new) }
    ensures whole { (S.reads source.new).whole ≡ (S.reads source.old).whole }
    ensures beside { S.beside source.new ≡ S.beside source.old }

    ensures counted { (S.reads source.old).faults ≤ (S.reads source.new).faults }
    ensures failed { OnErr result (ReadFails (S.reads source.old) (S.reads source.new)) }
{
    let mut byte = [0u8; 1];
    let n = source.read(&mut byte)?;
    if n == 0 { Ok(None) } else { Ok(Some(byte[0])) }
}

/// The bytes up to the end of the head, and nothing behind it. Whatever it answers, no more than the longest head is taken.
pub fn read_head<S: Source>(alloc: Global, source: &mut S) -> Result<Bytes, FrontRefused>
    ensures head { UnlessInterrupted result
        (HeadTaken (S.reads source.old) (S.reads source.new) result) }
    ensures taken { TookUpTo 16384 (S.reads source.old) (S.reads source.new) }
    ensures whole { (S.reads source.new).whole ≡ (S.reads source.old).whole }
    ensures beside { S.beside source.new ≡ S.beside source.old }

    ensures counted { (S.reads source.old).faults ≤ (S.reads source.new).faults }
    ensures fault { IsErrOf result FrontRefused.ReadFault → ReadFails (S.reads source.old) (S.reads source.new) }
{
    let mut head = Vec::new(alloc);
    let mut begun = false;
    while (head.len() as u64) < LONGEST_HEAD {
        let Some(byte) = read_byte(source)? else {
            return Err(FrontRefused::Cut(head.len() as u64));
        };
        head.push(byte)?;
        begun = has_begun(begun, byte);
        if ends_head(&head, begun) {
            return Ok(Bytes::from(head));
        }
    }
    Err(FrontRefused::HeadTooLong)
}

/// A body of `length` bytes, behind a head of `head` bytes. Whatever it answers, no more than the body is taken.
pub fn read_body<S: Source>(
    alloc: Global,
    source: &mut S,
    head: u64,
    length: u64,
) -> Result<Text, FrontRefused>
    requires { head ≤ 16384 }
    ensures body { UnlessInterrupted result (ForSome (S.reads source.old).left (λ behind.
        (result ≡ body_behind head length behind) × ((S.reads source.new).left ≡ Some (drop length behind)))) }
    ensures taken { TookUpTo length (S.reads source.old) (S.reads source.new) }
    ensures whole { (S.reads source.new).whole ≡ (S.reads source.old).whole }
    ensures beside { S.beside source.new ≡ S.beside source.old }

    ensures counted { (S.reads source.old).faults ≤ (S.reads source.new).faults }
    ensures fault { IsErrOf result FrontRefused.ReadFault → ReadFails (S.reads source.old) (S.reads source.new) }
{
    let mut body = Vec::new(alloc);
    let mut piece = [0u8; PIECE];
    while (body.len() as u64) < length {
        let most = (length - body.len() as u64).min(PIECE as u64) as usize;
        let n = source.read(&mut piece[..most])?;
        if n == 0 {
            return Err(FrontRefused::Cut(head + body.len() as u64));
        }
        body.extend_from_slice(&piece[..n as usize])?;
    }
    text_of(body)
}
