// Texts, read as programs.
ghost use Rattle.std.specs.Prelude.{◌≡◌, ◌≤◌, ℕ, List, Ok, Err, IfOk, IsTrue, length};
ghost use Rattle.lang_tree.specs.Depths.{routes_fit};
ghost use Rattle.lang_tree.specs.declared.program.Route.{Route};
ghost use Rattle.lang_tokens.specs.Lexing.{lex, places, tokens};
ghost use Rattle.lang_reader.specs.declared.stop.Cause.{Cause};
ghost use Rattle.lang_reader.specs.Readers.{program_of};
ghost use Rattle.handler_lang.specs.Misfits.{BeginsProgram, StandsFirst};
ghost use Rattle.handler_lang.specs.Reading.{Answers, place_left, placed, read_of, refusal_at};
ghost use Rattle.handler_lang.specs.Spelled.{Spells};

use crate::refused::ProgramRefused;
use lang_reader::{Cause, ReadFailed, routes};
use lang_tokens::lex;
use lang_tree::{LONGEST_TEXT, Program, Routes};
use std::alloc::Global;

/// The place of a token in a text of so many bytes, by how many tokens are left with it.
fn place_left(total: u64, places: &[u64], left: u64) -> u64
    ensures { result ≡ place_left total places.now left }
{
    let at = places.len().saturating_sub(left as usize);
    match places.get(at) {
        Some(place) => *place,
        None => total,
    }
}

fn refusal_at(cause: Cause, at: u64) -> ProgramRefused
    ensures { result ≡ refusal_at cause at }
{
    match cause {
        Cause::Unexpected => ProgramRefused::Unexpected(at),
        Cause::BadString => ProgramRefused::BadString(at),
        Cause::BadNumber => ProgramRefused::BadNumber(at),
        Cause::BadPattern => ProgramRefused::BadPattern(at),
        Cause::TooDeep => ProgramRefused::TooDeep(at),
    }
}

#[tactic(auto, using(crate::proofs::Texts::read_fits))]
fn read_routes(alloc: Global, text: &str) -> Result<Routes, ProgramRefused>
    ensures exact { Answers result (placed (length text.now) (places (lex text.now)) (program_of (tokens (lex text.now)))) }
    ensures fit { IfOk result (λ routes. length text.now ≤ 65536 → IsTrue (routes_fit routes)) }
{
    let found = lex(alloc, text.as_bytes())?;
    match routes(alloc, found.tokens.as_slice()) {
        Ok(routes) => Ok(routes),
        Err(ReadFailed::NoMemory) => Err(ProgramRefused::NoMemory),
        Err(ReadFailed::At(stop)) => {
            let at = place_left(text.len() as u64, found.places.as_slice(), stop.left);
            Err(refusal_at(stop.cause, at))
        }
    }
}

fn read(alloc: Global, text: &str) -> Result<Program, ProgramRefused>
    ensures { Answers result (read_of text.now) }
{
    if text.len() as u64 > LONGEST_TEXT {
        return Err(ProgramRefused::TooLong(LONGEST_TEXT));
    }
    let routes = read_routes(alloc, text)?;
    match Program::new(routes) {
        Ok(program) => Ok(program),
        Err(_) => unreachable!(),
    }
}

/// The program that a text of at most 65,536 bytes spells: the one whose tokens are the text's. Another text is refused
/// at the first byte of the token with which no program goes on, or at its end; of two refusals the one at the lesser
/// byte is answered.
#[tactic(auto, using(crate::proofs::Found::read_spells, crate::proofs::Found::only_answer, crate::proofs::MisfitLemmas::first_misfit, crate::proofs::MisfitLemmas::begun_before, crate::proofs::Spelled::one_program))]
pub fn read_program(alloc: Global, text: &str) -> Result<Program, ProgramRefused>
    // Which program it is, or which refusal and where.
    ensures exact { Answers result (read_of text.now) }
    // What is read is spelled so.
    ensures found { IfOk result (λ program. Spells text.now program) }
    // What is spelled so is read, unless memory runs out.
    ensures only { (routes : List Route) → IsTrue (routes_fit routes) → Spells text.now routes → length text.now ≤ 65536 → Answers result (Ok routes) }
    // A text spells one program at most.
    ensures one { (p q : List Route) → IsTrue (routes_fit p) → IsTrue (routes_fit q) → length text.now ≤ 65536 → Spells text.now p → Spells text.now q → p ≡ q }
    // A refusal stands at the first misfit: whatever stands behind it, it is refused there, and so.
    ensures first { (why : Cause) (at : ℕ) → result ≡ Err (refusal_at why at) → StandsFirst text.now why at }
    // And no earlier than it must: what stands before it begins a program, if one that may nest deeper.
    ensures begun { (why : Cause) (at : ℕ) → result ≡ Err (refusal_at why at) → BeginsProgram text.now at }
{
    read(alloc, text)
}
