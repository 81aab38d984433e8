// Services and their setups, compared.
ghost use Rattle.std.specs.Prelude.{◌≡◌, ◌≤◌, ◌↔◌, IfOk, IsTrue, length, map, take};
ghost use Rattle.lang_tokens.specs.Lexing.{lex, tokens};
ghost use Rattle.node_run.specs.SetSo.{AreSetSo, IsShort, set_by, set_of};

use lang_core::{NoMemory, Same, Setting, Text};
use lang_grammar::print_routes;
use lang_tokens::lex;
use lang_tree::Program;
use service_core::Service;
use std::alloc::Global;
use world_file::Setup;

/// The most tokens that a program's text has, which has at most as many bytes.
const MOST_TOKENS: u64 = 65_536;

fn has_few_tokens(alloc: Global, text: &Text) -> Result<bool, NoMemory>
    ensures { IfOk result (λ few. IsTrue few ↔ (length (tokens (lex text.now)) ≤ 65536)) }
{
    let found = lex(alloc, text.as_bytes())?;
    Ok(found.tokens.len() <= MOST_TOKENS)
}

// Whether two texts are one, with few tokens.
fn same_short(alloc: Global, left: &Text, right: &Text) -> Result<bool, NoMemory>
    ensures { IfOk result (λ same. IsTrue same ↔ ((left.now ≡ right.now) × (length (tokens (lex left.now)) ≤ 65536))) }
{
    if !left.is(right) {
        return Ok(false);
    }
    has_few_tokens(alloc, left)
}

// Whether two programs are equal, and short. A text spells one program, so those are that are printed alike.
fn same_program(alloc: Global, left: &Program, right: &Program) -> Result<bool, NoMemory>
    ensures { IfOk result (λ same. IsTrue same ↔ ((left.now ≡ right.now) × IsShort left.now)) }
{
    let one = print_routes(alloc, left.routes())?;
    let other = print_routes(alloc, right.routes())?;
    same_short(alloc, &one, &other)
}

fn same_setting(alloc: Global, left: &Setting, right: &Setting) -> Result<bool, NoMemory>
    ensures { IfOk result (λ same. IsTrue same ↔ ((left.now ≡ right.now) × IsShort left.now.program)) }
{
    if !left.me.is(&right.me) || !left.peers.is(&right.peers) || left.weight != right.weight {
        return Ok(false);
    }
    same_program(alloc, &left.program, &right.program)
}

fn is_set_so(alloc: Global, service: &Service, setup: &Setup) -> Result<bool, NoMemory>
    ensures { IfOk result (λ same. IsTrue same ↔ ((set_of service.now ≡ set_by setup.now) × IsShort service.now.setting.program)) }
{
    if !same_setting(alloc, service.setting(), &setup.setting)? {
        return Ok(false);
    }
    Ok(service.began().is(&setup.rules))
}

/// Whether the services are those of the setups, in order: whether each has the setting of its own, and began with the rules
/// of its own. A program with more than 65,536 tokens, which no text of a program spells, is taken for another.
#[tactic(auto, using(crate::proofs::SameLemmas::sets_more))]
pub fn are_set_so(alloc: Global, services: &[Service], setups: &[Setup]) -> Result<bool, NoMemory>
    ensures { IfOk result (λ same. IsTrue same → AreSetSo setups.now services.now) }
{
    if services.len() != setups.len() {
        return Ok(false);
    }
    for (i, service) in services.iter().enumerate() {
        if !is_set_so(alloc, service, &setups[i])? {
            return Ok(false);
        }
    }
    Ok(true)
}
