// Routes and programs.
ghost use Rattle.std.specs.Prelude.{◌≡◌};
ghost use Rattle.lang_reader.specs.Readers.{ReadsAs, most, program_of, route_at, route_in, routes_in};

use crate::joins::beside;
use crate::marks::{method, pattern, refused};
use crate::stmts::{MOST_PARTS, block};
use crate::stop::ReadFailed;
use lang_base::Seq;
use lang_tokens::Token;
use lang_tree::{MOST_DEPTH, Route, Routes};
use std::alloc::Global;

#[tactic(auto, unfolding(crate::specs::Readers::route_in))]
fn route_body(alloc: Global, tokens: &[Token]) -> Result<(Route, &[Token]), ReadFailed>
    ensures { ReadsAs (λ x. (x.0, x.1.now)) result (route_in tokens.now) }
{
    let (method, rest) = method(tokens)?;
    let (pattern, rest) = pattern(alloc, rest)?;
    let ((pattern, block), rest) = beside(pattern, block(alloc, rest, MOST_DEPTH))?;
    let route = Route {
        method,
        pattern,
        block,
    };
    Ok((route, rest))
}

#[tactic(auto, unfolding(crate::specs::Readers::route_at))]
fn route(alloc: Global, tokens: &[Token]) -> Result<(Route, &[Token]), ReadFailed>
    ensures { ReadsAs (λ x. (x.0, x.1.now)) result (route_at tokens.now) }
{
    match tokens {
        [Token::Route, rest @ ..] => route_body(alloc, rest),
        _ => Err(ReadFailed::At(refused(tokens))),
    }
}

/// The routes that the tokens are, all of the tokens.
pub fn routes(alloc: Global, tokens: &[Token]) -> Result<Routes, ReadFailed>
    ensures { ReadsAs (λ x. x) result (program_of tokens.now) }
{
    let mut routes = Seq::new(alloc);
    let mut rest = tokens;
    for _ in 0..MOST_PARTS {
        if rest.is_empty() {
            return Ok(routes);
        }
        let (route, after) = route(alloc, rest)?;
        routes.push(route)?;
        rest = after;
    }
    Err(ReadFailed::At(refused(rest)))
}
