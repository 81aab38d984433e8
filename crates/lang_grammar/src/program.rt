// The tokens of routes and programs.
ghost use Rattle.std.specs.Prelude.{◌≡◌, ◌++◌, IfOk, OnOk};
ghost use Rattle.lang_grammar.specs.Grammar.{program_tokens, route_tokens};

use crate::stmts::put_block;
use lang_base::{Copied, NoMemory};
use lang_tokens::Token;
use lang_tree::Route;
use std::alloc::Global;

#[tactic(auto, using(crate::proofs::Printed::appends))]
fn put_route(alloc: Global, out: &mut Vec<Token>, route: &Route) -> Result<(), NoMemory>
    ensures { OnOk result (out.new.items ≡ out.old.items ++ route_tokens route.now) }
{
    out.push(Token::Route)?;
    out.push(Token::Method(route.method))?;
    out.push(Token::Str(route.pattern.copied(alloc)?))?;
    put_block(alloc, out, &route.block)
}

/// The tokens of the routes, in order.
pub fn tokens_of(alloc: Global, routes: &[Route]) -> Result<Vec<Token>, NoMemory>
    ensures { IfOk result (λ tokens. tokens.items ≡ program_tokens routes.now) }
{
    let mut out = Vec::new(alloc);
    for route in routes {
        put_route(alloc, &mut out, route)?;
    }
    Ok(out)
}
