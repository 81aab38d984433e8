// Which handler a program has for a request, and whether two programs have the same.
ghost use Rattle.std.specs.Prelude.{◌≡◌, ◌↔◌, IsTrue, List, Some, true, IfSome};
ghost use Rattle.std.specs.Option.{option_copied};
ghost use Rattle.lang_core.specs.declared.cells.Cell.{Cell};
ghost use Rattle.lang_core.specs.declared.inputs.Inputs.{Inputs};
ghost use Rattle.lang_core.specs.declared.request.Response.{Response};
ghost use Rattle.lang_core.specs.declared.setting.Setting.{Setting};
ghost use Rattle.lang_programs.specs.Settings.{with_program};
ghost use Rattle.handler_run.specs.Handlers.{handler_of, run_of};

use lang_core::{Block, Program, Request, Route, Same};
use lang_programs::same_block;
use lang_values::{route_at, takes};

fn handler_of<'a>(program: &'a Program, request: &Request) -> Option<&'a Block>
    ensures { option_copied result ≡ handler_of program.now request.now }
{
    match route_at(program.routes(), request.method, &request.path) {
        None => None,
        Some(route) => Some(&route.block),
    }
}

// Whether two routes are taken by the same requests, as far as their methods and patterns tell.
fn same_head(left: &Route, right: &Route) -> bool
    ensures { result ≡ true → (left.now.method ≡ right.now.method) × (left.now.pattern ≡ right.now.pattern) }
{
    left.method == right.method && left.pattern.is(&right.pattern)
}

// The handlers of two programs whose routes are taken by the same requests as far as the one that takes this one, which is looked
// for once. None says nothing.
fn handlers_at_once<'a>(
    routes: &'a [Route],
    others: &'a [Route],
    request: &Request,
) -> Option<(&'a Block, &'a Block)>
    ensures { IfSome result (λ both. (handler_of routes.now request.now ≡ Some both.0.now) × (handler_of others.now request.now ≡ Some both.1.now)) }
{
    for (place, route) in routes.iter().enumerate() {
        let Some(other) = others.get(place) else {
            return None;
        };
        if !same_head(route, other) {
            return None;
        }
        if takes(route, request.method, &request.path) {
            return Some((&route.block, &other.block));
        }
    }
    None
}

// The handlers of two programs for a request.
fn handlers_of<'a>(
    program: &'a Program,
    other: &'a Program,
    request: &Request,
) -> (Option<&'a Block>, Option<&'a Block>)
    ensures { (option_copied result.0 ≡ handler_of program.now request.now) × (option_copied result.1 ≡ handler_of other.now request.now) }
{
    match handlers_at_once(program.routes(), other.routes(), request) {
        Some((left, right)) => (Some(left), Some(right)),
        None => (handler_of(program, request), handler_of(other, request)),
    }
}

// Whether two handlers are the same, or none is there.
fn alike(left: Option<&Block>, right: Option<&Block>) -> bool
    ensures { IsTrue result ↔ (option_copied left.entry ≡ option_copied right.entry) }
{
    match (left, right) {
        (None, None) => true,
        (Some(left), Some(right)) => same_block(left, right),
        _ => false,
    }
}

/// Whether two programs have the same handler for a request, or both none: the block that runs, compared as a tree, wherever its
/// route stands and whatever its pattern is. It takes no memory.
pub fn same_handler(program: &Program, other: &Program, request: &Request) -> bool
    ensures same { IsTrue result ↔ (handler_of program.now request.now ≡ handler_of other.now request.now) }
    // Then the request runs alike under both, whatever else is given.
    ensures law { IsTrue result → (setting : Setting) (inputs : Inputs) (answers : List Response) (rows : List Cell)
        → run_of (with_program program.now setting) request.now inputs answers rows ≡ run_of (with_program other.now setting) request.now inputs answers rows }
{
    let (left, right) = handlers_of(program, other, request);
    alike(left, right)
}
