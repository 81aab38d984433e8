// What a service answers a request.
ghost use Rattle.std.specs.Prelude.{◌≡◌, ◌<◌, List, [], ◌∷◌, ◌++◌, IfOk, length};
ghost use Rattle.lang_core.specs.declared.cells.Cell.{Cell};
ghost use Rattle.lang_core.specs.declared.request.Response.{Response};
ghost use Rattle.handler_run.specs.Handlers.{fault_number, fault_text, replied, faulted_trace, finish, start, not_found, run_route, run_of};
ghost use Rattle.handler_run.specs.Laws.{IfDone, IfWants, IsDone, calls_of};
ghost use Rattle.lang_values.specs.Paths.{route_of};
ghost use Rattle.handler_run.specs.Reads.{GivesAll};
ghost use Rattle.handler_run.specs.declared.state.Ran.TheVariants.{Done};
ghost use Rattle.lang_programs.specs.Settings.{with_program};

use crate::blocks::run_block;
use crate::state::{Flow, Ran, State};
use crate::view::View;
use lang_core::{
    Answers, Calls, Inputs, NoMemory, Program, Reads, Request, Response, Route, Setting,
    SharedWrites, Text, Trace, Writes,
};
use lang_values::{Fault, Given, Recorded, Variables, route_of, segments_of};
use std::alloc::Global;

fn fault_number(fault: Fault) -> u64
    ensures { result ≡ fault_number fault }
{
    match fault {
        Fault::Steps => 1,
        Fault::Range => 2,
        Fault::Kind => 3,
        Fault::Limit => 4,
        Fault::Words => 5,
    }
}

fn fault_text(alloc: Global, fault: Fault) -> Result<Text, NoMemory>
    ensures { IfOk result (λ text. text ≡ fault_text fault) }
{
    let number = fault_number(fault);
    let text = format!(in alloc; "fault {number}")?;
    Text::shared(text)
}

fn replied(alloc: Global, response: Response, state: State) -> Result<Ran, NoMemory>
    ensures { IfOk result (λ ran. ran ≡ Done (replied response state)) }
{
    let writes = SharedWrites::of(alloc, state.own)?;
    Ok(Ran::Done(Trace {
        reads: state.reads.into_reads(),
        calls: state.calls,
        answers: state.answers,
        writes,
        response,
    }))
}

fn faulted_trace(alloc: Global, fault: Fault, state: State) -> Result<Trace, NoMemory>
    ensures { IfOk result (λ trace. trace ≡ faulted_trace fault state) }
{
    Ok(Trace {
        reads: state.reads.into_reads(),
        calls: state.calls,
        answers: state.answers,
        writes: SharedWrites::new(),
        response: Response {
            status: 500,
            body: fault_text(alloc, fault)?,
        },
    })
}

fn finish(alloc: Global, flow: Flow, state: State) -> Result<Ran, NoMemory>
    ensures { IfOk result (λ ran. ran ≡ finish flow state) }
{
    match flow {
        Flow::GoesOn => {
            let response = Response {
                status: 200,
                body: Text::of(alloc, "")?,
            };
            replied(alloc, response, state)
        }
        Flow::Replied(response) => replied(alloc, response, state),
        Flow::Wants(call) => Ok(Ran::Wants {
            slot: state.calls.len(),
            calls: state.calls,
            call,
        }),
        Flow::Faulted(fault) => Ok(Ran::Done(faulted_trace(alloc, fault, state)?)),
    }
}

fn start(alloc: Global) -> State
    ensures { result ≡ start }
{
    State {
        vars: Variables::new(alloc),
        own: Writes::new(alloc),
        reads: Recorded::new(alloc),
        calls: Calls::new(alloc),
        answers: Answers::new(alloc),
        drawn: 0,
        steps: 0,
    }
}

// A run that no route takes.
fn not_found(alloc: Global) -> Result<Ran, NoMemory>
    ensures { IfOk result (λ ran. ran ≡ Done not_found) }
{
    Ok(Ran::Done(Trace {
        reads: Reads::new(alloc),
        calls: Calls::new(alloc),
        answers: Answers::new(alloc),
        writes: SharedWrites::new(),
        response: Response {
            status: 404,
            body: Text::of(alloc, "")?,
        },
    }))
}

// The first of the routes that takes the request runs; without one the answer is 404.
fn run_route<V: View>(
    alloc: Global,
    given: &Given,
    routes: &[Route],
    view: &V,
) -> Result<Ran, NoMemory>
    ensures { IfOk result (λ ran. ran ≡ run_route (route_of routes.now given.now.request.method given.now.segments) given.now (V.rows view.now)) }
{
    let method = given.request().method;
    let Some(route) = route_of(routes, method, given.segments()) else {
        return not_found(alloc);
    };
    let mut state = start(alloc);
    let flow = run_block(alloc, given, view, &mut state, &route.block)?;
    finish(alloc, flow, state)
}

/// Runs a program's handler of a request on the rows of a view, with the answers of its first calls: the first route that takes
/// its method and its path runs, and without one the answer is 404. The service's name and peers are the setting's.
///
/// A run that comes to a call for which there is no answer wants it; run again with that answer too, it goes on.
/// The only error is want of memory.
pub fn run<V: View>(
    alloc: Global,
    setting: &Setting,
    program: &Program,
    request: &Request,
    inputs: &Inputs,
    answers: &Answers,
    view: &V,
) -> Result<Ran, NoMemory>
    ensures meaning { IfOk result (λ ran. ran ≡ run_of (with_program program.now setting.now) request.now inputs.now answers.now (V.rows view.now)) }

    // What it recorded is what the rows give, and on any rows that give it the run is the same, whatever answers stand
    // behind those that it took.
    ensures reads { IfOk result (λ ran. IfDone ran (λ t. GivesAll (V.rows view.now) t.reads)) }
    ensures same { IfOk result (λ ran. IfDone ran (λ t.
        (others : List Cell) → GivesAll others t.reads → (later : List Response)
        → run_of (with_program program.now setting.now) request.now inputs.now (t.answers ++ later) others ≡ Done t)) }

    // It took the first of the answers, one for each call.
    ensures takes { IfOk result (λ ran. IfDone ran (λ t. (rest : List Response) × (answers.now ≡ t.answers ++ rest))) }
    ensures counts { IfOk result (λ ran. IfDone ran (λ t. length t.answers ≡ length t.calls)) }

    // Without answers no call has one. A run that wants an answer took all that it was given, and goes on with one
    // more; it wants at most 16. A service without peers wants none.
    ensures starts { answers.now ≡ [] → IfOk result (λ ran. calls_of ran ≡ []) }
    ensures goes_on { IfOk result (λ ran. IfWants ran (λ slot calls call.
        (slot ≡ length answers.now) × (length calls ≡ length answers.now)
        × ((x : Response) → calls_of (run_of (with_program program.now setting.now) request.now inputs.now (answers.now ++ x ∷ []) (V.rows view.now)) ≡ calls ++ call ∷ []))) }
    ensures few { IfOk result (λ ran. IfWants ran (λ slot calls call. slot < 16)) }
    ensures alone { setting.now.peers ≡ [] → IfOk result (λ ran. IsDone ran) }
{
    let segments = segments_of(alloc, &request.path)?;
    let given = Given::of(setting, request, &segments, inputs, answers);
    run_route(alloc, &given, program.routes(), view)
}
