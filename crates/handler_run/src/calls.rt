// Calls of other services.
ghost use Rattle.std.specs.Prelude.{◌≡◌, [], ◌∷◌, ◌++◌, find, IfOk};
ghost use Rattle.std.specs.List.{list_any};
ghost use Rattle.std.specs.Option.{option_copied};
ghost use Rattle.lang_base.specs.Texts.{same_text};
ghost use Rattle.handler_run.specs.Runs.{ended, goes_on, answered, take_answer, send, call_request, send_to, is_loop, call_to, call_path_fits, call_at, call_of};

use crate::state::{Flow, State};
use crate::steps::{text_fits, value_in};
use lang_base::both;
use lang_core::{
    CallMade, Copied, Expr, Method, Name, Names, NoMemory, Request, Response, Same, Text, Value,
    is_path,
};
use lang_values::{Fault, Given, pair_up};
use std::alloc::Global;

const MOST_CALLS: u64 = 16;

fn has_name(names: &[Name], text: &Text) -> bool
    ensures { result ≡ list_any (λ name. same_text name text.now) names.now }
{
    for name in names {
        if name.text().is(text) {
            return true;
        }
    }
    false
}

fn named<'a>(names: &'a [Name], text: &Text) -> Option<&'a Name>
    ensures { option_copied result ≡ find (λ name. same_text name text.now) names.now }
{
    for name in names {
        if name.text().is(text) {
            return Some(name);
        }
    }
    None
}

// Whether a call would go to the service itself or to one that called for this request.
fn is_loop(given: &Given, dest: &Text) -> bool
    ensures { result ≡ is_loop given.now dest.now }
{
    given.me().text().is(dest) || has_name(given.request().chain.as_slice(), dest)
}

// Whether a call may have the path.
fn call_path_fits(path: &Text) -> bool
    ensures { result ≡ call_path_fits path.now }
{
    is_path(path) && !path.as_bytes().starts_with(b"/aire/")
}

// An answer that no service gave.
fn refuse(
    alloc: Global,
    state: &mut State,
    status_var: &Text,
    body_var: &Text,
    status: u16,
) -> Result<Flow, NoMemory>
    ensures { IfOk result (λ flow. ended flow state.new ≡ goes_on (answered status_var.now body_var.now (record { status = status; body = [] }) state.old)) }
{
    let response = Response {
        status,
        body: Text::of(alloc, "")?,
    };
    state.answer(alloc, status_var, body_var, &response)?;
    Ok(Flow::GoesOn)
}

fn take_answer(
    alloc: Global,
    answer: Option<&Response>,
    state: &mut State,
    status_var: &Text,
    body_var: &Text,
    call: CallMade,
) -> Result<Flow, NoMemory>
    ensures { IfOk result (λ flow. ended flow state.new ≡ take_answer (option_copied answer.entry) status_var.now body_var.now call state.old) }
{
    let Some(answer) = answer else {
        return Ok(Flow::Wants(call));
    };
    state.note_call(call, answer.copied(alloc)?)?;
    state.answer(alloc, status_var, body_var, answer)?;
    Ok(Flow::GoesOn)
}

// Takes the next slot's answer.
fn send(
    alloc: Global,
    given: &Given,
    state: &mut State,
    status_var: &Text,
    body_var: &Text,
    call: CallMade,
) -> Result<Flow, NoMemory>
    ensures { IfOk result (λ flow. ended flow state.new ≡ send given.now status_var.now body_var.now call state.old) }
{
    if state.calls.len() >= MOST_CALLS {
        return Ok(Flow::Faulted(Fault::Limit));
    }
    let answer = given.answers().at(state.calls.len());
    take_answer(alloc, answer, state, status_var, body_var, call)
}

// The services that wait for a call: those that wait for this request, and the service itself.
fn chain_on(alloc: Global, given: &Given) -> Result<Names, NoMemory>
    ensures { IfOk result (λ chain. chain ≡ given.now.request.chain ++ given.now.me ∷ []) }
{
    let (mut chain, me) = both(
        given.request().chain.copied(alloc),
        given.me().copied(alloc),
    )?;
    chain.push(me)?;
    Ok(chain)
}

// The request of a call, for which the service itself is the user.
fn call_request(
    alloc: Global,
    given: &Given,
    method: Method,
    path: Text,
    body: Text,
) -> Result<Request, NoMemory>
    ensures { IfOk result (λ request. request ≡ call_request given.now method path body) }
{
    let (who, chain) = both(given.me().text().copied(alloc), chain_on(alloc, given))?;
    Ok(Request {
        method,
        path,
        body,
        who,
        chain,
    })
}

fn send_to(
    alloc: Global,
    given: &Given,
    state: &mut State,
    status_var: &Text,
    body_var: &Text,
    dest: Option<&Name>,
    method: Method,
    path: Text,
    body: Text,
) -> Result<Flow, NoMemory>
    ensures { IfOk result (λ flow. ended flow state.new
        ≡ send_to (option_copied dest.entry) given.now status_var.now body_var.now method path body state.old) }
{
    let Some(dest) = dest else {
        return refuse(alloc, state, status_var, body_var, 502);
    };
    let request = call_request(alloc, given, method, path, body);
    let (dest, request) = both(dest.copied(alloc), request)?;
    let call = CallMade { dest, request };
    send(alloc, given, state, status_var, body_var, call)
}

fn call_to(
    alloc: Global,
    given: &Given,
    state: &mut State,
    status_var: &Text,
    body_var: &Text,
    dest: &Text,
    method: Method,
    path: Text,
    body: Text,
) -> Result<Flow, NoMemory>
    ensures { IfOk result (λ flow. ended flow state.new
        ≡ call_to given.now status_var.now body_var.now dest.now method path body state.old) }
{
    if is_loop(given, dest) {
        return refuse(alloc, state, status_var, body_var, 508);
    }
    let peer = named(given.peers().as_slice(), dest);
    send_to(
        alloc, given, state, status_var, body_var, peer, method, path, body,
    )
}

fn call_at(
    alloc: Global,
    given: &Given,
    state: &mut State,
    status_var: &Text,
    body_var: &Text,
    dest: &Value,
    method: Method,
    path: Value,
    body: Value,
) -> Result<Flow, NoMemory>
    ensures { IfOk result (λ flow. ended flow state.new
        ≡ call_at given.now status_var.now body_var.now dest.now method path body state.old) }
{
    let Value::Str(dest) = dest else {
        return Ok(Flow::Faulted(Fault::Kind));
    };
    let Value::Str(path) = path else {
        return Ok(Flow::Faulted(Fault::Kind));
    };
    if !call_path_fits(&path) {
        return Ok(Flow::Faulted(Fault::Limit));
    }
    let Value::Str(body) = body else {
        return Ok(Flow::Faulted(Fault::Kind));
    };
    if !text_fits(&body) {
        return Ok(Flow::Faulted(Fault::Limit));
    }
    call_to(
        alloc, given, state, status_var, body_var, dest, method, path, body,
    )
}

/// Runs a `call`, whose answer's status and body go into these variables.
pub fn run_call(
    alloc: Global,
    given: &Given,
    state: &mut State,
    status_var: &Text,
    body_var: &Text,
    dest: &Expr,
    method: Method,
    path: &Expr,
    body: &Expr,
) -> Result<Flow, NoMemory>
    ensures { IfOk result (λ flow. ended flow state.new
        ≡ call_of given.now status_var.now body_var.now dest.now method path.now body.now state.old) }
{
    let dest = value_in(alloc, given, state, dest);
    let path = value_in(alloc, given, state, path);
    let (head, body) = both(both(dest, path), value_in(alloc, given, state, body))?;
    match pair_up(pair_up(head.0, head.1), body) {
        Ok(((dest, path), body)) => call_at(
            alloc, given, state, status_var, body_var, &dest, method, path, body,
        ),
        Err(fault) => Ok(Flow::Faulted(fault)),
    }
}
