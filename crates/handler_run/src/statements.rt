// Statements that neither read rows nor call.
ghost use Rattle.std.specs.Prelude.{◌≡◌, pos, slice_get, IfOk};
ghost use Rattle.handler_run.specs.declared.state.State.{State};
ghost use Rattle.handler_run.specs.Runs.{ended, let_of, put_at, put_of, drop_at, drop_of, now_of, words_of, random_of, reply_at, reply_of};

use crate::state::{Flow, State};
use crate::steps::{key_fits, text_fits, value_in};
use lang_core::{Expr, Inputs, NoMemory, Response, Text, Value};
use lang_values::{Fault, Given};
use std::alloc::Global;

/// Runs a `let`.
pub fn run_let(
    alloc: Global,
    given: &Given,
    state: &mut State,
    var: &Text,
    value: &Expr,
) -> Result<Flow, NoMemory>
    ensures { IfOk result (λ flow. ended flow state.new ≡ let_of given.now var.now value.now state.old) }
{
    match value_in(alloc, given, state, value)? {
        Ok(value) => {
            state.set_var(alloc, var, value)?;
            Ok(Flow::GoesOn)
        }
        Err(fault) => Ok(Flow::Faulted(fault)),
    }
}

fn put_at(
    alloc: Global,
    state: &mut State,
    table: &Text,
    key: Value,
    value: Value,
) -> Result<Flow, NoMemory>
    ensures { IfOk result (λ flow. ended flow state.new ≡ put_at table.now key value state.old) }
{
    let Value::Str(key) = key else {
        return Ok(Flow::Faulted(Fault::Kind));
    };
    if !key_fits(&key) {
        return Ok(Flow::Faulted(Fault::Limit));
    }
    let Value::Str(text) = value else {
        return Ok(Flow::Faulted(Fault::Kind));
    };
    if !text_fits(&text) {
        return Ok(Flow::Faulted(Fault::Limit));
    }
    state.write_own(alloc, table, key, Some(text))?;
    Ok(Flow::GoesOn)
}

/// Runs a `put`.
pub fn run_put(
    alloc: Global,
    given: &Given,
    state: &mut State,
    table: &Text,
    key: &Expr,
    value: &Expr,
) -> Result<Flow, NoMemory>
    ensures { IfOk result (λ flow. ended flow state.new ≡ put_of given.now table.now key.now value.now state.old) }
{
    let key = match value_in(alloc, given, state, key)? {
        Ok(key) => key,
        Err(fault) => return Ok(Flow::Faulted(fault)),
    };
    match value_in(alloc, given, state, value)? {
        Ok(value) => put_at(alloc, state, table, key, value),
        Err(fault) => Ok(Flow::Faulted(fault)),
    }
}

fn drop_at(alloc: Global, state: &mut State, table: &Text, key: Value) -> Result<Flow, NoMemory>
    ensures { IfOk result (λ flow. ended flow state.new ≡ drop_at table.now key state.old) }
{
    let Value::Str(key) = key else {
        return Ok(Flow::Faulted(Fault::Kind));
    };
    if !key_fits(&key) {
        return Ok(Flow::Faulted(Fault::Limit));
    }
    state.write_own(alloc, table, key, None)?;
    Ok(Flow::GoesOn)
}

/// Runs a `drop`.
pub fn run_drop(
    alloc: Global,
    given: &Given,
    state: &mut State,
    table: &Text,
    key: &Expr,
) -> Result<Flow, NoMemory>
    ensures { IfOk result (λ flow. ended flow state.new ≡ drop_of given.now table.now key.now state.old) }
{
    match value_in(alloc, given, state, key)? {
        Ok(key) => drop_at(alloc, state, table, key),
        Err(fault) => Ok(Flow::Faulted(fault)),
    }
}

/// Runs a `now`.
pub fn run_now(
    alloc: Global,
    given: &Given,
    state: &mut State,
    var: &Text,
) -> Result<Flow, NoMemory>
    ensures { IfOk result (λ flow. ended flow state.new ≡ now_of given.now var.now state.old) }
{
    let moment = moment_of(given.inputs());
    state.set_var(alloc, var, Value::Int(moment))?;
    Ok(Flow::GoesOn)
}

fn moment_of(inputs: &Inputs) -> i64
    ensures { result ≡ pos inputs.now.moment }
{
    inputs.moment as i64
}

fn word_at(inputs: &Inputs, place: u64) -> Option<u64>
    ensures { result ≡ slice_get (words_of inputs.now) place }
{
    let words = [
        inputs.w1, inputs.w2, inputs.w3, inputs.w4, inputs.w5, inputs.w6, inputs.w7, inputs.w8,
    ];
    words.get(place as usize).copied()
}

/// Runs a `random`.
pub fn run_random(
    alloc: Global,
    given: &Given,
    state: &mut State,
    var: &Text,
) -> Result<Flow, NoMemory>
    ensures { IfOk result (λ flow. ended flow state.new ≡ random_of given.now var.now state.old) }
{
    match word_at(given.inputs(), state.drawn) {
        None => Ok(Flow::Faulted(Fault::Words)),
        Some(word) => {
            state.drawn += 1;
            state.set_var(alloc, var, Value::Int((word / 2) as i64))?;
            Ok(Flow::GoesOn)
        }
    }
}

fn reply_at(status: &Value, body: Value) -> Flow
    ensures { (s : State) → ended result s ≡ reply_at status.now body s }
{
    let Value::Int(status) = status else {
        return Flow::Faulted(Fault::Kind);
    };
    let status = *status;
    if !(200 <= status && status <= 599) || status == 204 || status == 205 || status == 304 {
        return Flow::Faulted(Fault::Kind);
    }
    let Value::Str(body) = body else {
        return Flow::Faulted(Fault::Kind);
    };
    if !text_fits(&body) {
        return Flow::Faulted(Fault::Limit);
    }
    Flow::Replied(Response {
        status: status as u16,
        body,
    })
}

/// Runs a `reply`.
pub fn run_reply(
    alloc: Global,
    given: &Given,
    state: &mut State,
    status: &Expr,
    body: &Expr,
) -> Result<Flow, NoMemory>
    ensures { IfOk result (λ flow. ended flow state.new ≡ reply_of given.now status.now body.now state.old) }
{
    let status = match value_in(alloc, given, state, status)? {
        Ok(status) => status,
        Err(fault) => return Ok(Flow::Faulted(fault)),
    };
    match value_in(alloc, given, state, body)? {
        Ok(body) => Ok(reply_at(&status, body)),
        Err(fault) => Ok(Flow::Faulted(fault)),
    }
}
