// Statements, turns and blocks, each of which begins a step.
ghost use Rattle.std.specs.Prelude.{◌≡◌, Option, IfOk, MatchResult, OnOk, option_map, if◌then◌else◌};
ghost use Rattle.lang_core.specs.declared.value.Value.TheVariants.{Str};
ghost use Rattle.handler_run.specs.Runs.{Effect, ended, faulted, if_of, maybe, set_var, turns, stmt_of, block_of};

use crate::calls::run_call;
use crate::reads::{Beneath, cells_of, run_get};
use crate::state::{Flow, State};
use crate::statements::{run_drop, run_let, run_now, run_put, run_random, run_reply};
use crate::steps::value_in;
use crate::view::View;
use lang_core::{Block, Cell, Copied, Expr, NoMemory, Stmt, Text, Value};
use lang_values::{Fault, Given};
use std::alloc::Global;

// Whether an `if` goes into its first block.
fn is_chosen(
    alloc: Global,
    given: &Given,
    state: &State,
    test: &Expr,
) -> Result<Result<bool, Fault>, NoMemory>
    ensures { IfOk result (λ choice. MatchResult choice
        (λ yes. (first : Effect) (other : Option Effect) → if_of given.now test.now first other state.now
        ≡ (if yes then first state.now else maybe other state.now))
        (λ fault. (first : Effect) (other : Option Effect) → if_of given.now test.now first other state.now ≡ faulted fault state.now)) }
{
    match value_in(alloc, given, state, test)? {
        Ok(Value::Int(n)) => Ok(Ok(n != 0)),
        Ok(Value::Str(_)) | Ok(Value::Nothing) => Ok(Err(Fault::Kind)),
        Err(fault) => Ok(Err(fault)),
    }
}

// Gives the variables of an `each` the key and the text of a cell.
fn set_cell(
    alloc: Global,
    state: &mut State,
    key: &Text,
    text: &Text,
    cell: &Cell,
) -> Result<(), NoMemory>
    ensures { OnOk result (state.new ≡ set_var text.now (Str cell.now.text) (set_var key.now (Str cell.now.key) state.old)) }
{
    state.set_var(alloc, key, Value::Str(cell.key.copied(alloc)?))?;
    state.set_var(alloc, text, Value::Str(cell.text.copied(alloc)?))
}

#[cycle(exec)]
fn run_stmt<V: View>(
    alloc: Global,
    given: &Given,
    view: &V,
    state: &mut State,
    stmt: &Stmt,
) -> Result<Flow, NoMemory>
    ensures { IfOk result (λ flow. ended flow state.new ≡ stmt_of given.now (V.rows view.now) stmt.now state.old) }
{
    match stmt {
        Stmt::Let { var, value } => run_let(alloc, given, state, var, value),
        Stmt::Get { var, table, key } => run_get(alloc, given, view, state, var, table, key),
        Stmt::Put { table, key, value } => run_put(alloc, given, state, table, key, value),
        Stmt::Drop { table, key } => run_drop(alloc, given, state, table, key),
        Stmt::Each {
            key,
            text,
            table,
            prefix,
            block,
        } => {
            let cells = cells_of(alloc, given, view, state, table, prefix)?;
            run_each(alloc, given, view, state, key, text, block, cells)
        }
        Stmt::If { test, then, other } => match is_chosen(alloc, given, state, test)? {
            Ok(true) => run_block(alloc, given, view, state, then),
            Ok(false) => run_other(alloc, given, view, state, other),
            Err(fault) => Ok(Flow::Faulted(fault)),
        },
        Stmt::Call {
            status,
            answer,
            dest,
            method,
            path,
            body,
        } => run_call(
            alloc, given, state, status, answer, dest, *method, path, body,
        ),
        Stmt::Now { var } => run_now(alloc, given, state, var),
        Stmt::Random { var } => run_random(alloc, given, state, var),
        Stmt::Reply { status, body } => run_reply(alloc, given, state, status, body),
    }
}

// Runs the block behind an `else`, if there is one.
#[cycle(exec)]
fn run_other<V: View>(
    alloc: Global,
    given: &Given,
    view: &V,
    state: &mut State,
    other: &Option<Block>,
) -> Result<Flow, NoMemory>
    ensures { IfOk result (λ flow. ended flow state.new
        ≡ maybe (option_map (block_of given.now (V.rows view.now)) other.now) state.old) }
{
    match other {
        None => Ok(Flow::GoesOn),
        Some(block) => run_block(alloc, given, view, state, block),
    }
}

// Runs an `each` over what it goes over, or faults.
#[cycle(exec)]
fn run_each<V: View>(
    alloc: Global,
    given: &Given,
    view: &V,
    state: &mut State,
    key: &Text,
    text: &Text,
    block: &Block,
    cells: Beneath,
) -> Result<Flow, NoMemory>
    ensures { IfOk result (λ flow. MatchResult cells
        (λ cells. ended flow state.new ≡ turns key.now text.now (block_of given.now (V.rows view.now) block.now) cells state.old)
        (λ fault. ended flow state.new ≡ faulted fault state.old)) }
{
    match cells {
        Ok(cells) => run_turns(
            alloc,
            given,
            view,
            state,
            key,
            text,
            block,
            cells.as_slice(),
        ),
        Err(fault) => Ok(Flow::Faulted(fault)),
    }
}

// Runs the turns of an `each`.
#[cycle(exec)]
fn run_turns<V: View>(
    alloc: Global,
    given: &Given,
    view: &V,
    state: &mut State,
    key: &Text,
    text: &Text,
    block: &Block,
    cells: &[Cell],
) -> Result<Flow, NoMemory>
    ensures { IfOk result (λ flow. ended flow state.new
        ≡ turns key.now text.now (block_of given.now (V.rows view.now) block.now) cells.now state.old) }
{
    for cell in cells {
        if !state.begin() {
            return Ok(Flow::Faulted(Fault::Steps));
        }
        set_cell(alloc, state, key, text, cell)?;
        match run_block(alloc, given, view, state, block)? {
            Flow::GoesOn => {}
            flow => return Ok(flow),
        }
    }
    Ok(Flow::GoesOn)
}

/// Runs the statements of a block in turn.
#[cycle(exec)]
pub fn run_block<V: View>(
    alloc: Global,
    given: &Given,
    view: &V,
    state: &mut State,
    block: &Block,
) -> Result<Flow, NoMemory>
    ensures { IfOk result (λ flow. ended flow state.new ≡ block_of given.now (V.rows view.now) block.now state.old) }
{
    for stmt in block.stmts.as_slice() {
        if !state.begin() {
            return Ok(Flow::Faulted(Fault::Steps));
        }
        match run_stmt(alloc, given, view, state, stmt)? {
            Flow::GoesOn => {}
            flow => return Ok(flow),
        }
    }
    Ok(Flow::GoesOn)
}
