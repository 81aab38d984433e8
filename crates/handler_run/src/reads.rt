// Statements that read rows.
ghost use Rattle.std.specs.Prelude.{◌≡◌, ◌&&◌, ℕ, List, None, true, false, sum_by, nat_le, IfOk, MatchResult, OnOk};
ghost use Rattle.lang_base.specs.Texts.{same_text, begins_with};
ghost use Rattle.lang_core.specs.Places.{IsOrdered};
ghost use Rattle.lang_core.specs.Rows.{cell_size, write_place};
ghost use Rattle.lang_core.specs.declared.cells.Cell.{Cell};
ghost use Rattle.lang_core.specs.declared.trace.Read.TheVariants.{Key, Scan};
ghost use Rattle.lang_values.specs.Values.{text_or_nothing};
ghost use Rattle.lang_values.specs.declared.given.Fault.TheVariants.{Limit};
ghost use Rattle.handler_run.specs.Runs.{Effect, ended, faulted, goes_on, note_read, noted, own, read_or, reads_fit, set_var, within, get_at, get_of, scan_fits, own_beneath, laid_over, turns, with_cells, each_at, each_of};

use crate::state::{Flow, State};
use crate::steps::{key_fits, own, value_in};
use crate::view::View;
use lang_base::both;
use lang_core::{
    Cell, Cells, Copied, Expr, MOST_SCAN_BYTES, MOST_SCAN_CELLS, NoMemory, Read, Same,
    SharedWrites, Text, Value, Write, Writes, apply_writes,
};
use lang_values::{Fault, Given, text_or_nothing};
use std::alloc::Global;

const LONGEST_PREFIX: u64 = 256;

/// Cells that an `each` goes over, or a fault. Want of memory stands outside of it.
pub type Beneath = Result<Cells, Fault>;

// Records a read of a key.
fn note_key(
    alloc: Global,
    state: &mut State,
    table: &Text,
    key: &Text,
    found: Option<Text>,
) -> Result<(), NoMemory>
    ensures { OnOk result (state.new ≡ note_read (Key table.now key.now found) state.old) }
{
    let (table, key) = both(table.copied(alloc), key.copied(alloc))?;
    state.note_read(Read::Key { table, key, found })
}

// Gives a variable what was read, where the reads are within their limit.
fn set_read(alloc: Global, state: &mut State, var: &Text, value: Value) -> Result<Flow, NoMemory>
    ensures { IfOk result (λ flow. ended flow state.new
        ≡ within (reads_fit state.old) state.old (goes_on (set_var var.now value state.old))) }
{
    if !state.reads.fit() {
        return Ok(Flow::Faulted(Fault::Limit));
    }
    state.set_var(alloc, var, value)?;
    Ok(Flow::GoesOn)
}

// Goes on with what a key was found to have.
fn found_at(
    alloc: Global,
    state: &mut State,
    var: &Text,
    table: &Text,
    key: &Text,
    found: Option<Text>,
) -> Result<Flow, NoMemory>
    ensures { IfOk result (λ flow. ended flow state.new
        ≡ noted (Key table.now key.now found) state.old (λ u. goes_on (set_var var.now (text_or_nothing found) u))) }
{
    let value = text_or_nothing(alloc, &found)?;
    note_key(alloc, state, table, key, found)?;
    set_read(alloc, state, var, value)
}

// Reads a key of the rows.
fn read_row<V: View>(
    alloc: Global,
    view: &V,
    state: &mut State,
    var: &Text,
    table: &Text,
    key: &Text,
) -> Result<Flow, NoMemory>
    ensures { IfOk result (λ flow. ended flow state.new ≡ read_or None (V.rows view.now) var.now table.now key.now state.old) }
{
    let found = view.key(alloc, table, key)?;
    found_at(alloc, state, var, table, key, found)
}

fn read_at<V: View>(
    alloc: Global,
    view: &V,
    state: &mut State,
    var: &Text,
    table: &Text,
    key: &Text,
) -> Result<Flow, NoMemory>
    ensures { IfOk result (λ flow. ended flow state.new
        ≡ read_or (own state.old.own table.now key.now) (V.rows view.now) var.now table.now key.now state.old) }
{
    match own(&state.own, table, key) {
        Some(text) => {
            let value = text_or_nothing(alloc, text)?;
            state.set_var(alloc, var, value)?;
            Ok(Flow::GoesOn)
        }
        None => read_row(alloc, view, state, var, table, key),
    }
}

fn get_at<V: View>(
    alloc: Global,
    view: &V,
    state: &mut State,
    var: &Text,
    table: &Text,
    key: &Value,
) -> Result<Flow, NoMemory>
    ensures { IfOk result (λ flow. ended flow state.new ≡ get_at (V.rows view.now) var.now table.now key.now state.old) }
{
    let Value::Str(key) = key else {
        return Ok(Flow::Faulted(Fault::Kind));
    };
    if !key_fits(key) {
        return Ok(Flow::Faulted(Fault::Limit));
    }
    read_at(alloc, view, state, var, table, key)
}

/// Runs a `get`.
pub fn run_get<V: View>(
    alloc: Global,
    given: &Given,
    view: &V,
    state: &mut State,
    var: &Text,
    table: &Text,
    key: &Expr,
) -> Result<Flow, NoMemory>
    ensures { IfOk result (λ flow. ended flow state.new ≡ get_of given.now (V.rows view.now) var.now table.now key.now state.old) }
{
    match value_in(alloc, given, state, key)? {
        Ok(key) => get_at(alloc, view, state, var, table, &key),
        Err(fault) => Ok(Flow::Faulted(fault)),
    }
}

// Whether the cells have at most this many bytes of keys and texts.
fn bytes_fit(cells: &[Cell], most: u64) -> bool
    ensures { result ≡ nat_le (sum_by cell_size cells.now) most }
{
    let mut room = most;
    for cell in cells {
        let key = cell.key.len();
        let text = cell.text.len();
        if key > room || text > room - key {
            return false;
        }
        room -= key + text;
    }
    true
}

fn scan_fits(cells: &[Cell]) -> bool
    ensures { result ≡ scan_fits cells.now }
{
    cells.len() as u64 <= MOST_SCAN_CELLS && bytes_fit(cells, MOST_SCAN_BYTES)
}

fn is_own_beneath(write: &Write, table: &Text, prefix: &Text) -> bool
    ensures { result ≡ (same_text write.now.table table.now && begins_with prefix.now write.now.key) }
{
    write.table.is(table) && write.key.begins_with(prefix)
}

// The own writes of a table under a prefix.
#[tactic(auto, using(crate::proofs::OwnLemmas::own_ordered))]
fn own_beneath(
    alloc: Global,
    writes: &[Write],
    table: &Text,
    prefix: &Text,
) -> Result<SharedWrites, NoMemory>
    requires { IsOrdered write_place writes.now }
    ensures { IfOk result (λ beneath. beneath ≡ own_beneath table.now prefix.now writes.now) }
{
    let mut beneath = Writes::new(alloc);
    for write in writes {
        if is_own_beneath(write, table, prefix) {
            beneath.push(write.copied(alloc)?)?;
        }
    }
    SharedWrites::of(alloc, beneath)
}

fn laid_over(
    alloc: Global,
    mut cells: Cells,
    table: &Text,
    prefix: &Text,
    state: &State,
) -> Result<Cells, NoMemory>
    ensures { IfOk result (λ laid. laid ≡ laid_over cells table.now prefix.now state.now) }
{
    let writes = own_beneath(alloc, state.own.as_slice(), table, prefix)?;
    apply_writes(alloc, &mut cells, &writes)?;
    Ok(cells)
}

// Records a scan.
fn note_scan(
    alloc: Global,
    state: &mut State,
    table: &Text,
    prefix: &Text,
    cells: &Cells,
) -> Result<(), NoMemory>
    ensures { OnOk result (state.new ≡ note_read (Scan table.now prefix.now cells.now) state.old) }
{
    let words = both(table.copied(alloc), prefix.copied(alloc));
    let (words, found) = both(words, cells.copied(alloc))?;
    let (table, prefix) = words;
    state.note_read(Read::Scan {
        table,
        prefix,
        found,
    })
}

// Cells with own writes laid over them, where a scan may hold so many.
fn laid_within(
    alloc: Global,
    cells: Cells,
    table: &Text,
    prefix: &Text,
    state: &State,
) -> Result<Beneath, NoMemory>
    ensures { IfOk result (λ beneath. MatchResult beneath
        (λ laid. (laid ≡ laid_over cells table.now prefix.now state.now) × (scan_fits laid ≡ true))
        (λ fault. (fault ≡ Limit) × (scan_fits (laid_over cells table.now prefix.now state.now) ≡ false))) }
{
    let laid = laid_over(alloc, cells, table, prefix, state)?;
    if !scan_fits(laid.as_slice()) {
        return Ok(Err(Fault::Limit));
    }
    Ok(Ok(laid))
}

// What an `each` goes over: the cells beneath, which are recorded, with own writes laid over them.
fn cells_over(
    alloc: Global,
    cells: Cells,
    table: &Text,
    prefix: &Text,
    state: &mut State,
) -> Result<Beneath, NoMemory>
    ensures { IfOk result (λ beneath. MatchResult beneath
        (λ laid. (next : List Cell → Effect) → with_cells cells table.now prefix.now state.old next ≡ next laid state.new)
        (λ fault. (next : List Cell → Effect) → with_cells cells table.now prefix.now state.old next ≡ faulted fault state.new)) }
{
    note_scan(alloc, state, table, prefix, &cells)?;
    if !state.reads.fit() || !scan_fits(cells.as_slice()) {
        return Ok(Err(Fault::Limit));
    }
    laid_within(alloc, cells, table, prefix, state)
}

// The cells under a prefix.
fn cells_under<V: View>(
    alloc: Global,
    view: &V,
    state: &mut State,
    table: &Text,
    prefix: &Text,
) -> Result<Beneath, NoMemory>
    ensures { IfOk result (λ beneath. MatchResult beneath
        (λ laid. (k t : List ℕ) (body : Effect) → each_at (V.rows view.now) k t table.now (Value.Str prefix.now) body state.old ≡ turns k t body laid state.new)
        (λ fault. (k t : List ℕ) (body : Effect) → each_at (V.rows view.now) k t table.now (Value.Str prefix.now) body state.old ≡ faulted fault state.new)) }
{
    if prefix.len() > LONGEST_PREFIX {
        return Ok(Err(Fault::Limit));
    }
    let cells = view.scan(alloc, table, prefix)?;
    cells_over(alloc, cells, table, prefix, state)
}

fn cells_at<V: View>(
    alloc: Global,
    view: &V,
    state: &mut State,
    table: &Text,
    prefix: &Value,
) -> Result<Beneath, NoMemory>
    ensures { IfOk result (λ beneath. MatchResult beneath
        (λ laid. (k t : List ℕ) (body : Effect) → each_at (V.rows view.now) k t table.now prefix.now body state.old ≡ turns k t body laid state.new)
        (λ fault. (k t : List ℕ) (body : Effect) → each_at (V.rows view.now) k t table.now prefix.now body state.old ≡ faulted fault state.new)) }
{
    let Value::Str(prefix) = prefix else {
        return Ok(Err(Fault::Kind));
    };
    cells_under(alloc, view, state, table, prefix)
}

/// The cells that an `each` goes over, before its first turn.
pub fn cells_of<V: View>(
    alloc: Global,
    given: &Given,
    view: &V,
    state: &mut State,
    table: &Text,
    prefix: &Expr,
) -> Result<Beneath, NoMemory>
    ensures { IfOk result (λ beneath. MatchResult beneath
        (λ laid. (k t : List ℕ) (body : Effect) → each_of given.now (V.rows view.now) k t table.now prefix.now body state.old ≡ turns k t body laid state.new)
        (λ fault. (k t : List ℕ) (body : Effect) → each_of given.now (V.rows view.now) k t table.now prefix.now body state.old ≡ faulted fault state.new)) }
{
    match value_in(alloc, given, state, prefix)? {
        Ok(prefix) => cells_at(alloc, view, state, table, &prefix),
        Err(fault) => Ok(Err(fault)),
    }
}
