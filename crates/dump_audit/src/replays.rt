// What is wrong with a service alone.
ghost use Rattle.std.specs.Prelude.{◌≡◌, IfOk};
ghost use Rattle.std.specs.Coded.{coded_list};
ghost use Rattle.lang_base.specs.Equal.{equal};
ghost use Rattle.lang_core.specs.Traces.{dead_trace};
ghost use Rattle.lang_core.specs.contracts.cells.Cell as cell;
ghost use Rattle.lang_core.specs.contracts.request.Response as response;
ghost use Rattle.lang_core.specs.contracts.trace.CallMade as call_made;
ghost use Rattle.dump_audit.specs.Judging.{after, difference, ended, is_response, is_told, replay_fault, same_calls, stepped, trace_of};

use crate::judged::Fault;
use dump_tables::{DumpEntry, DumpService};
use handler_run::{Ran, run};
use lang_core::{
    Answers, Calls, Cells, NoMemory, Reads, Response, Same, Setting, SharedWrites, Text, Trace,
};
use lang_rows::RowTree;
use std::alloc::Global;

// The trace of an entry that doesn't survive.
fn dead_trace(alloc: Global) -> Result<Trace, NoMemory>
    ensures { IfOk result (λ trace. trace ≡ dead_trace) }
{
    let body = Text::of(alloc, "")?;
    Ok(Trace {
        reads: Reads::new(alloc),
        calls: Calls::new(alloc),
        answers: Answers::new(alloc),
        writes: SharedWrites::new(),
        response: Response { status: 410, body },
    })
}

fn ended(ran: Ran) -> Option<Trace>
    ensures { result ≡ ended ran }
{
    match ran {
        Ran::Done(trace) => Some(trace),
        Ran::Wants { .. } => None,
    }
}

fn trace_of(
    alloc: Global,
    setting: &Setting,
    rows: &RowTree,
    entry: &DumpEntry,
) -> Result<Option<Trace>, NoMemory>
    ensures { IfOk result (λ trace. trace ≡ trace_of setting.now rows.now entry.now) }
{
    if !entry.is_alive() {
        return Ok(Some(dead_trace(alloc)?));
    }
    let ran = run(
        alloc,
        setting,
        entry.program.get(),
        &entry.request,
        &entry.inputs,
        &entry.answers,
        rows,
    )?;
    Ok(ended(ran))
}

fn calls_are(entry: &DumpEntry, trace: &Trace) -> bool
    ensures { result ≡ equal (coded_list call_made.the_row.coded) entry.now.calls trace.now.calls }
{
    entry.calls.is(&trace.calls)
}

fn answers_are(entry: &DumpEntry, trace: &Trace) -> bool
    ensures { result ≡ equal (coded_list response.the_row.coded) entry.now.answers trace.now.answers }
{
    entry.answers.is(&trace.answers)
}

fn is_told(entry: &DumpEntry) -> bool
    ensures { result ≡ is_told entry.now }
{
    entry.numbers.len() == entry.calls.len() && entry.answers.len() == entry.calls.len()
}

fn same_calls(entry: &DumpEntry, trace: &Trace) -> bool
    ensures { result ≡ same_calls entry.now trace.now }
{
    is_told(entry) && calls_are(entry, trace) && answers_are(entry, trace)
}

fn response_is(told: &Response, given: &Response) -> bool
    ensures { result ≡ equal response.the_row.coded told.now given.now }
{
    told.is(given)
}

/// Whether this response is told.
pub(crate) fn is_response(told: &Option<Response>, given: &Response) -> bool
    ensures { result ≡ is_response told.now given.now }
{
    match told {
        None => false,
        Some(told) => response_is(told, given),
    }
}

// In what an entry isn't its trace.
fn difference(entry: &DumpEntry, trace: &Trace) -> Option<Fault>
    ensures { result ≡ difference entry.now trace.now }
{
    if !same_calls(entry, trace) {
        return Some(Fault::Calls);
    }
    if !is_response(&entry.reply, &trace.response) {
        return Some(Fault::Reply);
    }
    None
}

// Runs an entry on the rows, which become those after it.
fn step(
    alloc: Global,
    setting: &Setting,
    rows: &mut RowTree,
    entry: &DumpEntry,
) -> Result<Option<Fault>, NoMemory>
    ensures { IfOk result (λ what. stepped what rows.new ≡ after setting.now rows.old entry.now) }
{
    let Some(trace) = trace_of(alloc, setting, rows, entry)? else {
        return Ok(Some(Fault::Calls));
    };
    if let Some(what) = difference(entry, &trace) {
        return Ok(Some(what));
    }
    rows.apply(alloc, &trace.writes)?;
    Ok(None)
}

fn rows_are(rows: &Cells, last: &Cells) -> bool
    ensures { result ≡ equal (coded_list cell.the_row.coded) rows.now last.now }
{
    rows.is(last)
}

/// The first fault of a service alone, and the number of its entry: 0 for its rows.
pub(crate) fn replay_fault(
    alloc: Global,
    service: &DumpService,
) -> Result<Option<(u64, Fault)>, NoMemory>
    ensures { IfOk result (λ found. found ≡ replay_fault service.now) }
{
    let mut rows = RowTree::new(alloc);
    for entry in service.entries.as_slice() {
        if let Some(what) = step(alloc, &service.setting, &mut rows, entry)? {
            return Ok(Some((entry.id, what)));
        }
    }
    let last = rows.cells(alloc)?;
    if rows_are(&last, &service.rows) {
        Ok(None)
    } else {
        Ok(Some((0, Fault::Rows)))
    }
}
