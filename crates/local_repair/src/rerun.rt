// A new record of an entry, which its run gives.
ghost use Rattle.std.specs.Prelude.{◌≡◌, [], IfOk, Some, true, false};
ghost use Rattle.execution.specs.HandedOn.{run_of};
ghost use Rattle.execution.specs.HandedOn.{Ran};
ghost use Rattle.lang_core.specs.Traces.{dead_trace};
ghost use Rattle.request_log.specs.Entries.{is_alive};
ghost use Rattle.local_repair.specs.Steps.{tentative, answer_at, answers_for, calls_of_made, same_call, is_new_answer, trace_through, trace_again, IsRerun};
ghost use Rattle.local_repair.specs.Parts.{same_response};
ghost use Rattle.local_repair.specs.Programs.{setting_of};

use crate::programs::program_of;
use crate::slots::Slots;
use execution::{Ran, View, run};
use lang_core::{
    Answers, CallMade, Copied, NoMemory, Response, Same, Setting, Text, ThinSeq, Trace,
};
use request_log::{Entry, Made, dead_trace};
use std::alloc::Global;

/// More than the calls of any run, by one.
const MOST_TURNS: usize = 17;

/// The answer of a call that has none yet: 504 with an empty body.
pub fn tentative(alloc: Global) -> Result<Response, NoMemory>
    ensures { IfOk result (λ r. r ≡ tentative) }
{
    let body = Text::of(alloc, "")?;
    Ok(Response { status: 504, body })
}

fn same_call(left: &CallMade, right: &CallMade) -> bool
    ensures { result ≡ same_call left.now right.now }
{
    left.is(right)
}

fn consumed_copy<S: Slots>(alloc: Global, slots: &S, number: u64) -> Result<Response, NoMemory>
    ensures { IfOk result (λ r. r ≡ S.consumed_of slots.now number) }
{
    match slots.consumed(number) {
        Some(answer) => answer.copied(alloc),
        None => tentative(alloc),
    }
}

// The answer of the call at a place: what its slot consumes where the old call there is the same.
fn answer_for<S: Slots>(
    alloc: Global,
    slots: &S,
    old: &[CallMade],
    numbers: &[u64],
    place: usize,
    call: &CallMade,
) -> Result<Response, NoMemory>
    ensures { IfOk result (λ r. r ≡ answer_at (S.consumed_of slots.now) old.now numbers.now place call.now) }
{
    match (old.get(place), numbers.get(place)) {
        (Some(old_call), Some(number)) if same_call(old_call, call) => {
            consumed_copy(alloc, slots, *number)
        }
        _ => tentative(alloc),
    }
}

fn old_calls(entry: &Entry) -> &[CallMade]
    ensures { result.now ≡ calls_of_made entry.now.made }
{
    match &entry.made {
        Some(made) => made.trace.calls.as_slice(),
        None => &[],
    }
}

// One run of an entry under its program, with these answers.
fn run_entry<V: View>(
    alloc: Global,
    setting: &Setting,
    view: &V,
    entry: &Entry,
    answers: &Answers,
) -> Result<Ran, NoMemory>
    ensures { IfOk result (λ ran. ran ≡ run_of (setting_of setting.now entry.now) entry.now.request entry.now.inputs answers.now (V.rows view.now)) }
{
    let program = program_of(entry);
    let request = entry.request.get();
    let inputs = entry.inputs.get();
    run(alloc, setting, program, request, inputs, answers, view)
}

// Runs an entry under its program from its start, with the answers of its old calls.
fn live_trace<S: Slots, V: View>(
    alloc: Global,
    setting: &Setting,
    view: &V,
    entry: &Entry,
    old: &[CallMade],
    slots: &S,
) -> Result<Trace, NoMemory>
    ensures run { IfOk result (λ t. run_of (setting_of setting.now entry.now) entry.now.request entry.now.inputs t.answers (V.rows view.now) ≡ Ran.Done t) }
    ensures answers { IfOk result (λ t. t.answers ≡ answers_for (S.consumed_of slots.now) old.now entry.now.slots t.calls) }
    ensures again { IfOk result (λ t. t ≡ trace_through 17 (λ xs. run_of (setting_of setting.now entry.now) entry.now.request entry.now.inputs xs (V.rows view.now))
        (answer_at (S.consumed_of slots.now) old.now entry.now.slots) []) }
{
    let mut answers: Answers = ThinSeq::new(alloc);
    for turn in 0..MOST_TURNS {
        match run_entry(alloc, setting, view, entry, &answers)? {
            Ran::Done(trace) => return Ok(trace),
            Ran::Wants {
                slot: _,
                calls: _,
                call,
            } => {
                let place = turn;
                let answer = answer_for(alloc, slots, old, entry.slots.as_slice(), place, &call)?;
                answers.push(answer)?;
            }
        }
    }
    unreachable!()
}

// The trace of an entry on these rows: its run, or the dead trace.
fn new_trace<S: Slots, V: View>(
    alloc: Global,
    setting: &Setting,
    view: &V,
    entry: &Entry,
    slots: &S,
) -> Result<Trace, NoMemory>
    ensures live { is_alive entry.now ≡ true → IfOk result (λ t. run_of (setting_of setting.now entry.now) entry.now.request entry.now.inputs t.answers (V.rows view.now) ≡ Ran.Done t) }
    ensures dead { is_alive entry.now ≡ false → IfOk result (λ t. t ≡ dead_trace) }
    ensures answers { IfOk result (λ t. t.answers ≡ answers_for (S.consumed_of slots.now) (calls_of_made entry.now.made) entry.now.slots t.calls) }
    ensures again { IfOk result (λ t. t ≡ trace_again setting.now (S.consumed_of slots.now) (V.rows view.now) entry.now) }
{
    if entry.is_alive() {
        live_trace(alloc, setting, view, entry, old_calls(entry), slots)
    } else {
        dead_trace(alloc)
    }
}

/// A new record of an entry on the rows before it: its run under its program, whose calls get the old answers where they are the old
/// calls, or the trace of a dead entry.
pub(crate) fn run_again<S: Slots, V: View>(
    alloc: Global,
    setting: &Setting,
    view: &V,
    entry: &Entry,
    slots: &S,
) -> Result<Made, NoMemory>
    ensures { IfOk result (λ m. IsRerun setting.now (S.consumed_of slots.now) (V.rows view.now) entry.now m) }
{
    let trace = new_trace(alloc, setting, view, entry, slots)?;
    Ok(Made {
        alive: entry.is_alive(),
        version: entry.version,
        request: entry.request.copied(alloc)?,
        trace,
    })
}

/// Whether a record answers something else than the entry's record, or is its first.
pub(crate) fn is_new_answer(entry: &Entry, made: &Made) -> bool
    ensures { result ≡ is_new_answer entry.now.made made.now }
{
    match &entry.made {
        None => true,
        Some(old) => is_other_answer(old, made),
    }
}

fn is_other_answer(old: &Made, made: &Made) -> bool
    ensures { result ≡ is_new_answer (Some old.now) made.now }
{
    !(old.version == made.version && same_response(&old.trace.response, &made.trace.response))
}

fn same_response(left: &Response, right: &Response) -> bool
    ensures { result ≡ same_response left.now right.now }
{
    left.is(right)
}
