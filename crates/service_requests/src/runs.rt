// The run of a flight.
ghost use Rattle.std.specs.Prelude.{◌≡◌, map, IfOk};
ghost use Rattle.local_repair.specs.Steps.{answer_or_tentative};
ghost use Rattle.call_registers.specs.Registers.{consumed};
ghost use Rattle.service_events.specs.Flying.{flight_run};
ghost use Rattle.service_parts.specs.Drafts.{with_draft};
ghost use Rattle.service_parts.specs.Parts.{kept};

use flights::Flight;
use handler_run::{Ran, run};
use lang_core::{Answers, Copied, NoMemory, Response};
use local_repair::tentative;
use service_parts::{Draft, Parts};
use std::alloc::Global;

fn answer_of(alloc: Global, parts: &Parts, draft: &Draft, number: u64) -> Result<Response, NoMemory>
    ensures { IfOk result (λ r. r ≡ answer_or_tentative (consumed number (with_draft draft.now (kept parts.now)).registers)) }
{
    match draft.changes.consumed(&parts.registers, number) {
        Some(answer) => answer.copied(alloc),
        None => tentative(alloc),
    }
}

fn answers_of(
    alloc: Global,
    parts: &Parts,
    draft: &Draft,
    numbers: &[u64],
) -> Result<Answers, NoMemory>
    ensures { IfOk result (λ answers. answers ≡ map (λ n. answer_or_tentative (consumed n (with_draft draft.now (kept parts.now)).registers)) numbers.now) }
{
    let mut answers = Answers::new(alloc);
    for number in numbers {
        answers.push(answer_of(alloc, parts, draft, *number)?)?;
    }
    Ok(answers)
}

/// Runs a flight under its program on the rows at the end of the log, with the answers that its calls consume in the draft.
pub(crate) fn run_flight(
    alloc: Global,
    parts: &Parts,
    draft: &Draft,
    flight: &Flight,
) -> Result<Ran, NoMemory>
    ensures { IfOk result (λ ran. ran ≡ flight_run (with_draft draft.now (kept parts.now)) flight.now) }
{
    let answers = answers_of(alloc, parts, draft, flight.numbers.as_slice())?;
    let rows = parts.repairer.end();
    let program = flight.program.get().program();
    let request = flight.request.get();
    let inputs = flight.inputs.get();
    run(
        alloc,
        &parts.setting,
        program,
        request,
        inputs,
        &answers,
        &rows,
    )
}
