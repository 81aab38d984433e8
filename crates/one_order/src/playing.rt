// The run of a world as one program: what its requests do in place.
ghost use Rattle.std.specs.Prelude.{◌≡◌, [], IfOk, OnOk, length, suc, unwrap_or};
ghost use Rattle.std.specs.Option.{option_copied, option_map};
ghost use Rattle.lang_base.specs.Texts.{same_text};
ghost use Rattle.lang_core.specs.Traces.{dead_trace};
ghost use Rattle.execution.specs.Together.{history_in};
ghost use Rattle.handler_run.specs.HandedOn.{with_program};
ghost use Rattle.handler_run.specs.Handlers.{run_of};
ghost use Rattle.dump_tables.specs.Kept.{AreKept};
ghost use Rattle.dump_audit.specs.Histories.{act_of, histories_of, history_of};
ghost use Rattle.one_order.specs.Worlds.{turned};
ghost use Rattle.one_world.specs.Tapes.{rows_at, with_writes};
ghost use Rattle.one_world.specs.Trees.{calls_of};
ghost use Rattle.one_world.specs.Turns.{call_to, turn_act, turn_all, turn_call, turn_callee, turn_calls, turn_end, turn_id, turn_last};

use crate::finding::{callee_in, calls_of, depth_of, entry_in, service_in};
use crate::played::PlayedRows;
use dump_audit::RowTree;
use dump_tables::{DumpEntry, DumpService, DumpServices};
use handler_run::{Ran, run};
use lang_core::{
    Answers, CallMade, Name, NoMemory, Request, RequestId, Response, Same, SharedWrites, Text,
};
use std::alloc::Global;

fn rows_at<'a>(name: &Name, world: &'a [PlayedRows]) -> Option<&'a RowTree>
    ensures { unwrap_or (option_copied result) [] ≡ rows_at name.now world.now }
{
    for played in world {
        if is_named(name, played) {
            return Some(played.rows());
        }
    }
    None
}

fn is_named(name: &Name, played: &PlayedRows) -> bool
    ensures { result ≡ same_text played.now.service name.now }
{
    played.service().text().is(name.text())
}

// Makes writes at a service.
fn write_at(
    alloc: Global,
    name: &Name,
    writes: &SharedWrites,
    world: &mut [PlayedRows],
) -> Result<(), NoMemory>
    ensures { OnOk result (world.new ≡ with_writes name.now writes.now world.old) }
{
    for i in 0..world.len() {
        if is_named(name, &world[i]) {
            return world[i].apply(alloc, writes);
        }
    }
    Ok(())
}

// Runs a request under its entry's program on the rows of its service, with what its first calls gave.
fn run_on(
    alloc: Global,
    service: &DumpService,
    entry: &DumpEntry,
    request: &Request,
    given: &Answers,
    world: &[PlayedRows],
) -> Result<Ran, NoMemory>
    ensures { IfOk result (λ ran. ran ≡ run_of (with_program entry.now.program service.now.setting) request.now entry.now.inputs given.now (rows_at service.now.setting.me world.now)) }
{
    let none = RowTree::new(alloc);
    let rows = match rows_at(&service.setting.me, world) {
        Some(rows) => rows,
        None => &none,
    };
    run(
        alloc,
        &service.setting,
        entry.program.get(),
        request,
        &entry.inputs,
        given,
        rows,
    )
}

// The writes of a run that ends are made.
fn turn_end(
    alloc: Global,
    me: &Name,
    ran: Ran,
    world: &mut [PlayedRows],
) -> Result<Option<Response>, NoMemory>
    ensures { IfOk result (λ response. turned response world.new ≡ turn_end me.now world.old ran) }
{
    match ran {
        Ran::Done(trace) => {
            write_at(alloc, me, &trace.writes, world)?;
            Ok(Some(trace.response))
        }
        Ran::Wants { .. } => Ok(None),
    }
}

// Plays a request to its end, behind its calls: none of their numbers may be left.
fn turn_last(
    alloc: Global,
    service: &DumpService,
    entry: &DumpEntry,
    request: &Request,
    numbers: &[u64],
    given: &Answers,
    world: &mut [PlayedRows],
) -> Result<Option<Response>, NoMemory>
    ensures { IfOk result (λ response. turned response world.new
        ≡ turn_last (history_of service.now) (act_of entry.now) request.now numbers.now given.now world.old) }
{
    let [] = numbers else {
        return Ok(None);
    };
    let ran = run_on(alloc, service, entry, request, given, world)?;
    turn_end(alloc, &service.setting.me, ran, world)
}

fn call_to(ran: Ran, dest: &Name) -> Option<CallMade>
    ensures { result ≡ call_to ran dest.now }
{
    match ran {
        Ran::Done(_) => None,
        Ran::Wants { call, .. } => {
            if call.dest.text().is(dest.text()) {
                Some(call)
            } else {
                None
            }
        }
    }
}

// What a request that was struck answers.
fn gone(alloc: Global) -> Result<Response, NoMemory>
    ensures { IfOk result (λ response. response ≡ dead_trace.response) }
{
    Ok(Response {
        status: 410,
        body: Text::of(alloc, "")?,
    })
}

#[cycle(turns)]
fn turn_act(
    alloc: Global,
    services: &DumpServices,
    depth: u64,
    request: &Request,
    service: &DumpService,
    entry: &DumpEntry,
    world: &mut [PlayedRows],
) -> Result<Option<Response>, NoMemory>
    requires kept { ∥ AreKept services.now ∥₁ }
    ensures { IfOk result (λ response. turned response world.new
        ≡ turn_act (turn_all depth (histories_of services.now)) world.old request.now (history_of service.now) (act_of entry.now)) }
{
    if entry.struck {
        return Ok(Some(gone(alloc)?));
    }
    turn_all(alloc, services, depth, request, service, entry, world)
}

#[cycle(turns)]
fn turn_callee(
    alloc: Global,
    services: &DumpServices,
    depth: u64,
    caller: &Name,
    number: u64,
    dest: &Name,
    request: &Request,
    world: &mut [PlayedRows],
) -> Result<Option<Response>, NoMemory>
    requires kept { ∥ AreKept services.now ∥₁ }
    ensures { IfOk result (λ response. turned response world.new
        ≡ turn_callee (turn_all depth (histories_of services.now)) caller.now number world.old request.now (history_in dest.now (histories_of services.now))) }
{
    let Some(service) = service_in(dest, services) else {
        return Ok(None);
    };
    let Some(entry) = callee_in(caller, number, service) else {
        return Ok(None);
    };
    turn_act(alloc, services, depth, request, service, entry, world)
}

// Plays the next call of a request.
#[cycle(turns)]
fn turn_call(
    alloc: Global,
    services: &DumpServices,
    depth: u64,
    request: &Request,
    service: &DumpService,
    entry: &DumpEntry,
    number: u64,
    dest: &Name,
    given: &Answers,
    world: &mut [PlayedRows],
) -> Result<Option<Response>, NoMemory>
    requires kept { ∥ AreKept services.now ∥₁ }
    ensures { IfOk result (λ response. turned response world.new
        ≡ turn_call (turn_all depth (histories_of services.now)) (histories_of services.now) (history_of service.now) (act_of entry.now) request.now number dest.now given.now world.old) }
{
    let ran = run_on(alloc, service, entry, request, given, world)?;
    let Some(call) = call_to(ran, dest) else {
        return Ok(None);
    };
    let caller = &service.setting.me;
    turn_callee(
        alloc,
        services,
        depth,
        caller,
        number,
        dest,
        &call.request,
        world,
    )
}

// Plays a request whose calls lead down so deep at most.
#[cycle(turns)]
fn turn_all(
    alloc: Global,
    services: &DumpServices,
    depth: u64,
    request: &Request,
    service: &DumpService,
    entry: &DumpEntry,
    world: &mut [PlayedRows],
) -> Result<Option<Response>, NoMemory>
    requires kept { ∥ AreKept services.now ∥₁ }
    ensures { IfOk result (λ response. turned response world.new
        ≡ turn_all depth (histories_of services.now) (history_of service.now) (act_of entry.now) request.now world.old) }
{
    if depth == 0 {
        return Ok(None);
    }
    turn_calls(alloc, services, depth - 1, request, service, entry, world)
}

// Plays the calls of a request, one after the other, and then the request to its end.
#[cycle(turns)]
fn turn_calls(
    alloc: Global,
    services: &DumpServices,
    depth: u64,
    request: &Request,
    service: &DumpService,
    entry: &DumpEntry,
    world: &mut [PlayedRows],
) -> Result<Option<Response>, NoMemory>
    requires kept { ∥ AreKept services.now ∥₁ }
    ensures { IfOk result (λ response. turned response world.new
        ≡ turn_calls (turn_all depth (histories_of services.now)) (histories_of services.now) (history_of service.now) (act_of entry.now) request.now
        entry.now.numbers (calls_of (act_of entry.now)) [] world.old) }
{
    let mut given = Answers::new(alloc);
    let mut numbers = entry.numbers.as_slice();
    for call in calls_of(entry) {
        let [number, more @ ..] = numbers else {
            return Ok(None);
        };
        let Some(response) = turn_call(
            alloc, services, depth, request, service, entry, *number, &call.dest, &given, world,
        )?
        else {
            return Ok(None);
        };
        given.push(response)?;
        numbers = more;
    }
    turn_last(alloc, service, entry, request, numbers, &given, world)
}

// Plays a root with all that it calls.
fn turn_root(
    alloc: Global,
    services: &DumpServices,
    service: &DumpService,
    entry: &DumpEntry,
    world: &mut [PlayedRows],
) -> Result<Option<Response>, NoMemory>
    requires kept { ∥ AreKept services.now ∥₁ }
    ensures { IfOk result (λ response. turned response world.new
        ≡ turn_act (turn_all (suc (length (histories_of services.now))) (histories_of services.now)) world.old entry.now.request (history_of service.now) (act_of entry.now)) }
{
    if entry.struck {
        return Ok(Some(gone(alloc)?));
    }
    let depth = depth_of(services);
    let request = &entry.request;
    turn_calls(alloc, services, depth, request, service, entry, world)
}

/// Plays the root of this name with all that it calls. None where it fails.
pub(crate) fn turn_id(
    alloc: Global,
    services: &DumpServices,
    id: &RequestId,
    world: &mut [PlayedRows],
) -> Result<Option<Response>, NoMemory>
    requires kept { ∥ AreKept services.now ∥₁ }
    ensures { IfOk result (λ response. turned response world.new
        ≡ turn_id (length (histories_of services.now)) (histories_of services.now) id.now.number world.old (history_in id.now.service (histories_of services.now))) }
{
    let Some(service) = service_in(&id.service, services) else {
        return Ok(None);
    };
    let Some(entry) = entry_in(id.number, service) else {
        return Ok(None);
    };
    turn_root(alloc, services, service, entry, world)
}
