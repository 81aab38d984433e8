// What a line adds, by where the lines before it leave off.
ghost use Rattle.std.specs.Prelude.{◌≡◌, ◌∷◌, ◌++◌, [], IfOk, OnOk, Ok, Some, ◌||◌, if◌then◌else◌, true, false};
ghost use Rattle.std.specs.List.{list_any};
ghost use Rattle.std.specs.Option.{option_copied};
ghost use Rattle.lang_base.specs.Texts.{same_text};
ghost use Rattle.dump_tables.specs.Indexed.{has_number};
ghost use Rattle.dump_words.specs.declared.line.Line.{Line};
ghost use Rattle.dump_reader.specs.Reading.{Answers, begun, call_of, consuming, entry_of, headed, head_of, is_behind, is_behind_row, is_empty, is_entered, is_kept, kept, last_of, prepared, put_under, replying, run_on, running_as, service_of, staying, step, under_it, with_answer, with_call, with_entry, with_made, with_next_program, with_reply, with_row, with_under};
ghost use Rattle.dump_tables.specs.Programs.{later_at, with_later};

use crate::refused::{DumpRefused, without};
use crate::stage::{Calling, Head, Running, Stage};
use dump_tables::{DumpEntries, DumpPrograms, DumpService, DumpServices};
use dump_words::{CallLine, EntryLine, Line};
use lang_core::{
    CallMade, Cell, Cells, Copied, Name, Names, NoMemory, Origin, Placed, Program, Request,
    Response, Same, Setting, Shared,
};
use std::alloc::Global;
use std::cmp::Ordering;

// ---- the head of a service

fn named(services: &DumpServices, n: u64, name: Name) -> Result<Stage, DumpRefused>
    ensures { result ≡ begun services.now n (Line.Service name) }
{
    if services.is_named(&name) {
        Err(without(name, DumpRefused::Twice(n)))
    } else {
        Ok(Stage::Named(name))
    }
}

fn begun(services: &DumpServices, n: u64, line: Line) -> Result<Stage, DumpRefused>
    ensures { result ≡ begun services.now n line }
{
    match line {
        Line::Service(name) => named(services, n, name),
        other => Err(without(other, DumpRefused::Shape(n))),
    }
}

fn is_among(me: &Name, peers: &[Name]) -> bool
    ensures { result ≡ list_any (same_text me.now) peers.now }
{
    peers.iter().any(|peer| me.text().is(peer.text()))
}

// The head of a service that isn't among these peers.
fn head_of(me: Name, peers: Names) -> Head
    requires { list_any (same_text me) peers ≡ false }
    ensures { (free : list_any (same_text me) peers ≡ false) → result ≡ head_of me peers free }
{
    Head { me, peers }
}

fn peered(me: Name, n: u64, peers: Names) -> Result<Stage, DumpRefused>
    ensures { result ≡ headed me n (Line.Peers peers) }
{
    if is_among(&me, peers.as_slice()) {
        Err(without(me, without(peers, DumpRefused::Shape(n))))
    } else {
        Ok(Stage::Headed(head_of(me, peers)))
    }
}

fn headed(me: Name, n: u64, line: Line) -> Result<Stage, DumpRefused>
    ensures { result ≡ headed me n line }
{
    match line {
        Line::Peers(peers) => peered(me, n, peers),
        other => Err(without(me, without(other, DumpRefused::Shape(n)))),
    }
}

fn service_with(alloc: Global, head: Head, program: Program, programs: DumpPrograms) -> DumpService
    ensures { result ≡ record { setting = (service_of head program).setting; programs = programs; entries = []; rows = [] } }
{
    let Head { me, peers } = head;
    DumpService {
        setting: Setting {
            me,
            peers,
            program,
            weight: 0,
        },
        programs,
        entries: DumpEntries::new(alloc),
        rows: Cells::new(alloc),
    }
}

fn service_of(alloc: Global, head: Head, program: Program) -> Result<Stage, DumpRefused>
    ensures { Answers result (Ok (Stage.Within (service_of head program))) }
{
    match DumpPrograms::of(alloc, &program) {
        Ok(programs) => Ok(Stage::Within(service_with(alloc, head, program, programs))),
        Err(NoMemory) => Err(without(head, without(program, DumpRefused::NoMemory))),
    }
}

fn prepared(alloc: Global, head: Head, n: u64, line: Line) -> Result<Stage, DumpRefused>
    ensures { Answers result (prepared head n line) }
{
    match line {
        Line::Program(program) => service_of(alloc, head, program),
        other => Err(without(head, without(other, DumpRefused::Shape(n)))),
    }
}

// ---- programs behind the first

/// Whether neither an entry nor a row is told yet.
pub(crate) fn is_empty(service: &DumpService) -> bool
    ensures { result ≡ is_empty service.now }
{
    service.entries.as_slice().is_empty() && service.rows.len() == 0
}

fn put_program(alloc: Global, service: DumpService, program: Program) -> Result<Stage, DumpRefused>
    ensures { Answers result (Ok (Stage.Within (record { setting = service.setting; programs = with_later service.programs program; entries = service.entries; rows = service.rows }))) }
{
    let mut service = service;
    match service.programs.push(alloc, program) {
        Ok(()) => Ok(Stage::Within(service)),
        Err(NoMemory) => Err(without(service, DumpRefused::NoMemory)),
    }
}

fn with_next_program(
    alloc: Global,
    service: DumpService,
    n: u64,
    program: Program,
) -> Result<Stage, DumpRefused>
    ensures { Answers result (with_next_program service n program) }
{
    if is_empty(&service) {
        put_program(alloc, service, program)
    } else {
        Err(without(service, without(program, DumpRefused::Shape(n))))
    }
}

// ---- entries and rows

fn is_entered(line: &EntryLine, entries: &DumpEntries) -> bool
    ensures { result ≡ is_entered line.now entries.now }
{
    if entries.has_id(line.id) {
        return true;
    }
    match &line.origin {
        Origin::Outside => false,
        Origin::Call { caller, number } => entries.has_caller(caller, *number),
    }
}

fn running(alloc: Global, service: DumpService, first: Shared<Program>, line: EntryLine) -> Running
    ensures { result ≡ record { setting = service.setting; programs = service.programs; entries = service.entries; entry = entry_of first line } }
{
    Running {
        setting: service.setting,
        programs: service.programs,
        entries: service.entries,
        entry: Calling::of(alloc, first, line),
    }
}

fn entered(alloc: Global, service: DumpService, line: EntryLine) -> Result<Stage, DumpRefused>
    ensures { Answers result (Ok (Stage.Runs (record { setting = service.setting; programs = service.programs; entries = service.entries; entry = entry_of service.programs.first line }))) }
{
    match service.programs.first.copied(alloc) {
        Ok(first) => Ok(Stage::Runs(running(alloc, service, first, line))),
        Err(NoMemory) => Err(without(service, without(line, DumpRefused::NoMemory))),
    }
}

fn with_entry(
    alloc: Global,
    service: DumpService,
    n: u64,
    line: EntryLine,
) -> Result<Stage, DumpRefused>
    ensures { Answers result (with_entry service n line) }
{
    if service.rows.len() != 0 {
        Err(without(service, without(line, DumpRefused::Shape(n))))
    } else if is_entered(&line, &service.entries) {
        Err(without(service, without(line, DumpRefused::Twice(n))))
    } else {
        entered(alloc, service, line)
    }
}

fn is_kept(cell: &Cell, rows: &[Cell]) -> bool
    ensures { result ≡ is_kept cell.now rows.now }
{
    rows.iter()
        .any(|r| r.table.is(&cell.table) && r.key.is(&cell.key))
}

fn last_of(rows: &[Cell]) -> Option<&Cell>
    ensures { option_copied result ≡ last_of rows.now }
{
    rows.last()
}

fn is_behind_row(row: &Cell, cell: &Cell) -> bool
    ensures { result ≡ is_behind_row (Some row.now) cell.now }
{
    match row.table.order(&cell.table) {
        Ordering::Less => true,
        Ordering::Equal => match row.key.order(&cell.key) {
            Ordering::Less => true,
            Ordering::Equal => false,
            Ordering::Greater => false,
        },
        Ordering::Greater => false,
    }
}

fn is_behind(rows: &[Cell], cell: &Cell) -> bool
    ensures { result ≡ is_behind rows.now cell.now }
{
    match last_of(rows) {
        None => true,
        Some(last) => is_behind_row(last, cell),
    }
}

#[tactic(auto, using(crate::proofs::RowLemmas::ordered_more))]
fn push_row(service: DumpService, cell: Cell) -> Result<Stage, DumpRefused>
    requires { is_behind service.rows cell ≡ true }
    ensures { Answers result (Ok (Stage.Within (record { setting = service.setting; programs = service.programs; entries = service.entries; rows = service.rows ++ cell ∷ [] }))) }
{
    let mut service = service;
    service.rows.push(cell)?;
    Ok(Stage::Within(service))
}

// Why a row that isn't behind the last has no place.
fn no_row(rows: &[Cell], n: u64, cell: &Cell) -> DumpRefused
    ensures { result ≡ (if is_kept cell.now rows.now then DumpRefused.Twice n else DumpRefused.Rows n) }
{
    if is_kept(cell, rows) {
        DumpRefused::Twice(n)
    } else {
        DumpRefused::Rows(n)
    }
}

fn with_row(service: DumpService, n: u64, cell: Cell) -> Result<Stage, DumpRefused>
    ensures { Answers result (with_row service n cell) }
{
    if is_behind(service.rows.as_slice(), &cell) {
        push_row(service, cell)
    } else {
        let why = no_row(service.rows.as_slice(), n, &cell);
        Err(without(service, without(cell, why)))
    }
}

// ---- the program of an entry

fn later_at(
    alloc: Global,
    programs: &DumpPrograms,
    number: u64,
) -> Result<Option<Shared<Program>>, NoMemory>
    ensures { IfOk result (λ program. program ≡ later_at number programs.now.later) }
{
    match programs.later_at(number) {
        None => Ok(None),
        Some(program) => Ok(Some(program.copied(alloc)?)),
    }
}

fn under(running: Running, number: u64, program: Shared<Program>) -> Running
    ensures { Stage.Runs result ≡ running_as running (put_under running.entry number program) }
{
    Running {
        setting: running.setting,
        programs: running.programs,
        entries: running.entries,
        entry: running.entry.under(number, program),
    }
}

fn under_it(
    running: Running,
    n: u64,
    number: u64,
    program: Option<Shared<Program>>,
) -> Result<Stage, DumpRefused>
    ensures { result ≡ under_it running n number program }
{
    match program {
        None => Err(without(running, DumpRefused::Shape(n))),
        Some(program) => Ok(Stage::Runs(under(running, number, program))),
    }
}

fn put_under(alloc: Global, running: Running, n: u64, number: u64) -> Result<Stage, DumpRefused>
    ensures { Answers result (under_it running n number (later_at number running.programs.later)) }
{
    match later_at(alloc, &running.programs, number) {
        Ok(program) => under_it(running, n, number, program),
        Err(NoMemory) => Err(without(running, DumpRefused::NoMemory)),
    }
}

fn with_under(alloc: Global, running: Running, n: u64, number: u64) -> Result<Stage, DumpRefused>
    ensures { Answers result (with_under running n number) }
{
    if running.entry.is_bare() {
        put_under(alloc, running, n, number)
    } else {
        Err(without(running, DumpRefused::Shape(n)))
    }
}

// ---- calls, answers and replies

fn chain_of(alloc: Global, me: &Name, chain: &Names) -> Result<Names, NoMemory>
    ensures { IfOk result (λ onward. onward ≡ chain.now ++ me.now ∷ []) }
{
    let mut onward = chain.copied(alloc)?;
    onward.push(me.copied(alloc)?)?;
    Ok(onward)
}

fn call_of(alloc: Global, me: &Name, chain: &Names, line: CallLine) -> Result<CallMade, NoMemory>
    ensures { IfOk result (λ call. call ≡ call_of me.now chain.now line) }
{
    let chain = chain_of(alloc, me, chain)?;
    let who = me.text().copied(alloc)?;
    Ok(CallMade {
        dest: line.dest,
        request: Request {
            method: line.method,
            path: line.path,
            body: line.body,
            who,
            chain,
        },
    })
}

fn is_numbered(running: &Running, number: u64) -> bool
    ensures { result ≡ (list_any (has_number number) running.now.entries || has_number number running.now.entry) }
{
    running.entries.has_number(number) || running.entry.has_number(number)
}

fn push_call(alloc: Global, me: &Name, entry: &mut Calling, line: CallLine) -> Result<(), NoMemory>
    ensures { OnOk result (entry.new ≡ with_made entry.old line.number (call_of me.now entry.old.request.chain line)) }
{
    let number = line.number;
    let call = call_of(alloc, me, entry.chain(), line)?;
    entry.push_call(number, call)
}

fn called(alloc: Global, running: Running, line: CallLine) -> Result<Stage, DumpRefused>
    ensures { Answers result (Ok (running_as running (with_made running.entry line.number (call_of running.setting.me running.entry.request.chain line)))) }
{
    let mut running = running;
    let setting = &running.setting;
    match push_call(alloc, &setting.me, &mut running.entry, line) {
        Ok(()) => Ok(Stage::Runs(running)),
        Err(NoMemory) => Err(without(running, DumpRefused::NoMemory)),
    }
}

fn with_call(alloc: Global, running: Running, n: u64, line: CallLine) -> Result<Stage, DumpRefused>
    ensures { Answers result (with_call running n line) }
{
    if !running.entry.all_answered() {
        Err(without(running, without(line, DumpRefused::Shape(n))))
    } else if is_numbered(&running, line.number) {
        Err(without(running, without(line, DumpRefused::Twice(n))))
    } else {
        called(alloc, running, line)
    }
}

fn answered(running: Running, answer: Response) -> Result<Stage, DumpRefused>
    ensures { Answers result (Ok (running_as running (consuming running.entry answer))) }
{
    let mut running = running;
    running.entry.push_answer(answer)?;
    Ok(Stage::Runs(running))
}

fn with_answer(running: Running, n: u64, answer: Response) -> Result<Stage, DumpRefused>
    ensures { Answers result (with_answer running n answer) }
{
    if running.entry.all_answered() {
        Err(without(running, without(answer, DumpRefused::Shape(n))))
    } else {
        answered(running, answer)
    }
}

fn replied(alloc: Global, running: Running, reply: Option<Response>) -> Result<Stage, DumpRefused>
    ensures { Answers result (Ok (Stage.Within (record { setting = running.setting; programs = running.programs; entries = running.entries ++ replying running.entry reply ∷ []; rows = [] }))) }
{
    let entry = running.entry.replying(reply);
    let mut service = DumpService {
        setting: running.setting,
        programs: running.programs,
        entries: running.entries,
        rows: Cells::new(alloc),
    };
    service.entries.push(entry)?;
    Ok(Stage::Within(service))
}

fn with_reply(
    alloc: Global,
    running: Running,
    n: u64,
    reply: Option<Response>,
) -> Result<Stage, DumpRefused>
    ensures { Answers result (with_reply running n reply) }
{
    if running.entry.all_answered() {
        replied(alloc, running, reply)
    } else {
        Err(without(running, without(reply, DumpRefused::Shape(n))))
    }
}

fn run_on(alloc: Global, running: Running, n: u64, line: Line) -> Result<Stage, DumpRefused>
    ensures { Answers result (run_on running n line) }
{
    match line {
        Line::Under(number) => with_under(alloc, running, n, number),
        Line::Call(line) => with_call(alloc, running, n, line),
        Line::Answer(answer) => with_answer(running, n, answer),
        Line::Reply(reply) => with_reply(alloc, running, n, reply),
        other => Err(without(running, without(other, DumpRefused::Shape(n)))),
    }
}

// ---- any line

fn end_service(services: &mut DumpServices, service: DumpService) -> Result<Stage, DumpRefused>
    ensures { Answers (staying services.new result) (Ok (services.old ++ service ∷ [], Stage.Between)) }
{
    services.push(service)?;
    Ok(Stage::Between)
}

fn kept(
    alloc: Global,
    services: &mut DumpServices,
    service: DumpService,
    n: u64,
    line: Line,
) -> Result<Stage, DumpRefused>
    ensures { Answers (staying services.new result) (kept services.old service n line) }
{
    match line {
        Line::Program(program) => with_next_program(alloc, service, n, program),
        Line::Entry(line) => with_entry(alloc, service, n, line),
        Line::Row(cell) => with_row(service, n, cell),
        Line::End => end_service(services, service),
        other => Err(without(service, without(other, DumpRefused::Shape(n)))),
    }
}

/// Where the lines leave off with one more, and with a service more where it ends one.
pub(crate) fn next_stage(
    alloc: Global,
    services: &mut DumpServices,
    stage: Stage,
    n: u64,
    line: Line,
) -> Result<Stage, DumpRefused>
    ensures { Answers (staying services.new result) (step services.old stage n line) }
{
    match stage {
        Stage::Between => begun(services, n, line),
        Stage::Named(me) => headed(me, n, line),
        Stage::Headed(head) => prepared(alloc, head, n, line),
        Stage::Within(service) => kept(alloc, services, service, n, line),
        Stage::Runs(running) => run_on(alloc, running, n, line),
    }
}
