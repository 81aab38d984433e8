// What operators ask of a node's service.
ghost use Rattle.std.specs.Prelude.{◌≡◌, ◌⊎◌, IfOk, None};
ghost use Rattle.admin_console.specs.Asking.{asked_in};
ghost use Rattle.node_workers.specs.Asking.{MakesAsked};
ghost use Rattle.node_workers.specs.Desks.{at_desk, IsServiceOf};
ghost use Rattle.node_workers.specs.Operators.{TellsReport};
ghost use Rattle.node_workers.specs.Posting.{Keeps};
ghost use Rattle.node_workers.specs.Serving.{IsDoneSo, IsForWorkers, IsOperatorTold, IsPreviewTold, IsWantTold, ShowsTrial};
ghost use Rattle.node_workers.specs.Written.{IsConsoleSo, IsPreviewSo, IsTextSo};

use crate::desk::{Desk, is_service_of};
use crate::held::HeldNode;
use admin_console::{
    Asked, Service, Trial, asked_in, bad, carry_out, fault_reply, report_reply, trial_reply,
    tried_in,
};
use http_front::WireResponse;
use io_edge::Connection;
use lang_core::{Copied, Inputs, NoMemory, Text};
use node_core::{NodeState, Pass};
use node_exchanges::{Served, write};
use order_texts::TextFault;
use repair_messages::RefusalWord;
use std::alloc::Global;
use std::sync::Wait;
use std::sync::ledger::Ledger;
use wire_bytes::console_refusal;
use wire_fields::ConsoleRequest;

// ---- orders and reports

// Carries out what was read of a request at the service behind the lock. One that isn't set up so is answered as memory that
// lacks.
fn reply_under_lock<R: Ledger, Q: Ledger, W: Wait>(
    rt: &W,
    alloc: Global,
    desk: &Desk<R, Q>,
    state: &mut NodeState<R>,
    pass: &mut Pass<Q>,
    asked: Option<Asked>,
    who: Text,
    inputs: Inputs,
) -> Result<WireResponse, NoMemory>
    requires fresh { pass.old.notes.gave ≡ None }
    ensures report { IfOk result (TellsReport asked state.old.folds.waits state.old.service) }
    ensures told { IfOk result (λ response. IsDoneSo (at_desk desk.now) inputs pass.new.notes who asked response ⊎ IsWantTold pass.new.notes response) }
    ensures makes { MakesAsked (at_desk desk.now).me inputs who asked pass.old.notes pass.new.notes pass.old.receipts.items pass.new.receipts.items }
{
    if !is_service_of(state.service(), desk.setup) {
        return Err(NoMemory);
    }
    let mut held = HeldNode {
        state,
        pass,
        rt,
        tally: desk.tally,
    };
    carry_out(alloc, &mut held, asked, who, inputs)
}

fn reply_at_node<R: Ledger, Q: Ledger, W: Wait>(
    rt: &W,
    alloc: Global,
    desk: &Desk<R, Q>,
    pass: &mut Pass<Q>,
    asked: Option<Asked>,
    who: Text,
    inputs: Inputs,
) -> Result<WireResponse, NoMemory>
    requires fresh { pass.old.notes.gave ≡ None }
    ensures told { IfOk result (λ response. IsDoneSo (at_desk desk.now) inputs pass.new.notes who asked response ⊎ IsWantTold pass.new.notes response) }
    ensures makes { MakesAsked (at_desk desk.now).me inputs who asked pass.old.notes pass.new.notes pass.old.receipts.items pass.new.receipts.items }
    ensures keeps { Keeps pass.old.notes pass.new.notes pass.old.receipts.items pass.new.receipts.items }
{
    let mut state = desk.node.state.lock(rt);
    reply_under_lock(rt, alloc, desk, &mut *state, pass, asked, who, inputs)
}

// The body is read before the lock is taken, and so is a text that comes with an order.
fn reply<R: Ledger, Q: Ledger, W: Wait>(
    rt: &W,
    alloc: Global,
    desk: &Desk<R, Q>,
    pass: &mut Pass<Q>,
    request: &ConsoleRequest,
    inputs: Inputs,
) -> Result<WireResponse, NoMemory>
    requires fresh { pass.old.notes.gave ≡ None }
    ensures told { IfOk result (IsOperatorTold (at_desk desk.now) inputs request.now pass.new.notes) }
    ensures makes { MakesAsked (at_desk desk.now).me inputs request.now.who (asked_in request.now) pass.old.notes pass.new.notes pass.old.receipts.items pass.new.receipts.items }
    ensures keeps { Keeps pass.old.notes pass.new.notes pass.old.receipts.items pass.new.receipts.items }
{
    let who = request.who.copied(alloc)?;
    let asked = asked_in(alloc, request)?;
    reply_at_node(rt, alloc, desk, pass, asked, who, inputs)
}

// Want of memory is told in less of it, where no order was made. Where one was made that couldn't be told, nothing is.
fn want<Q: Ledger>(alloc: Global, pass: &Pass<Q>) -> Result<WireResponse, NoMemory>
    ensures { IfOk result (IsWantTold pass.now.notes) }
{
    match pass.gave() {
        Some(_) => Err(NoMemory),
        None => console_refusal(alloc, RefusalWord::NoMemory.text(), 0),
    }
}

fn reply_or_want<R: Ledger, Q: Ledger, W: Wait>(
    rt: &W,
    alloc: Global,
    desk: &Desk<R, Q>,
    pass: &mut Pass<Q>,
    request: &ConsoleRequest,
    inputs: Inputs,
) -> Result<WireResponse, NoMemory>
    requires fresh { pass.old.notes.gave ≡ None }
    ensures told { IfOk result (IsOperatorTold (at_desk desk.now) inputs request.now pass.new.notes) }
    ensures makes { MakesAsked (at_desk desk.now).me inputs request.now.who (asked_in request.now) pass.old.notes pass.new.notes pass.old.receipts.items pass.new.receipts.items }
    ensures keeps { Keeps pass.old.notes pass.new.notes pass.old.receipts.items pass.new.receipts.items }
{
    match reply(rt, alloc, desk, pass, request, inputs) {
        Ok(response) => Ok(response),
        Err(_) => want(alloc, pass),
    }
}

/// Tells an operator what came of a request, whose word isn't one of the run. The pass has no notes of what was asked before.
/// Where memory is wanting for the reply of an order that was made, nothing is written.
pub(crate) fn tell<R: Ledger, Q: Ledger, W: Wait, C: Connection>(
    rt: &W,
    alloc: Global,
    desk: &Desk<R, Q>,
    pass: &mut Pass<Q>,
    conn: &mut C,
    request: &ConsoleRequest,
    inputs: Inputs,
) -> Served
    requires here { ¬ IsForWorkers request.now.word }
    requires fresh { pass.old.notes.gave ≡ None }
    ensures served { IsConsoleSo (at_desk desk.now) inputs request.now pass.new.notes (C.Sink.writes conn.old) (C.Sink.writes conn.new) result }
    ensures beside { C.Sink.beside conn.new ≡ C.Sink.beside conn.old }
    ensures makes { MakesAsked (at_desk desk.now).me inputs request.now.who (asked_in request.now) pass.old.notes pass.new.notes pass.old.receipts.items pass.new.receipts.items }
    ensures keeps { Keeps pass.old.notes pass.new.notes pass.old.receipts.items pass.new.receipts.items }
{
    match reply_or_want(rt, alloc, desk, pass, request, inputs) {
        Ok(response) => write(alloc, conn, response),
        Err(_) => Served::NoMemory,
    }
}

/// Tells an operator a report with this text. Where there is no memory nothing is written.
pub fn tell_text<C: Connection>(alloc: Global, conn: &mut C, text: &Text) -> Served
    ensures served { IsTextSo text.now (C.Sink.writes conn.old) (C.Sink.writes conn.new) result }
    ensures beside { C.Sink.beside conn.new ≡ C.Sink.beside conn.old }
{
    match report_reply(alloc, text) {
        Ok(response) => write(alloc, conn, response),
        Err(_) => Served::NoMemory,
    }
}

// ---- previews

// A copy of the service behind the lock. One that isn't set up so is answered as memory that lacks.
fn copy_under_lock<R: Ledger, Q: Ledger>(
    alloc: Global,
    desk: &Desk<R, Q>,
    service: &Service,
) -> Result<Service, NoMemory>
    ensures same { IfOk result (λ copy. copy ≡ service.now) }
    ensures of { IfOk result (λ _. IsServiceOf (at_desk desk.now).me service.now) }
{
    if !is_service_of(service, desk.setup) {
        return Err(NoMemory);
    }
    service.copied(alloc)
}

fn service_now<R: Ledger, Q: Ledger, W: Wait>(
    rt: &W,
    alloc: Global,
    desk: &Desk<R, Q>,
) -> Result<Service, NoMemory>
    ensures { IfOk result (IsServiceOf (at_desk desk.now).me) }
{
    let state = desk.node.state.lock(rt);
    copy_under_lock(alloc, desk, state.service())
}

#[tactic(auto, using(crate::proofs::OperatorLemmas::shows_trial))]
fn show_trial<R: Ledger, Q: Ledger, W: Wait>(
    rt: &W,
    alloc: Global,
    desk: &Desk<R, Q>,
    trial: Trial,
    who: &Text,
) -> Result<WireResponse, NoMemory>
    ensures { IfOk result (ShowsTrial (at_desk desk.now).me trial who.now) }
{
    let service = service_now(rt, alloc, desk)?;
    trial_reply(alloc, &service, trial, who)
}

// The body is read before the lock is taken, and so is its text.
#[tactic(auto, using(crate::proofs::OperatorLemmas::trial_so, crate::proofs::OperatorLemmas::ill_text_so, crate::proofs::OperatorLemmas::ill_body_so))]
fn preview_of<R: Ledger, Q: Ledger, W: Wait>(
    rt: &W,
    alloc: Global,
    desk: &Desk<R, Q>,
    request: &ConsoleRequest,
) -> Result<WireResponse, NoMemory>
    ensures { IfOk result (IsPreviewTold (at_desk desk.now).me request.now) }
{
    match tried_in(alloc, request)? {
        Some(Ok(trial)) => show_trial(rt, alloc, desk, trial, &request.who),
        Some(Err(at)) => fault_reply(alloc, TextFault::Program(at)),
        None => bad(alloc),
    }
}

/// Tells an operator who asks for a preview, or for a rehearsal, what the order would come to, or why that isn't shown. It is tried
/// on a copy, without the lock. Where there is no memory nothing is written.
pub fn tell_preview<R: Ledger, Q: Ledger, W: Wait, C: Connection>(
    rt: &W,
    alloc: Global,
    desk: &Desk<R, Q>,
    conn: &mut C,
    request: &ConsoleRequest,
) -> Served
    ensures served { IsPreviewSo (at_desk desk.now).me request.now (C.Sink.writes conn.old) (C.Sink.writes conn.new) result }
    ensures beside { C.Sink.beside conn.new ≡ C.Sink.beside conn.old }
{
    match preview_of(rt, alloc, desk, request) {
        Ok(response) => write(alloc, conn, response),
        Err(_) => Served::NoMemory,
    }
}
