// Serving one connection, with the words of the console that the run answers.
ghost use Rattle.std.specs.Prelude.{◌≡◌, IsTrue, None};
ghost use Rattle.io_links.specs.Connections.{IsNew};
ghost use Rattle.node_workers.specs.Desks.{at_desk};
ghost use Rattle.node_workers.specs.Written.{IsPreviewSo};
ghost use Rattle.node_run.specs.Looking.{IsVerdictTold};
ghost use Rattle.node_run.specs.Stopping.{IsUnwritten, WasAsked};
ghost use Rattle.node_run.specs.Workers.{readied, standing, ServesOrRests};

use crate::drawing::Draw;
use crate::looking::verdict_now;
use crate::shared::Shared;
use crate::stopping::last_of;
use io_edge::Connection;
use io_links::{Gate, Link};
use node_core::Pass;
use node_workers::{Desk, Served, serve_one, tell_preview, tell_text};
use std::alloc::Global;
use std::sync::Wait;
use std::sync::ledger::Ledger;
use wire_fields::{ConsoleRequest, ConsoleWord};

/// Readies a pass for a turn: its notes show nothing of an earlier one but how many calls were given up. No turn leaves a flight
/// open, so each pass is ready then.
pub fn make_ready<Q: Ledger>(pass: &mut Pass<Q>) -> bool
    ensures notes { pass.new.notes ≡ readied pass.old.notes }
    ensures receipts { pass.new.receipts ≡ pass.old.receipts }
    ensures none { IsTrue result → pass.new.notes.begun ≡ None }
{
    pass.forget_turn();
    match pass.begun() {
        None => true,
        Some(_) => false,
    }
}

// Tells an operator the verdict as it is now. Where there is no memory for it nothing is written.
fn tell_verdict<R: Ledger, Q: Ledger, W: Wait, C: Connection, D, G>(
    rt: &W,
    alloc: Global,
    shared: &Shared<'_, R, Q, C, D, G>,
    conn: &mut C,
) -> Served
    ensures { IsVerdictTold shared.now.here.now (C.Sink.writes conn.old) (C.Sink.writes conn.new) result }
{
    match verdict_now(rt, alloc, shared.here, &shared.nodes.nodes) {
        Ok(line) => tell_text(alloc, conn, &line),
        Err(_) => Served::NoMemory,
    }
}

// Tells an operator what the run answers while it goes on.
fn tell<R: Ledger, Q: Ledger, W: Wait, C: Connection, D, G>(
    rt: &W,
    alloc: Global,
    shared: &Shared<'_, R, Q, C, D, G>,
    desk: &Desk<'_, R, Q>,
    conn: &mut C,
    asked: &ConsoleRequest,
) -> Served
    ensures audit { asked.now.word ≡ ConsoleWord.Audit → IsVerdictTold shared.now.here.now (C.Sink.writes conn.old) (C.Sink.writes conn.new) result }
    ensures preview { asked.now.word ≡ ConsoleWord.Preview → IsPreviewSo (at_desk desk.now).me asked.now (C.Sink.writes conn.old) (C.Sink.writes conn.new) result }
    ensures rehearsal { asked.now.word ≡ ConsoleWord.Rehearse → IsPreviewSo (at_desk desk.now).me asked.now (C.Sink.writes conn.old) (C.Sink.writes conn.new) result }
{
    match asked.word {
        ConsoleWord::Audit => tell_verdict(rt, alloc, shared, conn),
        ConsoleWord::Preview | ConsoleWord::Rehearse => {
            tell_preview(rt, alloc, desk, conn, asked)
        }
        _ => Served::NoMemory,
    }
}

// Answers what an operator asks of the run; whether the worker goes on. One that has read `stop` does not. Where a write fails
// there is nobody to tell.
#[tactic(auto, using(crate::proofs::StoppingLemmas::asked_to_stop))]
fn answer<R: Ledger, Q: Ledger, W: Wait, C: Connection + Drop, D, G>(
    rt: &W,
    alloc: Global,
    shared: &Shared<'_, R, Q, C, D, G>,
    desk: &Desk<'_, R, Q>,
    mut conn: C,
    asked: &ConsoleRequest,
) -> bool
    requires asked { WasAsked desk.now.setup.now.setting.me desk.now.setup.now.console (C.Source.reads conn) asked.now }
    requires untold { IsUnwritten (C.Source.reads conn) (C.Sink.writes conn) }
{
    match asked.word {
        ConsoleWord::Stop => match last_of(alloc, desk.setup, conn) {
            Ok(last) => {
                shared.last.put(rt, last);
                false
            }
            Err(_) => true,
        },
        _ => {
            let _ = tell(rt, alloc, shared, desk, &mut conn, asked);
            true
        }
    }
}

/// Serves a connection; whether the worker goes on. It makes no event, and no exchange, but for the message that it reads there.
pub fn serve<R: Ledger, Q: Ledger, W: Wait, C: Connection + Drop, L: Link, D: Draw, G: Gate>(
    rt: &W,
    alloc: Global,
    shared: &Shared<'_, R, Q, C, D, G>,
    desk: &Desk<'_, R, Q>,
    pass: &mut Pass<Q>,
    mut conn: C,
    link: &mut L,
) -> bool
    requires new { IsNew (C.Source.reads conn) (C.Sink.writes conn) }
    ensures turn { ServesOrRests (at_desk desk.now) (C.Source.reads conn)
        (standing pass.old.notes pass.old.receipts.items (L.exchanges link.old))
        (standing pass.new.notes pass.new.receipts.items (L.exchanges link.new)) }
{
    if !make_ready(pass) {
        return true;
    }
    let inputs = shared.drawing.inputs(rt);
    let served = serve_one(rt, alloc, desk, pass, &mut conn, link, inputs, shared.gate);
    desk.node.work.notify_all();
    match served {
        Served::Console(asked) => answer(rt, alloc, shared, desk, conn, &asked),
        _ => true,
    }
}
