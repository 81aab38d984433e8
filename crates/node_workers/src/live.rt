// A live request, from its arrival to its end.
ghost use Rattle.std.specs.Prelude.{◌≡◌, None};
ghost use Rattle.node_workers.specs.Calling.{CountsCalls};
ghost use Rattle.node_workers.specs.Desks.{at_desk};
ghost use Rattle.node_workers.specs.Flying.{began_by, began_of, began_with, BeginsSo, EndsSo, IsArrival, Lives};

use crate::desk::Desk;
use crate::flying::fly;
use crate::turns::ask;
use io_links::{Gate, Link};
use lang_core::{Inputs, NoMemory, Origin, Request};
use node_core::{NodeDone, NodeEvent, Pass};
use repair_messages::{AnswerMessage, SetMessage};
use service_events::{ArriveRefused, Arrived};
use std::alloc::Global;
use std::sync::Wait;
use std::sync::ledger::Ledger;

/// How a live request ended.
#[derive(Drop)]
pub(crate) enum Ending {
    /// It was committed, and its answer stands at this index of the journal.
    Committed(u64),
    /// It was committed before, and this is its last answer.
    Known(AnswerMessage),
    /// It was refused.
    Refused(ArriveRefused),
    /// Its flight isn't there any more.
    Gone,
    /// No memory for it. Its flight was given up.
    NoMemory,
}

/// What became of an arrival.
#[derive(Drop)]
pub(crate) enum Began {
    /// It has ended.
    Ended(Ending),
    /// It is a flight, whose first call is this.
    Call { flight: u64, set: SetMessage },
}

fn began_by(arrived: Result<Arrived, ArriveRefused>) -> Began
    ensures { result ≡ began_by arrived }
{
    match arrived {
        Ok(Arrived::Done { index, .. }) => Began::Ended(Ending::Committed(index)),
        Ok(Arrived::Call { flight, set }) => Began::Call { flight, set },
        Ok(Arrived::Known(answer)) => Began::Ended(Ending::Known(answer)),
        Err(why) => Began::Ended(Ending::Refused(why)),
    }
}

fn began_with(done: NodeDone) -> Began
    ensures { result ≡ began_with done }
{
    match done {
        NodeDone::Arrive(arrived) => began_by(arrived),
        _ => Began::Ended(Ending::NoMemory),
    }
}

fn began_of(done: Result<NodeDone, NoMemory>) -> Began
    ensures { result ≡ began_of done }
{
    match done {
        Ok(done) => began_with(done),
        Err(_) => Began::Ended(Ending::NoMemory),
    }
}

fn arrive<R: Ledger, Q: Ledger, W: Wait>(
    rt: &W,
    alloc: Global,
    desk: &Desk<R, Q>,
    pass: &mut Pass<Q>,
    origin: Origin,
    request: Request,
    inputs: Inputs,
) -> Began
    requires none { pass.old.notes.begun ≡ None }
    ensures begins { BeginsSo (at_desk desk.now) origin request inputs pass.new.notes pass.old.receipts.items pass.new.receipts.items result }
    ensures arrival { IsArrival (at_desk desk.now) origin request inputs pass.old.notes pass.new.notes pass.old.receipts.items pass.new.receipts.items result }
    ensures lost { pass.new.notes.lost ≡ pass.old.notes.lost }
    ensures refused { pass.new.notes.refused ≡ pass.old.notes.refused }
{
    let asked = NodeEvent::Arrive {
        origin,
        request,
        inputs,
    };
    began_of(ask(rt, alloc, desk, pass, asked))
}

/// A live request arrives, and its calls are made one after the other, until it ends.
pub(crate) fn live<R: Ledger, Q: Ledger, W: Wait, L: Link, G: Gate>(
    rt: &W,
    alloc: Global,
    desk: &Desk<R, Q>,
    pass: &mut Pass<Q>,
    link: &mut L,
    gate: &G,
    origin: Origin,
    request: Request,
    inputs: Inputs,
) -> Ending
    requires none { pass.old.notes.begun ≡ None }
    ensures ends { EndsSo (at_desk desk.now) origin request inputs pass.new.notes pass.old.receipts.items pass.new.receipts.items result }
    ensures closed { pass.new.notes.begun ≡ None }
    ensures told { Lives (at_desk desk.now) origin request inputs pass.old.notes pass.new.notes pass.old.receipts.items pass.new.receipts.items (L.exchanges link.old) (L.exchanges link.new) result }
    ensures counts { CountsCalls (at_desk desk.now) pass.old.notes pass.new.notes (L.exchanges link.old) (L.exchanges link.new) }
{
    match arrive(rt, alloc, desk, pass, origin, request, inputs) {
        Began::Ended(ending) => ending,
        Began::Call { flight, set } => fly(rt, alloc, desk, pass, link, gate, flight, set),
    }
}
