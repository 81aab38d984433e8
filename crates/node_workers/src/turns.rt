// One event at a worker's node.
ghost use Rattle.std.specs.Prelude.{◌≡◌, IfOk, OnErr};
ghost use Rattle.service_events.specs.Fits.{Fits};
ghost use Rattle.service_events.specs.State.{Kept};
ghost use Rattle.node_core.specs.Doings.{MayAsk};
ghost use Rattle.node_workers.specs.Desks.{at_desk};
ghost use Rattle.node_workers.specs.Turns.{Made, MadeAt, MakesOnce};

use crate::desk::{Desk, is_set_up};
use lang_core::NoMemory;
use node_core::{NodeDone, NodeEvent, NodeState, Pass, event};
use std::alloc::Global;
use std::sync::Wait;
use std::sync::ledger::Ledger;

/// What stands behind the lock is a service that fits its journal.
pub(crate) fn fits<R: Ledger>(kept: &NodeState<R>)
    ensures { Fits kept.now.service }
{
    let service = kept.service();
    let _journal = service.journal();
}

/// Makes one event at a service under the lock; one that isn't set up so is answered as memory that lacks.
pub(crate) fn ask_under_lock<R: Ledger, Q: Ledger, W: Wait>(
    rt: &W,
    alloc: Global,
    desk: &Desk<R, Q>,
    kept: &mut NodeState<R>,
    pass: &mut Pass<Q>,
    asked: NodeEvent,
) -> Result<NodeDone, NoMemory>
    requires may { MayAsk kept.old.service pass.old.notes.begun asked }
    ensures at { IfOk result (MadeAt (at_desk desk.now).me kept.old.service kept.new.service pass.old.notes.begun asked) }
    ensures made { IfOk result (λ done. Made (at_desk desk.now).me pass.old.notes pass.new.notes pass.old.receipts.items pass.new.receipts.items asked done) }
    ensures err { OnErr result ((pass.new.notes ≡ pass.old.notes) × (pass.new.receipts.items ≡ pass.old.receipts.items)) }
    ensures makes { MakesOnce (at_desk desk.now).me asked pass.old.notes pass.new.notes pass.old.receipts.items pass.new.receipts.items }
{
    if !is_set_up(kept.service(), desk.setup) {
        return Err(NoMemory);
    }
    fits(kept);
    event(rt, alloc, desk.tally, kept, pass, asked)
}

/// Makes one event in one hold of the lock. Refused for want of memory, nothing has happened.
pub(crate) fn ask<R: Ledger, Q: Ledger, W: Wait>(
    rt: &W,
    alloc: Global,
    desk: &Desk<R, Q>,
    pass: &mut Pass<Q>,
    asked: NodeEvent,
) -> Result<NodeDone, NoMemory>
    requires may { (s : Kept) → MayAsk s pass.old.notes.begun asked }
    ensures made { IfOk result (λ done. Made (at_desk desk.now).me pass.old.notes pass.new.notes pass.old.receipts.items pass.new.receipts.items asked done) }
    ensures err { OnErr result ((pass.new.notes ≡ pass.old.notes) × (pass.new.receipts.items ≡ pass.old.receipts.items)) }
    ensures makes { MakesOnce (at_desk desk.now).me asked pass.old.notes pass.new.notes pass.old.receipts.items pass.new.receipts.items }
{
    let mut state = desk.node.state.lock(rt);
    ask_under_lock(rt, alloc, desk, &mut *state, pass, asked)
}
