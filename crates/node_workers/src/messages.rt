// What peers send besides live calls: versions of calls, tokens and fetches.
ghost use Rattle.std.specs.Prelude.{◌≡◌, IfOk, OnErr};
ghost use Rattle.service_events.specs.declared.event.Done.TheVariants as done;
ghost use Rattle.service_events.specs.declared.event.Event.TheVariants.{Give, Take, TakeToken};
ghost use Rattle.node_workers.specs.Desks.{at_desk};
ghost use Rattle.node_workers.specs.Messages.{IsGivenSo, IsHeardSo, IsTakenSo};
ghost use Rattle.node_workers.specs.Posting.{Keeps};
ghost use Rattle.node_workers.specs.Turns.{Made, MakesOnce};

use crate::desk::Desk;
use crate::turns::ask;
use lang_core::{Inputs, NoMemory};
use node_core::{NodeDone, NodeEvent, Pass};
use repair_messages::{AnswerMessage, Fetch, SetMessage, TokenMessage};
use service_events::{AnswerRefused, GiveRefused, Heard, TakeRefused, Taken};
use std::alloc::Global;
use std::sync::Wait;
use std::sync::ledger::Ledger;

/// A version of a peer's call is taken, in one event; without memory for it, none is made.
pub(crate) fn take<R: Ledger, Q: Ledger, W: Wait>(
    rt: &W,
    alloc: Global,
    desk: &Desk<R, Q>,
    pass: &mut Pass<Q>,
    set: SetMessage,
    inputs: Inputs,
) -> Result<Result<Taken, TakeRefused>, NoMemory>
    ensures made { IfOk result (λ taken. Made (at_desk desk.now).me pass.old.notes pass.new.notes pass.old.receipts.items pass.new.receipts.items (Take set inputs) (done.Take taken)) }
    ensures taken { IfOk result (IsTakenSo set inputs pass.new.notes) }
    ensures keeps { Keeps pass.old.notes pass.new.notes pass.old.receipts.items pass.new.receipts.items }
    ensures err { OnErr result (pass.new.notes ≡ pass.old.notes) }
    ensures makes { MakesOnce (at_desk desk.now).me (Take set inputs) pass.old.notes pass.new.notes pass.old.receipts.items pass.new.receipts.items }
{
    match ask(rt, alloc, desk, pass, NodeEvent::Take { set, inputs })? {
        NodeDone::Take(taken) => Ok(taken),
        _ => unreachable!(),
    }
}

/// A peer's token is taken, in one event; without memory for it, none is made.
pub(crate) fn take_token<R: Ledger, Q: Ledger, W: Wait>(
    rt: &W,
    alloc: Global,
    desk: &Desk<R, Q>,
    pass: &mut Pass<Q>,
    token: TokenMessage,
) -> Result<Result<Heard, AnswerRefused>, NoMemory>
    ensures made { IfOk result (λ heard. Made (at_desk desk.now).me pass.old.notes pass.new.notes pass.old.receipts.items pass.new.receipts.items (TakeToken token) (done.TakeToken heard)) }
    ensures heard { IfOk result (IsHeardSo token pass.new.notes) }
    ensures keeps { Keeps pass.old.notes pass.new.notes pass.old.receipts.items pass.new.receipts.items }
    ensures err { OnErr result (pass.new.notes ≡ pass.old.notes) }
    ensures makes { MakesOnce (at_desk desk.now).me (TakeToken token) pass.old.notes pass.new.notes pass.old.receipts.items pass.new.receipts.items }
{
    match ask(rt, alloc, desk, pass, NodeEvent::TakeToken { token })? {
        NodeDone::TakeToken(heard) => Ok(heard),
        _ => unreachable!(),
    }
}

/// An answer is given to a peer that fetches it, in one event; without memory for that, none is made.
pub(crate) fn give<R: Ledger, Q: Ledger, W: Wait>(
    rt: &W,
    alloc: Global,
    desk: &Desk<R, Q>,
    pass: &mut Pass<Q>,
    fetch: Fetch,
) -> Result<Result<AnswerMessage, GiveRefused>, NoMemory>
    ensures made { IfOk result (λ given. Made (at_desk desk.now).me pass.old.notes pass.new.notes pass.old.receipts.items pass.new.receipts.items (Give fetch) (done.Give given)) }
    ensures given { IfOk result (IsGivenSo (at_desk desk.now).me fetch pass.new.notes) }
    ensures keeps { Keeps pass.old.notes pass.new.notes pass.old.receipts.items pass.new.receipts.items }
    ensures err { OnErr result (pass.new.notes ≡ pass.old.notes) }
    ensures makes { MakesOnce (at_desk desk.now).me (Give fetch) pass.old.notes pass.new.notes pass.old.receipts.items pass.new.receipts.items }
{
    match ask(rt, alloc, desk, pass, NodeEvent::Give { fetch })? {
        NodeDone::Give(given) => Ok(given),
        _ => unreachable!(),
    }
}
