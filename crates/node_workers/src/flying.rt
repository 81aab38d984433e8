// A flight, from its first call to its end.
ghost use Rattle.std.specs.Prelude.{◌≡◌, None, IfOk, IsSomeAnd};
ghost use Rattle.node_core.specs.Doings.{IsOpen};
ghost use Rattle.node_exchanges.specs.Calls.{AnswersOnly, FailsOnly};
ghost use Rattle.node_workers.specs.Calling.{CountsCalls};
ghost use Rattle.node_workers.specs.Desks.{at_desk};
ghost use Rattle.node_workers.specs.Flying.{end_of_call, went_by, went_of, went_with, EndsSo, Flies, GivesUp, GoesOn, IsGivenUp, IsTold, IsToldOnce, IsWaiting, SendsNext};

use crate::desk::Desk;
use crate::live::Ending;
use crate::turns::{ask, fits};
use call_registers::Why;
use io_links::{Gate, Link};
use lang_core::{Copied, NoMemory};
use node_core::{NodeDone, NodeEvent, NodeState, Pass, event};
use node_exchanges::call;
use repair_messages::{AnswerMessage, SetMessage};
use service_events::{Arrived, CallRefused};
use std::alloc::Global;
use std::sync::Wait;
use std::sync::ledger::Ledger;

/// How a flight goes on when its call came to an end.
#[derive(Drop)]
pub(crate) enum Went {
    /// It was committed, and its answer stands at this index of the journal.
    Committed(u64),
    /// This call is to be sent next.
    Call { flight: u64, set: SetMessage },
    /// It isn't there any more.
    Gone,
    /// No memory for it. It waits as before.
    NoMemory,
}

fn went_by(arrived: Result<Arrived, CallRefused>) -> Went
    ensures { result ≡ went_by arrived }
{
    match arrived {
        Ok(Arrived::Done { index, .. }) => Went::Committed(index),
        Ok(Arrived::Call { flight, set }) => Went::Call { flight, set },
        _ => Went::NoMemory,
    }
}

fn went_with(done: NodeDone) -> Went
    ensures { result ≡ went_with done }
{
    match done {
        NodeDone::CallAnswered(arrived) => went_by(arrived),
        NodeDone::CallFailed(arrived) => went_by(arrived),
        NodeDone::Gone => Went::Gone,
        _ => Went::NoMemory,
    }
}

fn went_of(done: Result<NodeDone, NoMemory>) -> Went
    ensures { result ≡ went_of done }
{
    match done {
        Ok(done) => went_with(done),
        Err(_) => Went::NoMemory,
    }
}

fn end_of_call(flight: u64, number: u64, came: Result<AnswerMessage, Why>) -> NodeEvent
    ensures { result ≡ end_of_call flight number came }
{
    match came {
        Ok(answer) => NodeEvent::CallAnswered { flight, answer },
        Err(why) => NodeEvent::CallFailed {
            flight,
            number,
            why,
        },
    }
}

fn copied(
    alloc: Global,
    came: &Result<AnswerMessage, Why>,
) -> Result<Result<AnswerMessage, Why>, NoMemory>
    ensures { IfOk result (λ copy. copy ≡ came.now) }
{
    match came {
        Ok(answer) => Ok(Ok(answer.copied(alloc)?)),
        Err(why) => Ok(Err(*why)),
    }
}

// The service is told in one event.
fn tell_once<R: Ledger, Q: Ledger, W: Wait>(
    rt: &W,
    alloc: Global,
    desk: &Desk<R, Q>,
    pass: &mut Pass<Q>,
    flight: u64,
    number: u64,
    came: Result<AnswerMessage, Why>,
) -> Went
    requires open { IsSomeAnd pass.old.notes.begun (λ b. (b.flight ≡ flight) × (b.number ≡ number)) }
    requires failure { FailsOnly came }
    requires answers { IsSomeAnd pass.old.notes.begun (λ b. AnswersOnly b.dest b.number came) }
    ensures once { IsToldOnce (at_desk desk.now) flight number came pass.old.notes pass.new.notes pass.old.receipts.items pass.new.receipts.items result }
    ensures told { IsTold (at_desk desk.now) flight number came pass.old.notes pass.new.notes pass.old.receipts.items pass.new.receipts.items result }
{
    let told = end_of_call(flight, number, came);
    went_of(ask(rt, alloc, desk, pass, told))
}

// The service is told what came of the call for which the flight waits. Where memory is wanting for that, it is told once more, by a copy
// that was made before. Where there was no memory for the copy either, the first try was the only one.
fn tell<R: Ledger, Q: Ledger, W: Wait>(
    rt: &W,
    alloc: Global,
    desk: &Desk<R, Q>,
    pass: &mut Pass<Q>,
    flight: u64,
    number: u64,
    came: Result<AnswerMessage, Why>,
) -> Went
    requires open { IsSomeAnd pass.old.notes.begun (λ b. (b.flight ≡ flight) × (b.number ≡ number)) }
    requires failure { FailsOnly came }
    requires answers { IsSomeAnd pass.old.notes.begun (λ b. AnswersOnly b.dest b.number came) }
    ensures told { IsTold (at_desk desk.now) flight number came pass.old.notes pass.new.notes pass.old.receipts.items pass.new.receipts.items result }
{
    let again = copied(alloc, &came);
    match tell_once(rt, alloc, desk, pass, flight, number, came) {
        Went::NoMemory => match again {
            Ok(came) => tell_once(rt, alloc, desk, pass, flight, number, came),
            Err(_) => Went::NoMemory,
        },
        went => went,
    }
}

// The call is made, and the service is told what came of it.
fn send<R: Ledger, Q: Ledger, W: Wait, L: Link, G: Gate>(
    rt: &W,
    alloc: Global,
    desk: &Desk<R, Q>,
    pass: &mut Pass<Q>,
    link: &mut L,
    gate: &G,
    flight: u64,
    set: &SetMessage,
) -> Went
    requires waits { IsSomeAnd pass.old.notes.begun (λ b. IsWaiting (at_desk desk.now) b.origin b.request b.inputs pass.old.notes.begun flight set.now) }
    ensures went { IsSomeAnd pass.old.notes.begun (λ b.
        GoesOn (at_desk desk.now) b.origin b.request b.inputs flight pass.new.notes pass.old.receipts.items pass.new.receipts.items result) }
    ensures told { SendsNext (at_desk desk.now) flight set.now pass.old.notes pass.new.notes pass.old.receipts.items pass.new.receipts.items (L.exchanges link.old) (L.exchanges link.new) result }
    ensures counts { CountsCalls (at_desk desk.now) pass.old.notes pass.new.notes (L.exchanges link.old) (L.exchanges link.new) }
{
    match call(alloc, &desk.place(), set, link, gate) {
        Ok(came) => tell(rt, alloc, desk, pass, flight, set.number, came),
        Err(_) => Went::NoMemory,
    }
}

// For this no memory is needed.
fn give_up_under_lock<R: Ledger, Q: Ledger, W: Wait>(
    rt: &W,
    alloc: Global,
    desk: &Desk<R, Q>,
    kept: &mut NodeState<R>,
    pass: &mut Pass<Q>,
    flight: u64,
)
    requires open { IsOpen flight pass.old.notes.begun }
    ensures up { IsGivenUp pass.old.notes pass.new.notes }
    ensures receipts { pass.new.receipts.items ≡ pass.old.receipts.items }
    ensures made { GivesUp flight pass.old.notes pass.new.notes pass.old.receipts.items pass.new.receipts.items }
{
    fits(kept);
    let asked = NodeEvent::Abandon { flight };
    let Ok(_) = event(rt, alloc, desk.tally, kept, pass, asked) else {
        unreachable!()
    };
}

fn give_up<R: Ledger, Q: Ledger, W: Wait>(
    rt: &W,
    alloc: Global,
    desk: &Desk<R, Q>,
    pass: &mut Pass<Q>,
    flight: u64,
)
    requires open { IsOpen flight pass.old.notes.begun }
    ensures up { IsGivenUp pass.old.notes pass.new.notes }
    ensures receipts { pass.new.receipts.items ≡ pass.old.receipts.items }
    ensures made { GivesUp flight pass.old.notes pass.new.notes pass.old.receipts.items pass.new.receipts.items }
{
    let mut state = desk.node.state.lock(rt);
    give_up_under_lock(rt, alloc, desk, &mut *state, pass, flight);
}

/// Makes the flight's calls, one after the other, until it ends.
pub(crate) fn fly<R: Ledger, Q: Ledger, W: Wait, L: Link, G: Gate>(
    rt: &W,
    alloc: Global,
    desk: &Desk<R, Q>,
    pass: &mut Pass<Q>,
    link: &mut L,
    gate: &G,
    flight: u64,
    set: SetMessage,
) -> Ending
    requires waits { IsSomeAnd pass.old.notes.begun (λ b. IsWaiting (at_desk desk.now) b.origin b.request b.inputs pass.old.notes.begun flight set) }
    ensures ends { IsSomeAnd pass.old.notes.begun (λ b.
        EndsSo (at_desk desk.now) b.origin b.request b.inputs pass.new.notes pass.old.receipts.items pass.new.receipts.items result) }
    ensures closed { pass.new.notes.begun ≡ None }
    ensures told { Flies (at_desk desk.now) flight set pass.old.notes pass.new.notes pass.old.receipts.items pass.new.receipts.items (L.exchanges link.old) (L.exchanges link.new) result }
    ensures counts { CountsCalls (at_desk desk.now) pass.old.notes pass.new.notes (L.exchanges link.old) (L.exchanges link.new) }
{
    let mut flight = flight;
    let mut set = set;
    for _ in rt.forever() {
        match send(rt, alloc, desk, pass, link, gate, flight, &set) {
            Went::Committed(index) => return Ending::Committed(index),
            Went::Call {
                flight: next,
                set: then,
            } => {
                flight = next;
                set = then;
            }
            Went::Gone => return Ending::Gone,
            Went::NoMemory => {
                give_up(rt, alloc, desk, pass, flight);
                return Ending::NoMemory;
            }
        }
    }
    unreachable!()
}
