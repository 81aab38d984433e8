// What a pass notes of an event, by what is kept of it and what the service answered.
ghost use Rattle.std.specs.Prelude.{◌≡◌, Some};
ghost use Rattle.service_events.specs.declared.event.Event.TheVariants as events;
ghost use Rattle.node_core.specs.Memos.{committed_by, committed_of, given_by, noted_by};
ghost use Rattle.node_core.specs.Notes.{begun_as, ended_posting, goes_on_by, if_accepted, lost_by, next_posting, one_more, refused_by, turn_by, turn_of, waiting_for};
ghost use Rattle.node_core.specs.declared.memos.Memo.TheVariants as memos;

use crate::memos::Memo;
use crate::notes::{Begun, Gave, Notes, Posting, Turn};
use crate::receipts::Committed;
use crate::waiting::{answer_at_last, copied_at_last};
use call_registers::Why;
use lang_core::{Inputs, Name, Origin, Request};
use repair_messages::{PostName, Refusal, SetMessage};
use service_events::{Arrived, CallRefused, Done, Event, PostRefused, Posted};
use std::alloc::Global;
use std::sync::Wait;

// ---- live requests

fn begun_at(
    rt: &impl Wait,
    alloc: Global,
    me: &Name,
    flight: u64,
    set: &SetMessage,
    origin: Origin,
    request: Request,
    inputs: Inputs,
) -> Begun
    ensures { Some result ≡ begun_as me.now (events.Arrive origin request inputs) flight set.now }
{
    Begun {
        service: copied_at_last(rt, alloc, me),
        flight,
        dest: copied_at_last(rt, alloc, &set.dest),
        number: set.number,
        origin,
        request,
        inputs,
    }
}

// It was committed, began a flight, or is noted with what it was answered.
fn note_arrival(
    rt: &impl Wait,
    alloc: Global,
    me: &Name,
    notes: &mut Notes,
    origin: Origin,
    request: Request,
    inputs: Inputs,
    done: &Done,
) -> Option<Committed>
    ensures notes { notes.new ≡ noted_by me.now notes.old (memos.Arrival origin request inputs) done.now }
    ensures committed { result ≡ committed_by notes.old.begun (memos.Arrival origin request inputs) done.now }
{
    let Done::Arrive(arrived) = done else {
        return None;
    };
    match arrived {
        Ok(Arrived::Done { index, id, .. }) => {
            notes.gave.forget();
            Some(Committed {
                request,
                inputs,
                index: *index,
                id: *id,
            })
        }
        Ok(Arrived::Call { flight, set }) => {
            notes.gave.forget();
            notes.begun = Some(begun_at(rt, alloc, me, *flight, set, origin, request, inputs));
            None
        }
        _ => {
            let done = Done::Arrive(answer_at_last(rt, alloc, arrived));
            let asked = Event::Arrive {
                origin,
                request,
                inputs,
            };
            notes.gave.put(Gave { asked, done });
            None
        }
    }
}

fn waiting_for(rt: &impl Wait, alloc: Global, begun: Begun, flight: u64, set: &SetMessage) -> Begun
    ensures { result ≡ waiting_for flight set.now begun }
{
    let Begun {
        service,
        flight: _,
        dest: _,
        number: _,
        origin,
        request,
        inputs,
    } = begun;
    Begun {
        service,
        flight,
        dest: copied_at_last(rt, alloc, &set.dest),
        number: set.number,
        origin,
        request,
        inputs,
    }
}

fn committed(begun: Begun, index: u64, id: u64) -> Committed
    ensures { result ≡ record { request = begun.request; inputs = begun.inputs; index = index; id = id } }
{
    let Begun {
        service: _,
        flight: _,
        dest: _,
        number: _,
        origin: _,
        request,
        inputs,
    } = begun;
    Committed {
        request,
        inputs,
        index,
        id,
    }
}

// The open flight ends with its commit, waits for this call now, or for the same one as before.
fn go_on(
    rt: &impl Wait,
    alloc: Global,
    notes: &mut Notes,
    arrived: &Result<Arrived, CallRefused>,
) -> Option<Committed>
    ensures notes { notes.new ≡ record notes.old { begun = goes_on_by notes.old.begun arrived.now } }
    ensures committed { result ≡ committed_of notes.old.begun arrived.now }
{
    let Some(begun) = notes.begun.take() else {
        return None;
    };
    match arrived {
        Ok(Arrived::Done { index, id, .. }) => Some(committed(begun, *index, *id)),
        Ok(Arrived::Call { flight, set }) => {
            notes.begun = Some(waiting_for(rt, alloc, begun, *flight, set));
            None
        }
        _ => {
            notes.begun = Some(begun);
            None
        }
    }
}

// Counts a call that was given up, where the service accepted that.
fn note_failure(notes: &mut Notes, why: Why, arrived: &Result<Arrived, CallRefused>)
    ensures { notes.new ≡ record notes.old {
      lost = if_accepted notes.old.lost (lost_by notes.old.lost why) arrived.now;
      refused = if_accepted notes.old.refused (refused_by notes.old.refused why) arrived.now;
    } }
{
    let Ok(_) = arrived else {
        return;
    };
    match why {
        Why::Lost(_) => notes.lost = notes.lost.saturating_add(1),
        Why::Refused { .. } => notes.refused = notes.refused.saturating_add(1),
        Why::Changes => {}
    }
}

// ---- messages, orders and posts

fn give(rt: &impl Wait, alloc: Global, notes: &mut Notes, asked: Event, done: &Done)
    ensures { notes.new ≡ record notes.old { gave = given_by notes.old.gave asked done.now } }
{
    match done {
        Done::Take(taken) => {
            let done = Done::Take(answer_at_last(rt, alloc, taken));
            notes.gave.put(Gave { asked, done });
        }
        Done::TakeToken(heard) => {
            let done = Done::TakeToken(answer_at_last(rt, alloc, heard));
            notes.gave.put(Gave { asked, done });
        }
        Done::Give(given) => {
            let done = Done::Give(answer_at_last(rt, alloc, given));
            notes.gave.put(Gave { asked, done });
        }
        Done::Order(ordered) => {
            let done = Done::Order(*ordered);
            notes.gave.put(Gave { asked, done });
        }
        _ => {}
    }
}

fn next_posting(dest: Name, name: Option<PostName>) -> Option<Posting>
    ensures { result ≡ next_posting dest name }
{
    match name {
        None => Some(Posting::Quiet(dest)),
        Some(name) => Some(Posting::Next(name)),
    }
}

fn ended_posting(
    before: Option<Posting>,
    name: PostName,
    posted: Result<Posted, PostRefused>,
) -> Option<Posting>
    ensures { result ≡ ended_posting before name posted }
{
    match posted {
        Ok(posted) => Some(Posting::Ended { name, posted }),
        Err(_) => before,
    }
}

// ---- all of it

/// Notes an event, but for how it was turned away and that it was made, and hands out the live request that was committed by it, if one was.
pub(crate) fn note(
    rt: &impl Wait,
    alloc: Global,
    me: &Name,
    notes: &mut Notes,
    memo: Memo,
    done: &Done,
) -> Option<Committed>
    ensures notes { notes.new ≡ noted_by me.now notes.old memo done.now }
    ensures committed { result ≡ committed_by notes.old.begun memo done.now }
{
    match memo {
        Memo::Arrival {
            origin,
            request,
            inputs,
        } => note_arrival(rt, alloc, me, notes, origin, request, inputs, done),
        Memo::Answered => match done {
            Done::CallAnswered(arrived) => go_on(rt, alloc, notes, arrived),
            _ => None,
        },
        Memo::Failed(why) => match done {
            Done::CallFailed(arrived) => {
                note_failure(notes, why, arrived);
                go_on(rt, alloc, notes, arrived)
            }
            _ => None,
        },
        Memo::Abandoned => {
            notes.begun = None;
            None
        }
        Memo::Given(asked) => {
            give(rt, alloc, notes, asked, done);
            None
        }
        Memo::NextPost(dest) => {
            if let Done::NextPost(name) = done {
                notes.posting = next_posting(dest, *name);
            }
            None
        }
        Memo::Posted(name) => {
            if let Done::Posted(posted) = done {
                notes.posting = ended_posting(notes.posting.take(), name, *posted);
            }
            None
        }
        Memo::Nothing => None,
    }
}

fn refused(refusal: Refusal) -> Turn
    ensures { result ≡ turn_by refusal }
{
    Turn::Refused {
        word: refusal.word,
        number: refusal.number,
    }
}

// How an event was turned away that was answered so, if it was.
fn turn_of(done: &Done) -> Option<Turn>
    ensures { result ≡ turn_of done.now }
{
    match done {
        Done::Gone => Some(Turn::Gone),
        _ => done.refusal().map(refused),
    }
}

/// Notes that one event more was made, which was answered so, and how it was turned away, if it was.
pub(crate) fn note_end(notes: &mut Notes, done: &Done)
    ensures { notes.new ≡ record notes.old { turn = turn_of done.now; made = one_more notes.old.made } }
{
    notes.turn = turn_of(done);
    notes.made = notes.made.saturating_add(1);
}
