// A worker that posts.
ghost use Rattle.std.specs.Prelude.{◌≡◌, ◌≤◌, IfOk, IsSome, IsSomeAnd, None, Ok, OnErr, Some};
ghost use Rattle.service_events.specs.Posts.{next_post, write_post};
ghost use Rattle.service_events.specs.declared.event.Done.TheVariants as done;
ghost use Rattle.service_events.specs.declared.event.Event.TheVariants as events;
ghost use Rattle.node_core.specs.HandedOn.{GoesTo};
ghost use Rattle.node_workers.specs.Desks.{at_desk};
ghost use Rattle.node_workers.specs.Posting.{EndsTurn, GoesNext, IsNextPost, IsTurn, Keeps, MakesNext, outcome};
ghost use Rattle.node_workers.specs.Turns.{IsUntouched, Made, MadeAt, MakesOnce};

use crate::desk::Desk;
use crate::turns::{ask, ask_under_lock};
use io_links::Link;
use lang_core::{Copied, Name, NoMemory};
use node_core::{NodeDone, NodeEvent, NodeState, Pass};
use node_exchanges::post_to;
use repair_messages::{Post, PostName};
use service_events::{PostRefused, PostReply, Posted};
use std::alloc::Global;
use std::sync::Wait;
use std::sync::ledger::Ledger;

/// What came of a turn of a worker that posts.
#[derive(Clone, Copy, PartialEq, Eq)]
pub enum PostedOne {
    /// Nothing is outstanding for the peer, and nothing was sent.
    Nothing,
    /// This became of the post that was sent.
    Posted(Posted),
    /// What came back is to another post.
    Foreign,
    /// What came back is no reply, or refuses with a word that refuses no post. The post stays to be sent.
    Unread,
    /// No memory for it. Where a post was sent, nothing is known of it, and it stays to be sent.
    NoMemory,
}

// ---- which post goes next

// How the post of this name reads.
fn written<R: Ledger, Q: Ledger, W: Wait>(
    rt: &W,
    alloc: Global,
    desk: &Desk<R, Q>,
    kept: &mut NodeState<R>,
    pass: &mut Pass<Q>,
    name: PostName,
) -> Result<Post, NoMemory>
    requires some { IsSome (write_post kept.old.service name) }
    ensures at { IfOk result (λ post. MadeAt (at_desk desk.now).me kept.old.service kept.new.service pass.old.notes.begun (events.WritePost name) (done.WritePost (Ok post))) }
    ensures made { IfOk result (λ post. Made (at_desk desk.now).me pass.old.notes pass.new.notes pass.old.receipts.items pass.new.receipts.items (events.WritePost name) (done.WritePost (Ok post))) }
    ensures makes { MakesOnce (at_desk desk.now).me (events.WritePost name) pass.old.notes pass.new.notes pass.old.receipts.items pass.new.receipts.items }
    ensures keeps { Keeps pass.old.notes pass.new.notes pass.old.receipts.items pass.new.receipts.items }
{
    match ask_under_lock(rt, alloc, desk, kept, pass, NodeEvent::WritePost { name })? {
        NodeDone::WritePost(written) => written,
        _ => unreachable!(),
    }
}

// The post of this name, which goes next, as it was asked in the event before.
fn next_written<R: Ledger, Q: Ledger, W: Wait>(
    rt: &W,
    alloc: Global,
    desk: &Desk<R, Q>,
    kept: &mut NodeState<R>,
    pass: &mut Pass<Q>,
    name: PostName,
    dest: &Name,
) -> Result<Option<Post>, NoMemory>
    requires next { next_post dest.now kept.old.service ≡ Some name }
    requires goes { IsSomeAnd (write_post kept.old.service name) (GoesTo dest.now) }
    ensures next { IfOk result (IsNextPost (at_desk desk.now).me dest.now) }
    ensures makes { GoesNext (at_desk desk.now).me dest.now name pass.old.notes pass.new.notes pass.old.receipts.items pass.new.receipts.items result }
    ensures keeps { Keeps pass.old.notes pass.new.notes pass.old.receipts.items pass.new.receipts.items }
{
    let post = written(rt, alloc, desk, kept, pass, name)?;
    Ok(Some(post))
}

fn next_under_lock<R: Ledger, Q: Ledger, W: Wait>(
    rt: &W,
    alloc: Global,
    desk: &Desk<R, Q>,
    kept: &mut NodeState<R>,
    pass: &mut Pass<Q>,
    dest: &Name,
) -> Result<Option<Post>, NoMemory>
    ensures next { IfOk result (IsNextPost (at_desk desk.now).me dest.now) }
    ensures makes { MakesNext (at_desk desk.now).me dest.now result pass.old.notes pass.new.notes pass.old.receipts.items pass.new.receipts.items }
    ensures keeps { Keeps pass.old.notes pass.new.notes pass.old.receipts.items pass.new.receipts.items }
{
    let to = dest.copied(alloc)?;
    let done = ask_under_lock(
        rt,
        alloc,
        desk,
        kept,
        pass,
        NodeEvent::NextPost { dest: to },
    )?;
    match done {
        NodeDone::NextPost(next) => match next {
            Some(name) => next_written(rt, alloc, desk, kept, pass, name, dest),
            None => Ok(None),
        },
        _ => unreachable!(),
    }
}

// Which post goes to the peer next, and how it reads, in one hold of the lock.
fn next_post<R: Ledger, Q: Ledger, W: Wait>(
    rt: &W,
    alloc: Global,
    desk: &Desk<R, Q>,
    pass: &mut Pass<Q>,
    dest: &Name,
) -> Result<Option<Post>, NoMemory>
    ensures next { IfOk result (IsNextPost (at_desk desk.now).me dest.now) }
    ensures makes { MakesNext (at_desk desk.now).me dest.now result pass.old.notes pass.new.notes pass.old.receipts.items pass.new.receipts.items }
    ensures keeps { Keeps pass.old.notes pass.new.notes pass.old.receipts.items pass.new.receipts.items }
{
    let mut state = desk.node.state.lock(rt);
    next_under_lock(rt, alloc, desk, &mut *state, pass, dest)
}

// ---- what is made of it

// The service is told what came back of the post.
fn tell<R: Ledger, Q: Ledger, W: Wait>(
    rt: &W,
    alloc: Global,
    desk: &Desk<R, Q>,
    pass: &mut Pass<Q>,
    post: Post,
    reply: PostReply,
) -> Result<Result<Posted, PostRefused>, NoMemory>
    ensures made { IfOk result (λ answer. Made (at_desk desk.now).me pass.old.notes pass.new.notes pass.old.receipts.items pass.new.receipts.items (events.Posted post reply) (done.Posted answer)) }
    ensures err { OnErr result (IsUntouched pass.old.notes pass.new.notes pass.old.receipts.items pass.new.receipts.items) }
    ensures keeps { Keeps pass.old.notes pass.new.notes pass.old.receipts.items pass.new.receipts.items }
{
    match ask(rt, alloc, desk, pass, NodeEvent::Posted { post, reply })? {
        NodeDone::Posted(posted) => Ok(posted),
        _ => unreachable!(),
    }
}

fn outcome(told: Result<Result<Posted, PostRefused>, NoMemory>) -> PostedOne
    ensures { result ≡ outcome told }
{
    match told {
        Ok(Ok(became)) => PostedOne::Posted(became),
        Ok(Err(PostRefused::Foreign)) => PostedOne::Foreign,
        Ok(Err(PostRefused::NoMemory)) | Err(_) => PostedOne::NoMemory,
    }
}

// The post that goes next is sent, and the service told what came back of it.
fn post_it<R: Ledger, Q: Ledger, W: Wait, L: Link>(
    rt: &W,
    alloc: Global,
    desk: &Desk<R, Q>,
    pass: &mut Pass<Q>,
    dest: &Name,
    post: Post,
    link: &mut L,
) -> PostedOne
    requires next { IsNextPost (at_desk desk.now).me dest.now (Some post) }
    ensures turn { EndsTurn (at_desk desk.now) dest.now post pass.old.notes pass.new.notes pass.old.receipts.items pass.new.receipts.items (L.exchanges link.old) (L.exchanges link.new) result }
    ensures keeps { Keeps pass.old.notes pass.new.notes pass.old.receipts.items pass.new.receipts.items }
    ensures counted { (L.exchanges link.old).faults ≤ (L.exchanges link.new).faults }
{
    match post_to(alloc, &desk.place(), dest, &post, link) {
        Ok(Some(reply)) => outcome(tell(rt, alloc, desk, pass, post, reply)),
        Ok(None) => PostedOne::Unread,
        Err(_) => PostedOne::NoMemory,
    }
}

/// One turn for one peer: the post that goes there next is written, in one hold of the lock; then it is sent, without the
/// lock; and then the service is told what came back. These are the turn's events, and it makes no other: which post goes next,
/// its text, and what came back of it. What is sent is the message as the service wrote it in that hold, and what is told of it
/// is what came back in that exchange. A peer that the desk doesn't know, and a service that isn't set up as the desk says, are
/// answered as memory that lacks. The pass has no notes of an earlier turn, so what its notes show afterwards is of this one. It
/// may wait.
pub fn post_one<R: Ledger, Q: Ledger, W: Wait, L: Link>(
    rt: &W,
    alloc: Global,
    desk: &Desk<R, Q>,
    pass: &mut Pass<Q>,
    dest: &Name,
    link: &mut L,
) -> PostedOne
    requires fresh { (pass.old.notes.posting ≡ None) × (pass.old.notes.turn ≡ None) }
    ensures turn { IsTurn (at_desk desk.now) dest.now pass.old.notes pass.new.notes pass.old.receipts.items pass.new.receipts.items (L.exchanges link.old) (L.exchanges link.new) result }
    ensures keeps { Keeps pass.old.notes pass.new.notes pass.old.receipts.items pass.new.receipts.items }
    ensures counted { (L.exchanges link.old).faults ≤ (L.exchanges link.new).faults }
{
    match next_post(rt, alloc, desk, pass, dest) {
        Ok(Some(post)) => post_it(rt, alloc, desk, pass, dest, post, link),
        Ok(None) => PostedOne::Nothing,
        Err(_) => PostedOne::NoMemory,
    }
}
