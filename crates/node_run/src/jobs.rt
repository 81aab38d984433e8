// The three kinds of worker.
ghost use Rattle.io_links.specs.Connections.{GivesNew, IsNew};
ghost use Rattle.io_links.specs.Exchanges.{Exchanges};
ghost use Rattle.node_workers.specs.Desks.{at_desk};
ghost use Rattle.node_run.specs.Repairing.{FoldsOrRests, RepairsAlone, RepairsOnce, StepsOnce};
ghost use Rattle.node_run.specs.Turns.{Turns};
ghost use Rattle.node_run.specs.Workers.{standing, PostsOrRests, ServesNext};

use crate::answering::{make_ready, serve};
use crate::drawing::Draw;
use crate::resting::{pause, rest_from_posts, rest_from_repair};
use crate::shared::{Shared, is_stopped};
use io_edge::Connection;
use io_links::{Accepted, Ear, Gate, Job, Link};
use lang_core::{Name, NoMemory};
use local_repair::Stepped;
use node_core::{NodeDone, NodeEvent, NodeState, Pass, event};
use node_workers::{
    Desk, FoldDue, PostedOne, RepairTurn, fold_due, fold_up_to, note_waiting, post_one,
};
use service_events::Posted;
use std::alloc::Global;
use std::sync::Wait;
use std::sync::ledger::Ledger;
use std::time::Clock;

/// Serves the connections to one service until its node is to stop.
#[derive(Drop)]
pub struct Requests<'a, R: Ledger, Q: Ledger, W, E: Ear, L: Link, D, G> {
    pub rt: &'a W,
    pub alloc: Global,
    pub shared: &'a Shared<'a, R, Q, E::Conn, D, G>,
    pub desk: &'a Desk<'a, R, Q>,
    pub ear: &'a E,
    pub link: L,
    pub pass: Pass<Q>,
}

// Serves the connection that has just come, if one did; whether the worker goes on.
fn serve_next<
    R: Ledger,
    Q: Ledger,
    W: Wait + Clock,
    C: Connection + Drop,
    L: Link,
    D: Draw,
    G: Gate,
>(
    rt: &W,
    alloc: Global,
    shared: &Shared<'_, R, Q, C, D, G>,
    desk: &Desk<'_, R, Q>,
    pass: &mut Pass<Q>,
    accepted: Accepted<C>,
    link: &mut L,
) -> bool
    requires new { GivesNew (λ conn. IsNew (C.Source.reads conn) (C.Sink.writes conn)) accepted }
    ensures turn { ServesNext (at_desk desk.now)
        (standing pass.old.notes pass.old.receipts.items (L.exchanges link.old))
        (standing pass.new.notes pass.new.receipts.items (L.exchanges link.new)) }
{
    match accepted {
        Accepted::Conn(conn) => serve(rt, alloc, shared, desk, pass, conn, link),
        Accepted::Nobody => true,
        Accepted::Failed => {
            pause(rt, desk.node);
            true
        }
    }
}

impl<
    'a,
    R: Ledger + Send + Sync,
    Q: Ledger + Send + Sync,
    W: Wait + Clock + Sync,
    E: Ear + Sync,
    L: Link + Send,
    D: Draw + Sync,
    G: Gate + Sync,
> Job for Requests<'a, R, Q, W, E, L, D, G> {
    type Out = Pass<Q>;

    fn run(self) -> Pass<Q>
        ensures turns { (link : Exchanges) × Turns (ServesNext (at_desk self.entry.desk.now))
            (standing self.entry.pass.notes self.entry.pass.receipts.items (L.exchanges self.entry.link))
            (standing result.notes result.receipts.items link) }
    {
        let Requests {
            rt,
            alloc,
            shared,
            desk,
            ear,
            mut link,
            mut pass,
        } = self;
        for _turn in rt.forever() {
            let accepted = ear.accept();
            let goes_on = serve_next(rt, alloc, shared, desk, &mut pass, accepted, &mut link);
            if !goes_on || is_stopped(rt, desk.node) {
                return pass;
            }
        }
        unreachable!()
    }
}

/// Repairs one service until its node is to stop, and folds its first entries, all but so many, where its setup says how many stay.
#[derive(Drop)]
pub struct Repairs<'a, R: Ledger, Q: Ledger, W, D> {
    pub rt: &'a W,
    pub alloc: Global,
    pub desk: &'a Desk<'a, R, Q>,
    /// Where inputs are drawn.
    pub drawing: &'a D,
    pub pass: Pass<Q>,
}

// Takes a repair step at a service under the lock.
fn step_under_lock<R: Ledger, Q: Ledger, W: Wait>(
    rt: &W,
    alloc: Global,
    desk: &Desk<'_, R, Q>,
    kept: &mut NodeState<R>,
    pass: &mut Pass<Q>,
) -> Result<Stepped, NoMemory>
    ensures steps { StepsOnce pass.old.notes pass.new.notes }
{
    match event(rt, alloc, desk.tally, kept, pass, NodeEvent::Step) {
        Ok(NodeDone::Step(stepped)) => stepped,
        Ok(_) => unreachable!(),
        Err(why) => Err(why),
    }
}

// Folds at a service under the lock, if a fold is due there.
fn fold_under_lock<R: Ledger, Q: Ledger, W: Wait, D: Draw>(
    rt: &W,
    alloc: Global,
    desk: &Desk<'_, R, Q>,
    drawing: &D,
    kept: &mut NodeState<R>,
    pass: &mut Pass<Q>,
) -> RepairTurn
    ensures { FoldsOrRests (at_desk desk.now).me pass.old.notes pass.new.notes }
{
    match fold_due(kept, desk.setup.keep) {
        FoldDue::Nothing => {
            note_waiting(kept, None);
            RepairTurn::Rests
        }
        FoldDue::Refused => RepairTurn::Rests,
        FoldDue::Waits(id) => {
            note_waiting(kept, Some(id));
            RepairTurn::Rests
        }
        FoldDue::UpTo(id) => fold_up_to(rt, alloc, desk, kept, pass, id, drawing.inputs(rt)),
    }
}

// Takes a repair step at a service under the lock, and folds where none is to be taken.
fn repair_under_lock<R: Ledger, Q: Ledger, W: Wait, D: Draw>(
    rt: &W,
    alloc: Global,
    desk: &Desk<'_, R, Q>,
    drawing: &D,
    kept: &mut NodeState<R>,
    pass: &mut Pass<Q>,
) -> RepairTurn
    ensures { RepairsOnce (at_desk desk.now).me pass.old.notes pass.new.notes }
{
    match step_under_lock(rt, alloc, desk, kept, pass) {
        Ok(Stepped::Idle) => fold_under_lock(rt, alloc, desk, drawing, kept, pass),
        Ok(Stepped::Ran { .. }) => RepairTurn::Ran,
        Err(_) => RepairTurn::Again,
    }
}

// Takes a repair step or folds, in one hold of the lock.
fn turn<R: Ledger, Q: Ledger, W: Wait, D: Draw>(
    rt: &W,
    alloc: Global,
    desk: &Desk<'_, R, Q>,
    drawing: &D,
    pass: &mut Pass<Q>,
) -> RepairTurn
    ensures repairs { RepairsOnce (at_desk desk.now).me pass.old.notes pass.new.notes }
{
    let mut state = desk.node.state.lock(rt);
    repair_under_lock(rt, alloc, desk, drawing, &mut *state, pass)
}

// Takes a turn, and rests where nothing is to be done.
fn repair<R: Ledger, Q: Ledger, W: Wait + Clock, D: Draw>(
    rt: &W,
    alloc: Global,
    desk: &Desk<'_, R, Q>,
    drawing: &D,
    pass: &mut Pass<Q>,
)
    ensures repairs { RepairsOnce (at_desk desk.now).me pass.old.notes pass.new.notes }
{
    match turn(rt, alloc, desk, drawing, pass) {
        RepairTurn::Ran => desk.node.work.notify_all(),
        RepairTurn::Rests => rest_from_repair(rt, desk.node, desk.setup.keep),
        RepairTurn::Again => pause(rt, desk.node),
    }
}

impl<
    'a,
    R: Ledger + Send + Sync,
    Q: Ledger + Send + Sync,
    W: Wait + Clock + Sync,
    D: Draw + Sync,
> Job for Repairs<'a, R, Q, W, D> {
    type Out = Pass<Q>;

    fn run(self) -> Pass<Q>
        ensures repairs { RepairsAlone (at_desk self.entry.desk.now).me self.entry.pass.notes result.notes }
    {
        let Repairs {
            rt,
            alloc,
            desk,
            drawing,
            mut pass,
        } = self;
        for _turn in rt.forever() {
            if is_stopped(rt, desk.node) {
                return pass;
            }
            repair(rt, alloc, desk, drawing, &mut pass);
        }
        unreachable!()
    }
}

/// Posts what one service owes to its peers until its node is to stop.
#[derive(Drop)]
pub struct Posts<'a, R: Ledger, Q: Ledger, W, L: Link> {
    pub rt: &'a W,
    pub alloc: Global,
    pub desk: &'a Desk<'a, R, Q>,
    pub link: L,
    pub pass: Pass<Q>,
}

// What came of a turn to each peer.
#[derive(Clone, Copy)]
struct Round {
    /// Some post came to its end.
    moved: bool,
    /// Some post is to be tried again.
    stuck: bool,
}

impl Round {
    // The same, with what came of one turn more.
    fn with(self, came: PostedOne) -> Round {
        match came {
            PostedOne::Nothing => self,
            PostedOne::Posted(
                Posted::Acked | Posted::Confirmed | Posted::Saw | Posted::Knew | Posted::Held,
            ) => Round {
                moved: true,
                stuck: self.stuck,
            },
            _ => Round {
                moved: self.moved,
                stuck: true,
            },
        }
    }
}

// Takes a turn to this peer, if the pass is ready for one.
fn post_to<R: Ledger, Q: Ledger, W: Wait, L: Link>(
    rt: &W,
    alloc: Global,
    desk: &Desk<'_, R, Q>,
    link: &mut L,
    pass: &mut Pass<Q>,
    peer: &Name,
) -> Option<PostedOne>
    ensures turn { PostsOrRests (at_desk desk.now)
        (standing pass.old.notes pass.old.receipts.items (L.exchanges link.old))
        (standing pass.new.notes pass.new.receipts.items (L.exchanges link.new)) }
{
    if make_ready(pass) {
        Some(post_one(rt, alloc, desk, pass, peer, link))
    } else {
        None
    }
}

// Takes a turn to each peer.
fn post_to_all<R: Ledger, Q: Ledger, W: Wait, L: Link>(
    rt: &W,
    alloc: Global,
    desk: &Desk<'_, R, Q>,
    link: &mut L,
    pass: &mut Pass<Q>,
) -> Round
    ensures turns { Turns (PostsOrRests (at_desk desk.now))
        (standing pass.old.notes pass.old.receipts.items (L.exchanges link.old))
        (standing pass.new.notes pass.new.receipts.items (L.exchanges link.new)) }
{
    let mut round = Round {
        moved: false,
        stuck: false,
    };
    for peer in desk.setup.setting.peers.as_slice() {
        if let Some(came) = post_to(rt, alloc, desk, link, pass, peer) {
            round = round.with(came);
        }
    }
    round
}

// Takes a turn to each peer, and rests where nothing is to be posted.
fn post<R: Ledger, Q: Ledger, W: Wait + Clock, L: Link>(
    rt: &W,
    alloc: Global,
    desk: &Desk<'_, R, Q>,
    link: &mut L,
    pass: &mut Pass<Q>,
)
    ensures turns { Turns (PostsOrRests (at_desk desk.now))
        (standing pass.old.notes pass.old.receipts.items (L.exchanges link.old))
        (standing pass.new.notes pass.new.receipts.items (L.exchanges link.new)) }
{
    let round = post_to_all(rt, alloc, desk, link, pass);
    if round.moved {
        desk.node.work.notify_all();
    } else if round.stuck {
        pause(rt, desk.node);
    } else {
        rest_from_posts(rt, desk.node, desk.setup.setting.peers.as_slice());
    }
}

impl<
    'a,
    R: Ledger + Send + Sync,
    Q: Ledger + Send + Sync,
    W: Wait + Clock + Sync,
    L: Link + Send,
> Job for Posts<'a, R, Q, W, L> {
    type Out = Pass<Q>;

    fn run(self) -> Pass<Q>
        ensures turns { (link : Exchanges) × Turns (PostsOrRests (at_desk self.entry.desk.now))
            (standing self.entry.pass.notes self.entry.pass.receipts.items (L.exchanges self.entry.link))
            (standing result.notes result.receipts.items link) }
    {
        let Posts {
            rt,
            alloc,
            desk,
            mut link,
            mut pass,
        } = self;
        for _turn in rt.forever() {
            if is_stopped(rt, desk.node) {
                return pass;
            }
            post(rt, alloc, desk, &mut link, &mut pass);
        }
        unreachable!()
    }
}
