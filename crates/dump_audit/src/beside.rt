// Services replayed in groups, beside one another.
ghost use Rattle.std.specs.Prelude.{◌≡◌, ◌↔◌, ◌<◌, ◌≤◌, ◌*◌, ℕ, List, IfOk, length};
ghost use Rattle.execution.specs.Together.{IsLegalTogether};
ghost use Rattle.dump_tables.specs.declared.dump.DumpService.{DumpService};
ghost use Rattle.dump_audit.specs.Groups.{EachOutcome};
ghost use Rattle.dump_audit.specs.Histories.{histories_of};
ghost use Rattle.dump_audit.specs.Judging.{first_in, judged, replay_fault};
ghost use Rattle.dump_audit.specs.declared.judged.Judged.TheVariants.{Legal};

use crate::judged::Judged;
use crate::judging::{first_replay, judged_together};
use dump_tables::{Dump, DumpService};
use lang_core::NoMemory;
use std::alloc::Global;
use std::thread;
use std::thread::Threads;

/// The first fault of a group's replays, if they have one.
type Outcome = Result<Option<Judged>, NoMemory>;

// How many services a group has, so that there are no more groups than workers.
#[tactic(auto, using(crate::proofs::GroupLemmas::few_groups))]
fn group_size(services: usize, workers: u64) -> usize
    requires { 0 < workers }
    ensures some { 0 < result }
    ensures few { services ≤ workers * result }
{
    (services.saturating_sub(1) as u64 / workers) as usize + 1
}

// What each group comes to, in order.
fn group_outcomes<R: Threads + Sync>(
    rt: &R,
    alloc: Global,
    world: &[DumpService],
    size: usize,
) -> Result<Vec<Outcome>, NoMemory>
    requires { 0 < size }
    ensures each { IfOk result (λ outcomes. EachOutcome size world.now outcomes.items) }
    ensures all { IfOk result (λ outcomes. length world.now ≤ length outcomes.items * size) }
{
    let outcomes = thread::map_chunks(
        rt,
        alloc,
        world,
        size,
        &|_, group| first_replay(alloc, group),
    )?;
    Ok(outcomes)
}

// The first fault of all groups.
fn first_outcome(outcomes: Vec<Outcome>) -> Outcome
    ensures { (size : ℕ) (world : List DumpService) → EachOutcome size world outcomes.items → length world ≤ length outcomes.items * size
        → IfOk result (λ found. found ≡ first_in replay_fault world) }
{
    for outcome in outcomes {
        if let Some(found) = outcome? {
            return Ok(Some(found));
        }
    }
    Ok(None)
}

fn judged_beside<R: Threads + Sync>(
    rt: &R,
    alloc: Global,
    dump: &Dump,
    workers: u64,
) -> Result<Judged, NoMemory>
    requires { 0 < workers }
    ensures { IfOk result (λ found. found ≡ judged dump.now.services) }
{
    let world = dump.services.as_slice();
    let size = group_size(world.len(), workers);
    let outcomes = group_outcomes(rt, alloc, world, size)?;
    match first_outcome(outcomes)? {
        Some(found) => Ok(found),
        None => judged_together(alloc, &dump.services),
    }
}

/// What `judge` finds, where at most so many groups of services are replayed beside one another.
pub fn judge_beside<R: Threads + Sync>(
    rt: &R,
    alloc: Global,
    dump: &Dump,
    workers: u64,
) -> Result<Judged, NoMemory>
    requires { 0 < workers }
    // What one thread finds.
    ensures exact { IfOk result (λ found. found ≡ judged dump.now.services) }
    // Legal exactly where its histories are one legal execution.
    ensures legal { IfOk result (λ found. (found ≡ Legal) ↔ IsLegalTogether (histories_of dump.now.services)) }
{
    judged_beside(rt, alloc, dump, workers)
}
