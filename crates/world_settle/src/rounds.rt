// Rounds, until one has no work.
ghost use Rattle.std.specs.Prelude.{IfOk, OnErr};
ghost use Rattle.world_settle.specs.Doing.{DoesFirst, DoesRound, IsSettled, KeepsSound, Settles, SettlesFirst};
ghost use Rattle.world_settle.specs.Settles.{IsRound};

use crate::settled::Settled;
use crate::shares::round;
use crate::tally::{Tally, raised_if};
use lang_core::NoMemory;
use std::alloc::Global;
use world_core::World;

// Each service does its share; whether there was work.
#[tactic(auto, using(crate::proofs::Parts::round_works, crate::proofs::EventLemmas::on_err))]
fn work_round(alloc: Global, world: &mut World, tally: &mut Tally) -> Result<bool, NoMemory>
    ensures does { IfOk result (λ works. DoesRound world.old tally.old tally.new works world.new) }
    ensures early { OnErr result (DoesFirst world.old IsRound world.new) }
{
    tally.works = false;
    round(alloc, world, tally)?;
    Ok(tally.works)
}

/// Does at most this many rounds, each as long as the one before had work, and counts what had work, ran and was posted. In a
/// round each service in order steps until it is idle, at most as often as it has entries, and then exchanges its posts with
/// each other service in order, until there is none or one was left. For want of memory some first events of these happened,
/// and nothing is told.
#[tactic(auto, using(crate::proofs::Parts::rounding_none, crate::proofs::Parts::rounding_works))]
pub fn settle(alloc: Global, world: &mut World, rounds: u64) -> Result<Settled, NoMemory>
    ensures settles { IfOk result (λ counts. Settles world.old rounds counts world.new) }
    ensures early { OnErr result (SettlesFirst world.old rounds world.new) }

    // They come to an end, and there is one list of them and one count.
    ensures one { IsSettled world.old rounds }

    // Services that fit their journals and agree on what went between them do so still.
    ensures sound { KeepsSound world.old world.new }
{
    let mut tally = Tally::new();
    let mut with_work = 0;
    let mut left = rounds;
    while left > 0 {
        let works = work_round(alloc, world, &mut tally)?;
        with_work = raised_if(works, with_work);
        left = if works { left - 1 } else { 0 };
    }
    Ok(Settled {
        rounds: with_work,
        runs: tally.runs,
        posts: tally.posts,
    })
}
