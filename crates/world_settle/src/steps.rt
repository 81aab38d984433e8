// A service steps until it is idle.
ghost use Rattle.std.specs.Prelude.{◌≡◌, IfOk, OnErr, OnOk};
ghost use Rattle.world_events.specs.Sound.{IsSound};
ghost use Rattle.world_events.specs.declared.event.Event.{Event};
ghost use Rattle.world_settle.specs.Doing.{Comes, Does, DoesFirst, IsAtRest};
ghost use Rattle.world_settle.specs.Settles.{entries_of, IsStepping};

use crate::came::Came;
use crate::happening::happen;
use crate::tally::Tally;
use lang_core::{Copied, Name, NoMemory};
use std::alloc::Global;
use world_core::{Event, World};

fn entries_of(world: &World, name: &Name) -> u64
    ensures { result ≡ entries_of name.now world.now }
{
    match world.service(name) {
        Some(service) => service.entries().len(),
        None => 0,
    }
}

// The service makes a repair step.
fn step(alloc: Global, world: &mut World, name: &Name, tally: &mut Tally) -> Result<Came, NoMemory>
    ensures comes { IfOk result (λ came. Comes world.old (Event.Step name.now) tally.old tally.new came world.new) }
    ensures early { OnErr result (world.new ≡ world.old) }
{
    let service = name.copied(alloc)?;
    happen(alloc, world, Event::Step { service }, tally)
}

/// The service makes repair steps until one is idle, at most as many as it has entries that aren't folded.
#[tactic(auto, using(crate::proofs::Parts::stepping_none, crate::proofs::Parts::stepping_on, crate::proofs::Parts::stepping_done, crate::proofs::Parts::stepping_first, crate::proofs::EventLemmas::on_err))]
pub(crate) fn step_until_idle(
    alloc: Global,
    world: &mut World,
    name: &Name,
    tally: &mut Tally,
) -> Result<(), NoMemory>
    ensures does { OnOk result (Does world.old (IsStepping name.now (entries_of name.now world.old)) tally.old tally.new world.new) }

    // In services that agree on what went between them it is idle then.
    ensures rests { OnOk result (IsSound world.old → IsAtRest name.now world.new) }
    ensures early { OnErr result (DoesFirst world.old (IsStepping name.now (entries_of name.now world.old)) world.new) }
{
    let mut left = entries_of(world, name);
    while left > 0 {
        let came = step(alloc, world, name, tally)?;
        left = if came.ran { left - 1 } else { 0 };
    }
    Ok(())
}
