// An event of settling, and what is told of it.
ghost use Rattle.std.specs.Prelude.{◌≡◌, ◌<◌, ◌^◌, false, All, IfOk, None, Ok, OnErr, length};
ghost use Rattle.service_events.specs.State.{Kept};
ghost use Rattle.world_agreement.specs.Partners.{NamesDiffer};
ghost use Rattle.world_events.specs.Sound.{AreFew};
ghost use Rattle.world_events.specs.Turns.{world_memory};
ghost use Rattle.world_settle.specs.Doing.{noted, told_of, Comes};

use crate::came::{Came, is_done, is_run};
use crate::tally::Tally;
use lang_core::NoMemory;
use std::alloc::Global;
use world_core::{Event, Happened, Service, World, WorldStepRefused, world_step};

// Each journal has fewer rows than a number of 64 bits counts.
fn counted(services: &[Service])
    ensures { All (λ (s : Kept). length s.journal < 2 ^ 64) services.now }
{
    for service in services {
        let _journal = service.journal();
    }
}

// So it is in a world, whose services have different names.
fn countable(world: &World)
    ensures few { AreFew world.now }
    ensures differ { NamesDiffer world.now.services }
{
    let services = world.services();
    counted(services);
}

// What is told of an event that happened, which is counted.
fn tell(happened: &Happened, tally: &mut Tally) -> Came
    ensures told { result ≡ told_of (Ok happened.now) }
    ensures tally { tally.new ≡ noted tally.old happened.now.what }
{
    let what = happened.what;
    tally.note(what);
    Came {
        ran: is_run(what),
        is_done: is_done(what),
        packet: happened.packet,
    }
}

fn is_memory(why: WorldStepRefused) -> bool
    ensures { result ≡ world_memory why }
{
    why == WorldStepRefused::NoMemory
}

// What is told of an event that didn't happen.
fn nothing() -> Came
    ensures { result ≡ record { ran = false; is_done = false; packet = None } }
{
    Came {
        ran: false,
        is_done: false,
        packet: None,
    }
}

/// An event happens and is counted. One that names what isn't there is told as one that came to nothing. For want of memory
/// nothing happens.
#[tactic(auto, using(crate::proofs::Telling::comes_ok, crate::proofs::Telling::comes_err))]
pub(crate) fn happen(
    alloc: Global,
    world: &mut World,
    event: Event,
    tally: &mut Tally,
) -> Result<Came, NoMemory>
    ensures comes { IfOk result (λ came. Comes world.old event tally.old tally.new came world.new) }
    ensures early { OnErr result (world.new ≡ world.old) }
{
    let answer = world_step(alloc, world, event);
    countable(world);
    match answer {
        Ok(happened) => Ok(tell(&happened, tally)),
        Err(why) => {
            if is_memory(why) {
                Err(NoMemory)
            } else {
                Ok(nothing())
            }
        }
    }
}
