// Events that name their service.
ghost use Rattle.std.specs.Prelude.{◌≡◌, None};
ghost use Rattle.world_events.specs.Ends.{IsClosed, PostsWell};
ghost use Rattle.world_events.specs.Events.{turn};
ghost use Rattle.world_events.specs.Turns.{Turns};
ghost use Rattle.world_events.specs.declared.event.Event.{Event};
ghost use Rattle.world_events.specs.declared.happened.What.{What};
ghost use Rattle.world_core.specs.Acting.{seen};

use crate::deliveries::deliver;
use crate::losses::lose;
use crate::orders::{next_post, repair_step};
use crate::parts::{Parts, place_beside, ready, tell};
use crate::requests::arrive;
use journal_rows::Command;
use lang_core::{Name, Request, Text};
use std::alloc::Global;
use world_events::{Event, Happened, What, WorldStepRefused};

fn begin(
    alloc: Global,
    world: &mut Parts,
    service: Name,
    request: Request,
) -> Result<Happened, WorldStepRefused>
    ensures { Turns (turn (seen world.old) (Event.Begin service request)) (seen world.old) result (seen world.new) }
{
    let at = ready(&world.services, &mut world.packets, &service)?;
    let drawn = world.environment.draw();
    let served = arrive(alloc, &mut world.services[at], request, drawn.inputs)?;
    world.environment.use_up(drawn);
    Ok(tell(&mut world.packets, service, served))
}

fn order(
    alloc: Global,
    world: &mut Parts,
    service: Name,
    command: Command,
    token: Text,
    who: Text,
) -> Result<Happened, WorldStepRefused>
    ensures { Turns (turn (seen world.old) (Event.Order service command token who)) (seen world.old) result (seen world.new) }
{
    let at = ready(&world.services, &mut world.packets, &service)?;
    let drawn = world.environment.draw();
    let served = crate::orders::order(
        alloc,
        &mut world.services[at],
        command,
        token,
        who,
        drawn.inputs,
    )?;
    world.environment.use_up(drawn);
    Ok(tell(&mut world.packets, service, served))
}

fn step(alloc: Global, world: &mut Parts, service: Name) -> Result<Happened, WorldStepRefused>
    ensures { Turns (turn (seen world.old) (Event.Step service)) (seen world.old) result (seen world.new) }
{
    let at = ready(&world.services, &mut world.packets, &service)?;
    let served = repair_step(alloc, &mut world.services[at])?;
    Ok(tell(&mut world.packets, service, served))
}

fn abandon(world: &mut Parts, service: Name, flight: u64) -> Result<Happened, WorldStepRefused>
    ensures { Turns (turn (seen world.old) (Event.Abandon service flight)) (seen world.old) result (seen world.new) }
{
    let at = ready(&world.services, &mut world.packets, &service)?;
    match crate::orders::abandon(&mut world.services[at], flight) {
        None => Err(WorldStepRefused::NoFlight(flight)),
        Some(served) => Ok(tell(&mut world.packets, service, served)),
    }
}

// Both services are to be there.
fn post(
    alloc: Global,
    world: &mut Parts,
    from: Name,
    to: Name,
) -> Result<Happened, WorldStepRefused>
    ensures turns { Turns (turn (seen world.old) (Event.Post from to)) (seen world.old) result (seen world.new) }
    ensures well { PostsWell (seen world.old) (Event.Post from to) }
{
    let Some(at) = place_beside(&world.services, &from, &to) else {
        return Err(WorldStepRefused::NoService);
    };
    let served = next_post(alloc, &world.services[at], &to)?;
    world.packets.reserve()?;
    Ok(tell(&mut world.packets, from, served))
}

fn was_set() -> Happened
    ensures { result ≡ record { service = None; what = What.Set; packet = None } }
{
    Happened {
        service: None,
        what: What::Set,
        packet: None,
    }
}

// A moment later than the last is the last.
fn set_clock(world: &mut Parts, moment: u64) -> Result<Happened, WorldStepRefused>
    ensures { Turns (turn (seen world.old) (Event.Clock moment)) (seen world.old) result (seen world.new) }
{
    world.environment.set_moment(moment);
    Ok(was_set())
}

// Random words go on behind this number modulo 65,537.
fn set_seed(world: &mut Parts, n: u64) -> Result<Happened, WorldStepRefused>
    ensures { Turns (turn (seen world.old) (Event.Seed n)) (seen world.old) result (seen world.new) }
{
    world.environment.set_word(n);
    Ok(was_set())
}

/// An event happens, or is refused. For want of memory nothing changes.
pub(crate) fn happen(
    alloc: Global,
    world: &mut Parts,
    event: Event,
) -> Result<Happened, WorldStepRefused>
    requires { IsClosed (seen world.old) }
    ensures turns { Turns (turn (seen world.old) event) (seen world.old) result (seen world.new) }
    ensures well { PostsWell (seen world.old) event }
{
    match event {
        Event::Begin { service, request } => begin(alloc, world, service, request),
        Event::Deliver(number) => deliver(alloc, world, number),
        Event::Lose(number) => lose(alloc, world, number),
        Event::Post { from, to } => post(alloc, world, from, to),
        Event::Step { service } => step(alloc, world, service),
        Event::Abandon { service, flight } => abandon(world, service, flight),
        Event::Order {
            service,
            command,
            token,
            who,
        } => order(alloc, world, service, command, token, who),
        Event::Clock(moment) => set_clock(world, moment),
        Event::Seed(n) => set_seed(world, n),
    }
}
