// Exchanges that fail.
ghost use Rattle.std.specs.Prelude.{◌≡◌, ℕ, List, Some};
ghost use Rattle.world_events.specs.Ends.{IsClosed, beginner};
ghost use Rattle.world_events.specs.Events.{call_lost, lost, post_lost, sender, turn};
ghost use Rattle.world_events.specs.Turns.{Turns};
ghost use Rattle.world_events.specs.declared.event.Event.{Event};
ghost use Rattle.world_events.specs.declared.packet.Packet.{Packet};
ghost use Rattle.world_core.specs.Acting.{Acts, seen};

use crate::deliveries::sender;
use crate::environment::Environment;
use crate::messages::posted;
use crate::packets::Packets;
use crate::parts::{Parts, located, tell};
use crate::requests::call_failed;
use crate::served::Served;
use call_registers::Why;
use lang_core::Name;
use repair_messages::Post;
use service_core::Service;
use service_events::PostReply;
use std::alloc::Global;
use world_events::{Happened, Packet, WorldStepRefused};

// The service that began the exchange.
fn beginner(packet: &Packet) -> &Name
    ensures { result.now ≡ beginner packet.now }
{
    match packet {
        Packet::Call { from, .. } => from,
        Packet::CallReply { to, .. } => to,
        Packet::Post(post) => sender(post),
        Packet::PostReply { post, .. } => sender(post),
    }
}

// The live call of this number, of this flight, failed.
fn lose_call(
    alloc: Global,
    service: &mut Service,
    packets: &Packets,
    environment: &mut Environment,
    flight: u64,
    number: u64,
) -> Result<Served, WorldStepRefused>
    ensures { (name : List ℕ)
        → Acts (λ w. call_lost w name flight number) name packets.now.list service.old environment.old result service.new environment.new }
{
    let note = environment.note();
    let served = call_failed(alloc, service, packets, flight, number, Why::Lost(note))?;
    environment.lose(note);
    Ok(served)
}

// The exchange of this post failed.
fn lose_post(
    alloc: Global,
    service: &mut Service,
    environment: &mut Environment,
    post: &Post,
) -> Result<Served, WorldStepRefused>
    ensures { (packets : List Packet)
        → Acts (λ w. post_lost w post.now) (sender post.now) packets service.old environment.old result service.new environment.new }
{
    let note = environment.note();
    let served = posted(alloc, service, post, PostReply::Lost(note))?;
    environment.lose(note);
    Ok(served)
}

// The exchange of this packet, which this service began, failed.
fn lose_at(
    alloc: Global,
    service: &mut Service,
    packets: &Packets,
    environment: &mut Environment,
    packet: &Packet,
) -> Result<Served, WorldStepRefused>
    ensures { (number : ℕ)
        → Acts (λ w. lost w number (Some packet.now)) (beginner packet.now) packets.now.list service.old environment.old result service.new environment.new }
{
    match packet {
        Packet::Call { flight, set, .. } => {
            lose_call(alloc, service, packets, environment, *flight, set.number)
        }
        Packet::CallReply { flight, number, .. } => {
            lose_call(alloc, service, packets, environment, *flight, *number)
        }
        Packet::Post(post) => lose_post(alloc, service, environment, post),
        Packet::PostReply { post, .. } => lose_post(alloc, service, environment, post),
    }
}

/// The service that began the exchange of the packet of this number learns that the exchange failed.
pub(crate) fn lose(
    alloc: Global,
    world: &mut Parts,
    number: u64,
) -> Result<Happened, WorldStepRefused>
    requires { IsClosed (seen world.old) }
    ensures { Turns (turn (seen world.old) (Event.Lose number)) (seen world.old) result (seen world.new) }
{
    world.packets.reserve()?;
    let Some(packet) = world.packets.get(number) else {
        return Err(WorldStepRefused::NoPacket(number));
    };
    let (at, name) = located(alloc, &world.services, beginner(packet))?;
    let served = lose_at(
        alloc,
        &mut world.services[at],
        &world.packets,
        &mut world.environment,
        packet,
    )?;
    Ok(tell(&mut world.packets, name, served))
}
