// Packets that come to their receivers.
ghost use Rattle.std.specs.Prelude.{◌≡◌, ℕ, List, Some};
ghost use Rattle.world_events.specs.Ends.{IsClosed, post_receiver, receiver};
ghost use Rattle.world_events.specs.Events.{call_delivered, delivered, post_delivered, reply_delivered, sender, turn};
ghost use Rattle.world_events.specs.Turns.{Turns};
ghost use Rattle.world_events.specs.declared.event.Event.{Event};
ghost use Rattle.world_events.specs.declared.packet.Packet.{Packet};
ghost use Rattle.world_core.specs.Acting.{Acts, seen};
ghost use Rattle.world_core.specs.Environments.{Environment};

use crate::environment::Environment;
use crate::messages::{give, posted_reply, take, take_token};
use crate::packets::Packets;
use crate::parts::{Parts, located, tell};
use crate::requests::{arrive_as_call, call_answered, call_failed};
use crate::served::Served;
use call_registers::Why;
use lang_core::Name;
use repair_messages::{Post, SetMessage};
use service_core::Service;
use std::alloc::Global;
use world_events::{Happened, Live, Packet, WorldStepRefused};

/// The service that posted it.
pub(crate) fn sender(post: &Post) -> &Name
    ensures { result.now ≡ sender post.now }
{
    match post {
        Post::Set(set) => &set.caller,
        Post::Token(token) => &token.callee,
        Post::Fetch(fetch) => &fetch.caller,
    }
}

fn post_receiver(post: &Post) -> &Name
    ensures { result.now ≡ post_receiver post.now }
{
    match post {
        Post::Set(set) => &set.dest,
        Post::Token(token) => &token.caller,
        Post::Fetch(fetch) => &fetch.callee,
    }
}

// The service that gets it.
fn receiver(packet: &Packet) -> &Name
    ensures { result.now ≡ receiver packet.now }
{
    match packet {
        Packet::Call { set, .. } => &set.dest,
        Packet::CallReply { to, .. } => to,
        Packet::Post(post) => post_receiver(post),
        Packet::PostReply { post, .. } => sender(post),
    }
}

// A live call comes to this service. One that asks nothing is no packet.
fn deliver_call(
    alloc: Global,
    service: &mut Service,
    environment: &mut Environment,
    number: u64,
    flight: u64,
    set: &SetMessage,
) -> Result<Served, WorldStepRefused>
    ensures { (packets : List Packet)
        → Acts (λ w. call_delivered w number flight set.now set.now.desired) set.now.dest packets service.old environment.old result service.new environment.new }
{
    let Some(request) = &set.desired else {
        return Err(WorldStepRefused::NoPacket(number));
    };
    let drawn = environment.draw();
    let served = arrive_as_call(alloc, service, flight, set, request, drawn.inputs)?;
    environment.use_up(drawn);
    Ok(served)
}

// What comes back of a live call comes to its flight.
fn deliver_reply(
    alloc: Global,
    service: &mut Service,
    packets: &Packets,
    flight: u64,
    number: u64,
    reply: &Live,
) -> Result<Served, WorldStepRefused>
    ensures { (name : List ℕ) (e : Environment)
        → Acts (λ w. reply_delivered w name flight number reply.now) name packets.now.list service.old e result service.new e }
{
    match reply {
        Live::Answer(answer) => {
            let served = call_answered(alloc, service, packets, flight, answer)?;
            Ok(served)
        }
        Live::Refused { word, number: n } => {
            let why = Why::Refused {
                word: *word,
                number: *n,
            };
            let served = call_failed(alloc, service, packets, flight, number, why)?;
            Ok(served)
        }
    }
}

// A message that was posted comes to this service.
fn deliver_post(
    alloc: Global,
    service: &mut Service,
    environment: &mut Environment,
    post: &Post,
) -> Result<Served, WorldStepRefused>
    ensures { (packets : List Packet)
        → Acts (λ w. post_delivered w post.now) (post_receiver post.now) packets service.old environment.old result service.new environment.new }
{
    match post {
        Post::Set(set) => {
            let drawn = environment.draw();
            let served = take(alloc, service, set, drawn.inputs)?;
            environment.use_up(drawn);
            Ok(served)
        }
        Post::Token(token) => {
            let served = take_token(alloc, service, token)?;
            Ok(served)
        }
        Post::Fetch(fetch) => {
            let served = give(alloc, service, fetch)?;
            Ok(served)
        }
    }
}

// The packet of this number, which is this one, comes to its receiver, which is this service.
fn deliver_to(
    alloc: Global,
    service: &mut Service,
    packets: &Packets,
    environment: &mut Environment,
    number: u64,
    packet: &Packet,
) -> Result<Served, WorldStepRefused>
    ensures { Acts (λ w. delivered w number (Some packet.now)) (receiver packet.now) packets.now.list service.old environment.old result service.new environment.new }
{
    match packet {
        Packet::Call { flight, set, .. } => {
            deliver_call(alloc, service, environment, number, *flight, set)
        }
        Packet::CallReply {
            flight,
            number,
            reply,
            ..
        } => deliver_reply(alloc, service, packets, *flight, *number, reply),
        Packet::Post(post) => deliver_post(alloc, service, environment, post),
        Packet::PostReply { post, reply } => {
            let served = posted_reply(alloc, service, post, reply)?;
            Ok(served)
        }
    }
}

/// The packet of this number comes to its receiver. It is lent to it.
pub(crate) fn deliver(
    alloc: Global,
    world: &mut Parts,
    number: u64,
) -> Result<Happened, WorldStepRefused>
    requires { IsClosed (seen world.old) }
    ensures { Turns (turn (seen world.old) (Event.Deliver number)) (seen world.old) result (seen world.new) }
{
    world.packets.reserve()?;
    let Some(packet) = world.packets.get(number) else {
        return Err(WorldStepRefused::NoPacket(number));
    };
    let (at, name) = located(alloc, &world.services, receiver(packet))?;
    let served = deliver_to(
        alloc,
        &mut world.services[at],
        &world.packets,
        &mut world.environment,
        number,
        packet,
    )?;
    Ok(tell(&mut world.packets, name, served))
}
