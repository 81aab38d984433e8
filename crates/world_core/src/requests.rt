// Live requests of a service, in its world.
ghost use Rattle.std.specs.Prelude.{◌≡◌, List, IfOk};
ghost use Rattle.service_events.specs.State.{me};
ghost use Rattle.world_events.specs.Events.{call_answered_served, arrive_served, call_arrive_served, call_failed_served};
ghost use Rattle.world_events.specs.declared.packet.Packet.{Packet};
ghost use Rattle.service_events.specs.Event.{IsFailure};
ghost use Rattle.world_core.specs.Acting.{Serves};

use crate::backs::{Back, ends_of, reply, went_on};
use crate::packets::Packets;
use crate::served::{Served, unwritten};
use call_registers::Why;
use lang_base::both;
use lang_core::{Copied, Inputs, Name, NoMemory, Origin, Request};
use repair_messages::{AnswerMessage, SetMessage, copied_pair};
use service_core::Service;
use service_events::{ArriveRefused, CallRefused};
use std::alloc::Global;
use world_events::{Live, What};

/// A request comes from outside. Whatever packets there are, its answer goes back to none of their senders.
pub(crate) fn arrive(
    alloc: Global,
    service: &mut Service,
    request: Request,
    inputs: Inputs,
) -> Result<Served, NoMemory>
    ensures { (packets : List Packet) → Serves (arrive_served packets request service.old inputs) service.old result service.new }
{
    let from = service.setting().me.copied(alloc)?;
    match service.arrive(alloc, Origin::Outside, request, inputs) {
        Ok(arrived) => {
            let (told, packet) = went_on(from, None, arrived);
            Ok(Served {
                what: What::Arrive(Ok(told)),
                packet,
            })
        }
        Err(ArriveRefused::NoMemory) => Err(NoMemory),
        Err(why) => Ok(unwritten(What::Arrive(Err(why)))),
    }
}

// The flight that sent a live call.
fn back_of(alloc: Global, flight: u64, set: &SetMessage) -> Result<Back, NoMemory>
    ensures { IfOk result (λ back. back ≡ record { to = set.now.caller; flight = flight; number = set.now.number }) }
{
    Ok(Back {
        to: set.caller.copied(alloc)?,
        flight,
        number: set.number,
    })
}

// What its arrival, and the packet that answers it, are made of: the service's name and the caller's, to whom the answer
// goes back, and what it asks.
fn call_copies(
    alloc: Global,
    service: &Service,
    flight: u64,
    set: &SetMessage,
    request: &Request,
) -> Result<((Name, Name), (Back, Request)), NoMemory>
    ensures from { IfOk result (λ copies. copies.0.0 ≡ me service.now) }
    ensures caller { IfOk result (λ copies. copies.0.1 ≡ set.now.caller) }
    ensures back { IfOk result (λ copies. copies.1.0 ≡ record { to = set.now.caller; flight = flight; number = set.now.number }) }
    ensures request { IfOk result (λ copies. copies.1.1 ≡ request.now) }
{
    let names = copied_pair(alloc, &service.setting().me, &set.caller);
    both(
        names,
        both(back_of(alloc, flight, set), request.copied(alloc)),
    )
}

/// A live call of another service's flight comes, which asks this.
pub(crate) fn arrive_as_call(
    alloc: Global,
    service: &mut Service,
    flight: u64,
    set: &SetMessage,
    request: &Request,
    inputs: Inputs,
) -> Result<Served, NoMemory>
    ensures { Serves (call_arrive_served flight set.now request.now service.old inputs) service.old result service.new }
{
    let ((from, caller), (back, request)) = call_copies(alloc, service, flight, set, request)?;
    let number = set.number;
    match service.arrive(alloc, Origin::Call { caller, number }, request, inputs) {
        Ok(arrived) => {
            let (told, packet) = went_on(from, Some(back), arrived);
            Ok(Served {
                what: What::Arrive(Ok(told)),
                packet,
            })
        }
        Err(ArriveRefused::NoMemory) => Err(NoMemory),
        Err(why) => Ok(Served {
            what: What::Arrive(Err(why)),
            packet: Some(reply(back, Live::refused(why))),
        }),
    }
}

/// The call for which a flight waits was answered. Where the flight is a call itself, these packets tell whose.
pub(crate) fn call_answered(
    alloc: Global,
    service: &mut Service,
    packets: &Packets,
    flight: u64,
    answer: &AnswerMessage,
) -> Result<Served, NoMemory>
    ensures { Serves (call_answered_served packets.now.list flight answer.now service.old) service.old result service.new }
{
    let (from, back) = ends_of(alloc, packets, service, flight)?;
    match service.call_answered(alloc, flight, answer) {
        Ok(arrived) => {
            let (told, packet) = went_on(from, back, arrived);
            Ok(Served {
                what: What::CallAnswered(Ok(told)),
                packet,
            })
        }
        Err(CallRefused::NoMemory) => Err(NoMemory),
        Err(why) => Ok(unwritten(What::CallAnswered(Err(why)))),
    }
}

/// The call of this number failed. Where its flight is a call itself, these packets tell whose.
pub(crate) fn call_failed(
    alloc: Global,
    service: &mut Service,
    packets: &Packets,
    flight: u64,
    number: u64,
    why: Why,
) -> Result<Served, NoMemory>
    requires { IsFailure why }
    ensures { Serves (call_failed_served packets.now.list flight number why service.old) service.old result service.new }
{
    let (from, back) = ends_of(alloc, packets, service, flight)?;
    match service.call_failed(alloc, flight, number, why) {
        Ok(arrived) => {
            let (told, packet) = went_on(from, back, arrived);
            Ok(Served {
                what: What::CallFailed(Ok(told)),
                packet,
            })
        }
        Err(CallRefused::NoMemory) => Err(NoMemory),
        Err(why) => Ok(unwritten(What::CallFailed(Err(why)))),
    }
}
