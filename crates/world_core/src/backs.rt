// To whom the answer of a live request goes back.
ghost use Rattle.std.specs.Prelude.{◌≡◌, Some, None, IfOk};
ghost use Rattle.lang_core.specs.declared.ids.Origin.TheVariants.{Outside};
ghost use Rattle.service_events.specs.State.{me, flight_of};
ghost use Rattle.world_events.specs.Events.{answered_back, outcome_of, sent};
ghost use Rattle.world_events.specs.declared.packet.Packet.{Packet};
ghost use Rattle.world_core.specs.Backs.{answer_by, back_of, back_to, back_for};

use crate::packets::Packets;
use lang_base::both;
use lang_core::{Copied, Name, NoMemory, Origin};
use repair_messages::AnswerMessage;
use service_core::Service;
use service_events::Arrived;
use std::alloc::Global;
use world_events::{Live, Outcome, Packet};

/// The flight that sent a live call.
#[derive(Drop)]
pub(crate) struct Back {
    /// The caller.
    pub to: Name,
    /// The caller's flight.
    pub flight: u64,
    /// The call's number.
    pub number: u64,
}

/// What goes back to a flight, as a packet.
pub(crate) fn reply(back: Back, reply: Live) -> Packet
    ensures { result ≡ Packet.CallReply back.to back.flight back.number reply }
{
    Packet::CallReply {
        to: back.to,
        flight: back.flight,
        number: back.number,
        reply,
    }
}

fn answer_by(back: Option<Back>, answer: AnswerMessage) -> Option<Packet>
    ensures { result ≡ answer_by back answer }
{
    match back {
        None => None,
        Some(back) => Some(reply(back, Live::Answer(answer))),
    }
}

// An answer as a packet, where there is one and it goes back to somebody.
fn answered_back(back: Option<Back>, answer: Option<AnswerMessage>) -> Option<Packet>
    ensures { result ≡ answered_back (answer_by back) answer }
{
    answer_by(back, answer?)
}

/// What is told of a live request of the service of this name that went on, and what is sent of it: its next call, or its
/// answer, which goes back there.
pub(crate) fn went_on(from: Name, back: Option<Back>, arrived: Arrived) -> (Outcome, Option<Packet>)
    ensures told { result.0 ≡ outcome_of arrived }
    ensures sent { result.1 ≡ sent from (answer_by back) arrived }
{
    match arrived {
        Arrived::Done { index, id, answer } => {
            (Outcome::Done { index, id }, answered_back(back, answer))
        }
        Arrived::Call { flight, set } => (
            Outcome::Call { flight },
            Some(Packet::Call { from, flight, set }),
        ),
        Arrived::Known(answer) => {
            let told = Outcome::Known {
                id: answer.id,
                answer_version: answer.answer_version,
            };
            (told, answer_by(back, answer))
        }
    }
}

fn back_of(alloc: Global, packet: &Packet) -> Result<Option<Back>, NoMemory>
    ensures { IfOk result (λ back. back ≡ back_of packet.now) }
{
    match packet {
        Packet::Call { from, flight, set } => Ok(Some(Back {
            to: from.copied(alloc)?,
            flight: *flight,
            number: set.number,
        })),
        _ => Ok(None),
    }
}

fn back_among(
    alloc: Global,
    packets: &Packets,
    caller: &Name,
    number: u64,
) -> Result<Option<Back>, NoMemory>
    ensures { IfOk result (λ back. back ≡ back_to packets.now.list (Origin.Call caller.now number)) }
{
    match packets.find_call(caller, number) {
        None => Ok(None),
        Some(packet) => back_of(alloc, packet),
    }
}

fn back_to(alloc: Global, packets: &Packets, origin: &Origin) -> Result<Option<Back>, NoMemory>
    ensures { IfOk result (λ back. back ≡ back_to packets.now.list origin.now) }
{
    match origin {
        Origin::Outside => Ok(None),
        Origin::Call { caller, number } => back_among(alloc, packets, caller, *number),
    }
}

fn back_for(
    alloc: Global,
    packets: &Packets,
    service: &Service,
    flight: u64,
) -> Result<Option<Back>, NoMemory>
    ensures { IfOk result (λ back. back ≡ back_for packets.now.list (flight_of flight service.now)) }
{
    match service.flights().find(flight) {
        None => Ok(None),
        Some(flight) => back_to(alloc, packets, &flight.origin),
    }
}

/// The service's name, and to whom the answer of its flight of this number goes back.
pub(crate) fn ends_of(
    alloc: Global,
    packets: &Packets,
    service: &Service,
    flight: u64,
) -> Result<(Name, Option<Back>), NoMemory>
    ensures name { IfOk result (λ ends. ends.0 ≡ me service.now) }
    ensures back { IfOk result (λ ends. ends.1 ≡ back_for packets.now.list (flight_of flight service.now)) }
{
    let name = service.setting().me.copied(alloc);
    both(name, back_for(alloc, packets, service, flight))
}
