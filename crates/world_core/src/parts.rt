// What a world keeps, part by part, and what each event does with it.
ghost use Rattle.std.specs.Prelude.{◌≡◌, ◌<◌, ◌++◌, IfOk, Ok, OnOk, Some, length, option_and_then, option_to_list, position};
ghost use Rattle.world_agreement.specs.Partners.{has_name};
ghost use Rattle.world_events.specs.Ends.{IsThere};
ghost use Rattle.world_core.specs.Acting.{Finds, told};

use crate::environment::Environment;
use crate::packets::Packets;
use crate::served::Served;
use lang_core::{Copied, Name, NoMemory, Same};
use service_core::Service;
use std::alloc::Global;
use world_events::{Happened, WorldStepRefused};

/// What a world keeps: its services, all packets that were ever written, and what it is given from outside.
#[derive(Drop)]
pub(crate) struct Parts {
    pub services: Vec<Service>,
    pub packets: Packets,
    pub environment: Environment,
}

/// The place of the service of this name, if there is one.
pub(crate) fn place_of(services: &[Service], name: &Name) -> Option<usize>
    ensures { result ≡ position (has_name name.now) services.now }
{
    services
        .iter()
        .position(|service| service.setting().me.text().is(name.text()))
}

/// The place of the service of this name, once there is room for a packet more.
pub(crate) fn ready(
    services: &[Service],
    packets: &mut Packets,
    name: &Name,
) -> Result<usize, WorldStepRefused>
    ensures place { Finds (position (has_name name.now) services.now) result }
    ensures within { IfOk result (λ at. at < length services.now) }
    ensures list { packets.new.list ≡ packets.old.list }
    ensures room { OnOk result (0 < packets.new.spare) }
{
    let Some(at) = place_of(services, name) else {
        return Err(WorldStepRefused::NoService);
    };
    match packets.reserve() {
        Ok(()) => Ok(at),
        Err(_) => Err(WorldStepRefused::NoMemory),
    }
}

/// The place of the service `from`, where both are there.
pub(crate) fn place_beside(services: &[Service], from: &Name, to: &Name) -> Option<usize>
    ensures { result ≡ option_and_then (λ _. position (has_name from.now) services.now) (position (has_name to.now) services.now) }
{
    match place_of(services, to) {
        None => None,
        Some(_) => place_of(services, from),
    }
}

/// The place of the service of this name, which is there, and a copy of the name.
pub(crate) fn located(
    alloc: Global,
    services: &[Service],
    name: &Name,
) -> Result<(usize, Name), NoMemory>
    requires { IsThere services.now name.now }
    ensures place { IfOk result (λ found. position (has_name name.now) services.now ≡ Some found.0) }
    ensures within { IfOk result (λ found. found.0 < length services.now) }
    ensures name { IfOk result (λ found. found.1 ≡ name.now) }
{
    let at = place_of(services, name).unwrap();
    Ok((at, name.copied(alloc)?))
}

/// What happened at the service of this name, once the packet of it is written, for which there has to be room.
pub(crate) fn tell(packets: &mut Packets, name: Name, served: Served) -> Happened
    requires { 0 < packets.old.spare }
    ensures told { Ok result ≡ told name packets.old.list (Ok served) }
    ensures list { packets.new.list ≡ packets.old.list ++ option_to_list served.packet }
{
    Happened {
        service: Some(name),
        what: served.what,
        packet: packets.write(served.packet),
    }
}
