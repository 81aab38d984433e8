// A world.
ghost use Rattle.std.specs.Prelude.{◌≡◌, option_map};
ghost use Rattle.lang_base.specs.Memory.{Unless, lacks};
ghost use Rattle.world_events.specs.Events.{turn};
ghost use Rattle.world_events.specs.Reach.{AnswersBy, ArePeered, missing};
ghost use Rattle.world_events.specs.Turns.{Turns, world_memory};
ghost use Rattle.world_events.specs.Worlds.{fresh_world};
ghost use Rattle.world_agreement.specs.Partners.{NamesDiffer, service_of};

use crate::environment::Environment;
use crate::events::happen;
use crate::packets::Packets;
use crate::parts::Parts;
use lang_core::{Name, Same};
use service_core::Service;
use std::alloc::Global;
use std::marker::Model;
use world_events::{Event, Happened, Packet, WorldStepRefused};

/// A world: its services, all packets that were ever written, and what it is given from outside. Its type keeps that names
/// differ, that the peers of each service are there, and so are the service that gets a packet and the one that began its
/// exchange.
pub struct World {
    parts: Parts,
}

impl Drop for World {
    fn drop(self) {
        let Self { parts: _ } = self;
    }
}

impl Model for World {
    ghost use Rattle.world_events.specs.Ends.{IsClosed};
    ghost use Rattle.world_events.specs.Worlds.{World, world_code};
    ghost use Rattle.world_core.specs.Acting.{seen};

    ghost Value = { World };

    ghost coded = { world_code };

    ghost view = { λ w. seen w.parts };

    ghost invariant = { λ w. IsClosed (seen w.parts) };
}

impl World {
    /// The world of these services: no packets, moment 0, the word 1 before the first, and no losses.
    pub fn new(alloc: Global, services: Vec<Service>) -> World
        requires differ { NamesDiffer services.items }
        requires peered { ArePeered services.items }
        ensures { result ≡ fresh_world services.items }
    {
        let parts = Parts {
            services,
            packets: Packets::new(alloc),
            environment: Environment::new(),
        };
        World { parts }
    }

    /// Its services, in order.
    pub fn services(&self) -> &[Service]
        ensures services { result.now ≡ self.now.services }
        ensures differ { NamesDiffer self.now.services }
    {
        &self.parts.services
    }

    /// Its services, for good.
    pub fn into_services(self) -> Vec<Service>
        ensures { result.items ≡ self.services }
    {
        let Self { parts } = self;
        parts.services
    }

    /// The service of this name, if there is one.
    pub fn service(&self, name: &Name) -> Option<&Service>
        ensures { option_map (λ s. s.now) result ≡ service_of name.now self.now.services }
    {
        self.parts
            .services
            .iter()
            .find(|service| service.setting().me.text().is(name.text()))
    }

    /// All packets that were ever written. They are numbered from 1 in this order.
    pub fn packets(&self) -> &[Packet]
        ensures { result.now ≡ self.now.packets }
    {
        self.parts.packets.as_slice()
    }
}

/// An event happens. It is refused exactly where it names a service, a packet or a flight that isn't there, or for want of
/// memory; then nothing changes.
pub fn world_step(
    alloc: Global,
    world: &mut World,
    event: Event,
) -> Result<Happened, WorldStepRefused>
    ensures turns { Turns (turn world.old event) world.old result world.new }
    ensures named { Unless (lacks world_memory result) (AnswersBy (missing world.old event) result) (Unit {0}) }
{
    happen(alloc, &mut world.parts, event)
}
