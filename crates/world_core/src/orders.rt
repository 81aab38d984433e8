// What a service of a world does that no packet brings: a repair step, an order of its operator, a post that is written, a
// flight that is given up.
ghost use Rattle.std.specs.Prelude.{◌≡◌, IfOk};
ghost use Rattle.world_events.specs.Ends.{PostsTo};
ghost use Rattle.world_events.specs.Events.{order_served, next_post_served, repair_step_served};
ghost use Rattle.world_core.specs.Acting.{GivesUp, Serves, served};

use crate::served::{Served, unwritten};
use journal_rows::Command;
use lang_core::{Inputs, Name, NoMemory, Text};
use service_core::Service;
use service_events::OrderRefused;
use std::alloc::Global;
use world_events::{Packet, What};

/// The service makes a repair step.
pub(crate) fn repair_step(alloc: Global, service: &mut Service) -> Result<Served, NoMemory>
    ensures { Serves (repair_step_served service.old) service.old result service.new }
{
    let stepped = service.repair_step(alloc)?;
    Ok(unwritten(What::RepairStep(stepped)))
}

/// An operator gives the service an order.
pub(crate) fn order(
    alloc: Global,
    service: &mut Service,
    command: Command,
    token: Text,
    who: Text,
    inputs: Inputs,
) -> Result<Served, NoMemory>
    ensures { Serves (order_served command token who service.old inputs) service.old result service.new }
{
    match service.order(alloc, command, token, who, inputs) {
        Err(OrderRefused::NoMemory) => Err(NoMemory),
        ordered => Ok(unwritten(What::Order(ordered))),
    }
}

/// The oldest outstanding post to the service of this name is written, if there is one. It goes there.
pub(crate) fn next_post(alloc: Global, service: &Service, to: &Name) -> Result<Served, NoMemory>
    ensures served { IfOk result (λ m. served service.now m ≡ next_post_served to.now service.now) }
    ensures goes { PostsTo to.now service.now }
{
    match service.next_post(to) {
        None => Ok(unwritten(What::NextPost(None))),
        Some(name) => {
            let post = service.write_post(alloc, name)?;
            Ok(Served {
                what: What::NextPost(Some(name)),
                packet: Some(Packet::Post(post)),
            })
        }
    }
}

/// The service gives its flight of this number up, which takes no memory; None exactly where there is none, and then nothing
/// changes.
pub(crate) fn abandon(service: &mut Service, flight: u64) -> Option<Served>
    ensures { GivesUp flight service.old result service.new }
{
    if service.abandon(flight) {
        Some(unwritten(What::Abandon(true)))
    } else {
        None
    }
}
