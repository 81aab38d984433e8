//! A world of services: the services, the packets between them, and what they are given from outside.
//!
//! An event finds its service, makes room for a packet, and calls the service: what that answers is what happened, and the
//! packet that is written of it. All that a packet needs is copied before the service changes, so that nothing fails once
//! it has, and an event that lacks memory changes nothing.
#![tactic(auto)]

mod backs;
mod deliveries;
mod environment;
mod events;
mod losses;
mod messages;
mod orders;
mod packets;
mod parts;
mod requests;
mod served;
mod world;

pub use service_core::Service;
pub use world::{World, world_step};
pub use world_events::{Event, Happened, Live, Outcome, Packet, What, WorldStepRefused};
