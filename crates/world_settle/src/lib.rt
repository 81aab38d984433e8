//! How a world of services comes to rest: rounds in which each service steps until it is idle, and then exchanges its
//! posts with each of the others.
//!
//! Everything is done by events of the world, one behind another; what a round is stands in the words of those events.
#![tactic(auto)]

mod came;
mod exchanges;
mod happening;
mod rounds;
mod settled;
mod shares;
mod steps;
mod tally;

pub use rounds::settle;
pub use settled::Settled;
pub use shares::names_of;
pub use world_core::{Event, Happened, Service, What, World, WorldStepRefused, world_step};
