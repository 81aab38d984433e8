//! Worlds: which services there are, and how each is set up. A world is read from a file, or comes with the program.
#![tactic(auto)]

mod field;
mod fields;
mod members;
mod programs;
mod refused;
mod setup;
mod standard;
mod world;

pub use field::Field;
pub use fields::MOST_WEIGHT;
pub use refused::WorldRefused;
pub use setup::Setup;
pub use standard::built_in;
pub use world::{MOST_SERVICES, read_world};
