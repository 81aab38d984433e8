//! The outside of running services as a program sees it: doors that connections come through,
//! links over which peers are called, and threads that jobs run in.
//!
//! A program takes a `Door`, a `Link`, a `Spawner` and a `Gate`, and never opens a socket or
//! starts a thread itself. Contracts speak of what a connection that comes has taken and written
//! so far, which is nothing, of the exchanges that a link made, wherever it tells them, and of
//! counts of faults always: a call is refused only where the object's count rises in it, or stands
//! at the greatest `u64`.
#![tactic(auto)]

mod doors;
mod failing;
mod gates;
mod jobs;
mod links;
mod memory;
mod memory_gate;
mod network;
mod prepared;
mod slices;
mod spawners;
mod times;
mod told;

pub use doors::{Accepted, Door, Ear};
pub use gates::{Gate, OpenGate};
pub use jobs::{Job, Spawner, Ticket};
pub use links::{Exchange, Exchanged, Link};
pub use memory::{MemoryCall, MemoryDoor, MemoryEar, MemoryLink};
pub use memory_gate::MemoryGate;
pub use network::{CallRefused, MemoryNetwork};
pub use prepared::PreparedLink;
pub use slices::SliceSource;
pub use spawners::{MemorySpawner, SystemSpawner};
pub use times::{PATIENCE, exchange_millis};
