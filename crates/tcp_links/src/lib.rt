//! Doors and links over TCP: what a running program uses.
//!
//! They count their faults and tell no bytes and no exchanges. That what is read and written here
//! are the bytes on the wire is trusted, as the operating system is.
#![tactic(auto)]

mod clocked;
mod closing;
mod connecting;
mod connection;
mod deadline;
mod ears;
mod exchanges;
mod guests;
mod heads;
mod links;
mod stopping;

pub(crate) use connection::ClosingDoor;
pub use connection::TcpConnection;
pub use ears::{TcpDoor, TcpEar};
pub use exchanges::{exchange_over, read_up_to};
pub use links::TcpLink;
pub use stopping::StopSignal;
