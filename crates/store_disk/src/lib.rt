//! A store's file over a `Disk`: it is read line by line, in pieces, then made ready, and then lines are appended batch by batch, each with one write
//! and one sync. Whatever a crash leaves has all lines that were safe, and says so.
#![tactic(auto)]

mod ahead;
mod clearing;
mod fault;
mod pieces;
mod reader;
mod reading;
mod store;

pub use fault::Fault;
pub use reader::Reader;
pub use store::Store;
