//! What a world of services means: the packets between them, and what each event makes of the world and answers.
//!
//! A network loses, repeats and delays: a packet that was written stays, and is delivered as often and as late as one
//! wants, or never. Each event is a function of the world. It never wants memory: code that meets it either does just
//! that, or wants memory and changes nothing.
#![tactic(auto)]

mod event;
mod happened;
mod packet;

pub use event::{Event, WorldStepRefused};
pub use happened::{Happened, Outcome, What, what_of};
pub use packet::{Live, Packet};
