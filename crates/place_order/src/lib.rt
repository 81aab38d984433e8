//! An order of labels: the places of two labels are compared by two look-ups, however many stand between them.
#![tactic(auto)]

mod order;
mod room;
mod tags;

pub use order::{MOST_LABELS, Order, OrderFull};
pub use room::OrderCall;
