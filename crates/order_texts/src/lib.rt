//! The texts that operators give with orders: a program, or rules. Each is read before an order is made of it, so that a text
//! that is none never becomes an order.
#![tactic(auto)]

mod reading;
mod refused;
mod text_order;

pub use reading::{command_given, program_given};
pub use refused::{TextFault, line_refused, place_refused};
pub use text_order::TextOrder;
