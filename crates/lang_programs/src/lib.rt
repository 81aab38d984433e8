//! Programs that come to a service while it lives: the text that stands for one, the number that it has, the program that a
//! request runs under, and equality of trees.
#![tactic(auto)]

mod deployed;
mod exprs;
mod program_text;
mod stmts;
mod under;

pub use deployed::{Deployed, NumberedText};
pub use program_text::ProgramText;
pub use stmts::same_block;
pub use under::Under;
