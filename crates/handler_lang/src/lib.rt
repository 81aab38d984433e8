//! The handler language: a text is read as the program that it spells, or refused at the first byte that doesn't fit,
//! and what is printed of a program reads back to it.
#![tactic(auto)]

mod printing;
mod reading;
mod refused;

pub use lang_grammar::print_routes;
pub use lang_reader::{ReadFailed, routes};
pub use lang_tokens::lex;
pub use printing::print_program;
pub use reading::read_program;
pub use refused::ProgramRefused;
