//! The grammar of the handler language: the one list of tokens that a program has, and the text that is printed of it.
//!
//! `specs/Grammar.antt` gives each form of the language its tokens. A text spells the program whose tokens it has.
#![tactic(auto)]

mod exprs;
mod program;
mod stmts;
mod text;

pub use program::tokens_of;
pub use text::print_routes;
