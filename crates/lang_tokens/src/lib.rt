//! The tokens of the handler language: how a text is cut into them, and how they are written.
//!
//! A text is cut from the left. At each place the longest token that stands there is taken, behind blank space and
//! comments, and the place of its first byte is kept. What is no token, an ill-formed string or number or a byte that
//! begins none, is a token of a kind of its own, and the last.
#![tactic(auto)]

mod lexer;
mod numbers;
mod strings;
mod token;
mod words;
mod writing;

pub use lexer::{Lexed, lex};
pub use token::Token;
pub use writing::write_tokens;
