//! The tokens of a program, read: the routes that they are, or the first token with which none go on.
//!
//! `specs/Readers.antt` has one definition for each form of the language, and `specs/Reading.antt` the laws of any reader, which
//! those put together of others have where these have them. What is read has the forms that a program's parts must have, and
//! nests as deep as it may.
#![tactic(auto)]

mod exprs;
mod joins;
mod marks;
mod pieces;
mod program;
mod stmts;
mod stop;

pub use program::routes;
pub use stop::{Cause, ReadFailed, Stop};
