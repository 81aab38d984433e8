//! A list of numbers that is kept in blocks of some hundred, so that a number that is put between others moves
//! those of its block alone, however long the list is.
#![tactic(auto)]

mod block;
mod blocks;
mod parts;

pub use block::Block;
pub use blocks::Blocks;
