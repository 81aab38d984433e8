//! A log's entries by what they read and wrote: the rows before each entry (`EntryRows`), read without a walk over the
//! entries before, and which entries are marked, as those that may have to run again (`EntryMarks`), found by where their reads
//! looked.
//!
//! The entries stand in orders of labels, which this crate keeps to itself: callers name them by their places.
#![tactic(auto)]

mod behind;
mod labels;
mod marks;
mod numbers;
mod places;
mod rows;

pub use marks::EntryMarks;
pub use rows::EntryRows;
