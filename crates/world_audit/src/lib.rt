//! The audit: whether services did what they say of one another, and whether anything of them is outstanding.
#![tactic(auto)]

mod conditions;
mod outstanding;
mod partners;
mod sought;
mod verdicts;

pub use journal_rows::{Outstanding, Verdict};
pub use verdicts::audit;
