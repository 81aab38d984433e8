//! Rows in which a table and a key are found without a walk, for those who run many requests one after the other.
#![tactic(auto)]

mod row_tree;
mod spot;

pub use row_tree::RowTree;
