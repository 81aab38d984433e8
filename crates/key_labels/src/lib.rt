//! Rows of labels, one for each key that was ever written or read: the labels of those that write it, or read it.
//! A row is found by its key's hash, or by halves in the order of table and key.
#![tactic(auto)]

mod hints;
mod key_rows;
mod labels;
mod prune;
mod rows;

pub use key_rows::KeyRows;
pub use labels::{Labelled, count_before, is_before, position_in, stands_there};
pub use place_order::Order;
pub use prune::{drop_before, prune_row};
pub use rows::{
    KeyLabels, copied_rows, drop_label, drop_label_in, find_row, insert_label, labels_at,
    labels_in, labels_near, make_row, put_label, settle_row,
};
