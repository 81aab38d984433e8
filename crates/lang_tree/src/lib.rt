//! The syntax tree of the handler language, and the forms that its parts have.
//!
//! Texts, bytes and lists, which stand below, are handed on to the crate above.
#![tactic(auto)]

mod expr;
mod forms;
mod method;
mod program;
mod shared;
mod stmt;

pub use expr::{Expr, Op};
pub use forms::{LONGEST_PATH, LONGEST_TEXT, LONGEST_WORD, is_literal, is_path, is_word};
pub use lang_base::{
    Bytes, Copied, FaultNote, NoMemory, Same, Seq, Text, ThinSeq, all_same, all_visible, both,
    copied_items,
};
pub use method::{Method, method_named, method_word};
pub use program::{MOST_DEPTH, MOST_SEGMENTS, Program, Route, Routes};
pub use shared::Shared;
pub use sqlite_items::{Boxed, Items};
pub use stmt::{Block, Stmt};
