//! The types that the whole program speaks of: names, requests, rows, traces, and the settings of services.
//!
//! What stands below, texts and lists and the syntax tree, is handed on, so that a crate above sees one crate.
#![tactic(auto)]

mod cells;
mod ids;
mod inputs;
mod place;
mod request;
mod setting;
mod shared_writes;
mod trace;
mod value;
mod writes;

pub use cells::{Cell, Cells, MOST_SCAN_BYTES, MOST_SCAN_CELLS, row_get, row_scan};
pub use ids::{CallId, LONGEST_NAME, Name, Names, Origin, RequestId, is_name, is_name_byte};
pub use inputs::{Inputs, LAST_MOMENT};
pub use lang_tree::{
    Block, Boxed, Bytes, Copied, Expr, FaultNote, Items, LONGEST_PATH, LONGEST_TEXT, LONGEST_WORD,
    MOST_DEPTH, MOST_SEGMENTS, Method, NoMemory, Op, Program, Route, Routes, Same, Seq, Shared,
    Stmt, Text, ThinSeq, all_visible, is_literal, is_path, is_word, method_named, method_word,
};
pub use place::{ByPlace, Placed, order_of, seek, seek_bytes};
pub use request::{Answers, LONGEST_WHO, Request, Response, is_who};
pub use setting::Setting;
pub use shared_writes::SharedWrites;
pub use trace::{CallMade, Calls, Read, Reads, Trace};
pub use value::Value;
pub use writes::{Write, Writes, apply_writes};
