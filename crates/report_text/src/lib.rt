//! Rows, logs, answers, notices and verdicts as texts, and bodies read from such texts.
#![tactic(auto)]

mod abouts;
mod entries;
mod escapes;
mod holds;
mod reading;
mod rows;
mod verdicts;

pub use abouts::push_about;
pub use entries::{log_text, push_asked, push_response};
pub use escapes::{push_body_behind, push_key};
pub use holds::notices_text;
pub use reading::unescaped;
pub use repair_queue::notices;
pub use rows::rows_text;
pub use verdicts::verdict_text;
