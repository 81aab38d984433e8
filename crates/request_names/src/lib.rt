//! Names of services, requests and calls, and numbers: read from texts, and printed. Words of a line, and what they may be.
#![tactic(auto)]

mod ids;
mod names;
mod numbers;
mod words;

pub use ids::{id_of, print_call_id, print_request_id, push_id, read_call_id, read_request_id};
pub use names::{NameRefused, read_name};
pub use numbers::read_number;
pub use words::{cut_word, name_part, path_part, who_part};
