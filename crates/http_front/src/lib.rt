//! HTTP messages as bytes: heads and bodies read from a source, and written. Bytes spell one answer at most, and the bytes
//! that are written for a message spell it.
#![tactic(auto)]

mod ends;
mod fields;
mod header;
mod length;
mod lines;
mod message;
mod read;
mod reading;
mod request_head;
mod response_head;
mod texts;
mod write;

pub use header::{AIRE_HEADERS, AireHeader};
pub use length::LONGEST_BODY;
pub use message::{FrontRefused, WireRequest, WireResponse, WriteRefused};
pub use read::{read_request, read_response};
pub use reading::LONGEST_HEAD;
pub use request_head::MOST_FIELDS;
pub use texts::is_text;
pub use write::{request_bytes, response_bytes, write_request, write_response};
