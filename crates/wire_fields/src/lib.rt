//! The header fields of messages between services: their forms, which of them a message has, heads made field by field, what
//! is sealed, the words of refusals, and the secrets of peers.
#![tactic(auto)]

mod console;
mod fits;
mod forms;
mod heads;
mod kinds;
mod named;
mod refused;
mod rows;
mod sealed;
mod secrets;
mod unread;
mod words;

pub use console::{ConsoleRequest, ConsoleWord, console_word};
pub use fits::{
    bad_unless, dest_refusal, first_of, name_of, number_in, service_in, side_refusal, version_at,
};
pub use forms::{has_form, kind_named};
pub use heads::{put_field, put_id, put_number, put_sides};
pub use kinds::{RequestKind, request_kind};
pub use named::{ByName, Named};
pub use refused::WireRefused;
pub use rows::{
    ACK_HEADERS, CALL_HEADERS, CONFIRM_HEADERS, CONSOLE_HEADERS, DESIRED_HEADERS, FETCH_HEADERS,
    LIVE_REPLY_HEADERS, NEIGHBOUR_HEADERS, REFUSAL_HEADERS, SEAL_HEADER, SET_HEADERS,
    TOKEN_HEADERS, first_refusal, text_at,
};
pub use sealed::{sealed_request, sealed_response};
pub use secrets::Secrets;
pub use unread::UnreadWord;
pub use words::{refusal_of, refusal_status, refusal_text};
