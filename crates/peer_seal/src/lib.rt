//! Seals of messages: HMAC (RFC 2104) over SHA-256, spelled in lower-case hexadecimal digits.
//!
//! The key is the sender's secret, of any length. A key that is longer than SHA-256's block of 64
//! bytes is hashed first, and a shorter one is filled up with zeros.
#![tactic(auto)]

mod blocks;
mod sealing;

pub use sealing::{check, seal, seal_text};
