// Strings.
ghost use Rattle.std.specs.Prelude.{◌≡◌, ◌<◌, IfOk, IfSome, length, option_map};
ghost use Rattle.std.specs.Str.{is_utf8};
ghost use Rattle.lang_tokens.specs.Lexing.{unescaped, escape_at, character_at, string_from, string_token, text_if};

use crate::token::Token;
use lang_base::{NoMemory, Text};
use std::alloc::Global;

fn unescaped(byte: u8) -> Option<u8>
    ensures { result ≡ unescaped byte }
{
    match byte {
        b'n' => Some(b'\n'),
        b'"' | b'\\' => Some(byte),
        _ => None,
    }
}

fn escape(bytes: &[u8]) -> Option<(Option<u8>, &[u8])>
    ensures value { option_map (λ x. (x.0, x.1.now)) result ≡ escape_at bytes.now }
    ensures shorter { IfSome result (λ x. length x.1.now < length bytes.now) }
{
    match bytes {
        [] => None,
        [byte, rest @ ..] => match unescaped(*byte) {
            Some(byte) => Some((Some(byte), rest)),
            None => None,
        },
    }
}

/// One character of a string, or None for its end, and what stands behind.
#[tactic(auto, unfolding(crate::specs::Lexing::character_at))]
fn character(bytes: &[u8]) -> Option<(Option<u8>, &[u8])>
    ensures value { option_map (λ x. (x.0, x.1.now)) result ≡ character_at bytes.now }
    ensures shorter { IfSome result (λ x. length x.1.now < length bytes.now) }
{
    match bytes {
        [] => None,
        [byte, rest @ ..] => {
            if *byte == b'"' {
                Some((None, rest))
            } else if *byte == b'\\' {
                escape(rest)
            } else if *byte < 32 || *byte == 127 {
                None
            } else {
                Some((Some(*byte), rest))
            }
        }
    }
}

/// The text of a string behind its opening `"`, and what stands behind the closing one.
fn string(alloc: Global, bytes: &[u8]) -> Result<Option<(Vec<u8>, &[u8])>, NoMemory>
    ensures { IfOk result (λ o. option_map (λ x. (x.0.items, x.1.now)) o ≡ string_from bytes.now) }
{
    let mut text = Vec::new(alloc);
    let mut left = bytes;
    for _ in 0..bytes.len() {
        let Some((found, rest)) = character(left) else {
            return Ok(None);
        };
        let Some(byte) = found else {
            return Ok(Some((text, rest)));
        };
        text.push(byte)?;
        left = rest;
    }
    Ok(None)
}

/// The bytes as text, where they are UTF-8.
#[tactic(auto, using(crate::proofs::TextLemmas::utf8_true, crate::proofs::TextLemmas::utf8_false))]
fn text_of(alloc: Global, bytes: &[u8]) -> Result<Option<Text>, NoMemory>
    ensures { IfOk result (λ o. o ≡ text_if (is_utf8 bytes.now) bytes.now) }
{
    match str::from_utf8(bytes) {
        Ok(text) => Ok(Some(Text::of(alloc, text)?)),
        Err(_) => Ok(None),
    }
}

/// The token of a string whose opening `"` stands before these bytes, and what stands behind it.
pub(crate) fn string_token(alloc: Global, bytes: &[u8]) -> Result<(Token, &[u8]), NoMemory>
    ensures { IfOk result (λ x. (x.0, x.1.now) ≡ string_token (string_from bytes.now)) }
{
    let Some((text, rest)) = string(alloc, bytes)? else {
        return Ok((Token::BadString, &[]));
    };
    match text_of(alloc, &text)? {
        Some(text) => Ok((Token::Str(text), rest)),
        None => Ok((Token::BadString, &[])),
    }
}
