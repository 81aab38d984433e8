// Blank space, comments and words.
ghost use Rattle.std.specs.Prelude.{◌≡◌, ◌≤◌, true, false, IfOk, length};
ghost use Rattle.std.specs.List.{prefix_len, list_all};
ghost use Rattle.lang_tokens.specs.Lexing.{is_blank, is_word_part, past_gap, quoted, quoted_or, word};

use crate::token::Token;
use lang_base::{NoMemory, Text};
use lang_tree::{LONGEST_WORD, Method};
use std::alloc::Global;

fn is_blank(byte: u8) -> bool
    ensures { result ≡ is_blank byte }
{
    byte == b' ' || byte == b'\t' || byte == b'\r' || byte == b'\n'
}

#[tactic(auto, unfolding(crate::specs::Lexing::is_word_part))]
pub(crate) fn is_word_part(byte: u8) -> bool
    ensures { result ≡ is_word_part byte }
{
    byte.is_ascii_alphanumeric() || byte == b'_'
}

/// What stands behind blank space and comments.
#[tactic(auto, using(crate::proofs::GapLemmas::gap_in_comment, crate::proofs::GapLemmas::gap_outside), unfolding(crate::specs::Lexing::past_gap))]
pub(crate) fn past_gap(bytes: &[u8]) -> &[u8]
    ensures { result.now ≡ past_gap false bytes.now }
{
    let mut within = false;
    for (i, byte) in bytes.iter().enumerate() {
        if within {
            within = *byte != b'\n';
        } else if *byte == b'#' {
            within = true;
        } else if !is_blank(*byte) {
            return &bytes[i..];
        }
    }
    &[]
}

/// How many word bytes stand in front.
pub(crate) fn word_len(bytes: &[u8]) -> usize
    ensures len { result ≡ prefix_len is_word_part bytes.now }
    ensures within { result ≤ length bytes.now }
{
    let mut len: usize = 0;
    for byte in bytes {
        if !is_word_part(*byte) {
            return len;
        }
        len += 1;
    }
    len
}

#[tactic(auto, unfolding(crate::specs::Lexing::quoted))]
fn quoted(letters: &str) -> Option<Token>
    ensures { result ≡ quoted letters.now }
{
    match letters {
        "route" => Some(Token::Route),
        "let" => Some(Token::Let),
        "get" => Some(Token::Get),
        "put" => Some(Token::Put),
        "drop" => Some(Token::Drop),
        "each" => Some(Token::Each),
        "in" => Some(Token::In),
        "if" => Some(Token::If),
        "else" => Some(Token::Else),
        "call" => Some(Token::Call),
        "now" => Some(Token::Now),
        "random" => Some(Token::Random),
        "reply" => Some(Token::Reply),
        "nothing" => Some(Token::Nothing),
        "body" => Some(Token::Body),
        "who" => Some(Token::Who),
        "path" => Some(Token::Path),
        "part" => Some(Token::Part),
        "number" => Some(Token::Number),
        "text" => Some(Token::AsText),
        "GET" => Some(Token::Method(Method::Get)),
        "PUT" => Some(Token::Method(Method::Put)),
        "POST" => Some(Token::Method(Method::Post)),
        "DELETE" => Some(Token::Method(Method::Delete)),
        _ => None,
    }
}

fn word_of(alloc: Global, letters: &str) -> Result<Token, NoMemory>
    ensures { IfOk result (λ token. token ≡ word letters.now) }
{
    match quoted(letters) {
        Some(token) => Ok(token),
        None => {
            if letters.len() as u64 > LONGEST_WORD {
                return Ok(Token::Stray);
            }
            Ok(Token::Word(Text::of(alloc, letters)?))
        }
    }
}

/// The token of a run of word bytes that doesn't begin with a digit.
#[tactic(auto, using(crate::proofs::TextLemmas::word_is_text))]
pub(crate) fn word(alloc: Global, bytes: &[u8]) -> Result<Token, NoMemory>
    requires { list_all is_word_part bytes.now ≡ true }
    ensures { IfOk result (λ token. token ≡ word bytes.now) }
{
    match str::from_utf8(bytes) {
        Ok(letters) => word_of(alloc, letters),
        Err(_) => Ok(Token::Stray),
    }
}
