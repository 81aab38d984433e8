// A text's tokens.
ghost use Rattle.std.specs.Prelude.{◌≡◌, [], ◌∷◌, ◌++◌, IfOk, OnOk, option_map};
ghost use Rattle.std.specs.Char.{is_ascii_digit};
ghost use Rattle.lang_tokens.specs.Lexing.{is_bad, is_word_part, lex, mark_at, next_token, number_in, places, plus_at, run, token_at, tokens, word_in};

use crate::numbers::{digits_len, number};
use crate::strings::string_token;
use crate::token::Token;
use crate::words::{is_word_part, past_gap, word, word_len};
use lang_base::{NoMemory, Seq};
use std::alloc::Global;

/// The tokens of a text, and for each the place of its first byte.
pub struct Lexed {
    pub tokens: Seq<Token>,
    pub places: Seq<u64>,
}

impl Drop for Lexed {
    fn drop(self) {
        let Self {
            tokens: _,
            places: _,
        } = self;
    }
}

fn plus(rest: &[u8]) -> (Token, &[u8])
    ensures { (result.0, result.1.now) ≡ plus_at rest.now }
{
    match rest {
        [b'+', after @ ..] => (Token::Join, after),
        _ => (Token::Plus, rest),
    }
}

#[tactic(auto, unfolding(crate::specs::Lexing::mark_at))]
fn mark(first: u8, rest: &[u8]) -> (Token, &[u8])
    ensures { (result.0, result.1.now) ≡ mark_at first rest.now }
{
    match first {
        b'{' => (Token::Open, rest),
        b'}' => (Token::Close, rest),
        b'(' => (Token::Left, rest),
        b')' => (Token::Right, rest),
        b',' => (Token::Comma, rest),
        b';' => (Token::Semicolon, rest),
        b'=' => (Token::Equals, rest),
        b'<' => (Token::Less, rest),
        b'+' => plus(rest),
        b'-' => (Token::Minus, rest),
        b'*' => (Token::Star, rest),
        _ => (Token::Stray, rest),
    }
}

#[tactic(auto, using(crate::proofs::GapLemmas::all_in_run), unfolding(crate::specs::Lexing::run))]
fn number_in(bytes: &[u8]) -> (Token, &[u8])
    ensures { (result.0, result.1.now) ≡ number_in (run is_ascii_digit bytes.now) }
{
    let (digits, rest) = bytes.split_at(digits_len(bytes));
    (number(digits), rest)
}

#[tactic(auto, using(crate::proofs::GapLemmas::all_in_run), unfolding(crate::specs::Lexing::run))]
fn word_in(alloc: Global, bytes: &[u8]) -> Result<(Token, &[u8]), NoMemory>
    ensures { IfOk result (λ x. (x.0, x.1.now) ≡ word_in (run is_word_part bytes.now)) }
{
    let (letters, rest) = bytes.split_at(word_len(bytes));
    Ok((word(alloc, letters)?, rest))
}

/// The token that stands in front, and what stands behind it; None at the end.
#[tactic(auto, unfolding(crate::specs::Lexing::token_at))]
fn next_token(alloc: Global, bytes: &[u8]) -> Result<Option<(Token, &[u8])>, NoMemory>
    ensures { IfOk result (λ o. option_map (λ x. (x.0, x.1.now)) o ≡ next_token bytes.now) }
{
    match bytes {
        [] => Ok(None),
        [first, rest @ ..] => {
            if first.is_ascii_digit() {
                Ok(Some(number_in(bytes)))
            } else if is_word_part(*first) {
                Ok(Some(word_in(alloc, bytes)?))
            } else if *first == b'"' {
                Ok(Some(string_token(alloc, rest)?))
            } else {
                Ok(Some(mark(*first, rest)))
            }
        }
    }
}

fn is_bad(token: &Token) -> bool
    ensures { result ≡ is_bad token.now }
{
    match token {
        Token::BadNumber | Token::BadString | Token::Stray => true,
        _ => false,
    }
}

// Puts one more token last, with its place.
fn note(found: &mut Lexed, at: u64, token: Token) -> Result<(), NoMemory>
    ensures tokens { OnOk result (found.new.tokens ≡ found.old.tokens ++ token ∷ []) }
    ensures places { OnOk result (found.new.places ≡ found.old.places ++ at ∷ []) }
{
    found.tokens.push(token)?;
    found.places.push(at)
}

/// The tokens of a text, the last of which alone may be none.
pub fn lex(alloc: Global, text: &[u8]) -> Result<Lexed, NoMemory>
    ensures tokens { IfOk result (λ found. found.tokens ≡ tokens (lex text.now)) }
    ensures places { IfOk result (λ found. found.places ≡ places (lex text.now)) }
{
    let mut found = Lexed {
        tokens: Seq::new(alloc),
        places: Seq::new(alloc),
    };
    let mut left = text;
    for _ in 0..text.len() {
        let rest = past_gap(left);
        let Some((token, after)) = next_token(alloc, rest)? else {
            return Ok(found);
        };
        let bad = is_bad(&token);
        let at = text.len().saturating_sub(rest.len());
        note(&mut found, at as u64, token)?;
        if bad {
            return Ok(found);
        }
        left = after;
    }
    Ok(found)
}
