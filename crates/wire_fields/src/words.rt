// The words of refusals.
ghost use Rattle.std.specs.Prelude.{◌≡◌, IfOk};
ghost use Rattle.std.specs.Option.{option_map};
ghost use Rattle.wire_fields.specs.Words.{cut_space, first_status, lone_status, numbered_status, refusal_of, refusal_status, refusal_text};

use crate::unread::UnreadWord;
use lang_core::{NoMemory, Text};
use repair_messages::RefusalWord;
use request_names::read_number;
use std::alloc::Global;

/// The status of a refusal whose word stands alone.
#[tactic(auto, unfolding(crate::specs::Words::lone_status))]
fn lone_status(word: &str) -> Option<u16>
    ensures { result ≡ lone_status word.now }
{
    match UnreadWord::named(word) {
        Some(word) => Some(word.status()),
        None => match RefusalWord::said(word) {
            Some(word) if !word.has_number() => Some(word.status()),
            _ => None,
        },
    }
}

/// The status of a refusal whose word has a number behind it.
#[tactic(auto, unfolding(crate::specs::Words::numbered_status))]
fn numbered_status(word: &str) -> Option<u16>
    ensures { result ≡ numbered_status word.now }
{
    match RefusalWord::said(word) {
        Some(word) if word.has_number() => Some(word.status()),
        _ => None,
    }
}

/// The status of a refusal; 500 where its word is none of the table.
pub fn refusal_status(word: &str) -> u16
    ensures { result ≡ refusal_status word.now }
{
    match lone_status(word) {
        Some(status) => status,
        None => match numbered_status(word) {
            Some(status) => status,
            None => 500,
        },
    }
}

/// A refusal's text: its word, and behind a space its number where the word has one.
pub fn refusal_text(alloc: Global, word: &str, number: u64) -> Result<Text, NoMemory>
    ensures { IfOk result (λ text. text ≡ refusal_text word.now number) }
{
    if numbered_status(word).is_some() {
        let text = format!(in alloc; "{word} {number}")?;
        Text::shared(text)
    } else {
        Text::of(alloc, word)
    }
}

fn cut_space(text: &str) -> Option<(&str, &str)>
    ensures { option_map (λ parts. (parts.0.now, parts.1.now)) result ≡ cut_space text.now }
{
    text.split_once(' ')
}

/// The word and the number that a refusal's text names; the number of a word that stands alone is 0.
pub fn refusal_of(text: &str) -> Option<(&str, u64)>
    ensures { option_map (λ refusal. (refusal.0.now, refusal.1)) result ≡ refusal_of text.now }
{
    let Some((word, digits)) = cut_space(text) else {
        return match lone_status(text) {
            Some(_) => Some((text, 0)),
            None => None,
        };
    };
    if numbered_status(word).is_none() {
        return None;
    }
    match read_number(digits) {
        Some(number) => Some((word, number)),
        None => None,
    }
}
