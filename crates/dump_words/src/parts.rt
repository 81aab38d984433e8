// The parts of a line.
ghost use Rattle.std.specs.Prelude.{◌≡◌, ◌≤◌, ◌==◌, IfOk, IfSome, Some, map};
ghost use Rattle.std.specs.List.{list_all, slice_split};
ghost use Rattle.std.specs.Option.{option_map};
ghost use Rattle.lang_core.specs.Names.{is_name};
ghost use Rattle.request_names.specs.Numbers.{number_of};
ghost use Rattle.dump_words.specs.Parts.{alone, body_behind, call_origin, flag_part, from_one, in_u16, key_part, moment_of, names_part, origin_part, table_part, text_behind, where_good, within};

use crate::escapes::unescaped;
use lang_core::{LAST_MOMENT, LONGEST_TEXT, Names, NoMemory, Origin, Text, is_word};
use request_names::{cut_word, id_of, name_part, read_number};
use std::alloc::{AllocError, Global};

/// The most bytes of a key.
const LONGEST_KEY: u64 = 256;

/// A word alone.
pub(crate) fn alone(rest: Option<&str>) -> Option<&str>
    ensures { option_map (λ x. x.now) result ≡ alone (option_map (λ x. x.now) rest.entry) }
{
    let (word, rest) = cut_word(rest?);
    match rest {
        None => Some(word),
        Some(_) => None,
    }
}

/// A table, if the word may name one.
pub(crate) fn table_part(alloc: Global, word: &str) -> Result<Option<Text>, NoMemory>
    ensures { IfOk result (λ table. table ≡ table_part word.now) }
{
    let table = Text::of(alloc, word)?;
    if !is_word(&table) {
        return Ok(None);
    }
    Ok(Some(table))
}

fn pieces_of(alloc: Global, word: &str) -> Result<Vec<&str>, AllocError>
    ensures { IfOk result (λ pieces. map (λ x. x.now) pieces.items ≡ slice_split (λ b. b == 44) word.now) }
{
    word.split(',').collect(alloc)
}

fn names_of(alloc: Global, pieces: &[&str]) -> Result<Option<Names>, NoMemory>
    ensures { IfOk result (λ names. names ≡ where_good (list_all is_name (map (λ x. x.now) pieces.now)) (Some (map (λ x. x.now) pieces.now))) }
{
    let mut names = Names::new(alloc);
    for piece in pieces {
        let Some(name) = name_part(alloc, piece)? else {
            return Ok(None);
        };
        names.push(name)?;
    }
    Ok(Some(names))
}

/// Names with commas between them, none where the word is `-`; if the word is so.
pub(crate) fn names_part(alloc: Global, word: &str) -> Result<Option<Names>, NoMemory>
    ensures { IfOk result (λ names. names ≡ names_part word.now) }
{
    if word == "-" {
        return Ok(Some(Names::new(alloc)));
    }
    let pieces = pieces_of(alloc, word)?;
    names_of(alloc, &pieces)
}

/// 1 for yes and 0 for no.
pub(crate) fn flag_part(word: &str) -> Option<bool>
    ensures { result ≡ flag_part word.now }
{
    match word {
        "1" => Some(true),
        "0" => Some(false),
        _ => None,
    }
}

/// A number from 1, if the word is one.
pub(crate) fn positive_part(word: &str) -> Option<u64>
    ensures { result ≡ from_one (number_of word.now) }
{
    match read_number(word) {
        None | Some(0) => None,
        Some(number) => Some(number),
    }
}

/// A number of 16 bits, if the word is one.
pub(crate) fn status_part(word: &str) -> Option<u16>
    ensures { result ≡ in_u16 (number_of word.now) }
{
    let number = read_number(word)?;
    if number > u16::MAX as u64 {
        return None;
    }
    Some(number as u16)
}

/// A moment that a clock may tell, if the word is one.
pub(crate) fn moment_part(word: &str) -> Option<u64>
    ensures moment { result ≡ moment_of (number_of word.now) }
    ensures in_range { IfSome result (λ moment. moment ≤ 9223372036854775807) }
{
    let number = read_number(word)?;
    if number > LAST_MOMENT {
        return None;
    }
    Some(number)
}

/// `out`, or the name of a call, if the word is one of these.
pub(crate) fn origin_part(alloc: Global, word: &str) -> Result<Option<Origin>, NoMemory>
    ensures { IfOk result (λ origin. origin ≡ origin_part word.now) }
{
    if word == "out" {
        return Ok(Some(Origin::Outside));
    }
    let Some((caller, number)) = id_of(word) else {
        return Ok(None);
    };
    match name_part(alloc, caller)? {
        Some(caller) => Ok(Some(Origin::Call { caller, number })),
        None => Ok(None),
    }
}

fn within(least: u64, most: u64, text: Option<Text>) -> Option<Text>
    ensures { result ≡ within least most text }
{
    match text {
        Some(text) => {
            if least <= text.len() && text.len() <= most {
                Some(text)
            } else {
                None
            }
        }
        None => None,
    }
}

/// A key of 1 to 256 bytes, if the word spells one.
pub(crate) fn key_part(alloc: Global, word: &str) -> Result<Option<Text>, NoMemory>
    ensures { IfOk result (λ key. key ≡ key_part word.now) }
{
    let key = unescaped(alloc, true, word)?;
    Ok(within(1, LONGEST_KEY, key))
}

/// The text at a line's end, if there is one of its form; an empty one leaves out the space before it.
pub(crate) fn text_behind(alloc: Global, rest: Option<&str>) -> Result<Option<Text>, NoMemory>
    ensures { IfOk result (λ text. text ≡ text_behind (option_map (λ x. x.now) rest.entry)) }
{
    match rest {
        None => Ok(Some(Text::of(alloc, "")?)),
        Some(text) => {
            if text.is_empty() {
                return Ok(None);
            }
            unescaped(alloc, false, text)
        }
    }
}

/// The same of at most 65,536 bytes.
pub(crate) fn body_behind(alloc: Global, rest: Option<&str>) -> Result<Option<Text>, NoMemory>
    ensures { IfOk result (λ body. body ≡ body_behind (option_map (λ x. x.now) rest.entry)) }
{
    let body = text_behind(alloc, rest)?;
    Ok(within(0, LONGEST_TEXT, body))
}
