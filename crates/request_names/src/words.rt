// The words of a line.
ghost use Rattle.std.specs.Prelude.{◌≡◌, IfOk};
ghost use Rattle.std.specs.Option.{option_map};
ghost use Rattle.request_names.specs.Words.{cut_at, name_part, path_part, who_part};

use lang_core::{Name, NoMemory, Text, is_path, is_who};
use std::alloc::Global;

/// The first word, and what stands behind one space, if there is one.
pub fn cut_word(text: &str) -> (&str, Option<&str>)
    ensures { (result.0.now, option_map (λ x. x.now) result.1) ≡ cut_at 32 text.now }
{
    match text.split_once(' ') {
        Some((word, rest)) => (word, Some(rest)),
        None => (text, None),
    }
}

/// A service's name, if the word is one.
pub fn name_part(alloc: Global, word: &str) -> Result<Option<Name>, NoMemory>
    ensures { IfOk result (λ name. name ≡ name_part word.now) }
{
    let text = Text::of(alloc, word)?;
    Ok(Name::new(text).ok())
}

/// A user or a token, if the word may be one.
pub fn who_part(alloc: Global, word: &str) -> Result<Option<Text>, NoMemory>
    ensures { IfOk result (λ who. who ≡ who_part word.now) }
{
    let who = Text::of(alloc, word)?;
    if !is_who(&who) {
        return Ok(None);
    }
    Ok(Some(who))
}

/// A path, if the word is one.
pub fn path_part(alloc: Global, word: &str) -> Result<Option<Text>, NoMemory>
    ensures { IfOk result (λ path. path ≡ path_part word.now) }
{
    let path = Text::of(alloc, word)?;
    if !is_path(&path) {
        return Ok(None);
    }
    Ok(Some(path))
}
