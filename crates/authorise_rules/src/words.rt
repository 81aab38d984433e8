// The words of a rule.
ghost use Rattle.std.specs.Prelude.{◌≡◌, ◌++◌, IfOk, OnOk, string_bytes};
ghost use Rattle.std.specs.Option.{option_copied};
ghost use Rattle.authorise_rules.specs.Reading.{behind_is, kinds_named, path_named, senders_named, user_named, users_named, verb_named};
ghost use Rattle.authorise_rules.specs.Spelled.{kinds_word, senders_word, users_word, verb_word};

use crate::rule::{Kinds, Senders, Users, Verb};
use lang_core::{Name, NoMemory, Text, is_path, is_who};
use repair_messages::{Kind, kind_word};
use std::alloc::Global;

pub(crate) fn verb_named(word: &str) -> Option<Verb>
    ensures { result ≡ verb_named word.now }
{
    match word {
        "allow" => Some(Verb::Allow),
        "deny" => Some(Verb::Deny),
        _ => None,
    }
}

pub(crate) fn verb_word(verb: Verb) -> &'static str
    ensures { result.now ≡ verb_word verb }
{
    match verb {
        Verb::Allow => "allow",
        Verb::Deny => "deny",
    }
}

pub(crate) fn kinds_named(word: &str) -> Option<Kinds>
    ensures { result ≡ kinds_named word.now }
{
    match word {
        "any" => Some(Kinds::Any),
        "create" => Some(Kinds::Only(Kind::Create)),
        "replace" => Some(Kinds::Only(Kind::Replace)),
        "delete" => Some(Kinds::Only(Kind::Delete)),
        "replace_response" => Some(Kinds::Only(Kind::ReplaceResponse)),
        "retry" => Some(Kinds::Only(Kind::Retry)),
        "fold" => Some(Kinds::Only(Kind::Fold)),
        "deploy" => Some(Kinds::Only(Kind::Deploy)),
        "correct" => Some(Kinds::Only(Kind::Correct)),
        "rules" => Some(Kinds::Only(Kind::Rules)),
        _ => None,
    }
}

pub(crate) fn kinds_word(kinds: Kinds) -> &'static str
    ensures { result.now ≡ kinds_word kinds }
{
    match kinds {
        Kinds::Any => "any",
        Kinds::Only(kind) => kind_word(kind),
    }
}

pub(crate) fn senders_named(alloc: Global, word: &str) -> Result<Option<Senders>, NoMemory>
    ensures { IfOk result (λ senders. senders ≡ senders_named word.now) }
{
    match word {
        "any" => Ok(Some(Senders::Any)),
        "console" => Ok(Some(Senders::Console)),
        name => {
            let text = Text::of(alloc, name)?;
            match Name::new(text) {
                Ok(name) => Ok(Some(Senders::Only(name))),
                Err(_) => Ok(None),
            }
        }
    }
}

pub(crate) fn senders_word(senders: &Senders) -> &str
    ensures { result.now ≡ senders_word senders.now }
{
    match senders {
        Senders::Any => "any",
        Senders::Console => "console",
        Senders::Only(name) => name.as_str(),
    }
}

fn behind_is(word: &str) -> Option<&str>
    ensures { option_copied result ≡ behind_is word.now }
{
    word.strip_prefix("is:")
}

fn user_behind(alloc: Global, word: &str) -> Result<Option<Users>, NoMemory>
    ensures { IfOk result (λ users. users ≡ user_named (behind_is word.now)) }
{
    let Some(user) = behind_is(word) else {
        return Ok(None);
    };
    let user = Text::of(alloc, user)?;
    if !is_who(&user) {
        return Ok(None);
    }
    Ok(Some(Users::Only(user)))
}

pub(crate) fn users_named(alloc: Global, word: &str) -> Result<Option<Users>, NoMemory>
    ensures { IfOk result (λ users. users ≡ users_named word.now) }
{
    match word {
        "any" => Ok(Some(Users::Any)),
        "same" => Ok(Some(Users::Same)),
        user => user_behind(alloc, user),
    }
}

/// Puts the word for some users last in a text.
pub(crate) fn push_users(text: &mut String, users: &Users) -> Result<(), NoMemory>
    ensures { OnOk result (string_bytes text.new ≡ string_bytes text.old ++ users_word users.now) }
{
    match users {
        Users::Any => text.push_str("any")?,
        Users::Same => text.push_str("same")?,
        Users::Only(user) => {
            let user = user.as_str();
            write!(text, "is:{user}")?;
        }
    }
    Ok(())
}

pub(crate) fn path_named(alloc: Global, word: &str) -> Result<Option<Text>, NoMemory>
    ensures { IfOk result (λ path. path ≡ path_named word.now) }
{
    let path = Text::of(alloc, word)?;
    if !is_path(&path) {
        return Ok(None);
    }
    Ok(Some(path))
}
