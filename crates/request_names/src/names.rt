// Names of services.
ghost use Rattle.std.specs.Prelude.{◌≡◌, None, OnErr, IfOk, IfSome};
ghost use Rattle.std.specs.List.{position};
ghost use Rattle.request_names.specs.Names.{bad_byte, refusal};

use lang_core::{LONGEST_NAME, Name, NoMemory, Text, is_name_byte};
use std::alloc::Global;

/// Why a text is read as no name, or as no name of a request or a call. Such a text is first tested for being empty,
/// then for its slash, then the part before the slash as a name, then the number.
#[derive(Clone, Copy, PartialEq, Eq, Debug)]
pub enum NameRefused {
    /// There was no memory for a name.
    NoMemory,
    /// The text is empty.
    Empty,
    /// It has more than 32 bytes.
    TooLong,
    /// The byte at this place, counted from 0, is none of a-z, 0-9 and `_`; those before it are.
    BadByte(u64),
    /// There is no slash in the text, which isn't empty.
    NoSlash,
    /// What stands behind the first slash is no number from 1 in decimal digits without leading zeros.
    BadNumber,
}

impl From<NoMemory> for NameRefused {
    ghost use Rattle.request_names.specs.declared.names.NameRefused.{NameRefused};

    ghost from_gives = { λ _ why. why ≡ NameRefused.NoMemory };

    fn from(_: NoMemory) -> NameRefused {
        NameRefused::NoMemory
    }
}

fn bad_byte(bytes: &[u8]) -> Option<usize>
    ensures { result ≡ bad_byte bytes.now }
{
    bytes.iter().position(|b| !is_name_byte(*b))
}

pub(crate) fn refusal(text: &str) -> Option<NameRefused>
    ensures { result ≡ refusal text.now }
{
    if text.is_empty() {
        return Some(NameRefused::Empty);
    }
    if text.len() as u64 > LONGEST_NAME {
        return Some(NameRefused::TooLong);
    }
    bad_byte(text.as_bytes()).map(|at| NameRefused::BadByte(at as u64))
}

/// The name with this text.
#[tactic(auto, using(crate::proofs::Named::named))]
pub(crate) fn good_name(alloc: Global, text: &str) -> Result<Name, NoMemory>
    requires { refusal text.now ≡ None }
    ensures { IfOk result (λ name. name ≡ text.now) }
{
    let text = Text::of(alloc, text)?;
    let Ok(name) = Name::new(text) else {
        unreachable!()
    };
    Ok(name)
}

/// The name with this text, or why it is none.
pub fn read_name(alloc: Global, text: &str) -> Result<Name, NameRefused>
    ensures name { IfOk result (λ name. name ≡ text.now) }
    ensures refused { IfSome (refusal text.now) (λ why. result ≡ Err why) }
    ensures memory { refusal text.now ≡ None → OnErr result (result ≡ Err NameRefused.NoMemory) }
{
    if let Some(why) = refusal(text) {
        return Err(why);
    }
    Ok(good_name(alloc, text)?)
}
