// Bytes as texts.
ghost use Rattle.std.specs.Prelude.{◌≡◌, IsTrue, IsUtf8, IfOk, IsErrOf, Err, Ok, if◌then◌else◌};
ghost use Rattle.std.specs.Str.{is_utf8};
ghost use Rattle.http_front.specs.Answers.{UnlessInterrupted};
ghost use Rattle.http_front.specs.declared.message.FrontRefused.TheVariants.{NotText};

use crate::message::FrontRefused;
use lang_base::{NoMemory, Text};
use std::alloc::Global;
use std::str;

/// The text of bytes that are known to be UTF-8.
pub fn known_text(alloc: Global, bytes: &[u8]) -> Result<Text, NoMemory>
    requires { IsUtf8 bytes.now }
    ensures { IfOk result (λ text. text ≡ bytes.now) }
{
    match str::from_utf8(bytes) {
        Ok(text) => Text::of(alloc, text),
        Err(_) => unreachable!(),
    }
}

/// Says to a caller's proof that the bytes of a text are UTF-8, as those of each text are; it does nothing.
pub fn is_text(text: &str)
    ensures { IsUtf8 text.now }
{
    let _ = text;
}

fn is_utf8(bytes: &[u8]) -> bool
    ensures test { result ≡ is_utf8 bytes.now }
    ensures utf8 { IsTrue result → IsUtf8 bytes.now }
{
    match str::from_utf8(bytes) {
        Ok(_) => true,
        Err(_) => false,
    }
}

/// The bytes as a text, where they are UTF-8.
pub fn text_of(bytes: Vec<u8>) -> Result<Text, FrontRefused>
    ensures text { UnlessInterrupted result
        (result ≡ (if is_utf8 bytes.items then Ok bytes.items else Err NotText)) }
    ensures unread { ¬ (IsErrOf result FrontRefused.ReadFault) }
{
    if !is_utf8(&bytes) {
        return Err(FrontRefused::NotText);
    }
    match String::from_utf8(bytes) {
        Ok(text) => Ok(Text::shared(text)?),
        Err(_) => unreachable!(),
    }
}
