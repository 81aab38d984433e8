// Keys of texts.
ghost use Rattle.std.specs.Prelude.{◌≡◌};
ghost use Rattle.lang_lists.specs.Keys.{text_key, call_key};

use lang_base::Text;
use std::hash::{FoldHasher, Hasher};

/// The key of a text: its hash by a fixed seed. Other texts may have it too.
pub fn text_key(text: &Text) -> u64
    ensures { result ≡ text_key text.now }
{
    let mut hasher = FoldHasher::default();
    hasher.write(text.as_bytes());
    hasher.finish()
}

/// The key of a call, by its caller's name and its number there. Calls of one caller have different keys; those of two may
/// have the same.
pub fn call_key(caller: &Text, number: u64) -> u64
    ensures { result ≡ call_key caller.now number }
{
    text_key(caller) ^ number
}
