// Short text that stands in the value itself, and so needs no block of its own.
ghost use Rattle.std.specs.Prelude.{◌≡◌, ◌≤◌, length};

use std::marker::Model;

/// How many bytes an `InlineText` has room for: as many as, with their count, take no more room than a `String`.
pub(crate) const INLINE_ROOM: usize = 23;

/// UTF-8 text of at most 23 bytes, seen as its bytes.
pub(crate) struct InlineText {
    len: u8,
    bytes: [u8; INLINE_ROOM],
}

impl Drop for InlineText {
    fn drop(self) {
        let Self { len: _, bytes: _ } = self;
    }
}

impl Model for InlineText {
    ghost use Rattle.std.specs.Prelude.{ℕ, List, ◌≤◌, take, IsUtf8};

    ghost Value = { List ℕ };

    ghost view = { λ text. take text.len text.bytes };

    ghost invariant = { λ text. (text.len ≤ 23) × ∥ IsUtf8 (take text.len text.bytes) ∥₁ };
}

impl InlineText {
    /// The text with these characters.
    pub(crate) fn of(characters: &str) -> InlineText
        requires { length characters.now ≤ 23 }
        ensures { result ≡ characters.now }
    {
        let len = characters.len();
        let mut bytes = [0; INLINE_ROOM];
        bytes[..len].copy_from_slice(characters.as_bytes());
        InlineText {
            len: len as u8,
            bytes,
        }
    }

    /// The bytes.
    pub(crate) fn as_bytes(&self) -> &[u8]
        ensures { result.now ≡ self.now }
    {
        &self.bytes[..self.len as usize]
    }

    /// The characters.
    pub(crate) fn as_str(&self) -> &str
        ensures { result.now ≡ self.now }
    {
        unsafe { std::str::from_utf8_unchecked(&self.bytes[..self.len as usize]) }
    }
}
