// Text, which contracts see as its bytes.
ghost use Rattle.std.specs.Prelude.{◌≡◌, ◌↔◌, ◌≤◌, IfOk, IsTrue, ◌++◌, length};
ghost use Rattle.std.specs.String.{string_bytes};
ghost use Rattle.lang_base.specs.Texts.{same_text, text_order, begins_with};

use crate::inline::{INLINE_ROOM, InlineText};
use crate::memory::{Copied, NoMemory, Same};
use std::alloc::Global;
use std::cmp::Ordering;
use std::marker::Model;
use std::sync::Arc;

/// What a text holds: a short one stands where it is, so that it needs one block, and a longer one in a block of its own.
enum Held {
    Inline(InlineText),
    Owned(String),
}

impl Drop for Held {
    fn drop(self) {
        match self {
            Self::Inline(_) | Self::Owned(_) => {}
        }
    }
}

// With the count of its holders, as much as one block of 48 bytes lends.
const _: () = prove!(size_of::<Held>() == 32);

/// UTF-8 text, seen as its bytes.
pub struct Text {
    held: Arc<Held>,
}

impl Drop for Text {
    fn drop(self) {
        let Self { held: _ } = self;
    }
}

impl Model for Text {
    ghost use Rattle.std.specs.Prelude.{ℕ, List};

    ghost Value = { List ℕ };

    ghost use Rattle.lang_base.specs.Held.{held_bytes};

    ghost view = { λ text. held_bytes text.held.value };
}

impl Text {
    /// The text with these characters.
    pub fn of(alloc: Global, characters: &str) -> Result<Text, NoMemory>
        ensures { IfOk result (λ text. text ≡ characters.now) }
    {
        if characters.len() <= INLINE_ROOM {
            Text::inline(alloc, characters)
        } else {
            Text::owned(alloc, String::from_str(alloc, characters)?)
        }
    }

    // These few characters, in one block.
    fn inline(alloc: Global, characters: &str) -> Result<Text, NoMemory>
        requires { length characters.now ≤ 23 }
        ensures { IfOk result (λ text. text ≡ characters.now) }
    {
        let held = Arc::new(alloc, Held::Inline(InlineText::of(characters)))?;
        Ok(Text { held })
    }

    // These characters, in the block that they are in.
    fn owned(alloc: Global, characters: String) -> Result<Text, NoMemory>
        ensures { IfOk result (λ text. text ≡ string_bytes characters) }
    {
        let held = Arc::new(alloc, Held::Owned(characters))?;
        Ok(Text { held })
    }

    /// These characters, which are given up.
    pub fn shared(text: String) -> Result<Text, NoMemory>
        ensures { IfOk result (λ shared. shared ≡ string_bytes text) }
    {
        let alloc = *text.allocator();
        if text.len() <= INLINE_ROOM {
            Text::inline(alloc, text.as_str())
        } else {
            Text::owned(alloc, text)
        }
    }

    /// The characters.
    pub fn as_str(&self) -> &str
        ensures { result.now ≡ self.now }
    {
        match &*self.held {
            Held::Inline(text) => text.as_str(),
            Held::Owned(text) => text.as_str(),
        }
    }

    /// The bytes.
    pub fn as_bytes(&self) -> &[u8]
        ensures { result.now ≡ self.now }
    {
        match &*self.held {
            Held::Inline(text) => text.as_bytes(),
            Held::Owned(text) => text.as_bytes(),
        }
    }

    /// How many bytes it has.
    pub fn len(&self) -> u64
        ensures { result ≡ length self.now }
    {
        self.as_bytes().len() as u64
    }

    /// The order of the two texts by their bytes.
    pub fn order(&self, other: &Text) -> Ordering
        ensures { result ≡ text_order self.now other.now }
    {
        self.as_bytes().cmp(other.as_bytes())
    }

    /// Whether this text begins with the other.
    pub fn begins_with(&self, prefix: &Text) -> bool
        ensures { result ≡ begins_with prefix.now self.now }
    {
        self.as_bytes().starts_with(prefix.as_bytes())
    }
}

impl Copied for Text {
    fn copied(&self, alloc: Global) -> Result<Text, NoMemory> {
        let held = self.held.clone()?;
        Ok(Text { held })
    }
}

impl Same for Text {
    fn is(&self, other: &Text) -> bool
        ensures is { IsTrue result ↔ (self.now ≡ other.now) }
        ensures test { result ≡ same_text self.now other.now }
    {
        self.as_bytes() == other.as_bytes()
    }
}
