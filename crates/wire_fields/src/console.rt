// What operators send.
ghost use Rattle.std.specs.Prelude.{◌≡◌};
ghost use Rattle.wire_fields.specs.Kinds.{console_word};

use lang_base::both;
use lang_core::{Copied, NoMemory, Text};
use std::alloc::Global;

/// What an operator asks for.
#[derive(Clone, Copy, Debug, PartialEq, Eq)]
pub enum ConsoleWord {
    Cancel,
    Restore,
    Replace,
    Create,
    Retry,
    Fold,
    Deploy,
    Correct,
    Rules,
    Notices,
    Log,
    Rows,
    Programs,
    Changed,
    Preview,
    Rehearse,
    Audit,
    Stop,
}

/// A sealed request of an operator, whose body isn't read yet.
pub struct ConsoleRequest {
    pub word: ConsoleWord,
    /// Who asks, from 1 to 64 visible characters.
    pub who: Text,
    pub body: Text,
}

impl Drop for ConsoleRequest {
    fn drop(self) {
        let Self {
            word: _,
            who: _,
            body: _,
        } = self;
    }
}

impl Copied for ConsoleRequest {
    fn copied(&self, alloc: Global) -> Result<ConsoleRequest, NoMemory> {
        let (who, body) = both(self.who.copied(alloc), self.body.copied(alloc))?;
        Ok(ConsoleRequest {
            word: self.word,
            who,
            body,
        })
    }
}

/// What the word asks for; None exactly where it is none of these.
#[tactic(auto, unfolding(crate::specs::Kinds::console_word))]
pub fn console_word(word: &[u8]) -> Option<ConsoleWord>
    ensures { result ≡ console_word word.now }
{
    if word == b"cancel".as_slice() {
        Some(ConsoleWord::Cancel)
    } else if word == b"restore".as_slice() {
        Some(ConsoleWord::Restore)
    } else if word == b"replace".as_slice() {
        Some(ConsoleWord::Replace)
    } else if word == b"create".as_slice() {
        Some(ConsoleWord::Create)
    } else if word == b"retry".as_slice() {
        Some(ConsoleWord::Retry)
    } else if word == b"fold".as_slice() {
        Some(ConsoleWord::Fold)
    } else if word == b"deploy".as_slice() {
        Some(ConsoleWord::Deploy)
    } else if word == b"correct".as_slice() {
        Some(ConsoleWord::Correct)
    } else if word == b"rules".as_slice() {
        Some(ConsoleWord::Rules)
    } else if word == b"notices".as_slice() {
        Some(ConsoleWord::Notices)
    } else if word == b"log".as_slice() {
        Some(ConsoleWord::Log)
    } else if word == b"rows".as_slice() {
        Some(ConsoleWord::Rows)
    } else if word == b"programs".as_slice() {
        Some(ConsoleWord::Programs)
    } else if word == b"changed".as_slice() {
        Some(ConsoleWord::Changed)
    } else if word == b"preview".as_slice() {
        Some(ConsoleWord::Preview)
    } else if word == b"rehearse".as_slice() {
        Some(ConsoleWord::Rehearse)
    } else if word == b"audit".as_slice() {
        Some(ConsoleWord::Audit)
    } else if word == b"stop".as_slice() {
        Some(ConsoleWord::Stop)
    } else {
        None
    }
}
