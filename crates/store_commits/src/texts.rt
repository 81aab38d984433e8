// Records that are handed over together.
ghost use Rattle.std.specs.Prelude.{◌≡◌, ◌∷◌, ◌++◌, [], Err, OnErr, OnOk, length};

use std::alloc::Global;
use std::marker::Model;
use store_lines::Line;

/// Texts of records, in order. Contracts see their list.
#[derive(Drop)]
pub struct Texts {
    items: Vec<Line>,
}

impl Model for Texts {
    ghost use Rattle.std.specs.Prelude.{List, ℕ};

    ghost Value = { List (List ℕ) };

    ghost view = { λ texts. texts.items.items };
}

impl Texts {
    /// None yet.
    pub fn new(alloc: Global) -> Texts
        ensures { result ≡ [] }
    {
        Texts {
            items: Vec::new(alloc),
        }
    }

    /// One more, if there is memory for it. Refused, it is handed back.
    pub fn push(&mut self, text: Line) -> Result<(), Line>
        ensures ok { OnOk result (self.new ≡ self.old ++ text ∷ []) }
        ensures err { OnErr result ((self.new ≡ self.old) × (result ≡ Err text)) }
    {
        if self.items.reserve(1).is_err() {
            return Err(text);
        }
        self.items.push_reserved(text);
        Ok(())
    }

    /// How many there are.
    pub fn len(&self) -> usize
        ensures { result ≡ length self.now }
    {
        self.items.len()
    }

    /// The texts.
    pub fn as_slice(&self) -> &[Line]
        ensures { result.now ≡ self.now }
    {
        self.items.as_slice()
    }
}
