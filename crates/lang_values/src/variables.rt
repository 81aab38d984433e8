// The variables of a run.
ghost use Rattle.std.specs.Prelude.{◌≡◌, ◌<◌, [], ◌∷◌, ◌++◌, length, slice_set, MatchOption, IfSome, OnOk, OnErr};
ghost use Rattle.lang_core.specs.declared.value.Value.{Value};
ghost use Rattle.lang_values.specs.Variables.{bind};

use crate::given::Binding;
use lang_core::{Copied, NoMemory, Same, Text, Value};
use std::alloc::Global;
use std::marker::Model;

/// Variables that have a value, seen as the list of their bindings.
pub struct Variables {
    items: Vec<Binding>,
}

impl Drop for Variables {
    fn drop(self) {
        let Self { items: _ } = self;
    }
}

impl Model for Variables {
    ghost use Rattle.std.specs.Prelude.{List};
    ghost use Rattle.lang_values.specs.declared.given.Binding.{Binding};

    ghost Value = { List Binding };

    ghost view = { λ vars. vars.items.items };
}

// Where a variable stands, if it has a value.
#[tactic(auto, using(crate::proofs::BindLemmas::bind_at))]
fn bound_at(vars: &[Binding], name: &Text) -> Option<usize>
    ensures within { IfSome result (λ i. i < length vars.now) }
    ensures bound { MatchOption result
        ((v : Value) → bind name.now v vars.now ≡ vars.now ++ record { name = name.now; value = v } ∷ [])
        (λ i. (v : Value) → bind name.now v vars.now ≡ slice_set vars.now i (record { name = name.now; value = v })) }
{
    for (i, binding) in vars.iter().enumerate() {
        if binding.name.is(name) {
            return Some(i);
        }
    }
    None
}

impl Variables {
    /// No variables.
    pub fn new(alloc: Global) -> Variables
        ensures { result ≡ [] }
    {
        Variables {
            items: Vec::new(alloc),
        }
    }

    /// The bindings.
    pub fn as_slice(&self) -> &[Binding]
        ensures { result.now ≡ self.now }
    {
        self.items.as_slice()
    }

    /// Gives a variable a value. Refused, the variables stay.
    pub fn bind(&mut self, alloc: Global, name: &Text, value: Value) -> Result<(), NoMemory>
        ensures ok { OnOk result (self.new ≡ bind name.now value self.old) }
        ensures err { OnErr result (self.new ≡ self.old) }
    {
        let binding = Binding {
            name: name.copied(alloc)?,
            value,
        };
        match bound_at(&self.items, name) {
            Some(i) => self.items[i] = binding,
            None => self.items.push(binding)?,
        }
        Ok(())
    }
}
