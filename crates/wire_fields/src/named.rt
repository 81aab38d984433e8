// Values under names, as what a service knows of each of its peers.
ghost use Rattle.std.specs.Prelude.{◌≡◌, ◌++◌, ◌∷◌, [], find, length, not, slice_get, IfOk, OnErr};
ghost use Rattle.std.specs.Option.{option_copied, is_some};
ghost use Rattle.wire_fields.specs.Named.{AreApart, has_name, value_of, with_one};

use lang_core::{Copied, Name, NoMemory, Seq};
use std::alloc::Global;
use std::marker::Model;

/// A value under a name.
#[derive(Drop)]
pub struct Named<T> {
    pub name: Name,
    pub value: T,
}

impl<T: Copied + Drop> Copied for Named<T> {
    fn copied(&self, alloc: Global) -> Result<Named<T>, NoMemory> {
        let name = self.name.copied(alloc)?;
        let value = self.value.copied(alloc)?;
        Ok(Named { name, value })
    }
}

/// Values under names, no two of which are the same, in the order in which they were added; seen as the list of them.
#[derive(Drop)]
pub struct ByName<T> {
    items: Seq<Named<T>>,
}

impl<T> Model for ByName<T> {
    ghost use Rattle.std.specs.Prelude.{List};
    ghost use Rattle.wire_fields.specs.declared.named.Named.{Named};
    ghost use Rattle.wire_fields.specs.Named.{AreApart};

    ghost Value = { List (Named T) };

    ghost view = { λ list. list.items };

    ghost invariant = { λ list. AreApart list.items };
}

fn found<'a, T>(items: &'a [Named<T>], name: &str) -> Option<&'a Named<T>>
    ensures { option_copied result ≡ find (has_name name.now) items.now }
{
    items.iter().find(|item| item.name.as_str() == name)
}

fn is_there<T>(items: &Seq<Named<T>>, name: &Name) -> bool
    ensures { result ≡ is_some (find (has_name name.now) items.now) }
{
    found(items.as_slice(), name.as_str()).is_some()
}

// Puts a value under a name last, unless there is one already; whether it did.
fn put<T: Drop>(items: &mut Seq<Named<T>>, name: Name, value: T) -> Result<bool, NoMemory>
    requires { AreApart items.old }
    ensures apart { AreApart items.new }
    ensures added { IfOk result (λ added. added ≡ not (is_some (find (has_name name) items.old))) }
    ensures list { IfOk result (λ added. items.new ≡ with_one added items.old name value) }
    ensures err { OnErr result (items.new ≡ items.old) }
{
    if is_there(items, &name) {
        return Ok(false);
    }
    items.push(Named { name, value })?;
    Ok(true)
}

impl<T> ByName<T> {
    /// Nothing under any name.
    #[tactic(auto, using(crate::proofs::NamedLemmas::none_apart))]
    pub fn new(alloc: Global) -> ByName<T>
        ensures { result ≡ [] }
    {
        ByName {
            items: Seq::new(alloc),
        }
    }

    /// How many there are.
    pub fn len(&self) -> u64
        ensures len { result ≡ length self.now }
        ensures apart { AreApart self.now }
    {
        self.items.len()
    }

    /// The name and the value at a place, counted from 0; None exactly past the end.
    pub fn at(&self, place: u64) -> Option<&Named<T>>
        ensures { option_copied result ≡ slice_get self.now place }
    {
        self.items.at(place)
    }

    /// The value under this name; None exactly where there is none.
    pub fn get(&self, name: &str) -> Option<&T>
        ensures { option_copied result ≡ value_of name.now self.now }
    {
        match found(self.items.as_slice(), name) {
            Some(item) => Some(&item.value),
            None => None,
        }
    }
}

impl<T: Drop> ByName<T> {
    /// Adds a value under a name, unless there is one already, which stays; whether it did.
    pub fn add(&mut self, name: Name, value: T) -> Result<bool, NoMemory>
        ensures added { IfOk result (λ added. added ≡ not (is_some (find (has_name name) self.old))) }
        ensures list { IfOk result (λ added. self.new ≡ with_one added self.old name value) }
        ensures err { OnErr result (self.new ≡ self.old) }
    {
        put(&mut self.items, name, value)
    }
}

impl<T: Copied + Drop> Copied for ByName<T> {
    #[tactic(auto, using(crate::proofs::NamedLemmas::same_apart))]
    fn copied(&self, alloc: Global) -> Result<ByName<T>, NoMemory> {
        let items = self.items.copied(alloc)?;
        Ok(ByName { items })
    }
}
