// A list, which contracts see as its elements.
ghost use Rattle.std.specs.Prelude.{◌≡◌, ◌↔◌, [], ◌∷◌, ◌++◌, length, slice_get, OnOk, OnErr, IfOk, IsTrue};
ghost use Rattle.std.specs.Option.{option_copied};

use crate::memory::{Copied, NoMemory, Same};
use std::alloc::Global;
use std::marker::Model;

/// A growing list, seen as its elements.
#[derive(Drop)]
pub struct Seq<T> {
    items: Vec<T>,
}

impl<T> Model for Seq<T> {
    ghost use Rattle.std.specs.Prelude.{List};
    ghost use Rattle.std.specs.Coded.{coded_list};

    ghost Value = { List T };

    ghost coded = { coded_list T.code };

    ghost view = { λ seq. seq.items.items };
}

impl<T> Seq<T> {
    /// An empty list.
    pub fn new(alloc: Global) -> Seq<T>
        ensures { result ≡ [] }
    {
        Seq {
            items: Vec::new(alloc),
        }
    }

    /// The elements as they are owned, without a copy.
    pub fn into_items(self) -> Vec<T>
        ensures { result.items ≡ self }
    {
        self.items
    }

    /// The elements, in order.
    pub fn as_slice(&self) -> &[T]
        ensures { result.now ≡ self.now }
    {
        self.items.as_slice()
    }

    /// How many elements it has.
    pub fn len(&self) -> u64
        ensures { result ≡ length self.now }
    {
        self.items.len() as u64
    }

    /// The element at a place, counted from 0; None exactly past the end.
    pub fn at(&self, place: u64) -> Option<&T>
        ensures { option_copied result ≡ slice_get self.now place }
    {
        self.items.get(place as usize)
    }
}

impl<T: Drop> Seq<T> {
    /// Puts one more element last. Refused, it is dropped and the list stays.
    pub fn push(&mut self, item: T) -> Result<(), NoMemory>
        ensures ok { OnOk result (self.new ≡ self.old ++ item ∷ []) }
        ensures err { OnErr result (self.new ≡ self.old) }
    {
        self.items.push(item)?;
        Ok(())
    }
}

impl<T: Copied + Drop> Copied for Seq<T> {
    fn copied(&self, alloc: Global) -> Result<Seq<T>, NoMemory> {
        let items = copied_items(alloc, &self.items)?;
        Ok(Seq { items })
    }
}

impl<T: Same> Same for Seq<T> {
    fn is(&self, other: &Seq<T>) -> bool {
        all_same(self.as_slice(), other.as_slice())
    }
}

/// A list of equal items.
pub fn copied_items<T: Copied + Drop>(alloc: Global, items: &[T]) -> Result<Vec<T>, NoMemory>
    ensures { IfOk result (λ copies. copies.items ≡ items.now) }
{
    let mut copies = Vec::with_capacity(alloc, items.len())?;
    for item in items {
        copies.push(item.copied(alloc)?)?;
    }
    Ok(copies)
}

/// Whether the two lists are equal.
pub fn all_same<T: Same>(left: &[T], right: &[T]) -> bool
    ensures { IsTrue result ↔ (left.now ≡ right.now) }
{
    if left.len() != right.len() {
        return false;
    }
    for (i, item) in left.iter().enumerate() {
        if !item.is(&right[i]) {
            return false;
        }
    }
    true
}
