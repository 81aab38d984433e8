// A list of two words, which contracts see as its elements.
ghost use Rattle.std.specs.Prelude.{◌≡◌, [], ◌∷◌, ◌++◌, length, slice_get, OnOk, OnErr, IfOk};
ghost use Rattle.std.specs.Option.{option_copied};

use crate::memory::{Copied, NoMemory, Same};
use crate::seq::{Seq, all_same};
use std::alloc::Global;
use std::marker::Model;
use std::sync::Arc;

/// A growing list, seen as its elements, for what stands in many values, is mostly empty, and hardly changes once it was
/// copied. It is 16 bytes where a `Seq` is 24, and has no block of memory while it is empty. With its first element it takes
/// two: one for the elements, and one of 32 bytes for their list and the count of its holders. A copy counts one holder more
/// and takes none. A list that has other holders is copied before it changes, and they keep theirs. Each look at the elements
/// is a step further: a list that mostly has elements, and that nobody copies, is better a `Seq`.
#[derive(Drop)]
pub struct ThinSeq<T> {
    alloc: Global,
    items: Option<Arc<Seq<T>>>,
}

// What it is for: a third less than the list that it stands in place of.
const _: () = prove!(size_of::<ThinSeq<u64>>() == 16);

impl<T> Model for ThinSeq<T> {
    ghost use Rattle.std.specs.Prelude.{List};
    ghost use Rattle.std.specs.Coded.{coded_list};
    ghost use Rattle.lang_base.specs.Thin.{thin_items};

    ghost Value = { List T };

    ghost coded = { coded_list T.code };

    ghost view = { λ seq. thin_items seq.items };
}

impl<T> ThinSeq<T> {
    /// An empty list.
    pub fn new(alloc: Global) -> ThinSeq<T>
        ensures { result ≡ [] }
    {
        ThinSeq { alloc, items: None }
    }

    /// The elements, in order.
    pub fn as_slice(&self) -> &[T]
        ensures { result.now ≡ self.now }
    {
        match &self.items {
            Some(items) => items.as_slice(),
            None => &[],
        }
    }

    /// How many elements it has.
    pub fn len(&self) -> u64
        ensures { result ≡ length self.now }
    {
        self.as_slice().len() as u64
    }

    /// The element at a place, counted from 0; None exactly past the end.
    pub fn at(&self, place: u64) -> Option<&T>
        ensures { option_copied result ≡ slice_get self.now place }
    {
        self.as_slice().get(place as usize)
    }
}

// A list with one holder.
fn held_by_one<T: Drop>(alloc: Global, items: Seq<T>) -> Result<Arc<Seq<T>>, NoMemory>
    ensures { IfOk result (λ held. held.value ≡ items) }
{
    Ok(Arc::new(alloc, items)?)
}

// An equal list with one holder and one more element, which is last.
fn copied_with<T: Copied + Drop>(
    alloc: Global,
    items: &Seq<T>,
    item: T,
) -> Result<Arc<Seq<T>>, NoMemory>
    ensures { IfOk result (λ held. held.value ≡ items.now ++ item ∷ []) }
{
    let mut copy = items.copied(alloc)?;
    copy.push(item)?;
    held_by_one(alloc, copy)
}

// Puts one more element last in a list that may have other holders, who keep theirs.
fn push_held<T: Copied + Drop>(
    alloc: Global,
    held: &mut Arc<Seq<T>>,
    item: T,
) -> Result<(), NoMemory>
    ensures ok { OnOk result (held.new.value ≡ held.old.value ++ item ∷ []) }
    ensures err { OnErr result (held.new.value ≡ held.old.value) }
{
    if let Some(items) = Arc::get_mut(held) {
        return items.push(item);
    }
    *held = copied_with(alloc, held, item)?;
    Ok(())
}

impl<T: Copied + Drop> ThinSeq<T> {
    /// Puts one more element last. Refused, it is dropped and the list stays.
    pub fn push(&mut self, item: T) -> Result<(), NoMemory>
        ensures ok { OnOk result (self.new ≡ self.old ++ item ∷ []) }
        ensures err { OnErr result (self.new ≡ self.old) }
    {
        match &mut self.items {
            Some(held) => push_held(self.alloc, held, item),
            None => {
                let mut items = Seq::new(self.alloc);
                items.push(item)?;
                self.items = Some(held_by_one(self.alloc, items)?);
                Ok(())
            }
        }
    }
}

impl<T: Drop> Copied for ThinSeq<T> {
    fn copied(&self, alloc: Global) -> Result<ThinSeq<T>, NoMemory> {
        match &self.items {
            Some(held) => {
                let items = Some(held.clone()?);
                Ok(ThinSeq { alloc, items })
            }
            None => Ok(ThinSeq::new(alloc)),
        }
    }
}

impl<T: Same> Same for ThinSeq<T> {
    fn is(&self, other: &ThinSeq<T>) -> bool {
        all_same(self.as_slice(), other.as_slice())
    }
}
