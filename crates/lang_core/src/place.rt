// What stands at a table and a key, in order.
ghost use Rattle.std.specs.Prelude.{◌≡◌, ◌↔◌, [], ◌∷◌, ◌++◌, length, slice_get, take, drop, find, IfOk, IsOk, OnOk, OnErr, IsTrue, ◌+◌, ◌<◌, ◌≤◌, true, vec_len, vec_capacity};
ghost use Rattle.std.specs.Option.{option_copied};
ghost use Rattle.lang_core.specs.Places.{Place, IsOrdered, IsRank, place_of, place_order, same_place, set_in, unset_in, rank, is_taken, past};

use lang_tree::{Copied, NoMemory, Same, Text, all_same, copied_items};
use std::alloc::Global;
use std::cmp::Ordering;
use std::marker::Model;

/// What stands at a table and a key.
pub trait Placed {
    ghost place: { Self → Place };

    /// The table.
    fn table(&self) -> &Text
        ensures { result.now ≡ (place self.now).table };

    /// The key in the table.
    fn key(&self) -> &Text
        ensures { result.now ≡ (place self.now).key };
}

/// A list in the order of table and key, with no place twice.
#[derive(Drop)]
pub struct ByPlace<T: Placed> {
    pub(crate) items: Vec<T>,
}

impl<T: Placed> Model for ByPlace<T> {
    ghost use Rattle.std.specs.Prelude.{List};
    ghost use Rattle.std.specs.Coded.{coded_list};
    ghost use Rattle.lang_core.specs.Places.{IsOrdered};

    ghost Value = { List T };

    ghost coded = { coded_list T.code };

    ghost view = { λ l. l.items.items };

    ghost invariant = { λ l. IsOrdered T.place l.items.items };
}

/// How the place at a table, with a key of these bytes, stands to that of an item: `Less` where it comes before it. Most rows
/// that are compared are of one table, which is told sooner than an order.
pub fn order_of<T: Placed>(item: &T, table: &Text, key: &[u8]) -> Ordering
    ensures { result ≡ place_order (place_of table.now key.now) (T.place item.now) }
{
    if table.is(item.table()) {
        return key.cmp(item.key().as_bytes());
    }
    table.order(item.table())
}

fn halfway(low: usize, high: usize) -> usize
    requires { low < high }
    ensures low { low ≤ result }
    ensures high { result < high }
{
    low + (high - low) / 2
}

/// How many items of a list in order are below the place with a key of these bytes, and whether one stands there. Found
/// by halves.
pub fn seek_bytes<T: Placed>(items: &[T], table: &Text, key: &[u8]) -> (usize, bool)
    requires { IsOrdered T.place items.now }
    ensures rank { result.0 ≡ rank T.place (place_of table.now key.now) items.now }
    ensures taken { result.1 ≡ is_taken T.place (place_of table.now key.now) items.now }
    ensures within { IsRank result.0 result.1 (length items.now) }
{
    let mut low = 0;
    let mut high = items.len();
    while low < high {
        let middle = halfway(low, high);
        match order_of(&items[middle], table, key) {
            Ordering::Less => high = middle,
            Ordering::Equal => return (middle, true),
            Ordering::Greater => low = middle + 1,
        }
    }
    (low, false)
}

/// How many items of a list in order are below the place, and whether one stands there. Found by halves.
pub fn seek<T: Placed>(items: &[T], table: &Text, key: &Text) -> (usize, bool)
    requires { IsOrdered T.place items.now }
    ensures rank { result.0 ≡ rank T.place (place_of table.now key.now) items.now }
    ensures taken { result.1 ≡ is_taken T.place (place_of table.now key.now) items.now }
    ensures within { IsRank result.0 result.1 (length items.now) }
{
    seek_bytes(items, table, key.as_bytes())
}

/// What stands at the place in a list in order, if something does.
pub(crate) fn item_at<'a, T: Placed>(items: &'a [T], table: &Text, key: &Text) -> Option<&'a T>
    requires { IsOrdered T.place items.now }
    ensures { option_copied result ≡ find (λ x. same_place (T.place x) (place_of table.now key.now)) items.now }
{
    let (at, taken) = seek(items, table, key);
    if taken { Some(&items[at]) } else { None }
}

// Puts an item at its rank, in place of the one there.
#[tactic(auto, using(std::proofs::lemmas::List::set_split))]
fn put_at<T: Drop>(items: &mut Vec<T>, at: usize, taken: bool, item: T) -> Result<(), NoMemory>
    requires { IsRank at taken (length items.old.items) }
    ensures ok { OnOk result (items.new.items ≡ take at items.old.items ++ item ∷ drop (past taken at) items.old.items) }
    ensures err { OnErr result (items.new.items ≡ items.old.items) }
    ensures room { vec_len items.old < vec_capacity items.old → IsOk result }
    ensures len { vec_len items.new ≤ vec_len items.old + 1 }
    ensures capacity { vec_capacity items.old ≤ vec_capacity items.new }
{
    if taken {
        items[at] = item;
    } else {
        items.insert(at, item)?;
    }
    Ok(())
}

fn take_at<T: Drop>(items: &mut Vec<T>, at: usize, taken: bool)
    requires { IsRank at taken (length items.old.items) }
    ensures items { items.new.items ≡ take at items.old.items ++ drop (past taken at) items.old.items }
    ensures len { vec_len items.new ≤ vec_len items.old }
    ensures capacity { vec_capacity items.new ≡ vec_capacity items.old }
{
    if taken {
        let _old = items.remove(at);
    }
}

/// Puts an item at its place where there is room for one more.
pub(crate) fn set_in_room<T: Placed + Drop>(items: &mut Vec<T>, item: T)
    requires room { vec_len items.old < vec_capacity items.old }
    requires ordered { IsOrdered T.place items.old.items }
    ensures items { items.new.items ≡ set_in T.place item items.old.items }
    ensures len { vec_len items.new ≤ vec_len items.old + 1 }
    ensures capacity { vec_capacity items.old ≤ vec_capacity items.new }
{
    let (at, taken) = seek(items, item.table(), item.key());
    put_at(items, at, taken, item).unwrap();
}

/// Takes away what stands at the place.
#[tactic(auto, using(crate::proofs::PlaceLemmas::unset_edits))]
pub(crate) fn unset_items<T: Placed + Drop>(items: &mut Vec<T>, table: &Text, key: &Text)
    requires { IsOrdered T.place items.old.items }
    ensures items { items.new.items ≡ unset_in T.place (place_of table.now key.now) items.old.items }
    ensures len { vec_len items.new ≤ vec_len items.old }
    ensures capacity { vec_capacity items.new ≡ vec_capacity items.old }
{
    let (at, taken) = seek(items, table, key);
    take_at(items, at, taken);
}

// Makes room for one more: just that in an empty list, as most stay with one.
fn make_place<T>(items: &mut Vec<T>) -> Result<(), NoMemory>
    ensures items { items.new.items ≡ items.old.items }
    ensures room { OnOk result (vec_len items.new < vec_capacity items.new) }
{
    if items.is_empty() {
        items.reserve_exact(1)?;
    } else {
        items.reserve(1)?;
    }
    Ok(())
}

impl<T: Placed> ByPlace<T> {
    /// An empty list.
    pub fn new(alloc: Global) -> ByPlace<T>
        ensures { result ≡ [] }
    {
        ByPlace {
            items: Vec::new(alloc),
        }
    }

    /// The items, in order.
    pub fn as_slice(&self) -> &[T]
        ensures items { result.now ≡ self.now }
        ensures ordered { IsOrdered T.place self.now }
    {
        self.items.as_slice()
    }

    /// How many items it has.
    pub fn len(&self) -> u64
        ensures { result ≡ length self.now }
    {
        self.items.len() as u64
    }

    /// The item at a place of the list, counted from 0; None exactly past the end.
    pub fn at(&self, place: u64) -> Option<&T>
        ensures { option_copied result ≡ slice_get self.now place }
    {
        self.items.get(place as usize)
    }

    /// What stands at the table and the key; None exactly where nothing does.
    pub fn find(&self, table: &Text, key: &Text) -> Option<&T>
        ensures { option_copied result ≡ find (λ x. same_place (T.place x) (place_of table.now key.now)) self.now }
    {
        item_at(&self.items, table, key)
    }
}

impl<T: Placed + Drop> ByPlace<T> {
    /// Puts an item at its place, in place of what stood there. Refused, it is dropped and the list stays.
    pub fn set(&mut self, item: T) -> Result<(), NoMemory>
        ensures ok { OnOk result (self.new ≡ set_in T.place item self.old) }
        ensures err { OnErr result (self.new ≡ self.old) }
    {
        make_place(&mut self.items)?;
        set_in_room(&mut self.items, item);
        Ok(())
    }

    /// Puts an item last. Refused, it is dropped and the list stays.
    pub fn push(&mut self, item: T) -> Result<(), NoMemory>
        requires { IsOrdered T.place (self.old ++ item ∷ []) }
        ensures ok { OnOk result (self.new ≡ self.old ++ item ∷ []) }
        ensures err { OnErr result (self.new ≡ self.old) }
    {
        self.items.push(item)?;
        Ok(())
    }
}

impl<T: Placed + Copied + Drop> Copied for ByPlace<T> {
    fn copied(&self, alloc: Global) -> Result<ByPlace<T>, NoMemory> {
        let items = copied_items(alloc, &self.items)?;
        Ok(ByPlace { items })
    }
}

impl<T: Placed + Same> Same for ByPlace<T> {
    fn is(&self, other: &ByPlace<T>) -> bool {
        all_same(&self.items, &other.items)
    }
}
