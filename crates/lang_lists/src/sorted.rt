// Lists in the order of their items' numbers.
ghost use Rattle.std.specs.Prelude.{ℕ, ◌≡◌, ◌≢◌, ◌+◌, ◌<◌, ◌≤◌, [], true, false, length, find, slice_get, slice_index_or, IfOk, IsOk, IsSome, OnOk, OnErr, vec_len, vec_capacity};
ghost use Rattle.std.specs.List.{AllWithin};
ghost use Rattle.std.specs.Option.{option_copied};
ghost use Rattle.std.specs.Result.{MatchResult};
ghost use Rattle.lang_lists.specs.Numbers.{has_number, without_number, with_item, RisesFrom, IsRising, IsAt, IsMissing};

use crate::halves::count_front;
use lang_base::{Copied, NoMemory, copied_items};
use std::alloc::Global;
use std::marker::Model;

/// What has a number of its own.
pub trait Numbered {
    ghost number: { Self → ℕ };

    /// Its number.
    fn number(&self) -> u64
        ensures { result ≡ number self.now };
}

// How many of these have lower numbers.
fn count_below<T: Numbered>(items: &[T], number: u64) -> usize
    requires { IsRising T.number items.now }
    ensures within { result ≤ length items.now }
    ensures front { AllWithin (λ x. T.number x < number) items.now 0 result }
    ensures rest { AllWithin (λ x. number ≤ T.number x) items.now result (length items.now) }
{
    count_front(items, |item| item.number() < number)
}

fn stands_at<T: Numbered>(items: &[T], at: usize, number: u64) -> bool
    requires { at ≤ length items.now }
    ensures there { result ≡ true → at < length items.now }
    ensures here { result ≡ true → (d : T) → T.number (slice_index_or items.now at d) ≡ number }
    ensures other { result ≡ false → (d : T) → at < length items.now → T.number (slice_index_or items.now at d) ≢ number }
{
    if at == items.len() {
        return false;
    }
    items[at].number() == number
}

/// The place of the item of a number among items in the order of their numbers; where there is none, the place where it
/// would stand.
pub fn search_number<T: Numbered>(items: &[T], number: u64) -> Result<usize, usize>
    requires { IsRising T.number items.now }
    ensures { MatchResult result (IsAt T.number number items.now) (IsMissing T.number number items.now) }
{
    let at = count_below(items, number);
    if stands_at(items, at, number) {
        Ok(at)
    } else {
        Err(at)
    }
}

fn item_at<T>(items: &[T], place: usize) -> Option<&T>
    ensures { option_copied result ≡ slice_get items.now place }
{
    items.get(place)
}

/// The item of a number among items in the order of their numbers; None exactly where there is none.
pub fn find_number<T: Numbered>(items: &[T], number: u64) -> Option<&T>
    requires { IsRising T.number items.now }
    ensures { option_copied result ≡ find (has_number T.number number) items.now }
{
    match search_number(items, number) {
        Ok(place) => item_at(items, place),
        Err(_) => None,
    }
}

fn put_in<T: Numbered + Drop>(list: &mut Vec<T>, item: T) -> Result<(), NoMemory>
    requires { IsRising T.number list.old.items }
    ensures ok { OnOk result (list.new.items ≡ with_item T.number item list.old.items) }
    ensures err { OnErr result (list.new.items ≡ list.old.items) }
    ensures rising { IsRising T.number list.new.items }
    ensures ready { vec_len list.old < vec_capacity list.old → IsOk result }
    ensures known { IsSome (find (has_number T.number (T.number item)) list.old.items) → IsOk result }
    ensures len { vec_len list.new ≤ vec_len list.old + 1 }
    ensures capacity { vec_capacity list.old ≤ vec_capacity list.new }
{
    match search_number(list, item.number()) {
        Ok(place) => list[place] = item,
        Err(place) => list.insert(place, item)?,
    }
    Ok(())
}

fn remove_from<T: Numbered>(list: &mut Vec<T>, number: u64) -> Option<T>
    requires { IsRising T.number list.old.items }
    ensures found { result ≡ find (has_number T.number number) list.old.items }
    ensures items { list.new.items ≡ without_number T.number number list.old.items }
    ensures rising { IsRising T.number list.new.items }
    ensures len { vec_len list.new ≤ vec_len list.old }
    ensures capacity { vec_capacity list.new ≡ vec_capacity list.old }
{
    match search_number(list, number) {
        Ok(place) => Some(list.remove(place)),
        Err(_) => None,
    }
}

/// Items in the order of their numbers, of which no two have one, with spare room. Each is found by halves.
#[derive(Drop)]
pub struct Sorted<T: Numbered> {
    list: Vec<T>,
}

impl<T: Numbered> Model for Sorted<T> {
    ghost use Rattle.std.specs.Prelude.{◌-◌, vec_len, vec_capacity};
    ghost use Rattle.lang_lists.specs.Numbers.{KeptSorted, IsRising};

    ghost Value = { KeptSorted T };

    ghost view = { λ s. record { list = s.list.items; spare = vec_capacity s.list - vec_len s.list } };

    ghost invariant = { λ s. IsRising T.number s.list.items };
}

impl<T: Numbered> Sorted<T> {
    /// No items.
    pub fn new(alloc: Global) -> Sorted<T>
        ensures { result.list ≡ [] }
    {
        Sorted {
            list: Vec::new(alloc),
        }
    }

    /// The items, in the order of their numbers.
    pub fn as_slice(&self) -> &[T]
        ensures { result.now ≡ self.now.list }
    {
        self.list.as_slice()
    }

    /// How many items there are.
    pub fn len(&self) -> u64
        ensures { result ≡ length self.now.list }
    {
        self.list.len() as u64
    }

    /// The item of a number; None exactly where there is none.
    pub fn find(&self, number: u64) -> Option<&T>
        ensures { option_copied result ≡ find (has_number T.number number) self.now.list }
    {
        find_number(&self.list, number)
    }

    /// Takes out the item of a number, and hands it back; None exactly where there is none. There is no less room then.
    pub fn remove(&mut self, number: u64) -> Option<T>
        ensures found { result ≡ find (has_number T.number number) self.old.list }
        ensures list { self.new.list ≡ without_number T.number number self.old.list }
        ensures spare { self.old.spare ≤ self.new.spare }
    {
        remove_from(&mut self.list, number)
    }
}

impl<T: Numbered + Drop> Sorted<T> {
    /// Makes room for so many items more. Refused, there is as much as before, and the items stay.
    pub fn reserve(&mut self, more: u64) -> Result<(), NoMemory>
        ensures list { self.new.list ≡ self.old.list }
        ensures ok { OnOk result (more ≤ self.new.spare) }
        ensures spare { self.old.spare ≤ self.new.spare }
    {
        self.list.reserve(more as usize)?;
        Ok(())
    }

    /// Puts an item where its number belongs, in place of the one of its number, if there is one, which takes no memory;
    /// nor does it take any where there is room. Refused, it is dropped and the items stay.
    pub fn put(&mut self, item: T) -> Result<(), NoMemory>
        ensures ok { OnOk result (self.new.list ≡ with_item T.number item self.old.list) }
        ensures err { OnErr result (self.new.list ≡ self.old.list) }
        ensures ready { 0 < self.old.spare → IsOk result }
        ensures known { IsSome (find (has_number T.number (T.number item)) self.old.list) → IsOk result }
        ensures spare { self.old.spare ≤ self.new.spare + 1 }
    {
        put_in(&mut self.list, item)
    }
}

impl<T: Numbered + Copied + Drop> Sorted<T> {
    /// Equal items; nothing is said of their room.
    pub fn copied(&self, alloc: Global) -> Result<Sorted<T>, NoMemory>
        ensures { IfOk result (λ copy. copy.list ≡ self.now.list) }
    {
        let list = copied_items(alloc, &self.list)?;
        Ok(Sorted { list })
    }
}
