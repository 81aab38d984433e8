// Numbers that rise, searched by halves.
ghost use Rattle.std.specs.Prelude.{ℕ, ◌≡◌, ◌≢◌, ◌<◌, ◌≤◌, true, false, length, map, filter, take, drop, nat_lt, slice_index_or, OnOk, OnErr, vec_capacity};
ghost use Rattle.lang_core.specs.Places.{IsRank, past};
ghost use Rattle.dependency_index.specs.Numbers.{Rises, with_number};

use key_labels::{Labelled, stands_there};
use lang_core::NoMemory;
use lang_lists::count_front;

// How many of these have lower labels.
fn count_below<T: Labelled>(items: &[T], label: u64) -> usize
    requires { Rises (map T.label items.now) }
    ensures within { result ≤ length items.now }
    ensures front { (i : ℕ) (d : T) → i < result → T.label (slice_index_or items.now i d) < label }
    ensures rest { (i : ℕ) (d : T) → result ≤ i → i < length items.now → label ≤ T.label (slice_index_or items.now i d) }
{
    if stands_there(items, label) {
        return label as usize;
    }
    count_front(items, |item| item.label() < label)
}

fn stands_at<T: Labelled>(items: &[T], at: usize, label: u64) -> bool
    requires { at ≤ length items.now }
    ensures there { result ≡ true → at < length items.now }
    ensures here { result ≡ true → (d : T) → T.label (slice_index_or items.now at d) ≡ label }
    ensures other { result ≡ false → (d : T) → at < length items.now → T.label (slice_index_or items.now at d) ≢ label }
{
    if at == items.len() {
        return false;
    }
    items[at].label() == label
}

/// How many of these have lower labels, and whether one has this one.
pub fn seek_number<T: Labelled>(items: &[T], label: u64) -> (usize, bool)
    requires { Rises (map T.label items.now) }
    ensures below { filter (λ x. nat_lt (T.label x) label) items.now ≡ take result.0 items.now }
    ensures above { filter (λ x. nat_lt label (T.label x)) items.now ≡ drop (past result.1 result.0) items.now }
    ensures within { IsRank result.0 result.1 (length items.now) }
    ensures here { result.1 ≡ true → (d : T) → T.label (slice_index_or items.now result.0 d) ≡ label }
{
    let at = count_below(items, label);
    (at, stands_at(items, at, label))
}

/// Puts a number in, if it isn't there yet, where there is room for it.
pub fn put_reserved(numbers: &mut Vec<u64>, number: u64)
    requires rising { Rises numbers.old.items }
    requires fits { length (with_number number numbers.old.items) ≤ vec_capacity numbers.old }
    ensures items { numbers.new.items ≡ with_number number numbers.old.items }
    ensures capacity { vec_capacity numbers.old ≤ vec_capacity numbers.new }
{
    let (at, taken) = seek_number(numbers, number);
    if taken {
        return;
    }
    let _ = numbers.insert(at, number);
}

/// Puts a number in, if it isn't there yet.
pub(crate) fn put_number(numbers: &mut Vec<u64>, number: u64) -> Result<(), NoMemory>
    requires { Rises numbers.old.items }
    ensures ok { OnOk result (numbers.new.items ≡ with_number number numbers.old.items) }
    ensures err { OnErr result (numbers.new.items ≡ numbers.old.items) }
{
    numbers.reserve(1)?;
    put_reserved(numbers, number);
    Ok(())
}
