// How many of a list stand before a label, found by halves.
ghost use Rattle.std.specs.Prelude.{ℕ, ◌≡◌, ◌<◌, ◌≤◌, length, filter, map, nat_eq, position, take, true, false, slice_index_or};
ghost use Rattle.std.specs.List.{Contains};
ghost use Rattle.std.specs.Option.{ForSome};
ghost use Rattle.place_order.specs.Rising.{IsRising, is_before};

use lang_lists::count_front;
use place_order::Order;

/// What stands at a label of an order.
pub trait Labelled {
    ghost label: { Self → ℕ };

    /// The label.
    fn label(&self) -> u64
        ensures { result ≡ label self.now };
}

impl Labelled for u64 {
    ghost label = { λ n. n };

    fn label(&self) -> u64 {
        *self
    }
}

/// Whether a label stands before another; each does where there is none.
pub fn is_before(order: &Order, label: u64, end: Option<u64>) -> bool
    requires label { Contains order.now.labels label }
    requires end { ForSome end (Contains order.now.labels) }
    ensures { result ≡ is_before order.now.labels end label }
{
    match end {
        None => true,
        Some(end) => order.compare(label, end).is_lt(),
    }
}

/// How many of these stand before a label; all do where there is none.
pub fn count_before<T: Labelled>(order: &Order, items: &[T], end: Option<u64>) -> usize
    requires rising { IsRising order.now.labels (map T.label items.now) }
    requires end { ForSome end (Contains order.now.labels) }
    ensures within { result ≤ length items.now }
    ensures front { (i : ℕ) (d : T) → i < result → is_before order.now.labels end (T.label (slice_index_or items.now i d)) ≡ true }
    ensures rest { (i : ℕ) (d : T) → result ≤ i → i < length items.now → is_before order.now.labels end (T.label (slice_index_or items.now i d)) ≡ false }
    ensures count { filter (λ x. is_before order.now.labels end (T.label x)) items.now ≡ take result items.now }
{
    count_front(
        items,
        |item: &T|
            requires label { Contains order.now.labels (T.label item.now) }
            requires end { ForSome end (Contains order.now.labels) }
        { is_before(order, item.label(), end) },
    )
}

/// Whether the item at the place of this number has this label. Labels are given from 0 on, so each item of a list does that has all
/// of them in the order in which they were given.
pub fn stands_there<T: Labelled>(items: &[T], label: u64) -> bool
    ensures there { result ≡ true → label < length items.now }
    ensures is { result ≡ true → (d : T) → T.label (slice_index_or items.now label d) ≡ label }
{
    let at = label as usize;
    if at >= items.len() {
        return false;
    }
    items[at].label() == label
}

/// Where the one of a label stands, if it is there: at the place of its number, or found by halves.
pub fn position_in<T: Labelled>(order: &Order, items: &[T], label: u64) -> Option<usize>
    requires rising { IsRising order.now.labels (map T.label items.now) }
    requires label { Contains order.now.labels label }
    ensures { result ≡ position (λ x. nat_eq (T.label x) label) items.now }
{
    if stands_there(items, label) {
        return Some(label as usize);
    }
    let at = count_before(order, items, Some(label));
    if at == items.len() {
        return None;
    }
    if items[at].label() == label {
        Some(at)
    } else {
        None
    }
}
