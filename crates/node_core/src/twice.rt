// Looking for two that are of one row.
ghost use Rattle.std.specs.Prelude.{ℕ, ◌≡◌, ◌<◌, ◌↔◌, ◌++◌, ◌∷◌, [], List, length, map, slice_get, IfOk, OnOk, IfSome, IfNone, IsSomeAnd, IsTrue};
ghost use Rattle.node_core.specs.Closings.{row_key, ApartBy, SameRow};

use lang_core::{Name, NoMemory, Same};
use lang_lists::{HashIndex, call_key};
use std::alloc::Global;

/// What is kept of one row of a service's journal.
pub trait OfRow {
    ghost service: { Self → List ℕ };

    ghost index: { Self → ℕ };

    /// The service.
    fn service(&self) -> &Name
        ensures { result.now ≡ service self.now };

    /// The row's index in the service's journal.
    fn index(&self) -> u64
        ensures { result ≡ index self.now };
}

// The key under which it is found: that of its service's name and the row's index there.
fn row_key<T: OfRow>(item: &T) -> u64
    ensures { result ≡ row_key T.service T.index item.now }
{
    call_key(item.service().text(), item.index())
}

// Numbers are compared first: they differ more often than names do.
fn is_same_row<T: OfRow>(left: &T, right: &T) -> bool
    ensures { IsTrue result ↔ SameRow T.service T.index left.now right.now }
{
    left.index() == right.index() && left.service().is(right.service())
}

// Where one among these stands that is of the same row, looked for among those of its key.
fn earlier<T: OfRow>(items: &[T], keys: &HashIndex, item: &T) -> Option<usize>
    requires { keys.now.keys ≡ map (row_key T.service T.index) items.now }
    ensures none { IfNone result ((at : ℕ) (r : _) → slice_get items.now at ≡ Some r → ¬ SameRow T.service T.index r item.now) }
    ensures some { IfSome result (λ at. IsSomeAnd (slice_get items.now at) (λ r. SameRow T.service T.index r item.now)) }
{
    let mut end = keys.end_of(row_key(item));
    while end > 0 {
        if is_same_row(&items[end - 1], item) {
            return Some(end - 1);
        }
        end = keys.end_before(end - 1);
    }
    None
}

fn note<T: OfRow>(keys: &mut HashIndex, item: &T) -> Result<(), NoMemory>
    ensures { OnOk result (keys.new.keys ≡ keys.old.keys ++ row_key T.service T.index item.now ∷ []) }
{
    keys.reserve(1)?;
    keys.push(row_key(item));
    Ok(())
}

/// Where two stand that are of one row, the first of them first; None exactly where no two are. It takes as many steps as
/// there are items, and a few more where some have the same key.
pub(crate) fn first_twice<T: OfRow>(
    alloc: Global,
    items: &[T],
) -> Result<Option<(usize, usize)>, NoMemory>
    ensures none { IfOk result (λ twice. IfNone twice (ApartBy T.service T.index items.now)) }
    ensures some { IfOk result (λ twice. IfSome twice (λ p. (p.0 < p.1) × (p.1 < length items.now)
        × ((r : _) (t : _) → slice_get items.now p.0 ≡ Some r → slice_get items.now p.1 ≡ Some t → SameRow T.service T.index r t))) }
{
    let mut keys = HashIndex::new(alloc);
    for (at, item) in items.iter().enumerate() {
        if let Some(first) = earlier(&items[..at], &keys, item) {
            return Ok(Some((first, at)));
        }
        note(&mut keys, item)?;
    }
    Ok(None)
}
