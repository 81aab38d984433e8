// Labels of an order, by the places of what stands at them.
ghost use Rattle.std.specs.Prelude.{ℕ, List, ◌≡◌, ◌<◌, ◌∷◌, [], ◌++◌, length, insert, IsTrue, OnOk, OnErr};
ghost use Rattle.std.specs.List.{Contains};
ghost use Rattle.std.specs.Option.{ForSome};
ghost use Rattle.lang_lists.specs.Room.{is_made};
ghost use Rattle.place_order.specs.Labels.{IsNew};
ghost use Rattle.place_order.specs.Rising.{IsRising};
ghost use Rattle.place_order.specs.Rooms.{call_code};
ghost use Rattle.log_index.specs.Rows.{label_at, call_before, place_before};

use lang_core::NoMemory;
use place_order::Order;
use versioned_rows::PlaceWrites;

/// The label of what stands at a place; None exactly past the end.
pub(crate) fn label_at(places: &[PlaceWrites], place: usize) -> Option<u64>
    ensures { result ≡ label_at place places.now }
{
    match places.get(place) {
        None => None,
        Some(found) => Some(found.label),
    }
}

/// Makes room for a label before this one, or last where there is none.
pub(crate) fn ready_label(order: &mut Order, next: Option<u64>) -> Result<(), NoMemory>
    ensures labels { order.new.labels ≡ order.old.labels }
    ensures ok { OnOk result (order.new.room ≡ order.old.room ++ call_before next ∷ []) }
    ensures err { OnErr result (order.new.room ≡ order.old.room) }
{
    match next {
        None => order.ready_append(),
        Some(_) => order.ready_insert_before(),
    }
}

/// A new label before this one, or last where there is none. There is room for it.
pub(crate) fn new_label(order: &mut Order, next: Option<u64>) -> u64
    requires next { ForSome next (Contains order.old.labels) }
    requires few { length order.old.labels < 100000 }
    requires ready { IsTrue (is_made call_code (call_before next) order.old.room) }
    ensures labels { order.new.labels ≡ insert order.old.labels (place_before next order.old.labels) result }
    ensures is_new { IsNew result order.old.labels }
    ensures rising { (labels : List ℕ) → IsRising order.old.labels labels → IsRising order.new.labels labels }
{
    match next {
        None => order.append().unwrap(),
        Some(next) => order.insert_before(next).unwrap(),
    }
}
