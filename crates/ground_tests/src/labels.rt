ghost use Rattle.std.specs.Prelude.{◌≡◌, IfSome};
ghost use Rattle.std.specs.List.{Contains};

use place_order::{MOST_LABELS, Order, OrderFull};
use std::cmp::Ordering;

fn last_of(order: &mut Order) -> Option<u64>
    ensures { IfSome result (Contains order.new.labels) }
{
    order.append().ok()
}

// So many labels, each before the one made last; gives the last.
fn grow(order: &mut Order, first: u64, count: u64) -> Option<u64>
    requires { Contains order.old.labels first }
    ensures first { Contains order.new.labels first }
    ensures last { IfSome result (Contains order.new.labels) }
{
    let mut last = first;
    for _turn in 0..count {
        match order.insert_before(last) {
            Ok(made) => last = made,
            Err(_) => return None,
        }
    }
    Some(last)
}

// How the label made last compares with the first, and what the next call answers.
fn grown(order: &mut Order, count: u64) -> Option<(Ordering, Result<u64, OrderFull>)> {
    let first = last_of(order)?;
    let last = grow(order, first, count)?;
    let compared = order.compare(last, first);
    Some((compared, order.insert_before(last)))
}

// The same, behind a label that stays the first.
fn grown_between(order: &mut Order, count: u64) -> Option<Ordering> {
    last_of(order)?;
    grown(order, count).map(|(compared, _)| compared)
}

// So many labels, each at the end; whether each was made.
fn append(order: &mut Order, count: u64) -> bool {
    for _turn in 0..count {
        if order.append().is_err() {
            return false;
        }
    }
    true
}

// Each label at the front moves all others, so where the test is run with checks a hundred thousand of these take minutes.
#[test]
fn thousands_each_before_the_last(rt: HostRuntime) {
    let mut order = Order::new(rt.alloc());
    assert!(rt; grown(&mut order, 5_000) == Some((Ordering::Less, Ok(5_001))));
}

// Most at the end, and the last ten thousand each before the last.
#[test]
fn a_hundred_thousand_and_no_more(rt: HostRuntime) {
    let mut order = Order::new(rt.alloc());
    assert!(rt; append(&mut order, MOST_LABELS - 10_000));
    let grown = grown(&mut order, 9_999);
    assert!(rt; grown == Some((Ordering::Less, Err(OrderFull::Full))));
    assert!(rt; order.append() == Err(OrderFull::Full));
}

#[test]
fn a_thousand_between_two(rt: HostRuntime) {
    let mut order = Order::new(rt.alloc());
    assert!(rt; grown_between(&mut order, 1000) == Some(Ordering::Less));
}

#[test]
fn room_is_made_and_used(rt: HostRuntime) {
    let mut order = Order::new(rt.alloc());
    assert!(rt; order.ready_append().is_ok() && order.ready_append().is_ok());
    assert!(rt; order.append() == Ok(0) && order.append() == Ok(1));
    assert!(rt; order.append() == Ok(2));
}
