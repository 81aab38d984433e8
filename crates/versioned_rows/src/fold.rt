// The first places leave: what they wrote stands before all others then.
ghost use Rattle.std.specs.Prelude.{ℕ, List, ◌≡◌, ◌≤◌, ◌++◌, drop, length, map, take, IfOk, OnOk, vec_len, vec_capacity, if◌then◌else◌};
ghost use Rattle.std.specs.List.{Contains};
ghost use Rattle.std.specs.Option.{ForSome};
ghost use Rattle.lang_core.specs.Places.{IsOrdered};
ghost use Rattle.lang_core.specs.Rows.{get};
ghost use Rattle.lang_core.specs.declared.writes.Write.{Write};
ghost use Rattle.place_order.specs.Rising.{IsRising};
ghost use Rattle.key_labels.specs.Labels.{behind};
ghost use Rattle.key_labels.specs.Rows.{base_in, labels_in, row_place, spare_in};
ghost use Rattle.versioned_rows.specs.Places.{is_written_by, label_behind, label_of, rows_after, texts_of};
ghost use Rattle.versioned_rows.specs.Versions.{base_cells, IsIndexed};

use crate::places::PlaceWrites;
use crate::rows::settle_writes;
use key_labels::KeyRows;
use lang_core::{Copied, NoMemory, Text, Write};
use place_order::Order;
use std::alloc::Global;
use std::collections::VecDeque;

// Puts the texts of these writes behind others.
fn add_texts(
    alloc: Global,
    texts: &mut VecDeque<Option<Text>>,
    writes: &[Write],
) -> Result<(), NoMemory>
    ensures ok { OnOk result (texts.new.items ≡ texts.old.items ++ map (λ (w : Write). w.text) writes.now) }
{
    for write in writes {
        texts.push_back(Copied::copied(&write.text, alloc)?)?;
    }
    Ok(())
}

/// The texts that these places wrote, one after the other.
pub(crate) fn texts_of(
    alloc: Global,
    places: &[PlaceWrites],
) -> Result<VecDeque<Option<Text>>, NoMemory>
    ensures { IfOk result (λ texts. texts.items ≡ texts_of places.now) }
{
    let mut texts = VecDeque::new(alloc);
    for place in places {
        add_texts(alloc, &mut texts, place.writes.as_slice())?;
    }
    Ok(texts)
}

// The label of the place behind so many, if there is one.
fn label_behind(places: &[PlaceWrites], n: usize) -> Option<u64>
    requires { n ≤ length places.now }
    ensures { result ≡ label_behind n places.now }
{
    if n == places.len() {
        return None;
    }
    Some(places[n].label)
}

// Puts the texts that these places wrote before all labels, and takes the labels of all before one out of the rows.
fn settle_all(
    order: &Order,
    places: &[PlaceWrites],
    rows: &mut KeyRows,
    n: usize,
    end: Option<u64>,
    mut texts: VecDeque<Option<Text>>,
)
    requires indexed { IsIndexed places.now rows.old.items }
    requires rising { IsRising order.now.labels (map label_of places.now) }
    requires within { n ≤ length places.now }
    requires end { ForSome end (Contains order.now.labels) }
    requires texts { texts.items ≡ texts_of (take n places.now) }
    ensures ordered { IsOrdered row_place rows.new.items }
    ensures each { (t k : List ℕ) → labels_in rows.new.items t k
        ≡ (if is_written_by t k (take n places.now) then behind order.now.labels end (labels_in rows.old.items t k) else labels_in rows.old.items t k) }
    ensures bases { (t k : List ℕ) → base_in rows.new.items t k ≡ get (rows_after (base_cells rows.old.items) (take n places.now)) t k }
    ensures spare { (t k : List ℕ) → spare_in rows.old.items t k ≤ spare_in rows.new.items t k }
{
    for at in 0..n {
        settle_writes(order, rows, places[at].writes.as_slice(), end, &mut texts);
    }
}

fn drop_front(places: &mut Vec<PlaceWrites>, n: usize)
    requires { n ≤ vec_len places.old }
    ensures items { places.new.items ≡ drop n places.old.items }
    ensures len { vec_len places.new ≤ vec_len places.old }
    ensures capacity { vec_capacity places.old ≤ vec_capacity places.new }
{
    let _ = places.drain(..n);
}

/// Takes so many of the first places out, whose texts are these: what they wrote stands before all others then.
pub(crate) fn fold_places(
    order: &Order,
    places: &mut Vec<PlaceWrites>,
    rows: &mut KeyRows,
    n: usize,
    texts: VecDeque<Option<Text>>,
)
    requires indexed { IsIndexed places.old.items rows.old.items }
    requires rising { IsRising order.now.labels (map label_of places.old.items) }
    requires within { n ≤ vec_len places.old }
    requires texts { texts.items ≡ texts_of (take n places.old.items) }
    ensures places { places.new.items ≡ drop n places.old.items }
    ensures base { base_cells rows.new.items ≡ rows_after (base_cells rows.old.items) (take n places.old.items) }
    ensures indexed { IsIndexed places.new.items rows.new.items }
    ensures spare { (t k : List ℕ) → spare_in rows.old.items t k ≤ spare_in rows.new.items t k }
    ensures len { vec_len places.new ≤ vec_len places.old }
    ensures capacity { vec_capacity places.old ≤ vec_capacity places.new }
{
    let end = label_behind(places, n);
    settle_all(order, places, rows, n, end, texts);
    drop_front(places, n);
}
