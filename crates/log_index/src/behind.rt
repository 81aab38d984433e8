// Marks behind a place.
ghost use Rattle.std.specs.Prelude.{ℕ, ◌≡◌, ◌<◌, ◌≤◌, ◌||◌, ◌∷◌, [], length, true, IsTrue, OnOk, OnErr};
ghost use Rattle.std.specs.List.{All, Contains};
ghost use Rattle.lang_base.specs.Equal.{equal};
ghost use Rattle.dependency_index.specs.Numbers.{with_numbers};
ghost use Rattle.lang_core.specs.declared.writes.Write.{Write};
ghost use Rattle.lang_core.specs.contracts.writes.Write as write;
ghost use Rattle.log_index.specs.Marks.{is_among, is_marked, lacking, places_behind, reads_by, sees_behind, AreMarks, IsNoted, IsOneKey};

use crate::numbers::Marks;
use crate::places::Places;
use dependency_index::Index;
use lang_core::{NoMemory, Same, Write};
use std::alloc::Global;

// Marks where a label stands, if that is behind a place.
fn put_one(places: &Places, marks: &mut Marks, place: usize, label: u64)
    requires there { Contains places.now.labels label }
    requires marks { AreMarks (length places.now.labels) marks.old.items }
    requires room { length places.now.labels ≤ marks.old.spots }
    ensures items { marks.new.items ≡ with_numbers (places_behind places.now.labels place (label ∷ [])) marks.old.items }
    ensures marks { AreMarks (length places.now.labels) marks.new.items }
    ensures spots { marks.old.spots ≤ marks.new.spots }
{
    let at = places.place_of(label);
    if place < at {
        marks.put(at as u64);
    }
}

// Marks where these labels stand, those behind a place.
fn put_behind(places: &Places, marks: &mut Marks, place: usize, found: &[u64])
    requires there { All (Contains places.now.labels) found.now }
    requires marks { AreMarks (length places.now.labels) marks.old.items }
    requires room { length places.now.labels ≤ marks.old.spots }
    ensures items { marks.new.items ≡ with_numbers (places_behind places.now.labels place found.now) marks.old.items }
    ensures marks { AreMarks (length places.now.labels) marks.new.items }
    ensures spots { marks.old.spots ≤ marks.new.spots }
{
    for label in found {
        put_one(places, marks, place, *label);
    }
}

// Marks the entries behind a place that look at the cell of a write. Refused, the marks stay.
fn mark_write(
    alloc: Global,
    places: &Places,
    index: &Index,
    marks: &mut Marks,
    place: usize,
    write: &Write,
) -> Result<(), NoMemory>
    requires within { place < length places.now.labels }
    requires noted { IsNoted places.now.labels index.now.reads marks.old.items }
    requires room { length places.now.labels ≤ marks.old.spots }
    ensures ok { OnOk result ((q : ℕ) → is_marked q marks.new.items
        ≡ (is_marked q marks.old.items || sees_behind place (write.now ∷ []) (reads_by index.now.reads places.now.labels) q)) }
    ensures err { OnErr result (marks.new.items ≡ marks.old.items) }
    ensures noted { IsNoted places.now.labels index.now.reads marks.new.items }
    ensures spots { marks.old.spots ≤ marks.new.spots }
{
    let order = places.order();
    let from = places.label_at(place);
    let readers = index.readers_between(alloc, order, &write.table, &write.key, from, None)?;
    let scanners = index.scanners(alloc, &write.table, &write.key)?;
    put_behind(places, marks, place, readers.as_slice());
    put_behind(places, marks, place, scanners.as_slice());
    Ok(())
}

fn same_write(left: &Write, right: &Write) -> bool
    ensures { result ≡ equal write.the_row.coded left.now right.now }
{
    left.is(right)
}

fn is_among(write: &Write, others: &[Write]) -> bool
    ensures { result ≡ is_among others.now write.now }
{
    others.iter().any(|other| same_write(write, other))
}

/// Whether each of two lists has one write, both of one key. What looks at the one looks at the other then.
pub(crate) fn write_one_key(left: &[Write], right: &[Write]) -> bool
    ensures { result ≡ true → IsOneKey left.now right.now }
{
    if left.len() != 1 || right.len() != 1 {
        return false;
    }
    left[0].table.is(&right[0].table) && left[0].key.is(&right[0].key)
}

// Marks the entries behind a place that look at the cell of a write, unless it is among others. Refused, the marks stay.
fn mark_change(
    alloc: Global,
    places: &Places,
    index: &Index,
    marks: &mut Marks,
    place: usize,
    write: &Write,
    others: &[Write],
) -> Result<(), NoMemory>
    requires within { place < length places.now.labels }
    requires noted { IsNoted places.now.labels index.now.reads marks.old.items }
    requires room { length places.now.labels ≤ marks.old.spots }
    ensures ok { OnOk result ((q : ℕ) → is_marked q marks.new.items
        ≡ (is_marked q marks.old.items || sees_behind place (lacking others.now (write.now ∷ [])) (reads_by index.now.reads places.now.labels) q)) }
    ensures err { OnErr result (marks.new.items ≡ marks.old.items) }
    ensures noted { IsNoted places.now.labels index.now.reads marks.new.items }
    ensures spots { marks.old.spots ≤ marks.new.spots }
{
    if is_among(write, others) {
        return Ok(());
    }
    mark_write(alloc, places, index, marks, place, write)
}

/// Marks the entries behind a place that look at a cell of these writes, but for those that are among others. Each is looked
/// for from their front on: so it was too when its own list was made. Refused, some of them may be marked.
pub(crate) fn mark_writes(
    alloc: Global,
    places: &Places,
    index: &Index,
    marks: &mut Marks,
    place: usize,
    writes: &[Write],
    others: &[Write],
) -> Result<(), NoMemory>
    requires within { place < length places.now.labels }
    requires noted { IsNoted places.now.labels index.now.reads marks.old.items }
    requires room { length places.now.labels ≤ marks.old.spots }
    ensures ok { OnOk result ((q : ℕ) → is_marked q marks.new.items
        ≡ (is_marked q marks.old.items || sees_behind place (lacking others.now writes.now) (reads_by index.now.reads places.now.labels) q)) }
    ensures err { OnErr result ((q : ℕ) → IsTrue (is_marked q marks.old.items) → IsTrue (is_marked q marks.new.items)) }
    ensures noted { IsNoted places.now.labels index.now.reads marks.new.items }
    ensures spots { marks.old.spots ≤ marks.new.spots }
{
    for write in writes {
        mark_change(alloc, places, index, marks, place, write, others)?;
    }
    Ok(())
}
