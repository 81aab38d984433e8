// Four hundred drawn operations on versions, and on a list of what each place wrote beside them: with a few keys, and with so many
// that what finds them by hash grows several times.
ghost use Rattle.std.specs.Prelude.{ℕ, List, ◌≡◌, ◌<◌, [], ◌∷◌, ◌++◌, map, IfOk, OnOk};
ghost use Rattle.std.specs.List.{All, Contains};
ghost use Rattle.std.specs.Option.{ForSome};
ghost use Rattle.place_order.specs.Rising.{IsRising};
ghost use Rattle.versioned_rows.specs.Places.{label_of};

use lang_core::{
    Cells, Copied, NoMemory, Same, SharedWrites, Text, Write, Writes, apply_writes, row_get,
    row_scan,
};
use place_order::{Order, OrderFull};
use std::alloc::Global;
use std::process::Abort;
use versioned_rows::Versions;

const PLACES: u64 = 12;

const TURNS: u64 = 400;

/// Numbers that are the same in each run, of few keys or of many, and that of the key drawn last.
#[derive(Drop)]
struct Draws {
    last: u64,
    many: bool,
    near: u64,
}

impl Draws {
    fn below(&mut self, end: u64) -> u64
        requires { 0 < end }
        ensures { result < end }
    {
        self.last = self
            .last
            .wrapping_mul(6364136223846793005)
            .wrapping_add(1442695040888963407);
        (self.last >> 33) % end
    }

    // One of a few keys, or one of many: any of them, the one behind the last, or the one before it.
    fn key(&mut self) -> u64 {
        if !self.many {
            return self.below(13);
        }
        let near = self.near;
        self.near = match self.below(4) {
            0 => self.below(1000),
            1 => near.wrapping_add(1) % 1000,
            _ => near.wrapping_add(999) % 1000,
        };
        self.near
    }

    // What is looked for: such a key, or one of a few under which many are.
    fn sought(&mut self) -> u64 {
        if self.below(2) == 0 {
            return self.below(13);
        }
        self.key()
    }

    fn count(&mut self) -> u64 {
        if self.many {
            return self.below(30);
        }
        self.below(4)
    }
}

/// The rows before all places, and what each place wrote.
#[derive(Drop)]
struct Plain {
    base: Cells,
    places: Vec<SharedWrites>,
}

impl Plain {
    fn new(alloc: Global) -> Result<Plain, NoMemory> {
        let mut places = Vec::new(alloc);
        for _ in 0..PLACES {
            places.push(SharedWrites::new())?;
        }
        Ok(Plain {
            base: Cells::new(alloc),
            places,
        })
    }

    // The rows before a place, made by all writes before it.
    fn rows_before(&self, alloc: Global, place: u64) -> Result<Cells, NoMemory> {
        let mut rows = self.base.copied(alloc)?;
        for at in 0..place {
            match self.places.get(at as usize) {
                None => {}
                Some(writes) => apply_writes(alloc, &mut rows, writes)?,
            }
        }
        Ok(rows)
    }

    // The rows behind a place become those before all, and it and all before it wrote nothing any more.
    fn fold(&mut self, alloc: Global, last: u64) -> Result<(), NoMemory> {
        self.base = self.rows_before(alloc, last.saturating_add(1))?;
        for place in 0..last.saturating_add(1) {
            self.put(place, SharedWrites::new());
        }
        Ok(())
    }

    fn put(&mut self, place: u64, writes: SharedWrites) {
        match self.places.get_mut(place as usize) {
            None => {}
            Some(own) => *own = writes,
        }
    }
}

fn push(labels: &mut Vec<u64>, label: u64) -> Result<(), NoMemory>
    ensures { OnOk result (labels.new.items ≡ labels.old.items ++ label ∷ []) }
{
    labels.push(label)?;
    Ok(())
}

fn labels_of(alloc: Global, order: &mut Order) -> Result<Vec<u64>, OrderFull>
    ensures { IfOk result (λ labels. All (Contains order.new.labels) labels.items) }
{
    let mut labels = Vec::new(alloc);
    for _turn in 0..PLACES {
        let label = order.append()?;
        push(&mut labels, label)?;
    }
    Ok(labels)
}

fn label_at(labels: &[u64], place: u64) -> Option<u64>
    ensures { (known : List ℕ) → All (Contains known) labels.now → ForSome result (Contains known) }
{
    match labels.get(place as usize) {
        None => None,
        Some(label) => Some(*label),
    }
}

// Its digits, and none for 0: 1 is a prefix of 10, and 10 of 100.
fn key_text(alloc: Global, key: u64) -> Result<Text, NoMemory> {
    if key == 0 {
        return Ok(Text::of(alloc, "")?);
    }
    Text::shared(format!(in alloc; "{key}")?)
}

// That text put at a key, or the key dropped.
fn write(alloc: Global, key: Text, text: Option<&str>) -> Result<Write, NoMemory> {
    let text = match text {
        None => None,
        Some(text) => Some(Text::of(alloc, text)?),
    };
    let table = Text::of(alloc, "notes")?;
    Ok(Write { table, key, text })
}

fn drawn_write(alloc: Global, draws: &mut Draws) -> Result<Write, NoMemory> {
    let key = key_text(alloc, draws.key())?;
    match draws.below(3) {
        0 => write(alloc, key, None),
        1 => write(alloc, key, Some("one")),
        _ => write(alloc, key, Some("two")),
    }
}

fn drawn_writes(alloc: Global, draws: &mut Draws) -> Result<SharedWrites, NoMemory> {
    let mut writes = Writes::new(alloc);
    for _ in 0..draws.count() {
        writes.set(drawn_write(alloc, draws)?)?;
    }
    SharedWrites::of(alloc, writes)
}

fn write_at(
    alloc: Global,
    order: &Order,
    versions: &mut Versions,
    plain: &mut Plain,
    place: u64,
    label: u64,
    draws: &mut Draws,
) -> Result<(), NoMemory>
    requires rising { IsRising order.now.labels (map label_of versions.old.versions) }
    requires label { Contains order.now.labels label }
    ensures { OnOk result (IsRising order.now.labels (map label_of versions.new.versions)) }
{
    let writes = drawn_writes(alloc, draws)?;
    versions.ready_write_at(alloc, &writes)?;
    versions.write_at(alloc, order, label, &writes)?;
    plain.put(place, writes);
    Ok(())
}

// The first places are folded, up to one: the rows that they left become those before all places.
fn fold_first(
    alloc: Global,
    order: &Order,
    versions: &mut Versions,
    plain: &mut Plain,
    label: u64,
) -> Result<(), NoMemory>
    requires rising { IsRising order.now.labels (map label_of versions.old.versions) }
    ensures { OnOk result (IsRising order.now.labels (map label_of versions.new.versions)) }
{
    let n = versions
        .as_slice()
        .iter()
        .take_while(|place| place.label <= label)
        .count();
    let texts = versions.first_texts(alloc, n)?;
    plain.fold(alloc, label)?;
    versions.fold_first(order, n, texts);
    Ok(())
}

fn change(
    alloc: Global,
    order: &Order,
    versions: &mut Versions,
    plain: &mut Plain,
    place: u64,
    label: u64,
    draws: &mut Draws,
) -> Result<(), NoMemory>
    requires rising { IsRising order.now.labels (map label_of versions.old.versions) }
    requires label { Contains order.now.labels label }
    ensures { OnOk result (IsRising order.now.labels (map label_of versions.new.versions)) }
{
    match draws.below(8) {
        0 => {
            fold_first(alloc, order, versions, plain, label)?;
            Ok(())
        }
        1 => {
            versions.take_back(label);
            plain.put(place, SharedWrites::new());
            Ok(())
        }
        _ => write_at(alloc, order, versions, plain, place, label, draws),
    }
}

fn gets_agree(
    order: &Order,
    versions: &Versions,
    rows: &Cells,
    label: Option<u64>,
    table: &Text,
    key: &Text,
) -> bool
    requires rising { IsRising order.now.labels (map label_of versions.now.versions) }
    requires label { ForSome label (Contains order.now.labels) }
{
    match row_get(rows, table, key) {
        None => versions.get_before(order, label, table, key).is_none(),
        Some(text) => match versions.get_before(order, label, table, key) {
            None => false,
            Some(found) => found.is(text),
        },
    }
}

fn scans_agree(
    alloc: Global,
    order: &Order,
    versions: &Versions,
    rows: &Cells,
    label: Option<u64>,
    table: &Text,
    prefix: &Text,
) -> Result<bool, NoMemory>
    requires rising { IsRising order.now.labels (map label_of versions.now.versions) }
    requires label { ForSome label (Contains order.now.labels) }
{
    let found = versions.scan_before(alloc, order, label, table, prefix)?;
    let expected = row_scan(alloc, rows, table, prefix)?;
    Ok(found.is(&expected) && versions.scan_is(order, label, table, prefix, &expected))
}

// Whether both say the same of a key, and of what begins with it.
fn one_agrees(
    alloc: Global,
    order: &Order,
    versions: &Versions,
    rows: &Cells,
    label: Option<u64>,
    key: &Text,
) -> Result<bool, NoMemory>
    requires rising { IsRising order.now.labels (map label_of versions.now.versions) }
    requires label { ForSome label (Contains order.now.labels) }
{
    let table = Text::of(alloc, "notes")?;
    let scans = scans_agree(alloc, order, versions, rows, label, &table, key)?;
    Ok(scans && gets_agree(order, versions, rows, label, &table, key))
}

// The same of a copy too.
fn agree(
    alloc: Global,
    order: &Order,
    versions: &Versions,
    rows: &Cells,
    label: Option<u64>,
    key: &Text,
) -> Result<bool, NoMemory>
    requires rising { IsRising order.now.labels (map label_of versions.now.versions) }
    requires label { ForSome label (Contains order.now.labels) }
{
    let one = one_agrees(alloc, order, versions, rows, label, key)?;
    let copy = versions.copied(alloc)?;
    let copied = one_agrees(alloc, order, &copy, rows, label, key)?;
    Ok(one && copied)
}

fn compared(
    alloc: Global,
    order: &Order,
    labels: &[u64],
    versions: &Versions,
    plain: &Plain,
    draws: &mut Draws,
) -> Result<bool, NoMemory>
    requires rising { IsRising order.now.labels (map label_of versions.now.versions) }
    requires known { All (Contains order.now.labels) labels.now }
{
    let key = key_text(alloc, draws.sought())?;
    let place = draws.below(PLACES + 1);
    let rows = plain.rows_before(alloc, place)?;
    let label = label_at(labels, place);
    agree(alloc, order, versions, &rows, label, &key)
}

fn changed(
    alloc: Global,
    order: &Order,
    labels: &[u64],
    versions: &mut Versions,
    plain: &mut Plain,
    draws: &mut Draws,
) -> Result<(), NoMemory>
    requires rising { IsRising order.now.labels (map label_of versions.old.versions) }
    requires known { All (Contains order.now.labels) labels.now }
    ensures { OnOk result (IsRising order.now.labels (map label_of versions.new.versions)) }
{
    let place = draws.below(PLACES);
    match label_at(labels, place) {
        None => Ok(()),
        Some(label) => change(alloc, order, versions, plain, place, label, draws),
    }
}

// How many turns agree until one doesn't.
fn turns(
    alloc: Global,
    order: &Order,
    labels: &[u64],
    versions: &mut Versions,
    many: bool,
) -> Result<u64, NoMemory>
    requires rising { IsRising order.now.labels (map label_of versions.old.versions) }
    requires known { All (Contains order.now.labels) labels.now }
{
    let mut plain = Plain::new(alloc)?;
    let mut draws = Draws {
        last: 1,
        many,
        near: 0,
    };
    for turn in 0..TURNS {
        changed(alloc, order, labels, versions, &mut plain, &mut draws)?;
        if !compared(alloc, order, labels, versions, &plain, &mut draws)? {
            return Ok(turn);
        }
    }
    Ok(TURNS)
}

fn played(alloc: Global, order: &Order, labels: &Vec<u64>, many: bool) -> Result<u64, NoMemory>
    requires { All (Contains order.now.labels) labels.now.items }
{
    let mut versions = Versions::new(alloc);
    turns(alloc, order, labels, &mut versions, many)
}

// In how many turns both said the same.
fn agreed(rt: &(impl Abort + AllocGlobal), many: bool) -> u64 {
    let alloc = rt.alloc();
    let mut order = Order::new(alloc);
    let labels = labels_of(alloc, &mut order).expect(rt, "labels");
    played(alloc, &order, &labels, many).expect(rt, "memory")
}

#[test]
fn a_list_and_versions_side_by_side(rt: HostRuntime) {
    assert!(rt; agreed(&rt, false) == TURNS);
}

#[test]
fn the_same_with_many_keys(rt: HostRuntime) {
    assert!(rt; agreed(&rt, true) == TURNS);
}
