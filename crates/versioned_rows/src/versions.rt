// Versions: what each place wrote, and for each key the places that write it.
ghost use Rattle.std.specs.Prelude.{ℕ, List, ◌≡◌, ◌↔◌, ◌+◌, ◌<◌, ◌≤◌, slice_index_or, ◌++◌, false, ◌∷◌, [], length, map, drop, take, IfOk, IsTrue, IsOk, OnOk, OnErr};
ghost use Rattle.std.specs.List.{All, Contains};
ghost use Rattle.std.specs.Option.{option_copied, ForSome};
ghost use Rattle.lang_core.specs.Places.{IsOrdered};
ghost use Rattle.lang_core.specs.Rows.{get, scan, kept_from, is_over};
ghost use Rattle.lang_core.specs.declared.cells.Cell.{Cell};
ghost use Rattle.key_labels.specs.Rows.{row_place};
ghost use Rattle.versioned_rows.specs.Scans.{is_under, while, cell_at, row_cells};
ghost use Rattle.lang_lists.specs.Room.{is_made, spend};
ghost use Rattle.place_order.specs.Rising.{IsRising};
ghost use Rattle.versioned_rows.specs.Places.{label_of, rows_after, texts_of, without, with_place};
ghost use Rattle.versioned_rows.specs.Versions.{call_code, write_call, rows_before_label, IsRowOf};

use crate::fold::{fold_places, texts_of};
use crate::places::{PlaceWrites, find_place, position_of, put_instead, take_out, text_at};
use crate::room::{VersionsCall, ready_writes, take_writes};
use key_labels::{KeyLabels, KeyRows, copied_rows, count_before, find_row, position_in};
use lang_base::copied_items;
use lang_core::{
    Cell, Cells, Copied, MOST_SCAN_BYTES, MOST_SCAN_CELLS, NoMemory, Placed, Same, SharedWrites,
    Text,
};
use place_order::Order;
use std::alloc::Global;
use std::collections::VecDeque;
use std::marker::Model;

/// What each place of an order wrote, which contracts see as the list of the places with their writes, in order, the rows
/// before all places, and the room that was made for calls to come.
///
/// The order is the caller's: each call that takes one asks that the labels of the list rise in it.
pub struct Versions {
    places: Vec<PlaceWrites>,
    // By table and key, with the text of the key before all places. A row stays when its last label goes.
    rows: KeyRows,
    // The slot of the last row that was made or looked for to be made: who makes room for a key puts a label there next.
    near: usize,
    room: Vec<VersionsCall>,
}

impl Drop for Versions {
    fn drop(self) {
        let Self {
            places: _,
            rows: _,
            near: _,
            room: _,
        } = self;
    }
}

impl Model for Versions {
    ghost use Rattle.std.specs.Prelude.{◌+◌, ◌≤◌, vec_len, vec_capacity};
    ghost use Rattle.versioned_rows.specs.Versions.{KeptVersions, base_cells, IsIndexed, IsCovered};

    ghost Value = { KeptVersions };

    ghost view = { λ v. record { base = base_cells v.rows.items; versions = v.places.items; room = v.room.items } };

    ghost invariant = { λ v. IsIndexed v.places.items v.rows.items
        × (vec_len v.places + vec_len v.room ≤ vec_capacity v.places)
        × IsCovered v.room.items v.rows.items };
}

// The cell of this text at the key of a row.
fn cell_of(alloc: Global, row: &KeyLabels, text: &Text) -> Result<Cell, NoMemory>
    ensures { IfOk result (λ cell. cell ≡ record { table = row.now.table; key = row.now.key; text = text.now }) }
{
    let table = row.table().copied(alloc)?;
    let key = row.key().copied(alloc)?;
    let text = text.copied(alloc)?;
    Ok(Cell { table, key, text })
}

fn is_under(row: &KeyLabels, table: &Text, prefix: &Text) -> bool
    ensures { result ≡ is_under table.now prefix.now row.now }
{
    row.table().is(table) && row.key().begins_with(prefix)
}

fn is_cell(cell: &Cell, row: &KeyLabels, text: &Text) -> bool
    ensures { IsTrue result ↔ (cell.now ≡ record { table = row.now.table; key = row.now.key; text = text.now }) }
{
    cell.table.is(row.table()) && cell.key.is(row.key()) && cell.text.is(text)
}

// Whether the cell at a place is the one with the key of a row and this text.
fn is_next(cells: &[Cell], at: usize, row: &KeyLabels, text: &Text) -> bool
    requires { at ≤ length cells.now }
    ensures { IsTrue result ↔ ((at < length cells.now) × ((d : Cell) → slice_index_or cells.now at d ≡ record { table = row.now.table; key = row.now.key; text = text.now })) }
{
    if at == cells.len() {
        return false;
    }
    is_cell(&cells[at], row, text)
}

fn key_len(row: &KeyLabels) -> u64
    ensures { result ≡ length row.now.key }
{
    row.key().len()
}

// Whether so many cells are too many, or too large with a key and a text of these lengths.
fn is_too_much(cells: u64, bytes: u64, key: u64, text: u64) -> bool
    requires { bytes ≤ 262144 }
    ensures over { result ≡ is_over cells (bytes + (key + text)) }
    ensures few { result ≡ false → bytes + (key + text) ≤ 262144 }
{
    let room = MOST_SCAN_BYTES - bytes;
    cells > MOST_SCAN_CELLS || key > room || text > room - key
}

impl Versions {
    /// Versions of no place, with no rows before all places.
    pub fn new(alloc: Global) -> Versions
        ensures base { result.base ≡ [] }
        ensures versions { result.versions ≡ [] }
        ensures room { result.room ≡ [] }
    {
        Versions {
            places: Vec::new(alloc),
            rows: KeyRows::new(alloc),
            near: 0,
            room: Vec::new(alloc),
        }
    }

    /// Equal versions, without room.
    pub fn copied(&self, alloc: Global) -> Result<Versions, NoMemory>
        ensures base { IfOk result (λ copy. copy.base ≡ self.now.base) }
        ensures versions { IfOk result (λ copy. copy.versions ≡ self.now.versions) }
        ensures room { IfOk result (λ copy. copy.room ≡ []) }
    {
        let places = copied_items(alloc, &self.places)?;
        let rows = copied_rows(alloc, &self.rows)?;
        Ok(Versions {
            places,
            rows,
            near: 0,
            room: Vec::new(alloc),
        })
    }

    /// The places with what they wrote, in order.
    pub fn as_slice(&self) -> &[PlaceWrites]
        ensures { result.now ≡ self.now.versions }
    {
        &self.places
    }

    /// The text at a key of a table in the rows that the writes of all places before this one make of the base rows, or of
    /// all places where there is none; None exactly where those rows have no such key.
    pub fn get_before(
        &self,
        order: &Order,
        label: Option<u64>,
        table: &Text,
        key: &Text,
    ) -> Option<&Text>
        requires rising { IsRising order.now.labels (map label_of self.now.versions) }
        requires label { ForSome label (Contains order.now.labels) }
        ensures { option_copied result ≡ get (rows_before_label order.now.labels label self.now) table.now key.now }
    {
        match find_row(&self.rows, table, key) {
            None => None,
            Some(row) => self.text_of_row(order, label, row),
        }
    }

    // The text at the key of a row, which isn't looked for: that of the last of its labels before one, or the one before all
    // labels.
    fn text_of_row<'a>(
        &'a self,
        order: &Order,
        label: Option<u64>,
        row: &'a KeyLabels,
    ) -> Option<&'a Text>
        requires rising { IsRising order.now.labels (map label_of self.now.versions) }
        requires label { ForSome label (Contains order.now.labels) }
        requires held { IsRowOf self.now row.now }
        ensures { option_copied result ≡ get (rows_before_label order.now.labels label self.now) row.now.table row.now.key }
    {
        let places = &self.places;
        let own = row.labels();
        let n = count_before(order, own, label);
        if n == 0 {
            return row.base();
        }
        match find_place(order, places, own[n - 1]) {
            None => None,
            Some(place) => text_at(&place.writes, row.table(), row.key()),
        }
    }

    fn cell_before(
        &self,
        alloc: Global,
        order: &Order,
        label: Option<u64>,
        row: &KeyLabels,
    ) -> Result<Option<Cell>, NoMemory>
        requires rising { IsRising order.now.labels (map label_of self.now.versions) }
        requires label { ForSome label (Contains order.now.labels) }
        requires held { IsRowOf self.now row.now }
        ensures { IfOk result (λ cell. cell ≡ cell_at (rows_before_label order.now.labels label self.now) row.now) }
    {
        match self.text_of_row(order, label, row) {
            None => Ok(None),
            Some(text) => Ok(Some(cell_of(alloc, row, text)?)),
        }
    }

    // The cells at the keys of the rows from a place on, as long as they are under the prefix, and up to the one that is too much.
    fn scanned(
        &self,
        alloc: Global,
        order: &Order,
        label: Option<u64>,
        table: &Text,
        prefix: &Text,
        rows: &KeyRows,
        from: usize,
    ) -> Result<Cells, NoMemory>
        requires rising { IsRising order.now.labels (map label_of self.now.versions) }
        requires label { ForSome label (Contains order.now.labels) }
        requires rows { IsOrdered row_place rows.now.items }
        requires held { All (IsRowOf self.now) rows.now.items }
        requires from { from ≤ length rows.now.items }
        ensures { IfOk result (λ found. found ≡ kept_from 0 0 (row_cells (rows_before_label order.now.labels label self.now)
            (while (is_under table.now prefix.now) (drop from rows.now.items)))) }
    {
        let mut kept = Cells::new(alloc);
        let mut bytes = 0;
        for place in from..rows.len() {
            let row = rows.at(place);
            if !is_under(row, table, prefix) {
                return Ok(kept);
            }
            match self.cell_before(alloc, order, label, row)? {
                None => {}
                Some(cell) => {
                    let key = cell.key.len();
                    let text = cell.text.len();
                    kept.push(cell)?;
                    if is_too_much(kept.len(), bytes, key, text) {
                        return Ok(kept);
                    }
                    bytes += key + text;
                }
            }
        }
        Ok(kept)
    }

    /// The cells of a table under a prefix in the rows that the writes of all places before this one make of the base rows,
    /// or of all places where there is none: those that `row_scan` gives on these rows.
    pub fn scan_before(
        &self,
        alloc: Global,
        order: &Order,
        label: Option<u64>,
        table: &Text,
        prefix: &Text,
    ) -> Result<Cells, NoMemory>
        requires rising { IsRising order.now.labels (map label_of self.now.versions) }
        requires label { ForSome label (Contains order.now.labels) }
        ensures { IfOk result (λ found. found ≡ scan (rows_before_label order.now.labels label self.now) table.now prefix.now) }
    {
        let from = self.rows.rank(table, prefix);
        self.scanned(alloc, order, label, table, prefix, &self.rows, from)
    }

    // The cells at the keys of all rows.
    fn all_cells(
        &self,
        alloc: Global,
        order: &Order,
        label: Option<u64>,
        rows: &KeyRows,
    ) -> Result<Cells, NoMemory>
        requires rising { IsRising order.now.labels (map label_of self.now.versions) }
        requires label { ForSome label (Contains order.now.labels) }
        requires rows { IsOrdered row_place rows.now.items }
        requires held { All (IsRowOf self.now) rows.now.items }
        ensures { IfOk result (λ cells. cells ≡ row_cells (rows_before_label order.now.labels label self.now) rows.now.items) }
    {
        let mut cells = Cells::new(alloc);
        for place in 0..rows.len() {
            match self.cell_before(alloc, order, label, rows.at(place))? {
                None => {}
                Some(cell) => cells.push(cell)?,
            }
        }
        Ok(cells)
    }

    /// The rows that the writes of all places before this one make of the base rows, or of all places where there is none, in
    /// one walk over all keys that were ever written.
    pub fn rows_before(
        &self,
        alloc: Global,
        order: &Order,
        label: Option<u64>,
    ) -> Result<Cells, NoMemory>
        requires rising { IsRising order.now.labels (map label_of self.now.versions) }
        requires label { ForSome label (Contains order.now.labels) }
        ensures { IfOk result (λ cells. cells ≡ rows_before_label order.now.labels label self.now) }
    {
        self.all_cells(alloc, order, label, &self.rows)
    }

    // Whether these are the cells at the keys of the rows from a place on, as long as they are under the prefix, and up to the one
    // that is too much.
    fn agrees(
        &self,
        order: &Order,
        label: Option<u64>,
        table: &Text,
        prefix: &Text,
        rows: &KeyRows,
        from: usize,
        found: &[Cell],
    ) -> bool
        requires rising { IsRising order.now.labels (map label_of self.now.versions) }
        requires label { ForSome label (Contains order.now.labels) }
        requires held { All (IsRowOf self.now) rows.now.items }
        requires from { from ≤ length rows.now.items }
        ensures { IsTrue result ↔ (found.now ≡ kept_from 0 0 (row_cells (rows_before_label order.now.labels label self.now)
            (while (is_under table.now prefix.now) (drop from rows.now.items)))) }
    {
        let mut n = 0;
        let mut bytes = 0;
        for place in from..rows.len() {
            let row = rows.at(place);
            if !is_under(row, table, prefix) {
                return n == found.len();
            }
            match self.text_of_row(order, label, row) {
                None => {}
                Some(text) => {
                    if !is_next(found, n, row, text) {
                        return false;
                    }
                    n += 1;
                    if is_too_much(n as u64, bytes, key_len(row), text.len()) {
                        return n == found.len();
                    }
                    bytes += key_len(row) + text.len();
                }
            }
        }
        n == found.len()
    }

    /// Whether these cells are what `scan_before` gives, told without memory.
    pub fn scan_is(
        &self,
        order: &Order,
        label: Option<u64>,
        table: &Text,
        prefix: &Text,
        found: &Cells,
    ) -> bool
        requires rising { IsRising order.now.labels (map label_of self.now.versions) }
        requires label { ForSome label (Contains order.now.labels) }
        ensures { IsTrue result ↔ (found.now ≡ scan (rows_before_label order.now.labels label self.now) table.now prefix.now) }
    {
        let from = self.rows.rank(table, prefix);
        self.agrees(
            order,
            label,
            table,
            prefix,
            &self.rows,
            from,
            found.as_slice(),
        )
    }

    /// Takes the writes of a place out, if it has some. No other place changes.
    pub fn take_back(&mut self, label: u64)
        ensures versions { self.new.versions ≡ without label self.old.versions }
        ensures base { self.new.base ≡ self.old.base }
        ensures room { self.new.room ≡ self.old.room }
        ensures rising { (order : List ℕ) → IsRising order (map label_of self.old.versions) → IsRising order (map label_of self.new.versions) }
    {
        let stands = position_of(&self.places, label);
        take_out(&mut self.places, &mut self.rows, label, stands);
    }

    /// The texts that so many of the first places wrote, one after the other, for a `fold_first` that takes no memory.
    pub fn first_texts(&self, alloc: Global, n: usize) -> Result<VecDeque<Option<Text>>, NoMemory>
        requires { n ≤ length self.now.versions }
        ensures { IfOk result (λ texts. texts.items ≡ texts_of (take n self.now.versions)) }
    {
        texts_of(alloc, &self.places[..n])
    }

    /// Takes so many of the first places out, whose texts are these: what they wrote is among the rows before all places
    /// then. No other place changes. It costs with what they wrote, and moves the places that stay once.
    pub fn fold_first(&mut self, order: &Order, n: usize, texts: VecDeque<Option<Text>>)
        requires rising { IsRising order.now.labels (map label_of self.old.versions) }
        requires within { n ≤ length self.old.versions }
        requires texts { texts.items ≡ texts_of (take n self.old.versions) }
        ensures versions { self.new.versions ≡ drop n self.old.versions }
        ensures base { self.new.base ≡ rows_after self.old.base (take n self.old.versions) }
        ensures rising { IsRising order.now.labels (map label_of self.new.versions) }
        ensures room { self.new.room ≡ self.old.room }
    {
        fold_places(order, &mut self.places, &mut self.rows, n, texts);
    }

    /// Puts these writes at the place of a label, instead of those that it had. No other place changes. Refused, none
    /// does.
    pub fn write_at(
        &mut self,
        alloc: Global,
        order: &Order,
        label: u64,
        writes: &SharedWrites,
    ) -> Result<(), NoMemory>
        requires rising { IsRising order.now.labels (map label_of self.old.versions) }
        requires label { Contains order.now.labels label }
        ensures ok { OnOk result (self.new.versions
            ≡ with_place order.now.labels (record { label = label; writes = writes.now }) (without label self.old.versions)) }
        ensures rising { OnOk result (IsRising order.now.labels (map label_of self.new.versions)) }
        ensures err { OnErr result (self.new.versions ≡ self.old.versions) }
        ensures base { self.new.base ≡ self.old.base }
        ensures room { self.new.room ≡ spend call_code (write_call writes.now) self.old.room }
        ensures ready { IsTrue (is_made call_code (write_call writes.now) self.old.room) → IsOk result }
    {
        let stands = position_in(order, &self.places, label);
        let writes = take_writes(
            alloc,
            &mut self.places,
            &mut self.rows,
            &mut self.near,
            &mut self.room,
            writes,
        )?;
        let place = PlaceWrites { label, writes };
        put_instead(
            order,
            &mut self.places,
            &mut self.rows,
            self.near,
            place,
            stands,
        );
        Ok(())
    }

    /// Makes room for a `write_at` of these writes, at whichever place.
    pub fn ready_write_at(&mut self, alloc: Global, writes: &SharedWrites) -> Result<(), NoMemory>
        ensures versions { self.new.versions ≡ self.old.versions }
        ensures base { self.new.base ≡ self.old.base }
        ensures ok { OnOk result (self.new.room ≡ self.old.room ++ write_call writes.now ∷ []) }
        ensures err { OnErr result (self.new.room ≡ self.old.room) }
    {
        ready_writes(
            alloc,
            &mut self.places,
            &mut self.rows,
            &mut self.near,
            &mut self.room,
            writes,
        )
    }
}
