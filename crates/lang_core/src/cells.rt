// Rows: cells in the order of table and key.
ghost use Rattle.std.specs.Prelude.{◌≡◌, ◌≤◌, ◌<◌, ◌+◌, Option, IfOk, vec_len};
ghost use Rattle.std.specs.Option.{option_copied};
ghost use Rattle.lang_core.specs.Places.{Place, place_of};
ghost use Rattle.lang_core.specs.Rows.{get, scan, is_beneath};

use crate::place::{ByPlace, Placed};
use lang_tree::{Copied, NoMemory, Same, Text};
use std::alloc::Global;

/// The most cells that a scan takes before it stops.
pub const MOST_SCAN_CELLS: u64 = 1000;

/// The most bytes of keys and texts that a scan takes before it stops.
pub const MOST_SCAN_BYTES: u64 = 262144;

/// The text at a key of a table.
#[derive(Drop)]
pub struct Cell {
    pub table: Text,
    pub key: Text,
    pub text: Text,
}

/// Rows: cells in the order of table and key, with no pair twice.
pub type Cells = ByPlace<Cell>;

impl Placed for Cell {
    ghost place = { λ c. place_of c.table c.key };

    fn table(&self) -> &Text {
        &self.table
    }

    fn key(&self) -> &Text {
        &self.key
    }
}

impl Copied for Cell {
    fn copied(&self, alloc: Global) -> Result<Cell, NoMemory> {
        Ok(Cell {
            table: self.table.copied(alloc)?,
            key: self.key.copied(alloc)?,
            text: self.text.copied(alloc)?,
        })
    }
}

impl Same for Cell {
    fn is(&self, other: &Cell) -> bool {
        self.table.is(&other.table) && self.key.is(&other.key) && self.text.is(&other.text)
    }
}

/// The cell's text; None exactly where the table has no such key.
pub fn row_get<'a>(cells: &'a Cells, table: &Text, key: &Text) -> Option<&'a Text>
    ensures { option_copied result ≡ get cells.now table.now key.now }
{
    match cells.find(table, key) {
        None => None,
        Some(cell) => Some(&cell.text),
    }
}

fn is_beneath(cell: &Cell, table: &Text, prefix: &Text) -> bool
    ensures { result ≡ is_beneath table.now prefix.now cell.now }
{
    cell.table.is(table) && cell.key.begins_with(prefix)
}

// The cells under the prefix, up to the one with which they are too many or too large.
fn scanned(
    alloc: Global,
    cells: &[Cell],
    table: &Text,
    prefix: &Text,
) -> Result<Vec<Cell>, NoMemory>
    ensures { IfOk result (λ kept. kept.items ≡ scan cells.now table.now prefix.now) }
{
    let mut kept = Vec::new(alloc);
    let mut bytes = 0;
    for cell in cells {
        if is_beneath(cell, table, prefix) {
            kept.push(cell.copied(alloc)?)?;
            let room = MOST_SCAN_BYTES - bytes;
            let key = cell.key.len();
            let text = cell.text.len();
            if kept.len() as u64 > MOST_SCAN_CELLS || key > room || text > room - key {
                return Ok(kept);
            }
            bytes += key + text;
        }
    }
    Ok(kept)
}

/// The cells of the table whose key begins with the prefix, in order, up to the cell with which there are more than
/// 1,000 of them or they have more than 262,144 bytes of keys and texts.
pub fn row_scan(
    alloc: Global,
    cells: &Cells,
    table: &Text,
    prefix: &Text,
) -> Result<Cells, NoMemory>
    ensures { IfOk result (λ found. found ≡ scan cells.now table.now prefix.now) }
{
    let items = scanned(alloc, &cells.items, table, prefix)?;
    Ok(Cells { items })
}
