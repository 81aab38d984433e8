// Writes, in the order of table and key, and rows with writes applied.
ghost use Rattle.std.specs.Prelude.{ℕ, List, ◌≡◌, ◌+◌, ◌≤◌, ◌<◌, OnOk, OnErr, vec_len, vec_capacity};
ghost use Rattle.lang_core.specs.Places.{IsOrdered, place_of};
ghost use Rattle.lang_core.specs.Rows.{after_write, apply, cell_place, get, written};

use crate::cells::{Cell, Cells};
use crate::place::{ByPlace, Placed, set_in_room, unset_items};
use crate::shared_writes::SharedWrites;
use lang_tree::{Copied, NoMemory, Same, Text, copied_items};
use std::alloc::Global;

/// A text that is to stand at a key of a table, or none.
#[derive(Drop)]
pub struct Write {
    pub table: Text,
    pub key: Text,
    pub text: Option<Text>,
}

/// Writes in the order of table and key, with no pair twice.
pub type Writes = ByPlace<Write>;

impl Placed for Write {
    ghost place = { λ w. place_of w.table w.key };

    fn table(&self) -> &Text {
        &self.table
    }

    fn key(&self) -> &Text {
        &self.key
    }
}

impl Copied for Write {
    fn copied(&self, alloc: Global) -> Result<Write, NoMemory> {
        Ok(Write {
            table: self.table.copied(alloc)?,
            key: self.key.copied(alloc)?,
            text: Copied::copied(&self.text, alloc)?,
        })
    }
}

impl Same for Write {
    fn is(&self, other: &Write) -> bool {
        self.table.is(&other.table) && self.key.is(&other.key) && self.text.is(&other.text)
    }
}

fn apply_one(cells: &mut Vec<Cell>, write: Write)
    requires room { vec_len cells.old < vec_capacity cells.old }
    requires ordered { IsOrdered cell_place cells.old.items }
    ensures cells { cells.new.items ≡ after_write cells.old.items write }
    ensures ordered { IsOrdered cell_place cells.new.items }
    ensures len { vec_len cells.new ≤ vec_len cells.old + 1 }
    ensures capacity { vec_capacity cells.old ≤ vec_capacity cells.new }
{
    let Write { table, key, text } = write;
    match text {
        Some(text) => set_in_room(cells, Cell { table, key, text }),
        None => unset_items(cells, &table, &key),
    }
}

// Where there is room for each.
fn apply_all(cells: &mut Vec<Cell>, writes: Vec<Write>)
    requires room { vec_len cells.old + vec_len writes ≤ vec_capacity cells.old }
    requires ordered { IsOrdered cell_place cells.old.items }
    ensures { cells.new.items ≡ apply cells.old.items writes.items }
{
    for write in writes {
        apply_one(cells, write);
    }
}

/// Applies the writes, each at its place: a text stands there afterwards, or nothing does. Refused, the rows stay.
pub fn apply_writes(alloc: Global, cells: &mut Cells, writes: &SharedWrites) -> Result<(), NoMemory>
    ensures ok { OnOk result (cells.new ≡ apply cells.old writes.now) }
    ensures reads { OnOk result ((table key : List ℕ) →
        get cells.new table key ≡ written writes.now table key (get cells.old table key)) }
    ensures err { OnErr result (cells.new ≡ cells.old) }
{
    let writes = copied_items(alloc, writes.as_slice())?;
    cells.items.reserve(writes.len())?;
    apply_all(&mut cells.items, writes);
    Ok(())
}
