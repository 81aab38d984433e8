// Rows in a tree.
ghost use Rattle.std.specs.Prelude.{◌≡◌, ◌++◌, ◌∷◌, ◌&&◌, [], IfOk, OnOk, filter};
ghost use Rattle.lang_base.specs.Texts.{begins_with, same_text};
ghost use Rattle.lang_core.specs.Places.{IsOrdered, place_of, set_in, unset_in};
ghost use Rattle.lang_core.specs.Rows.{after_write, apply, cell_place, is_beneath};
ghost use Rattle.lang_rows.specs.RowTrees.{cell_of};

use crate::spot::Spot;
use handler_run::View;
use lang_core::{Cell, Cells, Copied, NoMemory, Same, SharedWrites, Text, Write, row_scan};
use std::alloc::Global;
use std::collections::BTreeMap;
use std::marker::Model;

/// Rows in a tree, which contracts see as the list of their cells in order. What stands at a table and a key is found, set and
/// taken away without a walk.
#[derive(Drop)]
pub struct RowTree {
    texts: BTreeMap<Spot, Text>,
}

impl Model for RowTree {
    ghost use Rattle.std.specs.Prelude.{List};
    ghost use Rattle.lang_core.specs.declared.cells.Cell.{Cell};
    ghost use Rattle.lang_rows.specs.RowTrees.{cells_of};

    ghost Value = { List Cell };

    ghost view = { λ rows. cells_of rows.texts.entries };
}

fn spot_of(alloc: Global, table: &Text, key: &Text) -> Result<Spot, NoMemory>
    ensures { IfOk result (λ spot. spot ≡ record { table = table.now; key = key.now }) }
{
    Ok(Spot {
        table: table.copied(alloc)?,
        key: key.copied(alloc)?,
    })
}

fn cell_of(alloc: Global, spot: &Spot, text: &Text) -> Result<Cell, NoMemory>
    ensures { IfOk result (λ cell. cell ≡ cell_of (spot.now, text.now)) }
{
    Ok(Cell {
        table: spot.table.copied(alloc)?,
        key: spot.key.copied(alloc)?,
        text: text.copied(alloc)?,
    })
}

fn push_cell(alloc: Global, cells: &mut Cells, spot: &Spot, text: &Text) -> Result<(), NoMemory>
    requires { IsOrdered cell_place (cells.old ++ cell_of (spot.now, text.now) ∷ []) }
    ensures { OnOk result (cells.new ≡ cells.old ++ cell_of (spot.now, text.now) ∷ []) }
{
    let cell = cell_of(alloc, spot, text)?;
    cells.push(cell)
}

fn is_beneath(spot: &Spot, table: &Text, prefix: &Text) -> bool
    ensures { result ≡ (same_text spot.now.table table.now && begins_with prefix.now spot.now.key) }
{
    spot.table.is(table) && spot.key.begins_with(prefix)
}

impl RowTree {
    /// No rows.
    pub fn new(alloc: Global) -> RowTree
        ensures { result ≡ [] }
    {
        RowTree {
            texts: BTreeMap::new(alloc),
        }
    }

    fn set(&mut self, spot: Spot, text: Text) -> Result<(), NoMemory>
        ensures { OnOk result (self.new ≡ set_in cell_place (cell_of (spot, text)) self.old) }
    {
        self.texts.insert(spot, text)?;
        Ok(())
    }

    fn unset(&mut self, spot: &Spot)
        ensures { self.new ≡ unset_in cell_place (place_of spot.now.table spot.now.key) self.old }
    {
        if self.texts.len() == 0 {
            return;
        }
        let _old = self.texts.remove(spot);
    }

    fn write(&mut self, alloc: Global, write: &Write) -> Result<(), NoMemory>
        ensures { OnOk result (self.new ≡ after_write self.old write.now) }
    {
        let spot = spot_of(alloc, &write.table, &write.key)?;
        match &write.text {
            Some(text) => self.set(spot, text.copied(alloc)?),
            None => {
                self.unset(&spot);
                Ok(())
            }
        }
    }

    /// Applies the writes, each at its place. Refused, some of them may be applied.
    pub fn apply(&mut self, alloc: Global, writes: &SharedWrites) -> Result<(), NoMemory>
        ensures { OnOk result (self.new ≡ apply self.old writes.now) }
    {
        for write in writes.as_slice() {
            self.write(alloc, write)?;
        }
        Ok(())
    }

    /// The rows as a list.
    pub fn cells(&self, alloc: Global) -> Result<Cells, NoMemory>
        ensures { IfOk result (λ cells. cells ≡ self.now) }
    {
        let mut cells = Cells::new(alloc);
        for (spot, text) in &self.texts {
            push_cell(alloc, &mut cells, spot, text)?;
        }
        Ok(cells)
    }

    // The rows of a table whose keys begin with a prefix.
    fn beneath(&self, alloc: Global, table: &Text, prefix: &Text) -> Result<Cells, NoMemory>
        ensures { IfOk result (λ cells. cells ≡ filter (is_beneath table.now prefix.now) self.now) }
    {
        let mut cells = Cells::new(alloc);
        for (spot, text) in &self.texts {
            if is_beneath(spot, table, prefix) {
                push_cell(alloc, &mut cells, spot, text)?;
            }
        }
        Ok(cells)
    }
}

impl View for RowTree {
    ghost rows = { λ rows. rows };

    fn key(&self, alloc: Global, table: &Text, key: &Text) -> Result<Option<Text>, NoMemory> {
        let spot = spot_of(alloc, table, key)?;
        match self.texts.get(&spot) {
            None => Ok(None),
            Some(text) => Ok(Some(text.copied(alloc)?)),
        }
    }

    fn scan(&self, alloc: Global, table: &Text, prefix: &Text) -> Result<Cells, NoMemory> {
        let cells = self.beneath(alloc, table, prefix)?;
        row_scan(alloc, &cells, table, prefix)
    }
}
