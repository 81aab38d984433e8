// The rows that a run reads.
ghost use Rattle.std.specs.Prelude.{◌≡◌, List, IfOk};
ghost use Rattle.lang_core.specs.Rows.{get, scan};
ghost use Rattle.lang_core.specs.declared.cells.Cell.{Cell};

use lang_core::{Cells, Copied, NoMemory, Text, row_get, row_scan};
use std::alloc::Global;

/// What a run reads from, which is seen as the rows that it gives.
pub trait View {
    ghost rows: { Self → List Cell };

    /// The text at a key of a table; None exactly where the rows have none.
    fn key(&self, alloc: Global, table: &Text, key: &Text) -> Result<Option<Text>, NoMemory>
        ensures { IfOk result (λ found. found ≡ get (rows self.now) table.now key.now) };

    /// The cells of a table whose key begins with the prefix, up to the one with which there are more than 1,000 of
    /// them or they have more than 262,144 bytes of keys and texts.
    fn scan(&self, alloc: Global, table: &Text, prefix: &Text) -> Result<Cells, NoMemory>
        ensures { IfOk result (λ found. found ≡ scan (rows self.now) table.now prefix.now) };
}

/// Rows that are held as a list.
#[derive(Drop)]
pub struct RowsView<'a> {
    pub cells: &'a Cells,
}

impl View for RowsView<'_> {
    ghost rows = { λ view. view.cells.now };

    fn key(&self, alloc: Global, table: &Text, key: &Text) -> Result<Option<Text>, NoMemory> {
        match row_get(self.cells, table, key) {
            None => Ok(None),
            Some(text) => Ok(Some(text.copied(alloc)?)),
        }
    }

    fn scan(&self, alloc: Global, table: &Text, prefix: &Text) -> Result<Cells, NoMemory> {
        row_scan(alloc, self.cells, table, prefix)
    }
}
