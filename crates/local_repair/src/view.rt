// The rows at a place of a log, as a run sees them.
use execution::View;
use lang_core::{Cells, Copied, NoMemory, Text};
use log_index::EntryRows;
use std::alloc::Global;

/// The rows before the entry at a place of a log, or those after all entries where it is past the end. They are read where
/// they stand, and nothing is built for it.
#[derive(Drop)]
pub struct RowsBefore<'a> {
    pub rows: &'a EntryRows,
    pub place: usize,
}

impl View for RowsBefore<'_> {
    ghost use Rattle.local_repair.specs.Written.{rows_seen};

    ghost rows = { λ view. rows_seen view };

    fn key(&self, alloc: Global, table: &Text, key: &Text) -> Result<Option<Text>, NoMemory> {
        match self.rows.text_before(self.place, table, key) {
            None => Ok(None),
            Some(text) => Ok(Some(text.copied(alloc)?)),
        }
    }

    fn scan(&self, alloc: Global, table: &Text, prefix: &Text) -> Result<Cells, NoMemory> {
        self.rows.scan_before(alloc, self.place, table, prefix)
    }
}
