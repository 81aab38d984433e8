// The rows of a world that runs.
ghost use Rattle.std.specs.Prelude.{◌≡◌, [], IfOk, OnOk};
ghost use Rattle.lang_core.specs.Rows.{apply};

use dump_audit::RowTree;
use lang_core::{Copied, Name, NoMemory, SharedWrites};
use one_world::Rows;
use std::alloc::Global;
use std::marker::Model;

/// A service's rows, found without a walk, which contracts see as the service and the list of its rows.
#[derive(Drop)]
pub(crate) struct PlayedRows {
    service: Name,
    rows: RowTree,
}

impl Model for PlayedRows {
    ghost use Rattle.one_world.specs.declared.rows.Rows.{Rows};

    ghost Value = { Rows };

    ghost view = { λ played. record { service = played.service; rows = played.rows } };
}

impl PlayedRows {
    /// A service without rows.
    pub(crate) fn new(alloc: Global, service: &Name) -> Result<PlayedRows, NoMemory>
        ensures { IfOk result (λ played. played ≡ record { service = service.now; rows = [] }) }
    {
        Ok(PlayedRows {
            service: service.copied(alloc)?,
            rows: RowTree::new(alloc),
        })
    }

    /// The service.
    pub(crate) fn service(&self) -> &Name
        ensures { result.now ≡ self.now.service }
    {
        &self.service
    }

    /// The rows.
    pub(crate) fn rows(&self) -> &RowTree
        ensures { result.now ≡ self.now.rows }
    {
        &self.rows
    }

    /// Makes writes.
    pub(crate) fn apply(&mut self, alloc: Global, writes: &SharedWrites) -> Result<(), NoMemory>
        ensures { OnOk result (self.new ≡ record { service = self.old.service; rows = apply self.old.rows writes.now }) }
    {
        self.rows.apply(alloc, writes)
    }

    /// The rows as a list.
    pub(crate) fn told(&self, alloc: Global) -> Result<Rows, NoMemory>
        ensures { IfOk result (λ told. told ≡ self.now) }
    {
        Ok(Rows {
            service: self.service.copied(alloc)?,
            rows: self.rows.cells(alloc)?,
        })
    }
}
