// Where the lines of a dump leave off.
ghost use Rattle.std.specs.Prelude.{Contains};

use dump_tables::{DumpEntries, DumpEntry, DumpPrograms, DumpService};
use lang_core::{Name, Names, Setting};
use lang_lists::HashIndex;
use std::marker::Model;

/// A service's name and its peers, of which it is none.
#[derive(Drop)]
pub struct Head {
    pub me: Name,
    pub peers: Names,
    ghost alone: { ¬ Contains peers me },
}

/// An entry of which calls are told, which contracts see as the entry so far. A call is found without a walk.
#[derive(Drop)]
pub struct Calling {
    pub(crate) entry: DumpEntry,
    // The numbers of its calls.
    pub(crate) numbers: HashIndex,
}

impl Model for Calling {
    ghost use Rattle.std.specs.Prelude.{◌≡◌};
    ghost use Rattle.dump_tables.specs.contracts.dump.DumpEntry as dump_entry;
    ghost use Rattle.dump_tables.specs.declared.dump.DumpEntry.{DumpEntry};

    ghost Value = { DumpEntry };

    ghost coded = { dump_entry.the_row.coded };

    ghost view = { λ calling. calling.entry };

    ghost invariant = { λ calling. calling.numbers.keys ≡ calling.entry.numbers };
}

/// A service of which an entry's lines go on.
#[derive(Drop)]
pub struct Running {
    pub setting: Setting,
    pub programs: DumpPrograms,
    pub entries: DumpEntries,
    pub entry: Calling,
}

/// Where the lines so far leave off, which is all that the next one has to fit.
#[derive(Drop)]
pub enum Stage {
    /// Between services.
    Between,
    /// Behind `service`.
    Named(Name),
    /// Behind `peers`.
    Headed(Head),
    /// Behind `program`, `reply` or `row`.
    Within(DumpService),
    /// Behind `entry`, `under`, `call` or `answer`.
    Runs(Running),
}
