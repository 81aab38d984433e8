// Programs of a service.
ghost use Rattle.std.specs.Prelude.{◌≡◌, ◌∷◌, ◌++◌, [], IfOk, OnOk};
ghost use Rattle.std.specs.Option.{option_copied};
ghost use Rattle.dump_tables.specs.Programs.{later_at, with_later};

use lang_core::{Copied, NoMemory, Program, Seq, Shared};
use std::alloc::Global;

/// The programs that a service had, by their numbers from 1 on. Its entries share their trees, so that each is there once,
/// however many entries run under it.
pub struct DumpPrograms {
    /// Number 1, that of its setting.
    pub first: Shared<Program>,
    /// Those from number 2 on, in order.
    pub later: Seq<Shared<Program>>,
}

impl Drop for DumpPrograms {
    fn drop(self) {
        let Self { first: _, later: _ } = self;
    }
}

impl DumpPrograms {
    /// An equal program as number 1, and none behind it.
    pub fn of(alloc: Global, program: &Program) -> Result<DumpPrograms, NoMemory>
        ensures { IfOk result (λ programs. programs ≡ record { first = program.now; later = [] }) }
    {
        let first = Shared::copy_of(alloc, program)?;
        Ok(DumpPrograms {
            first,
            later: Seq::new(alloc),
        })
    }

    /// The program of this number behind the first, if there is one.
    pub fn later_at(&self, number: u64) -> Option<&Shared<Program>>
        ensures { option_copied result ≡ later_at number self.now.later }
    {
        if number < 2 {
            None
        } else {
            self.later.at(number - 2)
        }
    }

    /// Gives a program the next number. Refused, it is dropped and the list stays.
    pub fn push(&mut self, alloc: Global, program: Program) -> Result<(), NoMemory>
        ensures { OnOk result (self.new ≡ with_later self.old program) }
    {
        let program = Shared::new(alloc, program)?;
        self.later.push(program)
    }
}
