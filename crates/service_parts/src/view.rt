// Registers that rows are told of.
ghost use Rattle.std.specs.Prelude.{◌≡◌, List};
ghost use Rattle.call_registers.specs.Registers.{next_number};
ghost use Rattle.call_registers.specs.declared.register.Register.{Register};
ghost use Rattle.service_events.specs.Calls.{version_of};

use crate::draft::Draft;
use crate::parts::Parts;
use call_registers::{Register, RegisterChanges, Registers};

/// What rows are told of, which is seen as the registers that it has.
pub trait RegistersView {
    ghost list: { Self → List Register };

    /// The version of the call of a number; 0 where there is none.
    fn version_of(&self, number: u64) -> u64
        ensures { result ≡ version_of (list self.now) number };

    /// The number of the next call.
    fn next_number(&self) -> u64
        ensures { result ≡ next_number (list self.now) };
}

fn number_behind(registers: &[Register]) -> u64
    ensures { result ≡ next_number registers.now }
{
    registers.len() as u64 + 1
}

impl RegistersView for Registers {
    ghost list = { λ registers. registers.list };

    fn version_of(&self, number: u64) -> u64 {
        match self.get(number) {
            None => 0,
            Some(register) => register.version,
        }
    }

    fn next_number(&self) -> u64 {
        number_behind(self.as_slice())
    }
}

/// The registers after a draft, which are read where they stand.
#[derive(Drop)]
pub struct DraftedRegisters<'a> {
    pub standing: &'a Registers,
    pub changes: &'a RegisterChanges,
}

impl RegistersView for DraftedRegisters<'_> {
    ghost use Rattle.call_registers.specs.Overlays.{overlaid};

    ghost list = { λ d. overlaid d.changes.now d.standing.now.list };

    fn version_of(&self, number: u64) -> u64 {
        match self.changes.find(self.standing, number) {
            None => 0,
            Some(register) => register.version,
        }
    }

    fn next_number(&self) -> u64 {
        self.changes.next_number(self.standing)
    }
}

/// The registers of a service after a draft.
pub fn drafted<'a>(parts: &'a Parts, draft: &'a Draft) -> DraftedRegisters<'a>
    ensures standing { result.standing.now ≡ parts.now.registers }
    ensures changes { result.changes.now ≡ draft.now.changes }
{
    DraftedRegisters {
        standing: &parts.registers,
        changes: &draft.changes,
    }
}
