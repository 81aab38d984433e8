// The first stale entry.
ghost use Rattle.std.specs.Prelude.{◌≡◌, MatchOption};
ghost use Rattle.local_repair.specs.Current.{AllCurrent};
ghost use Rattle.local_repair.specs.Repairs.{IsStaleId, stale_id};
ghost use Rattle.service_events.specs.State.{answers, base};
ghost use Rattle.service_parts.specs.Parts.{kept};
ghost use Rattle.service_repairs.specs.Answers.{IsChecked};

use call_registers::Registers;
use lang_core::{NoMemory, Response, Trace};
use local_repair::Slots;
use request_log::{Entry, Numbers};
use service_parts::Parts;
use std::alloc::Global;

// Registers that are only read: what each number consumes. Nothing is settled here, so that is answered as want of memory.
#[derive(Drop)]
struct Held<'a> {
    registers: &'a Registers,
}

impl Slots for Held<'_> {
    ghost use Rattle.std.specs.Prelude.{length};
    ghost use Rattle.local_repair.specs.Steps.{answer_or_tentative};
    ghost use Rattle.call_registers.specs.Registers.{consumed};

    ghost consumed_of = { λ held number. answer_or_tentative (consumed number held.registers.now.list) };

    ghost last_of = { λ held. length held.registers.now.list };

    ghost can_settle = { λ held e t. Unit };

    ghost is_timely = { λ held. Unit };

    ghost settles = { λ old new e t answered numbers. ⊥ };

    fn consumed(&self, number: u64) -> Option<&Response> {
        self.registers.consumed(number)
    }

    fn settle(
        &mut self,
        _alloc: Global,
        _entry: &Entry,
        _trace: &Trace,
        _answered: bool,
    ) -> Result<Numbers, NoMemory> {
        Err(NoMemory)
    }
}

/// The number of the first stale entry, where so many of the first entries behind the folded ones are known to be current; None
/// exactly where no entry is stale.
#[tactic(auto, using(service_parts::proofs::WholeLemmas::unfolded_kept))]
pub fn first_stale(parts: &Parts, checked: usize) -> Option<u64>
    requires { IsChecked (kept parts.now) checked }
    ensures first { MatchOption result
        (AllCurrent (answers (kept parts.now)) (base (kept parts.now)) parts.now.repairer.entries)
        (λ id. IsStaleId (answers (kept parts.now)) (base (kept parts.now)) parts.now.repairer.entries id) }
    ensures test { result ≡ stale_id (answers (kept parts.now)) (base (kept parts.now)) parts.now.repairer.entries }
{
    let held = Held {
        registers: &parts.registers,
    };
    parts.repairer.first_stale(&held, checked)
}
