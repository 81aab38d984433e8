// The search of an order: root by root, always the first that comes next in all logs.
ghost use Rattle.std.specs.Prelude.{◌≡◌, IfOk, true, false, map};
ghost use Rattle.dump_tables.specs.Kept.{AreKept};
ghost use Rattle.execution.specs.Together.{IsLegalTogether};
ghost use Rattle.dump_audit.specs.Histories.{histories_of};
ghost use Rattle.one_order.specs.Certificates.{AreFirst, IsStuck};
ghost use Rattle.one_order.specs.Logs.{log_of};
ghost use Rattle.one_world.specs.Certificates.{Passes};
ghost use Rattle.one_world.specs.Searches.{IsStep, all_passed, logs_of};

use crate::logs::{Log, logs_of, next_root};
use crate::orders::Ids;
use dump_tables::DumpServices;
use lang_core::NoMemory;
use std::alloc::Global;

/// The roots that were taken, in order, and what is left of all logs behind them.
#[derive(Drop)]
pub(crate) struct Found<'a> {
    pub(crate) order: Ids,
    pub(crate) logs: Vec<Log<'a>>,
}

// Takes the next root, if there is one.
fn step(alloc: Global, world: &DumpServices, found: &mut Found<'_>) -> Result<bool, NoMemory>
    requires kept { ∥ AreKept world.now ∥₁ }
    ensures { IfOk result (λ more. IsStep (histories_of world.now) found.old.order (map log_of found.old.logs.items) found.new.order (map log_of found.new.logs.items) more) }
{
    match next_root(alloc, world, &found.logs)? {
        None => Ok(false),
        Some(taken) => {
            found.order.push(taken.id)?;
            found.logs = taken.logs;
            Ok(true)
        }
    }
}

/// Takes roots as long as one comes next in all logs.
pub(crate) fn search(alloc: Global, services: &DumpServices) -> Result<Found<'_>, NoMemory>
    requires kept { ∥ AreKept services.now ∥₁ }
    requires legal { IsLegalTogether (histories_of services.now) }
    // Each root that was taken was the first that came next.
    ensures first { IfOk result (λ found. AreFirst (histories_of services.now) (logs_of (histories_of services.now)) found.order) }
    // Where nothing is left, what was taken is an order that passes.
    ensures order { IfOk result (λ found. all_passed (map log_of found.logs.items) ≡ true → Passes (histories_of services.now) found.order) }
    // Where something is left, no root comes next.
    ensures ends { IfOk result (λ found. all_passed (map log_of found.logs.items) ≡ false → IsStuck (histories_of services.now) (map log_of found.logs.items)) }
    // And no order passes.
    ensures stuck { IfOk result (λ found. all_passed (map log_of found.logs.items) ≡ false → (other : _) → ¬ (Passes (histories_of services.now) other)) }
{
    let mut found = Found {
        order: Ids::new(alloc),
        logs: logs_of(alloc, services.as_slice())?,
    };
    let mut more = true;
    while more {
        more = step(alloc, services, &mut found)?;
    }
    Ok(found)
}
