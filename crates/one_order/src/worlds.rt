// The last rows of a world that runs as one program.
ghost use Rattle.std.specs.Prelude.{◌≡◌, IfOk, Some, None, length, if◌then◌else◌};
ghost use Rattle.std.specs.Option.{option_map};
ghost use Rattle.execution.specs.Together.{IsLegalTogether};
ghost use Rattle.dump_tables.specs.Kept.{AreKept};
ghost use Rattle.dump_audit.specs.Histories.{histories_of};
ghost use Rattle.one_world.specs.OneWorld.{Run, before_all, one_world};
ghost use Rattle.one_world.specs.Trees.{AreRoots, Trees};
ghost use Rattle.one_world.specs.Turns.{turn_roots};

use crate::orders::Ids;
use crate::played::PlayedRows;
use crate::playing::turn_id;
use dump_tables::{Dump, DumpService, DumpServices};
use lang_core::{NoMemory, RequestId};
use one_world::Rows;
use std::alloc::Global;

// Each service without rows.
fn before_all(alloc: Global, services: &[DumpService]) -> Result<Vec<PlayedRows>, NoMemory>
    ensures { IfOk result (λ world. world.items ≡ before_all (histories_of services.now)) }
{
    let mut world = Vec::with_capacity(alloc, services.len())?;
    for service in services {
        world.push(PlayedRows::new(alloc, &service.setting.me)?)?;
    }
    Ok(world)
}

fn turn_roots(
    alloc: Global,
    services: &DumpServices,
    order: &[RequestId],
    world: &mut [PlayedRows],
) -> Result<bool, NoMemory>
    requires kept { ∥ AreKept services.now ∥₁ }
    ensures { IfOk result (λ ran. (if ran then Some world.new else None) ≡ turn_roots (length (histories_of services.now)) (histories_of services.now) order.now world.old) }
{
    for id in order {
        if turn_id(alloc, services, id, world)?.is_none() {
            return Ok(false);
        }
    }
    Ok(true)
}

// The rows of each service, as lists.
fn told(alloc: Global, world: &[PlayedRows]) -> Result<Vec<Rows>, NoMemory>
    ensures { IfOk result (λ told. told.items ≡ world.now) }
{
    let mut told = Vec::with_capacity(alloc, world.len())?;
    for played in world {
        told.push(played.told(alloc)?)?;
    }
    Ok(told)
}

/// The last rows of each service, in the dump's order, where the roots of the order run one after the other as one program,
/// from empty rows on: each call in place, at once, before its caller goes on. None exactly where that fails.
pub fn one_run(alloc: Global, dump: &Dump, order: &Ids) -> Result<Option<Vec<Rows>>, NoMemory>
    requires legal { IsLegalTogether (histories_of dump.now.services) }
    ensures exact { (trees : Trees) → AreRoots trees (histories_of dump.now.services) order.now
        → IfOk result (λ rows. option_map (λ world. world.items) rows ≡ option_map (λ (run : Run). run.world) (one_world (histories_of dump.now.services) trees)) }
{
    let mut world = before_all(alloc, dump.services.as_slice())?;
    if turn_roots(alloc, &dump.services, order.as_slice(), &mut world)? {
        Ok(Some(told(alloc, &world)?))
    } else {
        Ok(None)
    }
}
