// A dump's verdict.
ghost use Rattle.std.specs.Prelude.{◌≡◌, ◌↔◌, IfOk};
ghost use Rattle.execution.specs.Together.{IsLegalTogether};
ghost use Rattle.dump_tables.specs.Kept.{AreKept};
ghost use Rattle.dump_audit.specs.Histories.{histories_of};
ghost use Rattle.dump_audit.specs.Judging.{answer_fault, first_in, judged, judged_together, replay_fault, stray_fault};
ghost use Rattle.dump_audit.specs.declared.judged.Judged.{Judged};
ghost use Rattle.dump_audit.specs.declared.judged.Judged.TheVariants.{Legal};

use crate::answers::answer_fault;
use crate::judged::{Fault, Judged};
use crate::replays::replay_fault;
use crate::strays::stray_fault;
use dump_tables::{Dump, DumpService, DumpServices};
use lang_core::{Copied, NoMemory};
use std::alloc::Global;

fn differs(alloc: Global, service: &DumpService, id: u64, what: Fault) -> Result<Judged, NoMemory>
    ensures { IfOk result (λ judged. judged ≡ Judged.Differs service.now.setting.me id what) }
{
    Ok(Judged::Differs {
        service: service.setting.me.copied(alloc)?,
        id,
        what,
    })
}

/// The first service that isn't its own replay.
pub(crate) fn first_replay(alloc: Global, world: &[DumpService]) -> Result<Option<Judged>, NoMemory>
    ensures { IfOk result (λ found. found ≡ first_in replay_fault world.now) }
{
    for service in world {
        if let Some((id, what)) = replay_fault(alloc, service)? {
            return Ok(Some(differs(alloc, service, id, what)?));
        }
    }
    Ok(None)
}

// The first service with a call that isn't served.
fn first_answer(alloc: Global, services: &DumpServices) -> Result<Option<Judged>, NoMemory>
    requires { ∥ AreKept services.now ∥₁ }
    ensures { IfOk result (λ found. found ≡ first_in (answer_fault services.now) services.now) }
{
    for service in services.as_slice() {
        if let Some((id, what)) = answer_fault(services, service) {
            return Ok(Some(differs(alloc, service, id, what)?));
        }
    }
    Ok(None)
}

// The first service with an entry that wasn't called for.
fn first_stray(alloc: Global, services: &DumpServices) -> Result<Option<Judged>, NoMemory>
    requires { ∥ AreKept services.now ∥₁ }
    ensures { IfOk result (λ found. found ≡ first_in (stray_fault services.now) services.now) }
{
    for service in services.as_slice() {
        if let Some((id, what)) = stray_fault(services, service) {
            return Ok(Some(differs(alloc, service, id, what)?));
        }
    }
    Ok(None)
}

/// What services that replay are found to be.
pub(crate) fn judged_together(alloc: Global, services: &DumpServices) -> Result<Judged, NoMemory>
    requires { ∥ AreKept services.now ∥₁ }
    ensures { IfOk result (λ found. found ≡ judged_together services.now) }
{
    if let Some(found) = first_answer(alloc, services)? {
        return Ok(found);
    }
    match first_stray(alloc, services)? {
        Some(found) => Ok(found),
        None => Ok(Judged::Legal),
    }
}

fn judged(alloc: Global, dump: &Dump) -> Result<Judged, NoMemory>
    ensures { IfOk result (λ found. found ≡ judged dump.now.services) }
{
    if let Some(found) = first_replay(alloc, dump.services.as_slice())? {
        return Ok(found);
    }
    judged_together(alloc, &dump.services)
}

/// What a dump is found to be, by running each of its entries anew.
pub fn judge(alloc: Global, dump: &Dump) -> Result<Judged, NoMemory>
    // Legal, or the first fault: of the services' replays, then of what they answered, then of who was called for.
    ensures exact { IfOk result (λ found. found ≡ judged dump.now.services) }
    // Legal exactly where its histories are one legal execution.
    ensures legal { IfOk result (λ found. (found ≡ Legal) ↔ IsLegalTogether (histories_of dump.now.services)) }
{
    judged(alloc, dump)
}
