// What is found in a dump: services by their names, entries by their numbers and by the calls that they come from.
ghost use Rattle.std.specs.Prelude.{◌≡◌, IfSome, length, map};
ghost use Rattle.std.specs.Option.{option_copied, option_map};
ghost use Rattle.lang_core.specs.declared.trace.CallMade.{CallMade};
ghost use Rattle.execution.specs.Executions.{survives};
ghost use Rattle.execution.specs.Together.{history_in};
ghost use Rattle.dump_tables.specs.Kept.{AreKept, IsKept};
ghost use Rattle.dump_audit.specs.Histories.{act_of, histories_of, history_of};
ghost use Rattle.one_world.specs.Checks.{is_outside};
ghost use Rattle.one_world.specs.Trees.{act_in, callee_in, calls_of};

use dump_tables::{DumpEntry, DumpService, DumpServices};
use lang_core::{CallMade, Name, Origin};

/// The service of this name, if it is one of these.
pub(crate) fn service_in<'a>(name: &Name, world: &'a DumpServices) -> Option<&'a DumpService>
    requires kept { ∥ AreKept world.now ∥₁ }
    ensures found { option_map history_of (option_copied result) ≡ history_in name.now (histories_of world.now) }
    ensures kept { IfSome result (λ service. ∥ IsKept service.now ∥₁) }
{
    world.named(name)
}

/// The entry of this number at a service, if it has one.
pub(crate) fn entry_in(id: u64, service: &DumpService) -> Option<&DumpEntry>
    requires kept { ∥ IsKept service.now ∥₁ }
    ensures { option_map act_of (option_copied result) ≡ act_in id (map act_of service.now.entries) }
{
    service.entries.with_id(id)
}

/// The entry of this call at a service, if it has one.
pub(crate) fn callee_in<'a>(
    caller: &Name,
    number: u64,
    service: &'a DumpService,
) -> Option<&'a DumpEntry>
    requires kept { ∥ IsKept service.now ∥₁ }
    ensures { option_map act_of (option_copied result) ≡ callee_in caller.now number (map act_of service.now.entries) }
{
    service.entries.of_call(caller, number)
}

/// Whether an entry survives.
pub(crate) fn is_alive(entry: &DumpEntry) -> bool
    ensures { result ≡ survives (act_of entry.now) }
{
    entry.is_alive()
}

/// Whether an entry comes from outside.
pub(crate) fn is_outside(entry: &DumpEntry) -> bool
    ensures { result ≡ is_outside (act_of entry.now).origin }
{
    match &entry.origin {
        Origin::Outside => true,
        Origin::Call { .. } => false,
    }
}

/// The calls of an entry, by slot; an entry that never ran has none.
pub(crate) fn calls_of(entry: &DumpEntry) -> &[CallMade]
    ensures { result.now ≡ calls_of (act_of entry.now) }
{
    if entry.reply.is_some() {
        entry.calls.as_slice()
    } else {
        &[]
    }
}

/// How deep calls may lead: each goes to a service that none of those that wait for it is.
#[tactic(auto, using(crate::proofs::Depths::as_many))]
pub(crate) fn depth_of(world: &DumpServices) -> u64
    ensures { result ≡ length (histories_of world.now) }
{
    world.as_slice().len() as u64
}
