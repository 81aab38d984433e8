// The root of an entry, and the slots in which calls lead from it down to the entry.
ghost use Rattle.std.specs.Prelude.{◌≡◌, ◌==◌, IfOk, map, reverse};
ghost use Rattle.std.specs.List.{position};
ghost use Rattle.std.specs.Option.{option_copied, option_map};
ghost use Rattle.dump_tables.specs.Kept.{AreKept, IsKept};
ghost use Rattle.dump_audit.specs.Histories.{act_of, histories_of};
ghost use Rattle.one_order.specs.Roots.{caller_of, made_in, rooted, rooted_of};
ghost use Rattle.one_order.specs.Shown.{name_at, place_of};

use crate::certificates::At;
use crate::finding::service_in;
use dump_tables::{DumpEntry, DumpService, DumpServices};
use lang_core::{NoMemory, Origin};
use std::alloc::Global;

/// An entry, its root, and the slots in which calls lead from the root down to the entry.
pub(crate) struct Rooted<'a> {
    pub(crate) at: At<'a>,
    pub(crate) root: At<'a>,
    pub(crate) slots: Vec<usize>,
}

impl Drop for Rooted<'_> {
    fn drop(self) {
        let Self {
            at: _,
            root: _,
            slots: _,
        } = self;
    }
}

// The entry that made the call of this number, if a service has it.
fn made_in(number: u64, service: &DumpService) -> Option<&DumpEntry>
    requires kept { ∥ IsKept service.now ∥₁ }
    ensures { option_map act_of (option_copied result) ≡ made_in number (map act_of service.now.entries) }
{
    service.entries.with_number(number)
}

fn slot_of(number: u64, numbers: &[u64]) -> Option<usize>
    ensures { result ≡ position (λ n. n == number) numbers.now }
{
    numbers.iter().position(|own| *own == number)
}

// The entry that made the call which an entry comes from, and the call's slot.
fn caller_of<'a>(world: &'a DumpServices, entry: &DumpEntry) -> Option<(At<'a>, usize)>
    requires kept { ∥ AreKept world.now ∥₁ }
    ensures { option_map (λ caller. (place_of caller.0, caller.1)) result ≡ caller_of (histories_of world.now) (act_of entry.now).origin }
{
    let Origin::Call { caller, number } = &entry.origin else {
        return None;
    };
    let Some(service) = service_in(caller, world) else {
        return None;
    };
    let Some(entry) = made_in(*number, service) else {
        return None;
    };
    match slot_of(*number, entry.numbers.as_slice()) {
        Some(slot) => Some((At { service, entry }, slot)),
        None => None,
    }
}

// An entry with its root, and the slots of the calls, of which the last one comes first.
fn with_slots<'a>(at: &At<'a>, root: &At<'a>, slots: Vec<usize>) -> Rooted<'a>
    ensures { rooted_of result ≡ record { id = name_at at.now; root = name_at root.now; slots = reverse slots.items } }
{
    let mut slots = slots;
    slots.reverse();
    Rooted {
        at: *at,
        root: *root,
        slots,
    }
}

/// An entry with its root: as many callers up as wait for the entry's request.
pub(crate) fn root_of<'a>(
    alloc: Global,
    world: &'a DumpServices,
    at: &At<'a>,
) -> Result<Rooted<'a>, NoMemory>
    requires kept { ∥ AreKept world.now ∥₁ }
    ensures { IfOk result (λ r. rooted_of r ≡ rooted (histories_of world.now) (place_of at.now)) }
{
    let mut root = *at;
    let mut slots = Vec::new(alloc);
    let mut more = at.entry.request.chain.as_slice().len();
    while more > 0 {
        match caller_of(world, root.entry) {
            None => return Ok(with_slots(at, &root, slots)),
            Some((caller, slot)) => {
                slots.push(slot)?;
                root = caller;
                more -= 1;
            }
        }
    }
    Ok(with_slots(at, &root, slots))
}
