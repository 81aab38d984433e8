// A cycle of roots, where no root comes next: from a root always to one before it, until one comes again.
ghost use Rattle.std.specs.Prelude.{◌≡◌, None, IfOk, IfSome, map, reverse};
ghost use Rattle.execution.specs.Together.{IsLegalTogether};
ghost use Rattle.dump_tables.specs.Kept.{AreKept};
ghost use Rattle.dump_audit.specs.Histories.{histories_of};
ghost use Rattle.one_order.specs.Certificates.{IsStuck, order_in};
ghost use Rattle.one_order.specs.Cycles.{IsLink, IsShown};
ghost use Rattle.one_order.specs.Logs.{log_of};
ghost use Rattle.one_order.specs.Pairs.{GoesBack, IsRootOf, IsWalk, is_turned, pair_of, up_to};
ghost use Rattle.one_order.specs.Roots.{all_rooted};
ghost use Rattle.one_order.specs.Shown.{name_at};

use crate::certificates::{At, Certificate};
use crate::logs::Log;
use crate::orders::Ids;
use crate::pairs::{Neighbours, Sought, first_left, pair_of};
use crate::roots::root_of;
use crate::showing::{cycle, is_same, push_id};
use dump_tables::DumpServices;
use lang_core::NoMemory;
use std::alloc::Global;

// A root before another, and the neighbours by which it is.
#[derive(Clone, Copy)]
struct Step<'a> {
    root: At<'a>,
    pair: Neighbours<'a>,
}

// Roots, each but the first before the one in front of it, and the last of them.
#[derive(Drop)]
struct Walk<'a> {
    roots: Vec<At<'a>>,
    last: At<'a>,
}

// These roots from the last one back to this one, if it is among them.
fn back_to(alloc: Global, roots: &[At<'_>], root: &At<'_>) -> Result<Option<Ids>, NoMemory>
    ensures { IfOk result (λ found. found ≡ up_to (name_at root.now) (reverse (map name_at roots.now))) }
{
    let mut ids = Ids::new(alloc);
    let mut count = roots.len();
    while count > 0 {
        count -= 1;
        let at = roots[count];
        push_id(alloc, &mut ids, &at)?;
        if is_same(&at, root) {
            return Ok(Some(ids));
        }
    }
    Ok(None)
}

// A root before this one. There is one, since nothing comes next and no two neighbours are turned.
fn before<'a>(
    alloc: Global,
    world: &'a DumpServices,
    logs: &[Log<'_>],
    last: &At<'a>,
) -> Result<Step<'a>, NoMemory>
    requires kept { ∥ AreKept world.now ∥₁ }
    requires legal { IsLegalTogether (histories_of world.now) }
    requires stuck { IsStuck (histories_of world.now) (map log_of logs.now) }
    requires turned { pair_of is_turned (all_rooted (histories_of world.now) (map log_of logs.now)) ≡ None }
    requires among { IsRootOf (name_at last.now) (all_rooted (histories_of world.now) (map log_of logs.now)) }
    ensures before { IfOk result (λ b. IsLink (histories_of world.now) (name_at b.root) (name_at last.now) (name_at b.pair.first) (name_at b.pair.second)) }
    ensures among { IfOk result (λ b. IsRootOf (name_at b.root) (all_rooted (histories_of world.now) (map log_of logs.now))) }
{
    let found = pair_of(alloc, world, &Sought::Into(*last), logs)?;
    let Some(pair) = found else { unreachable!() };
    let first = root_of(alloc, world, &pair.first)?;
    Ok(Step {
        root: first.root,
        pair,
    })
}

// One root further back; or the cycle, where that is one of the roots.
fn go_back<'a>(
    alloc: Global,
    world: &'a DumpServices,
    logs: &[Log<'_>],
    walk: &mut Walk<'a>,
) -> Result<Option<Certificate>, NoMemory>
    requires kept { ∥ AreKept world.now ∥₁ }
    requires legal { IsLegalTogether (histories_of world.now) }
    requires stuck { IsStuck (histories_of world.now) (map log_of logs.now) }
    requires turned { pair_of is_turned (all_rooted (histories_of world.now) (map log_of logs.now)) ≡ None }
    requires among { IsRootOf (name_at walk.old.last) (all_rooted (histories_of world.now) (map log_of logs.now)) }
    requires walk { IsWalk (histories_of world.now) (map name_at walk.old.roots.items) (name_at walk.old.last) }
    ensures none { IfOk result (λ found. IfSome found (λ certificate. order_in certificate ≡ None)) }
    ensures shown { IfOk result (λ found. IfSome found (λ certificate. IsShown (histories_of world.now) certificate)) }
    ensures back { IfOk result (λ found. found ≡ None → GoesBack (histories_of world.now) (map name_at walk.old.roots.items) (name_at walk.old.last)
        (all_rooted (histories_of world.now) (map log_of logs.now)) (map name_at walk.new.roots.items) (name_at walk.new.last)) }
{
    let step = before(alloc, world, logs, &walk.last)?;
    let back = back_to(alloc, walk.roots.as_slice(), &step.root)?;
    match back {
        Some(back) => {
            let found = cycle(alloc, &step.pair.first, &step.pair.second, back)?;
            Ok(Some(found))
        }
        None => {
            walk.roots.push(step.root)?;
            walk.last = step.root;
            Ok(None)
        }
    }
}

// From a root back until one comes again.
fn come_round<'a>(
    alloc: Global,
    world: &'a DumpServices,
    logs: &[Log<'_>],
    start: &At<'a>,
) -> Result<Certificate, NoMemory>
    requires kept { ∥ AreKept world.now ∥₁ }
    requires legal { IsLegalTogether (histories_of world.now) }
    requires stuck { IsStuck (histories_of world.now) (map log_of logs.now) }
    requires turned { pair_of is_turned (all_rooted (histories_of world.now) (map log_of logs.now)) ≡ None }
    requires among { IsRootOf (name_at start.now) (all_rooted (histories_of world.now) (map log_of logs.now)) }
    ensures none { IfOk result (λ found. order_in found ≡ None) }
    ensures shown { IfOk result (λ found. IsShown (histories_of world.now) found) }
{
    let mut roots = Vec::new(alloc);
    roots.push(*start)?;
    let mut walk = Walk {
        roots,
        last: *start,
    };
    loop {
        let found = go_back(alloc, world, logs, &mut walk)?;
        match found {
            Some(found) => return Ok(found),
            None => {}
        }
    }
}

// The same from the root of the first entry that is left.
fn walked(alloc: Global, world: &DumpServices, logs: &[Log<'_>]) -> Result<Certificate, NoMemory>
    requires kept { ∥ AreKept world.now ∥₁ }
    requires legal { IsLegalTogether (histories_of world.now) }
    requires stuck { IsStuck (histories_of world.now) (map log_of logs.now) }
    requires turned { pair_of is_turned (all_rooted (histories_of world.now) (map log_of logs.now)) ≡ None }
    ensures none { IfOk result (λ found. order_in found ≡ None) }
    ensures shown { IfOk result (λ found. IsShown (histories_of world.now) found) }
{
    let found = first_left(alloc, world, logs)?;
    let Some(at) = found else { unreachable!() };
    let first = root_of(alloc, world, &at)?;
    come_round(alloc, world, logs, &first.root)
}

/// Two neighbours that show that there is no order, where something is left and no root comes next.
pub(crate) fn cycle_among(
    alloc: Global,
    world: &DumpServices,
    logs: &[Log<'_>],
) -> Result<Certificate, NoMemory>
    requires kept { ∥ AreKept world.now ∥₁ }
    requires legal { IsLegalTogether (histories_of world.now) }
    requires stuck { IsStuck (histories_of world.now) (map log_of logs.now) }
    ensures none { IfOk result (λ found. order_in found ≡ None) }
    ensures shown { IfOk result (λ found. IsShown (histories_of world.now) found) }
{
    let found = pair_of(alloc, world, &Sought::Turned, logs)?;
    match found {
        Some(pair) => cycle(alloc, &pair.first, &pair.second, Ids::new(alloc)),
        None => walked(alloc, world, logs),
    }
}
