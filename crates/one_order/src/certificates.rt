// One order for a whole world, or that there is none.
ghost use Rattle.std.specs.Prelude.{◌≡◌, None, IfErr, IfOk, IfSome, map};
ghost use Rattle.execution.specs.Together.{IsLegalTogether};
ghost use Rattle.dump_tables.specs.Kept.{AreKept};
ghost use Rattle.dump_audit.specs.Histories.{histories_of};
ghost use Rattle.dump_audit.specs.Judging.{judged};
ghost use Rattle.dump_audit.specs.declared.judged.Judged.TheVariants.{Legal};
ghost use Rattle.one_order.specs.Certificates.{AreFirst, IsStuck, found_ill, order_in};
ghost use Rattle.one_order.specs.Cycles.{IsShown};
ghost use Rattle.one_order.specs.Logs.{log_of};
ghost use Rattle.one_world.specs.Certificates.{Passes};
ghost use Rattle.one_world.specs.OneWorld.{RunsAsOne};
ghost use Rattle.one_world.specs.Searches.{logs_of};

use crate::logs::{Log, first_left};
use crate::orders::Ids;
use crate::searching::search;
use crate::showing::shown;
use crate::walking::cycle_among;
use dump_audit::{Judged, judge};
use dump_tables::{Dump, DumpEntry, DumpServices};
use lang_core::{NoMemory, RequestId};
use order_finder::find_cycle;
use std::alloc::Global;

// What is found is tested and not proved, so it is tried before it is told. The finder is named here alone.
pub(crate) use order_finder::{At, Candidate, Link, Mark};

/// Whether the services of a dump could have run as one program, root by root.
#[derive(Drop)]
pub enum Certificate {
    /// They could, with their roots in this order: of those with none left before them always the first goes next, by service in
    /// the dump's order and then by place.
    Order(Ids),
    /// They couldn't: no order of the roots passes. These are two neighbouring entries that survive and show it. Either both are
    /// of one root that comes to the second first, and the way back is empty; or the way back leads from the second's root to
    /// the first's, each root before the next. That they are the first two, by service and place, is tested and not proved.
    Cycle {
        first: RequestId,
        second: RequestId,
        back: Ids,
    },
}

/// Why there is no certificate.
#[derive(Drop)]
pub enum OneRefused {
    /// Memory ran out.
    NoMemory,
    /// The dump isn't legal, for this.
    NotLegal(Judged),
}

impl From<NoMemory> for OneRefused {
    ghost use Rattle.one_order.specs.declared.certificates.OneRefused.{OneRefused};

    ghost from_gives = { λ _ why. why ≡ OneRefused.NoMemory };

    fn from(_: NoMemory) -> OneRefused {
        OneRefused::NoMemory
    }
}

// What is left of each log.
fn parts_left<'a>(alloc: Global, logs: &[Log<'a>]) -> Result<Vec<&'a [DumpEntry]>, NoMemory> {
    let mut parts = Vec::with_capacity(alloc, logs.len())?;
    for log in logs {
        parts.push(log.left)?;
    }
    Ok(parts)
}

// Two neighbours of what is left, of which nothing is known yet.
fn candidate_in<'a>(
    alloc: Global,
    services: &'a DumpServices,
    logs: &[Log<'a>],
) -> Result<Option<Candidate<'a>>, NoMemory> {
    let parts = parts_left(alloc, logs)?;
    find_cycle(alloc, services, parts.as_slice())
}

// These as a certificate, if they show that there is no order.
fn shown_in(
    alloc: Global,
    services: &DumpServices,
    logs: &[Log<'_>],
) -> Result<Option<Certificate>, NoMemory>
    requires kept { ∥ AreKept services.now ∥₁ }
    ensures none { IfOk result (λ found. IfSome found (λ certificate. order_in certificate ≡ None)) }
    ensures shown { IfOk result (λ found. IfSome found (λ certificate. IsShown (histories_of services.now) certificate)) }
{
    match candidate_in(alloc, services, logs)? {
        None => Ok(None),
        Some(candidate) => shown(alloc, services, &candidate),
    }
}

// Two neighbours of what is left that show it, where no root comes next: the first of them, by service and place, which the
// finder looks for; and where what it gives shows nothing, those of a walk from root to root.
fn cycle_in(
    alloc: Global,
    services: &DumpServices,
    logs: &[Log<'_>],
) -> Result<Certificate, NoMemory>
    requires kept { ∥ AreKept services.now ∥₁ }
    requires legal { IsLegalTogether (histories_of services.now) }
    requires stuck { IsStuck (histories_of services.now) (map log_of logs.now) }
    ensures none { IfOk result (λ found. order_in found ≡ None) }
    ensures shown { IfOk result (λ found. IsShown (histories_of services.now) found) }
{
    match shown_in(alloc, services, logs)? {
        Some(found) => Ok(found),
        None => cycle_among(alloc, services, logs),
    }
}

fn certificate_of(alloc: Global, dump: &Dump) -> Result<Certificate, NoMemory>
    requires legal { IsLegalTogether (histories_of dump.now.services) }
    ensures order { IfOk result (λ found. IfSome (order_in found) (λ order. Passes (histories_of dump.now.services) order)) }
    ensures first { IfOk result (λ found. IfSome (order_in found) (λ order. AreFirst (histories_of dump.now.services) (logs_of (histories_of dump.now.services)) order)) }
    ensures cycle { IfOk result (λ found. order_in found ≡ None → (order : _) → ¬ (Passes (histories_of dump.now.services) order)) }
    ensures shown { IfOk result (λ found. IsShown (histories_of dump.now.services) found) }
    ensures one_world { IfOk result (λ found. IfSome (order_in found) (λ order. RunsAsOne (histories_of dump.now.services) order)) }
{
    let found = search(alloc, &dump.services)?;
    let logs = found.logs.as_slice();
    match first_left(logs) {
        None => Ok(Certificate::Order(found.order)),
        Some(_) => cycle_in(alloc, &dump.services, logs),
    }
}

/// An order of the roots in which the whole world could have run as one program, or two entries that show that there is none.
pub fn find_order(alloc: Global, dump: &Dump) -> Result<Certificate, OneRefused>
    // The order that is found passes.
    ensures order { IfOk result (λ found. IfSome (order_in found) (λ order. Passes (histories_of dump.now.services) order)) }
    // Behind those before it, each root of it is the first, by service, that comes next in all logs.
    ensures first { IfOk result (λ found. IfSome (order_in found) (λ order. AreFirst (histories_of dump.now.services) (logs_of (histories_of dump.now.services)) order)) }
    // Where none is found, no order passes.
    ensures cycle { IfOk result (λ found. order_in found ≡ None → (order : _) → ¬ (Passes (histories_of dump.now.services) order)) }
    // Two entries that are named instead are neighbours of a log, with a way back.
    ensures shown { IfOk result (λ found. IsShown (histories_of dump.now.services) found) }
    // The run of the roots as one program, in the order that is found, doesn't fail, ends with the dump's rows, and each request
    // in it responds as the dump says.
    ensures one_world { IfOk result (λ found. IfSome (order_in found) (λ order. RunsAsOne (histories_of dump.now.services) order)) }
    // The dump is legal then.
    ensures legal { IfOk result (λ found. IsLegalTogether (histories_of dump.now.services)) }
    // A dump is refused for what it is found to be, where that isn't legal.
    ensures refused { IfErr result (λ why. IfSome (found_ill why) (λ found. (found ≡ judged dump.now.services) × ¬ (found ≡ Legal))) }
{
    match judge(alloc, dump) {
        Ok(Judged::Legal) => Ok(certificate_of(alloc, dump)?),
        Ok(Judged::Differs { service, id, what }) => {
            Err(OneRefused::NotLegal(Judged::Differs { service, id, what }))
        }
        Err(_) => Err(OneRefused::NoMemory),
    }
}
