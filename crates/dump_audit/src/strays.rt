// Which entries were called for.
ghost use Rattle.std.specs.Prelude.{◌≡◌, ◌↔◌, IsTrue};
ghost use Rattle.lang_base.specs.Equal.{equal};
ghost use Rattle.lang_core.specs.contracts.trace.CallMade as call_made;
ghost use Rattle.dump_tables.specs.Kept.{AreKept};
ghost use Rattle.dump_audit.specs.Judging.{is_among, is_called_for, is_made, is_made_by, makes, service_in, stray_fault};

use crate::judged::Fault;
use dump_tables::{DumpEntry, DumpService, DumpServices};
use lang_core::{CallMade, Name, Origin, Request, Same};

// Whether the call goes to this service and asks this.
fn goes_so(call: &CallMade, dest: &Name, request: &Request) -> bool
    ensures { IsTrue result ↔ (call.now ≡ record { dest = dest.now; request = request.now }) }
{
    call.dest.is(dest) && call.request.is(request)
}

fn is_call_of(call: &CallMade, dest: &Name, request: &Request) -> bool
    ensures { result ≡ equal call_made.the_row.coded call.now (record { dest = dest.now; request = request.now }) }
{
    goes_so(call, dest, request)
}

fn is_among(
    number: u64,
    dest: &Name,
    request: &Request,
    calls: &[CallMade],
    numbers: &[u64],
) -> bool
    ensures { result ≡ is_among number (record { dest = dest.now; request = request.now }) calls.now numbers.now }
{
    let mut numbers = numbers;
    for call in calls {
        let [own_number, more @ ..] = numbers else {
            return false;
        };
        if *own_number == number && is_call_of(call, dest, request) {
            return true;
        }
        numbers = more;
    }
    false
}

fn makes(number: u64, dest: &Name, request: &Request, entry: &DumpEntry) -> bool
    ensures { result ≡ makes number (record { dest = dest.now; request = request.now }) entry.now }
{
    entry.is_alive()
        && entry.reply.is_some()
        && is_among(
            number,
            dest,
            request,
            entry.calls.as_slice(),
            entry.numbers.as_slice(),
        )
}

fn is_made_by(
    services: &DumpServices,
    caller: &Name,
    number: u64,
    dest: &Name,
    request: &Request,
) -> bool
    requires { ∥ AreKept services.now ∥₁ }
    ensures { result ≡ is_made_by (service_in caller.now services.now) number (record { dest = dest.now; request = request.now }) }
{
    let Some(service) = services.named(caller) else {
        return false;
    };
    match service.entries.with_number(number) {
        None => false,
        Some(entry) => makes(number, dest, request, entry),
    }
}

fn is_made(services: &DumpServices, me: &Name, entry: &DumpEntry) -> bool
    requires { ∥ AreKept services.now ∥₁ }
    ensures { result ≡ is_made services.now me.now entry.now entry.now.origin }
{
    match &entry.origin {
        Origin::Outside => true,
        Origin::Call { caller, number } => {
            is_made_by(services, caller, *number, me, &entry.request)
        }
    }
}

fn is_called_for(services: &DumpServices, me: &Name, entry: &DumpEntry) -> bool
    requires { ∥ AreKept services.now ∥₁ }
    ensures { result ≡ is_called_for services.now me.now entry.now }
{
    if entry.wanted {
        is_made(services, me, entry)
    } else {
        true
    }
}

/// The first entry of a service that is wanted and wasn't called for.
pub(crate) fn stray_fault(services: &DumpServices, service: &DumpService) -> Option<(u64, Fault)>
    requires { ∥ AreKept services.now ∥₁ }
    ensures { result ≡ stray_fault services.now service.now }
{
    for entry in service.entries.as_slice() {
        if !is_called_for(services, &service.setting.me, entry) {
            return Some((entry.id, Fault::Stray));
        }
    }
    None
}
