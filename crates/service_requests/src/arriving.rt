// The arrival of a live request.
ghost use Rattle.std.specs.Prelude.{◌≡◌, None, Ok, IfOk, OnErr};
ghost use Rattle.service_events.specs.State.{after};
ghost use Rattle.service_events.specs.Arriving.{arrive_event};
ghost use Rattle.service_parts.specs.Parts.{kept};
ghost use Rattle.service_requests.specs.Arrivals.{before_run};
ghost use Rattle.service_parts.specs.Services.{IsService};
ghost use Rattle.service_events.specs.Doing.{Does, arrive_memory};

use crate::applying::apply;
use crate::early::before_run;
use crate::going::{follow, new_flight};
use lang_core::{Inputs, NoMemory, Origin, Request};
use service_events::{ArriveRefused, Arrived};
use service_parts::{Parts, start};
use std::alloc::Global;

// A live request that is to run.
fn enter(
    alloc: Global,
    parts: &mut Parts,
    origin: Origin,
    request: Request,
    inputs: Inputs,
) -> Result<Arrived, NoMemory>
    requires service { IsService parts.old }
    requires runs { before_run (kept parts.old) origin ≡ None }
    ensures ok { IfOk result (λ arrived. after (kept parts.new) (Ok arrived) ≡ arrive_event (kept parts.old) origin request inputs) }
    ensures err { OnErr result (kept parts.new ≡ kept parts.old) }
    ensures service { IsService parts.new }
{
    let flight = new_flight(alloc, parts, origin, request, inputs)?;
    let outcome = follow(alloc, parts, start(alloc), flight)?;
    apply(alloc, parts, outcome)
}

/// A live request arrives.
pub fn arrive(
    alloc: Global,
    parts: &mut Parts,
    origin: Origin,
    request: Request,
    inputs: Inputs,
) -> Result<Arrived, ArriveRefused>
    requires { IsService parts.old }
    ensures does { Does arrive_memory (arrive_event (kept parts.old) origin request inputs) (kept parts.old) result (kept parts.new) }
    ensures service { IsService parts.new }
{
    match before_run(alloc, parts, &origin)? {
        Some(arrived) => Ok(arrived),
        None => Ok(enter(alloc, parts, origin, request, inputs)?),
    }
}
