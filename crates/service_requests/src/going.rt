// What follows where a flight goes on.
ghost use Rattle.std.specs.Prelude.{◌≡◌, IfOk};
ghost use Rattle.service_events.specs.Arriving.{new_flight};
ghost use Rattle.service_events.specs.Flying.{goes_on};
ghost use Rattle.service_parts.specs.Drafts.{with_draft};
ghost use Rattle.service_requests.specs.Endings.{MayEnd};
ghost use Rattle.service_parts.specs.Parts.{kept};
ghost use Rattle.service_requests.specs.Changes.{leaves, CanLeave};

use crate::completing::go_on;
use crate::outcome::DraftedEnd;
use flights::Flight;
use lang_base::both;
use lang_core::{Copied, Inputs, NoMemory, Origin, Request, Same, Seq, Shared};
use service_parts::{Draft, Parts};
use std::alloc::Global;

/// What follows where a flight goes on after what is drafted.
pub(crate) fn follow(
    alloc: Global,
    parts: &Parts,
    mut draft: Draft,
    flight: Flight,
) -> Result<DraftedEnd, NoMemory>
    requires { MayEnd (kept parts.now) flight }
    ensures follows { IfOk result (λ outcome. leaves (kept parts.now) outcome ≡ goes_on (with_draft draft (kept parts.now)) flight) }
    ensures can { IfOk result (λ outcome. CanLeave (kept parts.now) outcome) }
{
    let ending = go_on(alloc, parts, &mut draft, flight)?;
    Ok(DraftedEnd { draft, ending })
}

// Where the last entry came for the same user, its text of the user stands in place of the request's own, which goes: most
// requests come for the user of the one before. What is asked stays the same.
fn known_who(alloc: Global, parts: &Parts, request: &mut Request)
    ensures { request.new ≡ request.old }
{
    let Some(last) = parts.repairer.log().as_slice().last() else {
        return;
    };
    let known = &last.entry().request.get().who;
    if known.is(&request.who) {
        if let Ok(who) = known.copied(alloc) {
            request.who = who;
        }
    }
}

/// The flight of a live request that arrives, which is under the newest program.
pub(crate) fn new_flight(
    alloc: Global,
    parts: &Parts,
    origin: Origin,
    mut request: Request,
    inputs: Inputs,
) -> Result<Flight, NoMemory>
    ensures { IfOk result (λ flight. flight ≡ new_flight (kept parts.now) origin request inputs) }
{
    known_who(alloc, parts, &mut request);
    let request = Shared::new(alloc, request);
    let program = parts.newest.copied(alloc);
    let (program, (request, inputs)) = both(program, both(request, Shared::new(alloc, inputs)))?;
    Ok(Flight {
        id: parts.flights.free_number(),
        origin,
        request,
        inputs,
        program,
        calls: Seq::new(alloc),
        numbers: Seq::new(alloc),
        changes: 0,
    })
}
