// Whether a service still has the flight that an event is of.
ghost use Rattle.std.specs.Prelude.{◌≡◌, ◌↔◌, IsSomeAnd, IsTrue};
ghost use Rattle.call_registers.specs.Registers.{register};
ghost use Rattle.service_events.specs.State.{flight_of};
ghost use Rattle.node_core.specs.Doings.{FindsFlight, IsSameCall, IsSameFlight, IsThere};

use crate::notes::Begun;
use call_registers::Register;
use flights::Flight;
use lang_core::{Inputs, Same};
use service_core::Service;
use service_events::Event;

fn same_inputs(left: &Inputs, right: &Inputs) -> bool
    ensures { IsTrue result ↔ (left.now ≡ right.now) }
{
    *left == *right
}

fn is_same_flight(begun: &Begun, flight: &Flight) -> bool
    ensures { IsTrue result ↔ IsSameFlight begun.now flight.now }
{
    flight.origin.is(&begun.origin)
        && flight.request.get().is(&begun.request)
        && same_inputs(flight.inputs.get(), &begun.inputs)
        && flight.awaited() == begun.number
}

fn is_same_call(begun: &Begun, register: &Register) -> bool
    ensures { IsTrue result ↔ IsSameCall begun.now register.now }
{
    register.dest.is(&begun.dest) && register.version == 1
}

fn has_flight(service: &Service, begun: &Begun) -> bool
    ensures { IsTrue result ↔ IsSomeAnd (flight_of begun.now.flight service.now) (IsSameFlight begun.now) }
{
    match service.flights().find(begun.flight) {
        None => false,
        Some(flight) => is_same_flight(begun, flight),
    }
}

fn has_call(service: &Service, begun: &Begun) -> bool
    ensures { IsTrue result ↔ IsSomeAnd (register begun.now.number service.now.registers) (IsSameCall begun.now) }
{
    match service.registers().get(begun.number) {
        None => false,
        Some(register) => is_same_call(begun, register),
    }
}

// Whether the service has the flight, with its request and inputs, and this waits for its call at version 1.
fn is_there(service: &Service, begun: &Begun) -> bool
    ensures { IsTrue result ↔ IsThere service.now begun.now }
{
    service.setting().me.is(&begun.service)
        && has_flight(service, begun)
        && has_call(service, begun)
}

fn is_open(service: &Service, begun: &Option<Begun>) -> bool
    ensures { IsTrue result ↔ IsSomeAnd begun.now (IsThere service.now) }
{
    match begun {
        None => false,
        Some(begun) => is_there(service, begun),
    }
}

/// Whether the service has the flight that an event is of, which is the open one; an event of no flight needs none.
pub(crate) fn finds_flight(service: &Service, begun: &Option<Begun>, event: &Event) -> bool
    ensures { IsTrue result ↔ FindsFlight service.now begun.now event.now }
{
    match event {
        Event::CallAnswered { .. } | Event::CallFailed { .. } | Event::Abandon { .. } => {
            is_open(service, begun)
        }
        _ => true,
    }
}
