// What an event comes to at its service. Each event is asked of the service by its own method, whose contract is that event's
// case of `event`: as a value an event is as large as the largest, and would be filled, moved and taken apart for each.
ghost use Rattle.std.specs.Prelude.{◌≡◌, None};

use world_events::{Packet, What};

/// What happened at a service, and the packet that is written of it.
#[derive(Drop)]
pub(crate) struct Served {
    pub what: What,
    pub packet: Option<Packet>,
}

/// What happened at an event of which no packet is written.
pub(crate) fn unwritten(what: What) -> Served
    ensures { result ≡ record { what = what; packet = None } }
{
    Served { what, packet: None }
}
