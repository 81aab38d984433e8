// What may happen in a world.
ghost use Rattle.std.specs.Prelude.{◌≡◌};
ghost use Rattle.world_events.specs.declared.event.WorldStepRefused.TheVariants.{NoMemory};

use journal_rows::Command;
use lang_core::{Name, NoMemory, Request, Text};

/// What may happen in a world. Services are named, packets are numbered from 1.
#[derive(Drop)]
pub enum Event {
    /// A request comes from outside.
    Begin {
        service: Name,
        request: Request,
    },
    /// The packet of this number comes to its receiver.
    Deliver(u64),
    /// The service that began the exchange of the packet of this number learns that the exchange failed.
    Lose(u64),
    /// The service writes its oldest outstanding post to the other one as a packet.
    Post {
        from: Name,
        to: Name,
    },
    /// A service makes a repair step.
    Step {
        service: Name,
    },
    /// A service abandons a flight.
    Abandon {
        service: Name,
        flight: u64,
    },
    /// An operator gives a service an order, under a token.
    Order {
        service: Name,
        command: Command,
        token: Text,
        who: Text,
    },
    /// The clock is set; a moment later than 9,223,372,036,854,775,807 is that one.
    Clock(u64),
    /// Random words go on behind this number modulo 65,537.
    Seed(u64),
}

/// Why an event didn't happen. Nothing is changed.
#[derive(Clone, Copy, PartialEq, Eq)]
pub enum WorldStepRefused {
    /// There was no memory for it.
    NoMemory,
    /// It is about a service that isn't in the world.
    NoService,
    /// There is no packet of this number.
    NoPacket(u64),
    /// The service has no flight of this number.
    NoFlight(u64),
}

impl From<NoMemory> for WorldStepRefused {
    ghost from_gives = { λ _ why. why ≡ NoMemory };

    fn from(_: NoMemory) -> WorldStepRefused {
        WorldStepRefused::NoMemory
    }
}
