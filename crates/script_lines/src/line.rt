// Lines of a script.
ghost use Rattle.script_lines.specs.Faults.{fault_number};
ghost use Rattle.std.specs.Prelude.{◌≡◌};

use lang_core::{Name, Request, Text};
use order_texts::TextOrder;
use world_events::Event;

/// Why a line is refused, or the whole script. Tests of a line come in this order.
#[derive(Clone, Copy, PartialEq, Eq)]
pub enum LineFault {
    /// The line isn't UTF-8.
    Text,
    /// Its first word is none of a script.
    Word,
    /// A part isn't of its form, is over its limit, is missing or is too much.
    Shape,
    /// It names a service that isn't in the world.
    Service,
    /// It names a packet that was never written.
    Packet,
    /// It names a flight that the service doesn't have.
    Flight,
    /// The script is too long; this is told as line 0, before any line.
    TooLong,
}

impl LineFault {
    /// The number by which it is reported: 1 Text, 2 Word, 3 Shape, 4 Service, 5 Packet, 6 Flight, 7 TooLong.
    pub fn number(self) -> u64
        ensures { result ≡ fault_number self }
    {
        match self {
            LineFault::Text => 1,
            LineFault::Word => 2,
            LineFault::Shape => 3,
            LineFault::Service => 4,
            LineFault::Packet => 5,
            LineFault::Flight => 6,
            LineFault::TooLong => 7,
        }
    }
}

/// What a line says.
#[derive(Drop)]
pub enum Line {
    /// An empty line or a comment.
    Blank,
    /// One event: `begin S WHO METHOD PATH BODY`, `deliver pK`, `lose pK`, `step S`, `abandon S fN`, `post S D`, `clock N`,
    /// `seed N`, or an order of the user WHO: `cancel S/N TOKEN WHO`, `restore S/N TOKEN WHO`, `fold S/N TOKEN WHO`,
    /// `replace S/N TOKEN WHO METHOD PATH BODY`, `create S TOKEN WHO BEFORE AFTER WHO2 METHOD PATH BODY` or
    /// `retry S TOKEN WHO NAME`.
    Event(Event),
    /// An order of the user WHO that comes with a text, which isn't read yet: `deploy S TOKEN WHO TEXT`,
    /// `correct S K TOKEN WHO TEXT` or `rules S TOKEN WHO TEXT`.
    Given {
        service: Name,
        order: TextOrder,
        token: Text,
        who: Text,
        text: Text,
    },
    /// `ask S WHO METHOD PATH BODY`: a request from outside arrives, and its calls are delivered until it is committed.
    Ask {
        service: Name,
        request: Request,
    },
    /// `settle N`: at most so many rounds of repair at all services, from 1 to 1,000.
    Settle(u64),
    /// `rows S`: the rows.
    Rows {
        service: Name,
    },
    /// `log S`: the log.
    Log {
        service: Name,
    },
    /// `notices S`: the posts that are held.
    Notices {
        service: Name,
    },
    /// `preview S/N WHO`: what would come of cancelling the request and stepping until idle, with nothing done.
    Preview {
        service: Name,
        id: u64,
        who: Text,
    },
    /// `programs S`: the programs that entries and flights have, the newest, and the rules.
    Programs {
        service: Name,
    },
    /// `changed S`: the requests from outside whose last answer isn't the one that their client got.
    Changed {
        service: Name,
    },
    /// `rehearse S K WHO TEXT`: what would come of correcting the program of this number by the one that the text spells, which isn't
    /// read yet, and stepping until idle, with nothing done.
    Rehearse {
        service: Name,
        number: u64,
        who: Text,
        text: Text,
    },
    /// `dump`: all services, written down.
    Dump,
    /// `audit`: the verdict over all services.
    Audit,
}
