// Which posts are outstanding, and since when.
ghost use Rattle.std.specs.Prelude.{◌≡◌, map, nat_eq};
ghost use Rattle.std.specs.List.{list_any};
ghost use Rattle.service_events.specs.HandedOn.{Flight as FlightValue};
ghost use Rattle.service_events.specs.Flying.{awaited};
ghost use Rattle.service_events.specs.Posts.{is_owed, is_to_fetch, is_unacknowledged};
ghost use Rattle.repair_queue.specs.Queue.{call_of, fetch_of, reply_of};

use call_registers::{Register, Reply, owes_fetch};
use lang_core::{Name, Same};
use lang_lists::AgeKey;
use repair_messages::PostName;
use service_events::Flight;
use std::marker::Model;

/// A post that is outstanding, and the index in the journal from which on it is to be sent.
pub(crate) struct Aged {
    pub(crate) name: PostName,
    pub(crate) since: u64,
}

impl Drop for Aged {
    fn drop(self) {
        let Self { name: _, since: _ } = self;
    }
}

impl Model for Aged {
    ghost use Rattle.service_events.specs.Posts.{Aged};

    ghost Value = { Aged };

    ghost view = { λ p. record { name = p.name; since = p.since } };
}

fn awaits(flights: &[Flight], number: u64) -> bool
    ensures { result ≡ list_any (λ (f : FlightValue). nat_eq number (awaited f)) flights.now }
{
    flights.iter().any(|flight| number == flight.awaited())
}

// Whether a flight awaits the call of this number.
fn is_awaited(flights: &[Flight], number: u64) -> bool
    ensures { result ≡ list_any (nat_eq number) (map awaited flights.now) }
{
    awaits(flights, number)
}

/// A call to this service, whose last version isn't acknowledged: nothing holds it, and no flight awaits it.
pub(crate) fn is_unacknowledged(register: &Register, flights: &[Flight], dest: &Name) -> bool
    ensures { result ≡ is_unacknowledged (map awaited flights.now) dest.now register.now }
{
    register.dest.is(dest)
        && register.acked < register.version
        && register.held.is_none()
        && !is_awaited(flights, register.number)
}

/// A reply to a call of this service that is due: it has an answer to announce, and nothing holds it.
pub(crate) fn is_owed(reply: &Reply, dest: &Name) -> bool
    ensures { result ≡ is_owed dest.now reply.now }
{
    reply.caller.is(dest) && reply.due && 0 < reply.answer_version && reply.held.is_none()
}

/// A call of which an answer is to be fetched from this service, whether or not a flight awaits it.
pub(crate) fn is_to_fetch(register: &Register, dest: &Name) -> bool
    ensures { result ≡ is_to_fetch dest.now register.now }
{
    owes_fetch(register) && register.dest.is(dest)
}

/// The post of the call of a key.
pub(crate) fn call_of(key: &AgeKey) -> Aged
    ensures { result ≡ call_of key.now }
{
    Aged {
        name: PostName::Call(key.number),
        since: key.since,
    }
}

/// The post of the reply of a key.
pub(crate) fn reply_of(key: &AgeKey) -> Aged
    ensures { result ≡ reply_of key.now }
{
    Aged {
        name: PostName::Reply(key.number),
        since: key.since,
    }
}

/// The fetch of an answer to the call of a key.
pub(crate) fn fetch_of(key: &AgeKey) -> Aged
    ensures { result ≡ fetch_of key.now }
{
    Aged {
        name: PostName::Fetch(key.number),
        since: key.since,
    }
}
