// What is outstanding of a service.
ghost use Rattle.std.specs.Prelude.{◌≡◌, [], IsSomeAnd, MatchOption, slice_get, All};
ghost use Rattle.world_audit.specs.First.{IsFirstNumber};
ghost use Rattle.world_audit.specs.Verdicts.{IsAcknowledged, IsFetched, IsGiven, NoneOf, IsFirstIn, what_is};

use call_registers::{Register, Reply, owes_fetch};
use flights::Flight;
use journal_rows::Outstanding;
use service_core::Service;

/// The kinds of what may be outstanding, in the order in which the audit looks for them.
#[derive(Clone, Copy, PartialEq, Eq)]
pub enum OutstandingKind {
    /// Live requests that wait for calls.
    Flights,
    /// Stale entries.
    Entries,
    /// Calls whose last version isn't acknowledged.
    Calls,
    /// Answers that were announced and are to be fetched.
    Fetches,
    /// Answers that are due.
    Answers,
}

fn first_flight(flights: &[Flight]) -> Option<u64>
    ensures { MatchOption result (flights.now ≡ []) (λ number. IsSomeAnd (slice_get flights.now 0) (λ f. f.id ≡ number)) }
{
    match flights {
        [] => None,
        [flight, ..] => Some(flight.id),
    }
}

fn first_call(registers: &[Register]) -> Option<u64>
    ensures { MatchOption result (All IsAcknowledged registers.now) (IsFirstNumber IsAcknowledged (λ r. r.number) registers.now) }
{
    for register in registers {
        if register.acked != register.version {
            return Some(register.number);
        }
    }
    None
}

fn first_fetch(registers: &[Register]) -> Option<u64>
    ensures { MatchOption result (All IsFetched registers.now) (IsFirstNumber IsFetched (λ r. r.number) registers.now) }
{
    for register in registers {
        if owes_fetch(register) {
            return Some(register.number);
        }
    }
    None
}

fn first_answer(replies: &[Reply]) -> Option<u64>
    ensures { MatchOption result (All IsGiven replies.now) (IsFirstNumber IsGiven (λ p. p.id) replies.now) }
{
    for reply in replies {
        if reply.due {
            return Some(reply.id);
        }
    }
    None
}

/// The number of the first of a kind that is outstanding of a service; None exactly where nothing of it is.
pub fn first_in(kind: OutstandingKind, service: &Service) -> Option<u64>
    ensures { MatchOption result (NoneOf kind service.now) (IsFirstIn kind service.now) }
{
    match kind {
        OutstandingKind::Flights => first_flight(service.flights().as_slice()),
        OutstandingKind::Entries => service.first_stale(),
        OutstandingKind::Calls => first_call(service.registers().as_slice()),
        OutstandingKind::Fetches => first_fetch(service.registers().as_slice()),
        OutstandingKind::Answers => first_answer(service.replies().as_slice()),
    }
}

/// What a verdict says of the thing of this kind and number.
pub fn outstanding(kind: OutstandingKind, number: u64) -> Outstanding
    ensures { result ≡ what_is kind number }
{
    match kind {
        OutstandingKind::Flights => Outstanding::Flight(number),
        OutstandingKind::Entries => Outstanding::Stale(number),
        OutstandingKind::Calls => Outstanding::Call(number),
        OutstandingKind::Fetches => Outstanding::Fetch(number),
        OutstandingKind::Answers => Outstanding::Answer(number),
    }
}
