// What a flight does after a run.
ghost use Rattle.std.specs.Prelude.{◌≡◌, [], ◌∷◌, ◌++◌, slice_get};
ghost use Rattle.std.specs.Option.{option_copied};
ghost use Rattle.lang_base.specs.Equal.{equal};
ghost use Rattle.lang_core.specs.contracts.trace.CallMade as call_made;
ghost use Rattle.flights.specs.Moves.{calls_in, first_other, by_run, next_move};

use crate::flight::{Flight, Move};
use handler_run::Ran;
use lang_core::{CallMade, Calls, Same};

// The call at a place, where `last` stands behind the others.
fn call_before<'a>(calls: &'a Calls, last: &'a CallMade, slot: u64) -> Option<&'a CallMade>
    ensures { option_copied result ≡ slice_get (calls.now ++ last.now ∷ []) slot }
{
    let others = calls.len();
    if slot < others {
        calls.at(slot)
    } else if slot == others {
        Some(last)
    } else {
        None
    }
}

/// The call that a run makes at a slot, the one that it wants among them; None exactly past its calls.
pub fn call_at(ran: &Ran, slot: u64) -> Option<&CallMade>
    ensures { option_copied result ≡ slice_get (calls_in ran.now) slot }
{
    match ran {
        Ran::Done(trace) => trace.calls.at(slot),
        Ran::Wants { calls, call, .. } => call_before(calls, call, slot),
    }
}

fn same_call(old: &CallMade, new: &CallMade) -> bool
    ensures { result ≡ equal call_made.the_row.coded old.now new.now }
{
    old.is(new)
}

// The first slot at which the run makes another call than the flight has there.
fn first_other(olds: &[CallMade], ran: &Ran) -> Option<u64>
    ensures { result ≡ first_other olds.now (calls_in ran.now) }
{
    for (slot, old) in olds.iter().enumerate() {
        match call_at(ran, slot as u64) {
            None => return None,
            Some(new) => {
                if !same_call(old, new) {
                    return Some(slot as u64);
                }
            }
        }
    }
    None
}

fn by_run(ran: &Ran) -> Move
    ensures { result ≡ by_run ran.now }
{
    match ran {
        Ran::Done(_) => Move::Commit,
        Ran::Wants { .. } => Move::Name,
    }
}

/// What a flight does after a run: it changes the first call that the run makes otherwise; else it names the call that
/// the run wants; else it is committed. It takes no memory.
pub fn advance(flight: &Flight, ran: &Ran) -> Move
    ensures { result ≡ next_move flight.now ran.now }
{
    match first_other(flight.calls.as_slice(), ran) {
        Some(slot) => Move::Change { slot },
        None => by_run(ran),
    }
}
