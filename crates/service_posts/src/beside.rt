// The neighbours of a call among the calls to the same service.
ghost use Rattle.std.specs.Prelude.{◌≡◌, None, false, fold};
ghost use Rattle.request_log.specs.Folded.{whole};
ghost use Rattle.service_events.specs.Fits.{wanted_call};
ghost use Rattle.service_events.specs.Posts.{calls_to, goes_to, next_of, previous_of};
ghost use Rattle.service_parts.specs.Parts.{kept};
ghost use Rattle.service_parts.specs.Services.{IsService};
ghost use Rattle.service_posts.specs.Walks.{calls_in, pass, seen, seen_each};

use crate::calling::Calling;
use crate::outward::{outward, slot_of};
use call_registers::Registers;
use lang_core::{Name, Same};
use request_log::Log;
use service_parts::Parts;

/// The calls next to a call, by their numbers.
#[derive(Clone, Copy)]
pub struct Neighbours {
    /// The next one: the call stands before it.
    pub before: Option<u64>,
    /// The previous one: the call stands after it.
    pub after: Option<u64>,
}

/// What of the calls so far stands next to a call: the last one before it, whether it was passed, and the first one behind
/// it.
#[derive(Clone, Copy)]
pub(crate) struct Walk {
    pub(crate) previous: Option<u64>,
    pub(crate) passed: bool,
    pub(crate) next: Option<u64>,
}

// One call more, that of this number, on the way past the call `of`.
fn pass(of: u64, walk: Walk, number: u64) -> Walk
    ensures { result ≡ pass of walk number }
{
    if !walk.passed {
        if number == of {
            return Walk {
                passed: true,
                ..walk
            };
        }
        return Walk {
            previous: Some(number),
            ..walk
        };
    }
    Walk {
        next: walk.next.or(Some(number)),
        ..walk
    }
}

/// Whether the call of this number is wanted, and goes to this service.
pub(crate) fn goes_to(registers: &Registers, number: u64, dest: &Name) -> bool
    ensures { result ≡ goes_to dest.now (wanted_call registers.now.list number) }
{
    match registers.get(number) {
        None => false,
        Some(register) => register.desired.is_some() && register.dest.is(dest),
    }
}

fn seen(registers: &Registers, dest: &Name, of: u64, walk: Walk, number: u64) -> Walk
    ensures { result ≡ seen registers.now.list dest.now of walk number }
{
    if goes_to(registers, number, dest) {
        pass(of, walk, number)
    } else {
        walk
    }
}

fn seen_each<T: Calling>(registers: &Registers, dest: &Name, of: u64, walk: Walk, entry: &T) -> Walk
    ensures { result ≡ seen_each T.slots registers.now.list dest.now of walk entry.now }
{
    entry.slots().iter().fold(
        walk,
        |walk, number| seen(registers, dest, of, walk, *number),
    )
}

fn seen_all<T: Calling>(
    registers: &Registers,
    dest: &Name,
    of: u64,
    walk: Walk,
    entries: &[T],
) -> Walk
    ensures { result ≡ fold (seen_each T.slots registers.now.list dest.now of) walk entries.now }
{
    entries.iter().fold(
        walk,
        |walk, entry| seen_each(registers, dest, of, walk, entry),
    )
}

// The folded entries come first.
fn seen_log(registers: &Registers, dest: &Name, of: u64, log: &Log) -> Walk
    ensures { result ≡ fold (seen registers.now.list dest.now of) (record { previous = None; passed = false; next = None }) (calls_in (whole log.now.folded log.now.entries)) }
{
    let start = Walk {
        previous: None,
        passed: false,
        next: None,
    };
    let folded = log.folded().as_slice();
    let past = seen_all(registers, dest, of, start, folded);
    let entries = log.as_slice();
    seen_all(registers, dest, of, past, entries)
}

// The neighbours of a call, by a walk over all entries.
fn neighbours_among(parts: &Parts, dest: &Name, number: u64) -> Neighbours
    ensures before { result.before ≡ next_of number (calls_to dest.now (kept parts.now)) }
    ensures after { result.after ≡ previous_of number (calls_to dest.now (kept parts.now)) }
{
    let walk = seen_log(&parts.registers, dest, number, parts.repairer.log());
    Neighbours {
        before: walk.next,
        after: walk.previous,
    }
}

/// The neighbours of a call among the wanted calls of entries to this service, in logged order, the folded entries coming
/// first. A call of no entry has all of them before it. It takes no memory. Of a wanted call whose entry is known and isn't
/// folded it looks at the entries between its neighbours alone, else at all.
pub fn neighbours_of(parts: &Parts, dest: &Name, number: u64) -> Neighbours
    requires { IsService parts.now }
    ensures before { result.before ≡ next_of number (calls_to dest.now (kept parts.now)) }
    ensures after { result.after ≡ previous_of number (calls_to dest.now (kept parts.now)) }
{
    if !goes_to(&parts.registers, number, dest) {
        return neighbours_among(parts, dest, number);
    }
    match slot_of(parts, number) {
        None => neighbours_among(parts, dest, number),
        Some(at) => {
            let log = parts.repairer.log();
            let folded = log.folded().as_slice();
            let entries = log.as_slice();
            outward(&parts.registers, dest, folded, entries, number, at)
        }
    }
}
