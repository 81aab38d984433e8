// A live request that waits, and what it does next.
ghost use Rattle.std.specs.Prelude.{◌≡◌, IfOk};
ghost use Rattle.flights.specs.Corrections.{corrected_flight, has_program};
ghost use Rattle.flights.specs.Numbers.{awaited};

use handler_run::Deployed;
use lang_base::both;
use lang_core::{CallMade, Copied, Inputs, NoMemory, Origin, Request, Seq, Shared};
use lang_lists::Numbered;
use repair_messages::copied_pair;
use std::alloc::Global;

/// A live request that waits for the answer of a call. It has one number for each of its calls, and waits for the call
/// that was named last.
#[derive(Drop)]
pub struct Flight {
    /// Its number in the service, from 1; of those in flight at one time no two have one number.
    pub id: u64,
    pub origin: Origin,
    pub request: Shared<Request>,
    pub inputs: Shared<Inputs>,
    /// The program under which it runs.
    pub program: Shared<Deployed>,
    /// Its calls so far, in the order of its slots.
    pub calls: Seq<CallMade>,
    /// The numbers of its calls.
    pub numbers: Seq<u64>,
    /// How often a run made another call than the one before it.
    pub changes: u64,
}

impl Flight {
    /// The number of the call for which it waits: the one that was named last.
    pub fn awaited(&self) -> u64
        ensures { result ≡ awaited self.now }
    {
        self.numbers
            .as_slice()
            .iter()
            .fold(0, |last, number| last.max(*number))
    }
}

/// What a flight does after a run.
#[derive(Clone, Copy, PartialEq, Eq)]
pub enum Move {
    /// It is committed: the run ended.
    Commit,
    /// It names one more call.
    Name,
    /// It deletes the call of this slot and names another one there.
    Change { slot: u64 },
}

impl Numbered for Flight {
    ghost number = { λ f. f.id };

    fn number(&self) -> u64 {
        self.id
    }
}

impl Copied for Flight {
    fn copied(&self, alloc: Global) -> Result<Flight, NoMemory> {
        under(alloc, self, &self.program)
    }
}

// A flight equal to this one, but for its program, which is this one.
fn under(alloc: Global, flight: &Flight, program: &Shared<Deployed>) -> Result<Flight, NoMemory>
    ensures { IfOk result (λ copy. copy ≡ record flight.now { program = program.now }) }
{
    let asked = both(flight.request.copied(alloc), flight.inputs.copied(alloc));
    let begun = both(flight.origin.copied(alloc), program.copied(alloc));
    let (begun, asked) = both(begun, asked)?;
    let (calls, numbers) = copied_pair(alloc, &flight.calls, &flight.numbers)?;
    Ok(Flight {
        id: flight.id,
        origin: begun.0,
        request: asked.0,
        inputs: asked.1,
        program: begun.1,
        calls,
        numbers,
        changes: flight.changes,
    })
}

fn has_program(flight: &Flight, number: u64) -> bool
    ensures { result ≡ has_program number flight.now }
{
    flight.program.get().number() == number
}

/// A flight equal to this one, but under the other program where its own has the number.
pub(crate) fn corrected(
    alloc: Global,
    flight: &Flight,
    number: u64,
    program: &Shared<Deployed>,
) -> Result<Flight, NoMemory>
    ensures { IfOk result (λ copy. copy ≡ corrected_flight number program.now flight.now) }
{
    if has_program(flight, number) {
        under(alloc, flight, program)
    } else {
        flight.copied(alloc)
    }
}
