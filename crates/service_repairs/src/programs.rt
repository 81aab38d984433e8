// Orders that bring a program: for what comes from now on, or in the place of another one.
ghost use Rattle.std.specs.Prelude.{◌≡◌, ◌+◌, OnOk, OnErr, IfOk};
ghost use Rattle.journal_rows.specs.Programs.{program_count};
ghost use Rattle.service_events.specs.Orders.{brought, corrected_on, made_under, newest_by};
ghost use Rattle.service_parts.specs.Parts.{kept};
ghost use Rattle.service_parts.specs.Rooms.{aloft};

use create_placement::place;
use lang_core::{NoMemory, Shared};
use lang_programs::{Deployed, ProgramText};
use service_parts::{Parts, program_for};
use std::alloc::Global;

/// The program under which an entry runs that an order makes: that of its place.
pub(crate) fn made_under(
    parts: &Parts,
    before: Option<u64>,
    after: Option<u64>,
) -> &Shared<Deployed>
    ensures { result.now ≡ made_under (kept parts.now) before after }
{
    program_for(parts, place(parts.repairer.log(), before, after))
}

/// The number of the program that an order brings.
pub(crate) fn next_program(parts: &Parts) -> u64
    ensures { result ≡ program_count parts.now.journal.rows + 1 }
{
    parts.journal.programs() + 1
}

// The program that an order brings, read back from its text, with its number.
fn brought(
    alloc: Global,
    parts: &Parts,
    text: &Shared<ProgramText>,
) -> Result<Shared<Deployed>, NoMemory>
    ensures { IfOk result (λ program. program ≡ brought (kept parts.now) text.now) }
{
    Deployed::from_text(alloc, next_program(parts), text)
}

/// A program is the newest from now on. Refused, nothing changes.
pub(crate) fn deploy(
    alloc: Global,
    parts: &mut Parts,
    text: &Shared<ProgramText>,
) -> Result<(), NoMemory>
    ensures ok { OnOk result (kept parts.new ≡ record (kept parts.old) { newest = brought (kept parts.old) text.now }) }
    ensures err { OnErr result (kept parts.new ≡ kept parts.old) }
    ensures journal { parts.new.journal ≡ parts.old.journal }
    ensures flights { parts.new.flights ≡ parts.old.flights }
{
    parts.newest = brought(alloc, parts, text)?;
    Ok(())
}

// Puts a program in place of the newest, where that has this number.
fn renew(newest: &mut Shared<Deployed>, number: u64, program: Shared<Deployed>)
    ensures { newest.new ≡ newest_by number program newest.old }
{
    if newest.get().number() == number {
        *newest = program;
    }
}

// Puts a program in place of that of a number, in all that isn't folded. Refused, nothing changes.
fn put_in_place(
    alloc: Global,
    parts: &mut Parts,
    number: u64,
    program: Shared<Deployed>,
) -> Result<(), NoMemory>
    ensures ok { OnOk result (kept parts.new ≡ corrected_on number program (kept parts.old)) }
    ensures err { OnErr result (kept parts.new ≡ kept parts.old) }
    ensures journal { parts.new.journal ≡ parts.old.journal }
    ensures aloft { aloft parts.new.flights.list ≡ aloft parts.old.flights.list }
{
    let flights = parts.flights.corrected(alloc, number, &program)?;
    parts.repairer.correct(alloc, number, &program)?;
    parts.flights = flights;
    renew(&mut parts.newest, number, program);
    Ok(())
}

/// A program stands in place of that of a number: of each entry that isn't folded and of each flight that has it, and of the
/// newest. Refused, nothing changes.
pub(crate) fn correct(
    alloc: Global,
    parts: &mut Parts,
    number: u64,
    text: &Shared<ProgramText>,
) -> Result<(), NoMemory>
    ensures ok { OnOk result (kept parts.new ≡ corrected_on number (brought (kept parts.old) text.now) (kept parts.old)) }
    ensures err { OnErr result (kept parts.new ≡ kept parts.old) }
    ensures journal { parts.new.journal ≡ parts.old.journal }
    ensures aloft { aloft parts.new.flights.list ≡ aloft parts.old.flights.list }
{
    let program = brought(alloc, parts, text)?;
    put_in_place(alloc, parts, number, program)
}
