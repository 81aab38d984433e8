// Which programs are in use at a service, and by how many.
ghost use Rattle.std.specs.Prelude.{◌≡◌, [], ◌∷◌, IfOk, OnOk, filter, length, map};
ghost use Rattle.request_log.specs.Entries.{has_program};
ghost use Rattle.request_log.specs.declared.entry.Entry.{Entry as EntryValue};
ghost use Rattle.flights.specs.Corrections.{has_program as is_under};
ghost use Rattle.flights.specs.declared.flight.Flight.{Flight as FlightValue};
ghost use Rattle.service_core.specs.Programs.{by_numbers, programs_held, programs_in_use, use_of};
ghost use Rattle.service_parts.specs.Parts.{kept};

use flights::Flight;
use lang_core::{Copied, NoMemory, Seq, Shared};
use lang_lists::{Numbered, Sorted};
use lang_programs::{Deployed, NumberedText};
use request_log::KeptEntry;
use service_parts::Parts;
use std::alloc::Global;
use std::marker::Model;

/// A program in use at a service, and by how many.
pub struct ProgramInUse {
    /// The program, with its number.
    pub program: Shared<NumberedText>,
    /// How many entries have it that aren't folded.
    pub entries: u64,
    /// How many flights have it.
    pub flights: u64,
}

impl Drop for ProgramInUse {
    fn drop(self) {
        let Self {
            program: _,
            entries: _,
            flights: _,
        } = self;
    }
}

// A program that something has.
struct Held {
    program: Shared<NumberedText>,
}

impl Drop for Held {
    fn drop(self) {
        let Self { program: _ } = self;
    }
}

impl Model for Held {
    ghost use Rattle.lang_programs.specs.Numbered.{Numbered, numbered_code};

    ghost Value = { Numbered };

    ghost coded = { numbered_code };

    ghost view = { λ held. held.program };
}

impl Numbered for Held {
    ghost number = { λ program. program.number };

    fn number(&self) -> u64 {
        self.program.get().number
    }
}

// ---- which there are

fn put(
    alloc: Global,
    programs: &mut Sorted<Held>,
    program: &Shared<Deployed>,
) -> Result<(), NoMemory>
    ensures { OnOk result (programs.new.list ≡ by_numbers programs.old.list (program.now ∷ [])) }
{
    let program = program.get().text().copied(alloc)?;
    programs.put(Held { program })
}

fn put_entries(
    alloc: Global,
    programs: &mut Sorted<Held>,
    entries: &[KeptEntry],
) -> Result<(), NoMemory>
    ensures { OnOk result (programs.new.list ≡ by_numbers programs.old.list (map (λ (e : EntryValue). e.under.now) entries.now)) }
{
    for kept in entries {
        put(alloc, programs, kept.entry().under.now())?;
    }
    Ok(())
}

fn put_flights(
    alloc: Global,
    programs: &mut Sorted<Held>,
    flights: &[Flight],
) -> Result<(), NoMemory>
    ensures { OnOk result (programs.new.list ≡ by_numbers programs.old.list (map (λ (f : FlightValue). f.program) flights.now)) }
{
    for flight in flights {
        put(alloc, programs, &flight.program)?;
    }
    Ok(())
}

// The programs that entries have that aren't folded and flights, and the newest.
fn programs_held(alloc: Global, parts: &Parts) -> Result<Sorted<Held>, NoMemory>
    ensures { IfOk result (λ programs. programs.list ≡ by_numbers [] (programs_held (kept parts.now))) }
{
    let mut programs = Sorted::new(alloc);
    put(alloc, &mut programs, &parts.newest)?;
    put_entries(alloc, &mut programs, parts.repairer.log().as_slice())?;
    put_flights(alloc, &mut programs, parts.flights.as_slice())?;
    Ok(programs)
}

// ---- how many have one

fn has_program(kept: &KeptEntry, held: &Held) -> bool
    ensures { result ≡ has_program held.now.number kept.now }
{
    kept.entry().under.now().get().number() == held.number()
}

fn is_under(flight: &Flight, held: &Held) -> bool
    ensures { result ≡ is_under held.now.number flight.now }
{
    flight.program.get().number() == held.number()
}

fn count_entries(entries: &[KeptEntry], held: &Held) -> u64
    ensures { result ≡ length (filter (has_program held.now.number) entries.now) }
{
    entries
        .iter()
        .filter(|kept| has_program(kept, held))
        .count() as u64
}

fn count_flights(flights: &[Flight], held: &Held) -> u64
    ensures { result ≡ length (filter (is_under held.now.number) flights.now) }
{
    flights
        .iter()
        .filter(|flight| is_under(flight, held))
        .count() as u64
}

#[tactic(auto, using(service_parts::proofs::WholeLemmas::unfolded_kept))]
fn use_of(alloc: Global, parts: &Parts, held: &Held) -> Result<ProgramInUse, NoMemory>
    ensures { IfOk result (λ used. used ≡ use_of (kept parts.now) held.now) }
{
    Ok(ProgramInUse {
        program: held.program.copied(alloc)?,
        entries: count_entries(parts.repairer.log().as_slice(), held),
        flights: count_flights(parts.flights.as_slice(), held),
    })
}

/// The programs in use, each once, by their numbers. It costs with the number of entries for each of them.
pub(crate) fn programs_in_use(alloc: Global, parts: &Parts) -> Result<Seq<ProgramInUse>, NoMemory>
    ensures { IfOk result (λ list. list ≡ programs_in_use (kept parts.now)) }
{
    let programs = programs_held(alloc, parts)?;
    let mut list = Seq::new(alloc);
    for held in programs.as_slice() {
        list.push(use_of(alloc, parts, held)?)?;
    }
    Ok(list)
}
