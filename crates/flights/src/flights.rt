// Flights of a service, in the order of their numbers.
ghost use Rattle.std.specs.Prelude.{◌≡◌, ◌+◌, ◌<◌, ◌≤◌, [], length, map, IsSome, IsOk, OnOk, OnErr, IfOk};
ghost use Rattle.std.specs.Option.{option_copied};
ghost use Rattle.lang_core.specs.Origins.{is_call};
ghost use Rattle.flights.specs.Corrections.{corrected_flight};
ghost use Rattle.flights.specs.Numbers.{flight_in, without_flight, with_flight, IsRising, free_from, IsLeastFree, same_call_origin, is_flying};

use crate::flight::{Flight, corrected};
use handler_run::Deployed;
use lang_core::{Name, NoMemory, Origin, Same, Shared};
use lang_lists::Sorted;
use std::alloc::Global;
use std::marker::Model;

/// Flights in the order of their numbers, with spare room. No two have one number.
pub struct Flights {
    list: Sorted<Flight>,
}

impl Drop for Flights {
    fn drop(self) {
        let Self { list: _ } = self;
    }
}

impl Model for Flights {
    ghost use Rattle.flights.specs.Codes.{flights_code};
    ghost use Rattle.flights.specs.Numbers.{KeptFlights, IsRising};

    ghost Value = { KeptFlights };

    ghost coded = { flights_code };

    ghost view = { λ f. record { list = f.list.list; spare = f.list.spare } };

    ghost invariant = { λ f. IsRising f.list.list };
}

// Puts a flight where its number belongs.
fn put_in(list: &mut Sorted<Flight>, flight: Flight) -> Result<(), NoMemory>
    requires rising { IsRising list.old.list }
    requires from { 1 ≤ flight.id }
    ensures ok { OnOk result (list.new.list ≡ with_flight flight list.old.list) }
    ensures err { OnErr result (list.new.list ≡ list.old.list) }
    ensures rising { IsRising list.new.list }
    ensures ready { 0 < list.old.spare → IsOk result }
    ensures known { IsSome (flight_in flight.id list.old.list) → IsOk result }
    ensures spare { list.old.spare ≤ list.new.spare + 1 }
{
    list.put(flight)
}

fn remove_from(list: &mut Sorted<Flight>, id: u64) -> Option<Flight>
    requires { IsRising list.old.list }
    ensures found { result ≡ flight_in id list.old.list }
    ensures list { list.new.list ≡ without_flight id list.old.list }
    ensures rising { IsRising list.new.list }
    ensures spare { list.old.spare ≤ list.new.spare }
{
    list.remove(id)
}

fn is_call(origin: &Origin, caller: &Name, number: u64) -> bool
    ensures { result ≡ is_call caller.now number origin.now }
{
    match origin {
        Origin::Outside => false,
        Origin::Call {
            caller: own_caller,
            number: own_number,
        } => own_caller.text().is(caller.text()) && *own_number == number,
    }
}

fn same_call_origin(left: &Origin, right: &Origin) -> bool
    ensures { result ≡ same_call_origin left.now right.now }
{
    match left {
        Origin::Outside => false,
        Origin::Call { caller, number } => is_call(right, caller, *number),
    }
}

fn free_number(list: &[Flight]) -> u64
    ensures { result ≡ free_from 1 list.now }
{
    let mut id = 1;
    for flight in list {
        if flight.id != id {
            return id;
        }
        id += 1;
    }
    id
}

// Puts a flight last, as it is or under the program that stands in place of that of a number.
fn push_corrected(
    alloc: Global,
    list: &mut Sorted<Flight>,
    flight: &Flight,
    number: u64,
    program: &Shared<Deployed>,
) -> Result<(), NoMemory>
    ensures { OnOk result (list.new.list ≡ with_flight (corrected_flight number program.now flight.now) list.old.list) }
{
    let copy = corrected(alloc, flight, number, program)?;
    list.put(copy)
}

// These flights, with a program in place of that of a number.
fn all_corrected(
    alloc: Global,
    flights: &[Flight],
    number: u64,
    program: &Shared<Deployed>,
) -> Result<Sorted<Flight>, NoMemory>
    requires { IsRising flights.now }
    ensures { IfOk result (λ list. list.list ≡ map (corrected_flight number program.now) flights.now) }
{
    let mut list = Sorted::new(alloc);
    for flight in flights {
        push_corrected(alloc, &mut list, flight, number, program)?;
    }
    Ok(list)
}

impl Flights {
    /// No flights.
    pub fn new(alloc: Global) -> Flights
        ensures { result.list ≡ [] }
    {
        Flights {
            list: Sorted::new(alloc),
        }
    }

    /// The flights, in the order of their numbers.
    pub fn as_slice(&self) -> &[Flight]
        ensures list { result.now ≡ self.now.list }
        ensures rising { IsRising self.now.list }
    {
        self.list.as_slice()
    }

    /// How many flights there are.
    pub fn len(&self) -> u64
        ensures { result ≡ length self.now.list }
    {
        self.list.len()
    }

    /// The flight of a number; None exactly where there is none.
    pub fn find(&self, id: u64) -> Option<&Flight>
        ensures found { option_copied result ≡ flight_in id self.now.list }
    {
        self.list.find(id)
    }

    /// Whether a call of this origin is in flight.
    pub fn has_origin(&self, origin: &Origin) -> bool
        ensures { result ≡ is_flying origin.now self.now.list }
    {
        self.list
            .as_slice()
            .iter()
            .any(|flight| same_call_origin(origin, &flight.origin))
    }

    /// The least number from 1 on that no flight has.
    pub fn free_number(&self) -> u64
        ensures free { result ≡ free_from 1 self.now.list }
        ensures least { IsLeastFree result self.now.list }
    {
        free_number(self.list.as_slice())
    }

    /// Makes room for so many flights more. Refused, there is as much as before, and the flights stay.
    pub fn reserve(&mut self, more: u64) -> Result<(), NoMemory>
        ensures list { self.new.list ≡ self.old.list }
        ensures ok { OnOk result (more ≤ self.new.spare) }
        ensures spare { self.old.spare ≤ self.new.spare }
    {
        self.list.reserve(more)
    }

    /// Puts a flight where its number belongs, in place of the one of its number, if there is one, which takes no
    /// memory; nor does it take any where there is room. Refused, it is dropped and the flights stay.
    pub fn put(&mut self, flight: Flight) -> Result<(), NoMemory>
        requires { 1 ≤ flight.id }
        ensures ok { OnOk result (self.new.list ≡ with_flight flight self.old.list) }
        ensures err { OnErr result (self.new.list ≡ self.old.list) }
        ensures ready { 0 < self.old.spare → IsOk result }
        ensures known { IsSome (flight_in flight.id self.old.list) → IsOk result }
        ensures spare { self.old.spare ≤ self.new.spare + 1 }
    {
        put_in(&mut self.list, flight)
    }

    /// Takes out the flight of a number, and hands it back; None exactly where there is none. There is no less room
    /// then.
    pub fn remove(&mut self, id: u64) -> Option<Flight>
        ensures found { result ≡ flight_in id self.old.list }
        ensures list { self.new.list ≡ without_flight id self.old.list }
        ensures spare { self.old.spare ≤ self.new.spare }
    {
        remove_from(&mut self.list, id)
    }

    /// Equal flights, but with a program in place of that of a number, for each flight that has it; nothing is said of their
    /// room.
    pub fn corrected(
        &self,
        alloc: Global,
        number: u64,
        program: &Shared<Deployed>,
    ) -> Result<Flights, NoMemory>
        ensures { IfOk result (λ copy. copy.list ≡ map (corrected_flight number program.now) self.now.list) }
    {
        let list = all_corrected(alloc, self.list.as_slice(), number, program)?;
        Ok(Flights { list })
    }

    /// Equal flights; nothing is said of their room.
    pub fn copied(&self, alloc: Global) -> Result<Flights, NoMemory>
        ensures { IfOk result (λ copy. copy.list ≡ self.now.list) }
    {
        let list = self.list.copied(alloc)?;
        Ok(Flights { list })
    }
}
