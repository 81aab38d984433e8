// The abandonment of a flight. Room for its rows was made when its calls were named, so it takes no memory.
ghost use Rattle.std.specs.Prelude.{◌≡◌, ◌+◌, ◌<◌, ◌≤◌, ◌^◌, ◌∷◌, ◌++◌, ℕ, List, All, drop, length, vec_len};
ghost use Rattle.call_registers.specs.Changes.{raised};
ghost use Rattle.service_events.specs.State.{after};
ghost use Rattle.service_events.specs.Arriving.{abandon_event};
ghost use Rattle.service_events.specs.Calls.{after_row, after_rows, all_deleted, deleted, noted, version_of};
ghost use Rattle.service_parts.specs.Parts.{kept};
ghost use Rattle.service_parts.specs.Rooms.{aloft};
ghost use Rattle.service_parts.specs.Services.{HasRoom, IsService};
ghost use Rattle.service_requests.specs.Deletions.{IsDeletion};

use call_registers::Registers;
use flights::Flight;
use journal_rows::{Row, Rows, SentRow};
use lang_core::CallMade;
use service_parts::Parts;

// The version of the call of a number that is changed once more.
fn next_version(registers: &Registers, number: u64) -> u64
    ensures { result ≡ raised (version_of registers.now.list number) }
{
    match registers.get(number) {
        None => 1,
        Some(register) => register.version.saturating_add(1),
    }
}

// The row of a call as deleted, for which the call is used up.
fn deletion(registers: &Registers, number: u64, call: CallMade) -> Row
    ensures { result ≡ deleted registers.now.list number call }
{
    Row::Sent(SentRow {
        number,
        dest: call.dest,
        version: next_version(registers, number),
        desired: None,
    })
}

// Puts the row of the first of these calls as deleted last, if there is one.
fn push_deletion(journal: &mut Rows, registers: &Registers, number: u64, calls: &mut Vec<CallMade>)
    requires { vec_len calls.old ≤ journal.old.spare }
    ensures rows { (numbers : List ℕ) →
        journal.new.rows ++ all_deleted registers.now.list numbers calls.new.items
        ≡ journal.old.rows ++ all_deleted registers.now.list (number ∷ numbers) calls.old.items }
    ensures room { vec_len calls.new ≤ journal.new.spare }
    ensures spare { journal.old.spare + vec_len calls.new ≤ journal.new.spare + vec_len calls.old }
{
    if calls.is_empty() {
        return;
    }
    let call = calls.remove(0);
    let row = deletion(registers, number, call);
    journal.push(row).unwrap();
}

// Puts the rows of calls as deleted last, for which there is room. The registers stay, so that each row's version is the one
// above that of its register.
fn push_deletions(journal: &mut Rows, registers: &Registers, numbers: &[u64], calls: Vec<CallMade>)
    requires { vec_len calls ≤ journal.old.spare }
    ensures rows { journal.new.rows ≡ journal.old.rows ++ all_deleted registers.now.list numbers.now calls.items }
    ensures spare { journal.old.spare ≤ journal.new.spare + vec_len calls }
{
    let mut rest = calls;
    for number in numbers {
        push_deletion(journal, registers, *number, &mut rest);
    }
}

// The call of a deletion, if it has a register, is to have no effect from this index of the journal on.
fn note_deletion(registers: &mut Registers, at: u64, row: &Row)
    requires { IsDeletion row.now }
    ensures { registers.new.list ≡ after_row at registers.old.list row.now }
{
    if let Row::Sent(sent) = row {
        if registers.get(sent.number).is_some() {
            registers.unwant(sent.number, at);
        }
    }
}

// Makes of registers what the journal's rows from this index on make of them, each of which is a deletion.
fn note_deletions(registers: &mut Registers, journal: &[Row], first: usize)
    requires { All IsDeletion (drop first journal.now) }
    ensures { registers.new.list ≡ after_rows first registers.old.list (drop first journal.now) }
{
    for at in first..journal.len() {
        note_deletion(registers, at as u64, &journal[at]);
    }
}

// Deletes the calls of a flight that is gone, for which there is room.
fn delete_calls(parts: &mut Parts, flight: Flight)
    requires { length flight.calls + aloft parts.old.flights.list ≤ parts.old.journal.spare }
    ensures kept { kept parts.new ≡ noted (all_deleted parts.old.registers.list flight.numbers flight.calls) (kept parts.old) }
    ensures room { HasRoom parts.new }
{
    let first = parts.journal.as_slice().len();
    let calls = flight.calls.into_items();
    let numbers = flight.numbers.as_slice();
    push_deletions(&mut parts.journal, &parts.registers, numbers, calls);
    note_deletions(&mut parts.registers, parts.journal.as_slice(), first);
}

/// The flight of this number is gone, and its calls are to have no effect; false exactly where there is none, and then
/// nothing changes.
pub fn abandon(parts: &mut Parts, flight: u64) -> bool
    requires { IsService parts.old }
    ensures does { after (kept parts.new) result ≡ abandon_event (kept parts.old) flight }
    ensures service { IsService parts.new }
{
    match parts.flights.remove(flight) {
        None => false,
        Some(gone) => {
            delete_calls(parts, gone);
            true
        }
    }
}
