// Copies of what a service keeps.
ghost use Rattle.std.specs.Prelude.{◌≡◌, ◌≤◌, IfOk};
ghost use Rattle.service_parts.specs.Parts.{kept};
ghost use Rattle.service_parts.specs.Rooms.{aloft};
ghost use Rattle.service_parts.specs.Services.{HasRoom, IsService};

use flights::Flight;
use journal_rows::Rows;
use lang_base::both;
use lang_core::{Copied, NoMemory};
use service_parts::{Parts, reserve};
use std::alloc::Global;

// An equal journal, with room for the abandonment of each of these flights.
fn copied_journal(alloc: Global, journal: &Rows, flights: &[Flight]) -> Result<Rows, NoMemory>
    ensures rows { IfOk result (λ copy. copy.rows ≡ journal.now.rows) }
    ensures room { IfOk result (λ copy. aloft flights.now ≤ copy.spare) }
{
    let mut copy = journal.copied(alloc)?;
    reserve(&mut copy, 0, flights)?;
    Ok(copy)
}

// Equal parts, with room for the abandonment of each flight.
fn equal_parts(alloc: Global, parts: &Parts) -> Result<Parts, NoMemory>
    ensures same { IfOk result (λ copy. kept copy ≡ kept parts.now) }
    ensures room { IfOk result (λ copy. HasRoom copy) }
{
    let log = both(parts.repairer.copied(alloc), parts.flights.copied(alloc));
    let calls = both(parts.registers.copied(alloc), parts.replies.copied(alloc));
    let journal = copied_journal(alloc, &parts.journal, parts.flights.as_slice());
    let rules = both(parts.began.copied(alloc), parts.rules.copied(alloc));
    let programs = both(parts.setting.copied(alloc), parts.newest.copied(alloc));
    let given = both(programs, rules);
    let (log, (calls, (given, journal))) = both(log, both(calls, both(given, journal)))?;
    let (programs, rules) = given;
    Ok(Parts {
        setting: programs.0,
        began: rules.0,
        rules: rules.1,
        newest: programs.1,
        repairer: log.0,
        flights: log.1,
        journal,
        registers: calls.0,
        replies: calls.1,
    })
}

/// Equal parts of a service, with room for the abandonment of each flight.
#[tactic(auto, using(crate::proofs::CopyLemmas::copies_are))]
pub(crate) fn copied_parts(alloc: Global, parts: &Parts) -> Result<Parts, NoMemory>
    requires { IsService parts.now }
    ensures same { IfOk result (λ copy. kept copy ≡ kept parts.now) }
    ensures service { IfOk result (λ copy. IsService copy) }
{
    equal_parts(alloc, parts)
}
