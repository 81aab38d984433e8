// Rows that tell of calls.
ghost use Rattle.std.specs.Prelude.{◌≡◌, ◌+◌, ◌≤◌, [], ◌∷◌, ◌++◌, drop, slice_get, IfOk, OnOk};
ghost use Rattle.service_events.specs.Calls.{replaced, deleted, named, all_deleted};
ghost use Rattle.std.specs.Option.{option_copied};
ghost use Rattle.call_registers.specs.Registers.{next_number};
ghost use Rattle.service_parts.specs.Drafts.{deletion_in, change_rows_in};

use crate::view::RegistersView;
use flights::Flight;
use journal_rows::{Row, SentRow};
use lang_base::both;
use lang_core::{CallMade, Copied, Name, NoMemory, Request, Shared};
use std::alloc::Global;

/// The row of a call that asks another request.
pub fn replaced<R: RegistersView>(
    alloc: Global,
    registers: &R,
    number: u64,
    dest: &Name,
    request: &Request,
) -> Result<Row, NoMemory>
    ensures { IfOk result (λ row. row ≡ replaced (R.list registers.now) number dest.now request.now) }
{
    let (dest, request) = both(dest.copied(alloc), Shared::copy_of(alloc, request))?;
    Ok(Row::Sent(SentRow {
        number,
        dest,
        version: registers.version_of(number).saturating_add(1),
        desired: Some(request),
    }))
}

/// The row of a deleted call.
pub fn deleted<R: RegistersView>(
    alloc: Global,
    registers: &R,
    number: u64,
    call: &CallMade,
) -> Result<Row, NoMemory>
    ensures { IfOk result (λ row. row ≡ deleted (R.list registers.now) number call.now) }
{
    Ok(Row::Sent(SentRow {
        number,
        dest: call.dest.copied(alloc)?,
        version: registers.version_of(number).saturating_add(1),
        desired: None,
    }))
}

/// The row of a new call.
pub fn named(alloc: Global, number: u64, call: &CallMade) -> Result<Row, NoMemory>
    ensures { IfOk result (λ row. row ≡ named number call.now) }
{
    let request = Shared::copy_of(alloc, &call.request);
    let (dest, request) = both(call.dest.copied(alloc), request)?;
    Ok(Row::Sent(SentRow {
        number,
        dest,
        version: 1,
        desired: Some(request),
    }))
}

fn call_in(calls: &[CallMade], place: usize) -> Option<&CallMade>
    ensures { option_copied result ≡ slice_get calls.now place }
{
    calls.get(place)
}

/// The rows of deleted calls, from these numbers and calls on, after the rows that are there. Refused, the rows are no
/// use any more.
pub fn push_deleted<R: RegistersView>(
    alloc: Global,
    registers: &R,
    numbers: &[u64],
    calls: &[CallMade],
    rows: &mut Vec<Row>,
) -> Result<(), NoMemory>
    ensures { OnOk result (rows.new.items ≡ rows.old.items ++ all_deleted (R.list registers.now) numbers.now calls.now) }
{
    for (i, number) in numbers.iter().enumerate() {
        match call_in(calls, i) {
            None => return Ok(()),
            Some(call) => rows.push(deleted(alloc, registers, *number, call)?)?,
        }
    }
    Ok(())
}

// The row of a call as deleted, where there is a call.
fn push_deletion<R: RegistersView>(
    alloc: Global,
    registers: &R,
    number: Option<&u64>,
    call: Option<&CallMade>,
    rows: &mut Vec<Row>,
) -> Result<(), NoMemory>
    ensures { OnOk result (rows.new.items ≡ rows.old.items ++ deletion_in (R.list registers.now) (option_copied number.entry) (option_copied call.entry)) }
{
    match (number, call) {
        (Some(number), Some(call)) => {
            let row = deleted(alloc, registers, *number, call)?;
            rows.push(row)?;
            Ok(())
        }
        _ => Ok(()),
    }
}

/// The rows of a change: the flight's call at the slot is deleted, and another one is named under the next
/// number.
pub fn change_rows<R: RegistersView>(
    alloc: Global,
    registers: &R,
    flight: &Flight,
    slot: u64,
    call: &CallMade,
) -> Result<Vec<Row>, NoMemory>
    ensures { IfOk result (λ rows. rows.items ≡ change_rows_in (R.list registers.now) flight.now slot call.now) }
{
    let mut rows = Vec::new(alloc);
    push_deletion(
        alloc,
        registers,
        flight.numbers.at(slot),
        flight.calls.at(slot),
        &mut rows,
    )?;
    let row = named(alloc, registers.next_number(), call)?;
    rows.push(row)?;
    Ok(rows)
}
