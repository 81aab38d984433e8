// The rows that settle the calls of an entry that runs again, and the numbers of its new calls.
ghost use Rattle.std.specs.Prelude.{◌≡◌, ◌+◌, [], ◌∷◌, ◌++◌, IfOk, OnOk};
ghost use Rattle.lang_base.specs.Texts.{same_text};
ghost use Rattle.local_repair.specs.Steps.{same_call, calls_of_made};
ghost use Rattle.call_registers.specs.Registers.{next_number};
ghost use Rattle.service_events.specs.Calls.{deleted, named, keeps_number, slot_rows, slot_number, next_after, settling_rows, settling_numbers};

use call_registers::Registers;
use journal_rows::Row;
use lang_core::{CallMade, NoMemory, Same, Trace};
use request_log::{Entry, Numbers};
use service_parts::{RegistersView, deleted, named, push_deleted, replaced};
use std::alloc::Global;

/// The rows that tell how an entry's calls become those of its new trace, and the numbers of these.
#[derive(Drop)]
pub(crate) struct SettlingPlan {
    pub rows: Vec<Row>,
    pub numbers: Numbers,
}

fn same_call(left: &CallMade, right: &CallMade) -> bool
    ensures { result ≡ same_call left.now right.now }
{
    left.is(right)
}

fn same_dest(left: &CallMade, right: &CallMade) -> bool
    ensures { result ≡ same_text left.now.dest right.now.dest }
{
    left.dest.text().is(right.dest.text())
}

fn keeps_number(old: &CallMade, new: &CallMade) -> bool
    ensures { result ≡ keeps_number old.now new.now }
{
    same_call(old, new) || same_dest(old, new)
}

fn slot_number(next: u64, number: u64, old: &CallMade, new: &CallMade) -> u64
    ensures { result ≡ slot_number next number old.now new.now }
{
    if keeps_number(old, new) { number } else { next }
}

// One more; what has no number of 64 bits has no memory either.
fn one_more(next: u64) -> Result<u64, NoMemory>
    ensures { IfOk result (λ n. n ≡ next + 1) }
{
    next.checked_add(1).ok_or(NoMemory)
}

fn next_after(next: u64, old: &CallMade, new: &CallMade) -> Result<u64, NoMemory>
    ensures { IfOk result (λ n. n ≡ next_after next old.now new.now) }
{
    if keeps_number(old, new) {
        Ok(next)
    } else {
        one_more(next)
    }
}

// The old call is to have no effect, and the new one is named.
fn push_other(
    alloc: Global,
    registers: &Registers,
    next: u64,
    number: u64,
    old: &CallMade,
    new: &CallMade,
    rows: &mut Vec<Row>,
) -> Result<(), NoMemory>
    ensures { OnOk result (rows.new.items ≡ rows.old.items ++ deleted registers.now.list number old.now ∷ named next new.now ∷ []) }
{
    rows.push(deleted(alloc, registers, number, old)?)?;
    rows.push(named(alloc, next, new)?)?;
    Ok(())
}

// The rows of one slot.
fn push_slot(
    alloc: Global,
    registers: &Registers,
    next: u64,
    number: u64,
    old: &CallMade,
    new: &CallMade,
    rows: &mut Vec<Row>,
) -> Result<(), NoMemory>
    ensures { OnOk result (rows.new.items ≡ rows.old.items ++ slot_rows registers.now.list next number old.now new.now) }
{
    if same_call(old, new) {
        return Ok(());
    }
    if same_dest(old, new) {
        rows.push(replaced(alloc, registers, number, &old.dest, &new.request)?)?;
        return Ok(());
    }
    push_other(alloc, registers, next, number, old, new, rows)
}

// The rows of one slot, and the number of its call.
fn plan_slot(
    alloc: Global,
    registers: &Registers,
    next: u64,
    number: u64,
    old: &CallMade,
    new: &CallMade,
    plan: &mut SettlingPlan,
) -> Result<(), NoMemory>
    ensures rows { OnOk result (plan.new.rows.items ≡ plan.old.rows.items ++ slot_rows registers.now.list next number old.now new.now) }
    ensures numbers { OnOk result (plan.new.numbers ≡ plan.old.numbers ++ slot_number next number old.now new.now ∷ []) }
{
    push_slot(alloc, registers, next, number, old, new, &mut plan.rows)?;
    plan.numbers.push(slot_number(next, number, old, new))
}

// The row of a call of a slot more, and its number.
fn plan_new(
    alloc: Global,
    next: u64,
    call: &CallMade,
    plan: &mut SettlingPlan,
) -> Result<(), NoMemory>
    ensures rows { OnOk result (plan.new.rows.items ≡ plan.old.rows.items ++ named next call.now ∷ []) }
    ensures numbers { OnOk result (plan.new.numbers ≡ plan.old.numbers ++ next ∷ []) }
{
    plan.rows.push(named(alloc, next, call)?)?;
    plan.numbers.push(next)
}

// The rows and numbers of the slots of these numbers, which had these old calls and have these new ones; `next` is the next
// number.
fn plan_slots(
    alloc: Global,
    registers: &Registers,
    next: u64,
    numbers: &[u64],
    old: &[CallMade],
    new: &[CallMade],
    plan: &mut SettlingPlan,
) -> Result<(), NoMemory>
    ensures rows { OnOk result (plan.new.rows.items ≡ plan.old.rows.items ++ settling_rows registers.now.list next numbers.now old.now new.now) }
    ensures numbers { OnOk result (plan.new.numbers ≡ plan.old.numbers ++ settling_numbers next numbers.now old.now new.now) }
{
    match numbers.split_first() {
        None => match new.split_first() {
            None => Ok(()),
            Some((call, calls)) => {
                plan_new(alloc, next, call, plan)?;
                plan_slots(alloc, registers, one_more(next)?, numbers, old, calls, plan)
            }
        },
        Some((number, later)) => match old.split_first() {
            None => Ok(()),
            Some((was, olds)) => match new.split_first() {
                None => push_deleted(alloc, registers, numbers, old, &mut plan.rows),
                Some((call, calls)) => {
                    plan_slot(alloc, registers, next, *number, was, call, plan)?;
                    let after = next_after(next, was, call)?;
                    plan_slots(alloc, registers, after, later, olds, calls, plan)
                }
            },
        },
    }
}

fn old_calls(entry: &Entry) -> &[CallMade]
    ensures { result.now ≡ calls_of_made entry.now.made }
{
    match &entry.made {
        Some(made) => made.trace.calls.as_slice(),
        None => &[],
    }
}

/// How the calls of an entry become those of its new trace. It changes nothing.
pub(crate) fn plan_calls(
    alloc: Global,
    registers: &Registers,
    entry: &Entry,
    trace: &Trace,
) -> Result<SettlingPlan, NoMemory>
    ensures rows { IfOk result (λ p. p.rows.items ≡ settling_rows registers.now.list (next_number registers.now.list) entry.now.slots (calls_of_made entry.now.made) trace.now.calls) }
    ensures numbers { IfOk result (λ p. p.numbers ≡ settling_numbers (next_number registers.now.list) entry.now.slots (calls_of_made entry.now.made) trace.now.calls) }
{
    let mut plan = SettlingPlan {
        rows: Vec::new(alloc),
        numbers: Numbers::new(alloc),
    };
    plan_slots(
        alloc,
        registers,
        registers.next_number(),
        entry.slots.as_slice(),
        old_calls(entry),
        trace.calls.as_slice(),
        &mut plan,
    )?;
    Ok(plan)
}
