// Changes of registers that are drafted, beside the registers that stand.
ghost use Rattle.std.specs.Prelude.{◌≡◌, ◌+◌, ◌++◌, [], ◌∷◌, length, fold, slice_get, option_map, OnOk, IfOk};
ghost use Rattle.std.specs.Option.{option_copied};
ghost use Rattle.call_registers.specs.Registers.{register, consumed, next_number, at_number, changed, with_call};
ghost use Rattle.call_registers.specs.Overlays.{overlaid, put_all, numbered, numbered_from, later};

use crate::register::{Register, RegisterChange, apply, new_register};
use crate::registers::{Registers, answer_of};
use lang_core::{Copied, Name, NoMemory, Request, Response};
use std::alloc::Global;

/// Changes of registers that are drafted. They are read together with the registers that stand, which they leave as they
/// are, so that a draft costs no more than what it changes.
#[derive(Drop)]
pub struct RegisterChanges {
    /// Registers that stand, as they are to be. Of several with one number the last counts.
    pub changed: Vec<Register>,
    /// New registers. Their numbers are those behind the registers that stand.
    pub added: Vec<Register>,
}

fn later<'a>(number: u64, register: &'a Register, changed: &'a Register) -> &'a Register
    ensures { result.now ≡ later number register.now changed.now }
{
    if changed.number == number {
        changed
    } else {
        register
    }
}

// A register that stands, as it is to be.
fn latest<'a>(number: u64, standing: &'a Register, changed: &'a [Register]) -> &'a Register
    ensures { result.now ≡ fold (later number) standing.now changed.now }
{
    let mut found = standing;
    for register in changed {
        found = later(number, found, register);
    }
    found
}

// The register of a number that stands, as it is to be.
fn find_changed<'a>(
    changed: &'a [Register],
    standing: &'a Registers,
    number: u64,
) -> Option<&'a Register>
    ensures { option_copied result ≡ register number (put_all changed.now standing.now.list) }
{
    match standing.get(number) {
        None => None,
        Some(register) => Some(latest(number, register, changed)),
    }
}

fn item_at(list: &[Register], place: usize) -> Option<&Register>
    ensures { option_copied result ≡ slice_get list.now place }
{
    list.get(place)
}

// The new register of a number, where so many stand.
fn find_added(added: &[Register], count: u64, number: u64) -> Option<&Register>
    ensures { register number (numbered_from (count + 1) added.now) ≡ option_map (numbered number) (option_copied result) }
{
    if number <= count {
        return None;
    }
    item_at(added, (number - count - 1) as usize)
}

fn change_added(added: &mut Vec<Register>, count: u64, number: u64, change: RegisterChange)
    ensures { numbered_from (count + 1) added.new.items ≡ at_number number (changed change) (numbered_from (count + 1) added.old.items) }
{
    if number <= count {
        return;
    }
    let place = (number - count - 1) as usize;
    if place < added.len() {
        apply(&mut added[place], change);
    }
}

// The register as a change makes it.
fn changed(alloc: Global, register: &Register, change: RegisterChange) -> Result<Register, NoMemory>
    ensures { IfOk result (λ next. next ≡ changed change register.now) }
{
    let mut next = register.copied(alloc)?;
    apply(&mut next, change);
    Ok(next)
}

// The number behind these.
fn number_after(standing: &[Register], added: &[Register]) -> u64
    ensures { result ≡ length standing.now + length added.now + 1 }
{
    standing.len() as u64 + added.len() as u64 + 1
}

impl RegisterChanges {
    /// No changes.
    pub fn none(alloc: Global) -> RegisterChanges
        ensures changed { result.changed.items ≡ [] }
        ensures added { result.added.items ≡ [] }
    {
        RegisterChanges {
            changed: Vec::new(alloc),
            added: Vec::new(alloc),
        }
    }

    /// The register of a number after the changes, but for its field `number`, which a new one may not have; None exactly
    /// where there is none.
    pub fn find<'a>(&'a self, standing: &'a Registers, number: u64) -> Option<&'a Register>
        ensures { register number (overlaid self.now standing.now.list) ≡ option_map (numbered number) (option_copied result) }
    {
        match find_changed(&self.changed, standing, number) {
            Some(register) => Some(register),
            None => find_added(&self.added, standing.len(), number),
        }
    }

    /// The answer that a call consumes after the changes. None is the tentative answer.
    pub fn consumed<'a>(&'a self, standing: &'a Registers, number: u64) -> Option<&'a Response>
        ensures { option_copied result ≡ consumed number (overlaid self.now standing.now.list) }
    {
        match self.find(standing, number) {
            None => None,
            Some(register) => answer_of(register),
        }
    }

    /// The number of the next call after the changes.
    pub fn next_number(&self, standing: &Registers) -> u64
        ensures { result ≡ next_number (overlaid self.now standing.now.list) }
    {
        number_after(standing.as_slice(), &self.added)
    }

    /// Changes the register of a number, where there is one. Refused, the changes are no use any more.
    pub fn change(
        &mut self,
        alloc: Global,
        standing: &Registers,
        number: u64,
        change: RegisterChange,
    ) -> Result<(), NoMemory>
        ensures { OnOk result (overlaid self.new standing.now.list ≡ at_number number (changed change) (overlaid self.old standing.now.list)) }
    {
        match find_changed(&self.changed, standing, number) {
            None => {
                change_added(&mut self.added, standing.len(), number, change);
                Ok(())
            }
            Some(register) => {
                let next = changed(alloc, register, change)?;
                self.changed.push(next)?;
                Ok(())
            }
        }
    }

    /// A new call, with the number after the last one. Its request's user is the service itself, for whom it is posted too.
    /// `since` is the index in the journal at which it is named. Refused, the changes are no use any more.
    pub fn want(
        &mut self,
        alloc: Global,
        standing: &Registers,
        dest: &Name,
        request: &Request,
        since: u64,
    ) -> Result<(), NoMemory>
        ensures { OnOk result (overlaid self.new standing.now.list ≡ with_call dest.now request.now since (overlaid self.old standing.now.list)) }
    {
        let register = new_register(alloc, self.next_number(standing), dest, request, since)?;
        self.added.push(register)?;
        Ok(())
    }
}
