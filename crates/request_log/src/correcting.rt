// A program in place of another one, for each entry that has that.
ghost use Rattle.std.specs.Prelude.{◌≡◌, length, map, IfOk};
ghost use Rattle.request_log.specs.Entries.{has_program};
ghost use Rattle.request_log.specs.Corrections.{all_given, given, given_for};

use crate::entry::{Entry, KeptEntry};
use lang_core::{Copied, NoMemory, Shared};
use lang_programs::Deployed;
use std::alloc::Global;

/// The program that an entry is given, if it is given one.
type Given = Option<Shared<Deployed>>;

fn has_program(entry: &Entry, number: u64) -> bool
    ensures { result ≡ has_program number entry.now }
{
    entry.under.now().get().number() == number
}

// A copy of the program where the entry has that of the number.
fn copy_for(
    alloc: Global,
    entry: &Entry,
    number: u64,
    program: &Shared<Deployed>,
) -> Result<Given, NoMemory>
    ensures { IfOk result (λ copy. copy ≡ given_for number program.now entry.now) }
{
    if has_program(entry, number) {
        Ok(Some(program.copied(alloc)?))
    } else {
        Ok(None)
    }
}

/// For each of these entries that has the program of a number, a copy of the one that is put in its place.
pub(crate) fn copies_for(
    alloc: Global,
    items: &[KeptEntry],
    number: u64,
    program: &Shared<Deployed>,
) -> Result<Vec<Given>, NoMemory>
    ensures { IfOk result (λ copies. copies.items ≡ map (given_for number program.now) items.now) }
{
    let mut copies = Vec::with_capacity(alloc, items.len())?;
    for kept in items {
        copies.push(copy_for(alloc, kept.entry(), number, program)?)?;
    }
    Ok(copies)
}

fn put_copy(kept: &mut KeptEntry, copy: &mut Given)
    ensures { kept.new ≡ given copy.old kept.old }
{
    match copy.take() {
        None => {}
        Some(program) => kept.correct(program),
    }
}

/// Gives each of these entries its copy.
pub(crate) fn put_copies(items: &mut Vec<KeptEntry>, copies: &mut Vec<Given>)
    requires { length copies.old.items ≡ length items.old.items }
    ensures { items.new.items ≡ all_given copies.old.items items.old.items }
{
    for place in 0..items.len() {
        put_copy(&mut items[place], &mut copies[place]);
    }
}
