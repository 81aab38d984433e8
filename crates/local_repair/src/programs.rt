// The program under which an entry runs, and the one under which its record was made.
ghost use Rattle.std.specs.Prelude.{◌≡◌, ◌↔◌, IsTrue};
ghost use Rattle.execution.specs.HandedOn.{handler_of};
ghost use Rattle.request_log.specs.Entries.{has_program};
ghost use Rattle.local_repair.specs.Programs.{HasItsHandler};

use execution::same_handler;
use lang_core::Program;
use request_log::Entry;

/// The program under which an entry runs.
pub(crate) fn program_of(entry: &Entry) -> &Program
    ensures { result.now ≡ entry.now.under.now.program }
{
    entry.under.now().get().program()
}

// The program under which the record of an entry was made.
fn program_ran(entry: &Entry) -> &Program
    ensures { result.now ≡ entry.now.under.ran.program }
{
    entry.under.ran().get().program()
}

/// Whether the program of an entry has this number.
pub(crate) fn has_program(entry: &Entry, number: u64) -> bool
    ensures { result ≡ has_program number entry.now }
{
    entry.under.now().get().number() == number
}

// Whether the request of an entry leads to the same handler in its program and in that of its record.
fn leads_alike(entry: &Entry) -> bool
    ensures { IsTrue result ↔ (handler_of entry.now.under.ran.program entry.now.request ≡ handler_of entry.now.under.now.program entry.now.request) }
{
    same_handler(program_ran(entry), program_of(entry), entry.request.get())
}

/// Whether an entry is dead, or its request leads to the same handler in its program and in that of its record. Where its
/// program wasn't corrected since, no handler is looked at.
pub(crate) fn has_its_handler(entry: &Entry) -> bool
    ensures { IsTrue result ↔ HasItsHandler entry.now }
{
    if !entry.is_alive() {
        return true;
    }
    if entry.under.is_settled() {
        return true;
    }
    leads_alike(entry)
}
