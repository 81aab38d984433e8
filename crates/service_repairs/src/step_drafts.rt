// A repair step of a service that calls others.
ghost use Rattle.std.specs.Prelude.{◌≡◌, ◌≤◌, Ok, IfOk, OnErr};
ghost use Rattle.local_repair.specs.Current.{AllCurrent};
ghost use Rattle.service_events.specs.State.{after, answers, base, unfolded};
ghost use Rattle.service_events.specs.Steps.{step_event};
ghost use Rattle.service_events.specs.Fits.{Fits};
ghost use Rattle.service_parts.specs.Parts.{kept, whole_log};
ghost use Rattle.service_parts.specs.Rooms.{aloft};
ghost use Rattle.service_repairs.specs.Answers.{IsChecked};
ghost use Rattle.service_repairs.specs.Books.{book_of, with_book};

use crate::book::Book;
use call_registers::{Registers, Replies};
use flights::Flights;
use journal_rows::Rows;
use lang_core::NoMemory;
use local_repair::Stepped;
use service_parts::Parts;
use std::alloc::Global;

// Takes the book of a service out, which has none then.
fn take_book(alloc: Global, parts: &mut Parts) -> Book
    requires { aloft parts.old.flights.list ≤ parts.old.journal.spare }
    ensures book { result ≡ book_of (kept parts.old) }
    ensures setting { parts.new.setting ≡ parts.old.setting }
    ensures began { parts.new.began ≡ parts.old.began }
    ensures rules { parts.new.rules ≡ parts.old.rules }
    ensures newest { parts.new.newest ≡ parts.old.newest }
    ensures entries { parts.new.repairer ≡ parts.old.repairer }
{
    let journal = std::mem::replace(&mut parts.journal, Rows::new(alloc));
    let registers = std::mem::replace(&mut parts.registers, Registers::new(alloc));
    let replies = std::mem::replace(&mut parts.replies, Replies::new(alloc));
    let flights = std::mem::replace(&mut parts.flights, Flights::new(alloc));
    Book {
        journal,
        registers,
        replies,
        flights,
    }
}

// Puts a book back into a service.
fn put_book(parts: &mut Parts, book: Book)
    ensures kept { kept parts.new ≡ with_book (kept parts.old) (whole_log parts.old.repairer) book }
    ensures room { aloft parts.new.flights.list ≤ parts.new.journal.spare }
{
    let Book {
        journal,
        registers,
        replies,
        flights,
    } = book;
    parts.journal = journal;
    parts.registers = registers;
    parts.replies = replies;
    parts.flights = flights;
}

/// Runs the first stale entry again, if there is one, and settles its calls. Where none is stale the answer is Idle, which
/// takes no memory. Refused, nothing changes. How many of the first entries are known to be current is noted.
pub fn repair(alloc: Global, parts: &mut Parts, checked: &mut usize) -> Result<Stepped, NoMemory>
    requires fits { Fits (kept parts.old) }
    requires room { aloft parts.old.flights.list ≤ parts.old.journal.spare }
    requires checked { IsChecked (kept parts.old) checked.old }
    ensures checked { IsChecked (kept parts.new) checked.new }
    ensures ok { IfOk result (λ stepped. after (kept parts.new) stepped ≡ step_event (kept parts.old)) }
    ensures err { OnErr result (kept parts.new ≡ kept parts.old) }
    ensures room { aloft parts.new.flights.list ≤ parts.new.journal.spare }
    ensures free { AllCurrent (answers (kept parts.old)) (base (kept parts.old)) (unfolded (kept parts.old)) → result ≡ Ok Stepped.Idle }
{
    let mut book = take_book(alloc, parts);
    let stepped = parts
        .repairer
        .step(alloc, &parts.setting, &mut book, checked);
    put_book(parts, book);
    stepped
}
