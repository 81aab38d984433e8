// Journal, registers and replies, in which the calls of an entry that runs again are settled.
ghost use Rattle.std.specs.Prelude.{◌≡◌, ◌+◌, ◌<◌, ◌^◌, [], ◌∷◌, ◌++◌, true, ℕ, IfOk, OnOk, OnErr, length, is_some};
ghost use Rattle.std.specs.Option.{option_copied};
ghost use Rattle.lang_core.specs.declared.trace.Trace.{Trace};
ghost use Rattle.request_log.specs.declared.entry.Entry.{Entry};
ghost use Rattle.local_repair.specs.Steps.{raised};
ghost use Rattle.call_registers.specs.Overlays.{overlaid};
ghost use Rattle.call_registers.specs.Replies.{reply, at_entry, with_answer};
ghost use Rattle.service_events.specs.Calls.{after_rows};
ghost use Rattle.call_registers.specs.Registers.{IsTimely};
ghost use Rattle.service_repairs.specs.Books.{answers, answer_rows, replied, entered, Settles, IsOwn};

use crate::settling::{SettlingPlan, plan_calls};
use call_registers::{RegisterChanges, Registers, Replies};
use flights::Flights;
use journal_rows::{AnsweredRow, Row, Rows};
use lang_core::{NoMemory, Response, Trace};
use local_repair::Slots;
use repair_messages::copied_pair;
use request_log::{Entry, Numbers};
use service_parts::{Draft, note_draft, note_rows, reserve_draft};
use std::alloc::Global;
use std::marker::Model;

/// Journal, registers, replies and flights of a service. The journal has room for the abandonment of each flight.
#[derive(Drop)]
pub(crate) struct Book {
    pub journal: Rows,
    pub registers: Registers,
    pub replies: Replies,
    pub flights: Flights,
}

impl Model for Book {
    ghost use Rattle.std.specs.Prelude.{◌≤◌};
    ghost use Rattle.service_repairs.specs.Books.{KeptBook, book_code};
    ghost use Rattle.service_parts.specs.Rooms.{aloft};

    ghost Value = { KeptBook };

    ghost coded = { book_code };

    ghost view = { λ b. record { journal = b.journal.rows; registers = b.registers.list; replies = b.replies.list; flights = b.flights.list } };

    ghost invariant = { λ b. aloft b.flights.list ≤ b.journal.spare };
}

fn raised(version: u64) -> u64
    ensures { result ≡ raised version }
{
    version.saturating_add(1)
}

// The row of an entry's answer, which a repair step gave.
fn answer_row(alloc: Global, entry: &Entry, trace: &Trace) -> Result<Row, NoMemory>
    ensures { IfOk result (λ row. row ∷ [] ≡ answer_rows entry.now trace.now true) }
{
    let (origin, response) = copied_pair(alloc, &entry.origin, &trace.response)?;
    Ok(Row::Answered(AnsweredRow {
        id: entry.id,
        origin,
        answer_version: raised(entry.answer_version),
        version: entry.version,
        response,
        live: false,
    }))
}

fn push_answer(
    alloc: Global,
    entry: &Entry,
    trace: &Trace,
    answered: bool,
    rows: &mut Vec<Row>,
) -> Result<(), NoMemory>
    ensures { OnOk result (rows.new.items ≡ rows.old.items ++ answer_rows entry.now trace.now answered) }
{
    if answered {
        rows.push(answer_row(alloc, entry, trace)?)?;
    }
    Ok(())
}

// The changes of the registers by rows that are to stand last in the journal.
fn changes_by(
    alloc: Global,
    journal: &Rows,
    registers: &Registers,
    rows: &[Row],
) -> Result<RegisterChanges, NoMemory>
    ensures { IfOk result (λ changes. overlaid changes registers.now.list ≡ after_rows (length journal.now.rows) registers.now.list rows.now) }
{
    let mut changes = RegisterChanges::none(alloc);
    note_rows(alloc, registers, &mut changes, journal.len(), rows)?;
    Ok(changes)
}

// A draft of the rows of an entry that ran again, where these are those of its calls.
fn drafted(
    alloc: Global,
    journal: &Rows,
    registers: &Registers,
    entry: &Entry,
    trace: &Trace,
    answered: bool,
    sent: Vec<Row>,
) -> Result<Draft, NoMemory>
    ensures rows { IfOk result (λ d. d.rows.items ≡ sent.items ++ answer_rows entry.now trace.now answered) }
    ensures registers { IfOk result (λ d. overlaid d.changes registers.now.list ≡ after_rows (length journal.now.rows) registers.now.list (sent.items ++ answer_rows entry.now trace.now answered)) }
{
    let mut rows = sent;
    push_answer(alloc, entry, trace, answered, &mut rows)?;
    let changes = changes_by(alloc, journal, registers, &rows)?;
    Ok(Draft { rows, changes })
}

// The index of the row that comes behind these.
fn index_behind(journal: &[Row], sent: &[Row]) -> u64
    ensures { result ≡ length journal.now + length sent.now }
{
    journal.len() as u64 + sent.len() as u64
}

// Whether the entry of a number has a reply.
fn has_reply(replies: &Replies, id: u64) -> bool
    ensures { result ≡ is_some (reply id replies.now.list) }
{
    replies.get(id).is_some()
}

// The reply of an entry, where it has one, has its new answer, whose row has this index.
fn note_answer(replies: &mut Replies, entry: &Entry, index: u64)
    ensures { replies.new.list ≡ at_entry entry.now.id (with_answer (raised entry.now.answer_version) entry.now.version index) replies.old.list }
{
    if has_reply(replies, entry.id) {
        replies.answered(entry.id, raised(entry.answer_version), entry.version, index);
    }
}

fn note_reply(replies: &mut Replies, entry: &Entry, index: u64, answered: bool)
    ensures { replies.new.list ≡ replied entry.now index answered replies.old.list }
{
    if answered {
        note_answer(replies, entry, index);
    }
}

impl Book {
    // Enters the rows of an entry that ran again, where these are those of its calls, which have these numbers then. Refused,
    // nothing changes.
    fn enter(
        &mut self,
        alloc: Global,
        entry: &Entry,
        trace: &Trace,
        answered: bool,
        sent: Vec<Row>,
        numbers: &[u64],
    ) -> Result<(), NoMemory>
        ensures ok { OnOk result (self.new ≡ entered self.old entry.now trace.now answered sent.items) }
        ensures err { OnErr result (self.new ≡ self.old) }
        ensures few { length self.new.journal < 2 ^ 64 }
    {
        let index = index_behind(self.journal.as_slice(), &sent);
        let draft = drafted(
            alloc,
            &self.journal,
            &self.registers,
            entry,
            trace,
            answered,
            sent,
        )?;
        reserve_draft(
            &mut self.journal,
            &mut self.registers,
            draft.rows.len() as u64,
            draft.changes.added.len() as u64,
            self.flights.as_slice(),
        )?;
        note_draft(&mut self.journal, &mut self.registers, draft);
        self.registers.place(numbers, entry.id);
        note_reply(&mut self.replies, entry, index, answered);
        Ok(())
    }
}

impl Slots for Book {
    ghost consumed_of = { λ b n. answers b n };

    ghost last_of = { λ b. length b.registers };

    ghost can_settle = { λ b e t. IsOwn b e };

    ghost is_timely = { λ b. IsTimely b.registers };

    ghost settles = { λ old new e t answered numbers. Settles old new e t answered numbers };

    fn consumed(&self, number: u64) -> Option<&Response> {
        self.registers.consumed(number)
    }

    fn settle(
        &mut self,
        alloc: Global,
        entry: &Entry,
        trace: &Trace,
        answered: bool,
    ) -> Result<Numbers, NoMemory> {
        let SettlingPlan { rows, numbers } = plan_calls(alloc, &self.registers, entry, trace)?;
        self.enter(alloc, entry, trace, answered, rows, numbers.as_slice())?;
        Ok(numbers)
    }
}
