// An entry whose lines go on.
ghost use Rattle.std.specs.Prelude.{◌≡◌, OnOk};
ghost use Rattle.dump_tables.specs.Indexed.{has_number};
ghost use Rattle.dump_reader.specs.Reading.{all_answered, consuming, entry_of, is_bare, put_under, replying, with_made};

use crate::stage::Calling;
use dump_tables::{DumpEntry, Numbers};
use dump_words::EntryLine;
use lang_core::{Answers, CallMade, Calls, Names, NoMemory, Program, Response, Shared};
use lang_lists::HashIndex;
use std::alloc::Global;

fn entry_of(alloc: Global, first: Shared<Program>, line: EntryLine) -> DumpEntry
    ensures { result ≡ entry_of first line }
{
    DumpEntry {
        id: line.id,
        origin: line.origin,
        version: line.version,
        wanted: line.wanted,
        struck: line.struck,
        inputs: line.inputs,
        request: line.request,
        under: 1,
        program: first,
        numbers: Numbers::new(alloc),
        calls: Calls::new(alloc),
        answers: Answers::new(alloc),
        reply: None,
    }
}

impl Calling {
    /// An entry under its service's first program, of which no call is told yet.
    pub(crate) fn of(alloc: Global, first: Shared<Program>, line: EntryLine) -> Calling
        ensures { result ≡ entry_of first line }
    {
        Calling {
            entry: entry_of(alloc, first, line),
            numbers: HashIndex::new(alloc),
        }
    }

    /// The chain of its request.
    pub(crate) fn chain(&self) -> &Names
        ensures { result.now ≡ self.now.request.chain }
    {
        &self.entry.request.chain
    }

    /// Whether neither a program nor a call is told of it yet.
    pub(crate) fn is_bare(&self) -> bool
        ensures { result ≡ is_bare self.now }
    {
        self.entry.under == 1 && self.entry.numbers.len() == 0
    }

    /// The entry under the program of this number.
    pub(crate) fn under(self, number: u64, program: Shared<Program>) -> Calling
        ensures { result ≡ put_under self number program }
    {
        let mut calling = self;
        calling.entry.under = number;
        calling.entry.program = program;
        calling
    }

    /// Whether each call has its answer.
    pub(crate) fn all_answered(&self) -> bool
        ensures { result ≡ all_answered self.now }
    {
        self.entry.numbers.len() == self.entry.answers.len()
    }

    /// Whether it has a call of this number.
    pub(crate) fn has_number(&self, number: u64) -> bool
        ensures { result ≡ has_number number self.now }
    {
        self.numbers.end_of(number) > 0
    }

    /// Notes a call more, which has no answer yet.
    pub(crate) fn push_call(&mut self, number: u64, call: CallMade) -> Result<(), NoMemory>
        ensures { OnOk result (self.new ≡ with_made self.old number call) }
    {
        self.numbers.reserve(1)?;
        self.entry.numbers.push(number)?;
        self.numbers.push(number);
        self.entry.calls.push(call)
    }

    /// Notes what its last call consumed.
    pub(crate) fn push_answer(&mut self, answer: Response) -> Result<(), NoMemory>
        ensures { OnOk result (self.new ≡ consuming self.old answer) }
    {
        self.entry.answers.push(answer)
    }

    /// The entry with what it answered.
    pub(crate) fn replying(self, reply: Option<Response>) -> DumpEntry
        ensures { result ≡ replying self reply }
    {
        let mut entry = self.entry;
        entry.reply = reply;
        entry
    }
}
