// Entries of a log, and their records.
ghost use Rattle.std.specs.Prelude.{◌≡◌, IfOk};
ghost use Rattle.lang_core.specs.Traces.{dead_trace};
ghost use Rattle.request_log.specs.Entries.{asking, is_alive, mark, with_correction, with_run};

use lang_base::both;
use lang_core::{
    Copied, Inputs, NoMemory, Origin, Request, Response, Shared, SharedWrites, Text, ThinSeq, Trace,
};
use lang_programs::{Deployed, Under};
use std::alloc::Global;
use std::marker::Model;

/// Numbers, in order.
pub type Numbers = ThinSeq<u64>;

/// An entry's record: its last trace, and the aliveness, version and request for which it was made.
pub struct Made {
    pub alive: bool,
    pub version: u64,
    /// Held together with the entry, as long as that asks the same.
    pub request: Shared<Request>,
    pub trace: Trace,
}

impl Drop for Made {
    fn drop(self) {
        let Self {
            alive: _,
            version: _,
            request: _,
            trace: _,
        } = self;
    }
}

/// A request in a log.
pub struct Entry {
    /// Its number in the service, from 1.
    pub id: u64,
    /// Where the request comes from.
    pub origin: Origin,
    /// The version of the call that it answers, from 1; 0 where it comes from outside.
    pub version: u64,
    /// The request as it stands now, which the entry's record and a row of the journal hold too.
    pub request: Shared<Request>,
    /// Whether its origin wants it.
    pub wanted: bool,
    /// Whether an order has struck it.
    pub struck: bool,
    /// What its runs draw from outside the rows, which a row of the journal holds too.
    pub inputs: Shared<Inputs>,
    /// The program under which it runs, and that under which its record was made.
    pub under: Under,
    /// Its record; None where it never ran.
    pub made: Option<Made>,
    /// The registers of its calls, one for each call of its trace, in order.
    pub slots: Numbers,
    /// The version of its last answer, from 1; 0 before the first.
    pub answer_version: u64,
    /// How often it ran.
    pub runs: u64,
}

impl Drop for Entry {
    fn drop(self) {
        let Self {
            id: _,
            origin: _,
            version: _,
            request: _,
            wanted: _,
            struck: _,
            inputs: _,
            under: _,
            made: _,
            slots: _,
            answer_version: _,
            runs: _,
        } = self;
    }
}

// An entry of a log is never taken out, so what each of them holds is paid for good.
const _: () = prove!(size_of::<Entry>() == 232);

/// An entry as a log keeps it, seen as the entry: behind a pointer, so that a log moves few bytes for each when one is put
/// between others, and one that is put into a log is handed on as it stands.
pub struct KeptEntry {
    pub(crate) inner: Box<Entry>,
}

impl Drop for KeptEntry {
    fn drop(self) {
        let Self { inner: _ } = self;
    }
}

impl Model for KeptEntry {
    ghost use Rattle.request_log.specs.contracts.entry.Entry as entry;
    ghost use Rattle.request_log.specs.declared.entry.Entry.{Entry};

    ghost Value = { Entry };

    ghost coded = { entry.the_row.coded };

    ghost view = { λ kept. kept.inner.value };
}

impl KeptEntry {
    /// Keeps an entry. Refused, it is dropped.
    pub fn of(alloc: Global, entry: Entry) -> Result<KeptEntry, NoMemory>
        ensures { IfOk result (λ kept. kept ≡ entry) }
    {
        let inner = Box::new(alloc, entry)?;
        Ok(KeptEntry { inner })
    }

    /// The entry.
    pub fn entry(&self) -> &Entry
        ensures { result.now ≡ self.now }
    {
        &self.inner
    }

    /// Puts an entry in place of this one, which is handed back.
    pub(crate) fn replace(&mut self, entry: Entry) -> Entry
        ensures new { self.new ≡ entry }
        ensures old { result ≡ self.old }
    {
        std::mem::replace(&mut *self.inner, entry)
    }

    /// Notes a run under the entry's program: the record, the slots, the version of the answer, and how often the entry ran.
    pub(crate) fn note_run(&mut self, made: Made, slots: Numbers, answer_version: u64, runs: u64)
        ensures { self.new ≡ with_run made slots answer_version runs self.old }
    {
        let entry = &mut *self.inner;
        entry.under.settle();
        entry.made = Some(made);
        entry.slots = slots;
        entry.answer_version = answer_version;
        entry.runs = runs;
    }

    /// Sets whether it is struck.
    pub(crate) fn set_struck(&mut self, struck: bool)
        ensures { self.new ≡ mark struck self.old }
    {
        self.inner.struck = struck;
    }

    /// Gives it another request.
    pub(crate) fn rewrite(&mut self, request: Shared<Request>)
        ensures { self.new ≡ asking request self.old }
    {
        self.inner.request = request;
    }

    /// Gives it another program, under which its record wasn't made.
    pub(crate) fn correct(&mut self, program: Shared<Deployed>)
        ensures { self.new ≡ with_correction program self.old }
    {
        self.inner.under.correct(program);
    }
}

impl Copied for KeptEntry {
    fn copied(&self, alloc: Global) -> Result<KeptEntry, NoMemory> {
        let entry = self.entry().copied(alloc)?;
        KeptEntry::of(alloc, entry)
    }
}

impl Copied for Made {
    fn copied(&self, alloc: Global) -> Result<Made, NoMemory> {
        Ok(Made {
            alive: self.alive,
            version: self.version,
            request: self.request.copied(alloc)?,
            trace: self.trace.copied(alloc)?,
        })
    }
}

impl Copied for Entry {
    fn copied(&self, alloc: Global) -> Result<Entry, NoMemory> {
        let given = both(self.request.copied(alloc), self.inputs.copied(alloc));
        let asked = both(self.origin.copied(alloc), given);
        let made = both(self.under.copied(alloc), Copied::copied(&self.made, alloc));
        let ran = both(made, self.slots.copied(alloc));
        let (asked, ran) = both(asked, ran)?;
        Ok(Entry {
            id: self.id,
            origin: asked.0,
            version: self.version,
            request: asked.1.0,
            wanted: self.wanted,
            struck: self.struck,
            inputs: asked.1.1,
            under: ran.0.0,
            made: ran.0.1,
            slots: ran.1,
            answer_version: self.answer_version,
            runs: self.runs,
        })
    }
}

impl Entry {
    /// Whether it is to have an effect: its origin wants it, and no order has struck it.
    pub fn is_alive(&self) -> bool
        ensures { result ≡ is_alive self.now }
    {
        self.wanted && !self.struck
    }
}

/// The trace of an entry that isn't alive: it reads, calls and writes nothing, and answers 410 with an empty body.
pub fn dead_trace(alloc: Global) -> Result<Trace, NoMemory>
    ensures { IfOk result (λ trace. trace ≡ dead_trace) }
{
    let body = Text::of(alloc, "")?;
    Ok(Trace {
        reads: ThinSeq::new(alloc),
        calls: ThinSeq::new(alloc),
        answers: ThinSeq::new(alloc),
        writes: SharedWrites::new(),
        response: Response { status: 410, body },
    })
}
