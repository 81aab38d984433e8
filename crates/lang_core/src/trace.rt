// What a run read, called, wrote and answered.
ghost use Rattle.std.specs.Prelude.{◌≡◌, IfOk};
ghost use Rattle.lang_core.specs.declared.trace.Read.TheVariants as read;

use crate::cells::Cells;
use crate::ids::Name;
use crate::request::{Answers, Request, Response};
use crate::shared_writes::SharedWrites;
use lang_tree::{Copied, NoMemory, Same, Text, ThinSeq, both};
use std::alloc::Global;

/// What a run read of its rows, and what it found.
pub enum Read {
    /// One key, and its text, if there was one.
    Key {
        table: Text,
        key: Text,
        found: Option<Text>,
    },
    /// The keys under a prefix, and the cells that a scan gave.
    Scan {
        table: Text,
        prefix: Text,
        found: Cells,
    },
}

impl Drop for Read {
    fn drop(self) {
        match self {
            Self::Key {
                table: _,
                key: _,
                found: _,
            }
            | Self::Scan {
                table: _,
                prefix: _,
                found: _,
            } => {}
        }
    }
}

/// Reads, in the order in which they were made.
pub type Reads = ThinSeq<Read>;

fn copied_key(
    alloc: Global,
    table: &Text,
    key: &Text,
    found: &Option<Text>,
) -> Result<Read, NoMemory>
    ensures { IfOk result (λ copy. copy ≡ read.Key table.now key.now found.now) }
{
    let words = both(table.copied(alloc), key.copied(alloc));
    let (words, found) = both(words, Copied::copied(found, alloc))?;
    Ok(Read::Key {
        table: words.0,
        key: words.1,
        found,
    })
}

fn copied_scan(alloc: Global, table: &Text, prefix: &Text, found: &Cells) -> Result<Read, NoMemory>
    ensures { IfOk result (λ copy. copy ≡ read.Scan table.now prefix.now found.now) }
{
    let words = both(table.copied(alloc), prefix.copied(alloc));
    let (words, found) = both(words, found.copied(alloc))?;
    Ok(Read::Scan {
        table: words.0,
        prefix: words.1,
        found,
    })
}

impl Copied for Read {
    fn copied(&self, alloc: Global) -> Result<Read, NoMemory> {
        match self {
            Read::Key { table, key, found } => copied_key(alloc, table, key, found),
            Read::Scan {
                table,
                prefix,
                found,
            } => copied_scan(alloc, table, prefix, found),
        }
    }
}

impl Same for Read {
    fn is(&self, other: &Read) -> bool {
        match (self, other) {
            (
                Read::Key { table, key, found },
                Read::Key {
                    table: other_table,
                    key: other_key,
                    found: other_found,
                },
            ) => table.is(other_table) && key.is(other_key) && found.is(other_found),
            (
                Read::Scan {
                    table,
                    prefix,
                    found,
                },
                Read::Scan {
                    table: other_table,
                    prefix: other_prefix,
                    found: other_found,
                },
            ) => table.is(other_table) && prefix.is(other_prefix) && found.is(other_found),
            _ => false,
        }
    }
}

/// A call of a handler: the service that it goes to, and the request.
#[derive(Drop)]
pub struct CallMade {
    pub dest: Name,
    pub request: Request,
}

/// Calls, in the order in which they were made.
pub type Calls = ThinSeq<CallMade>;

impl Copied for CallMade {
    fn copied(&self, alloc: Global) -> Result<CallMade, NoMemory> {
        Ok(CallMade {
            dest: self.dest.copied(alloc)?,
            request: self.request.copied(alloc)?,
        })
    }
}

impl Same for CallMade {
    fn is(&self, other: &CallMade) -> bool {
        self.dest.is(&other.dest) && self.request.is(&other.request)
    }
}

/// What a run did: its reads, its calls with their answers, its writes, one for each key, and its response.
#[derive(Drop)]
pub struct Trace {
    pub reads: Reads,
    pub calls: Calls,
    pub answers: Answers,
    pub writes: SharedWrites,
    pub response: Response,
}

impl Copied for Trace {
    fn copied(&self, alloc: Global) -> Result<Trace, NoMemory> {
        let called = both(self.calls.copied(alloc), self.answers.copied(alloc));
        let ended = both(self.writes.copied(alloc), self.response.copied(alloc));
        let (reads, (called, ended)) = both(self.reads.copied(alloc), both(called, ended))?;
        Ok(Trace {
            reads,
            calls: called.0,
            answers: called.1,
            writes: ended.0,
            response: ended.1,
        })
    }
}
