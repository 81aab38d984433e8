// Assertions, texts and names, sources and sinks, a service that repeats what it is sent, and jobs.
ghost use Rattle.std.specs.Prelude.{◌<◌};

use io_edge::{Connection, MemorySink, MemorySource, write_all};
use io_links::{Accepted, Ear, Exchange, Job};
use lang_core::{Name, Text};
use std::process::Abort;
use std::time::Duration;

/// This is so, in a case that has this name.
pub fn holds(rt: &impl Abort, case: &str, is_so: bool) {
    assert!(rt; is_so, "{case}");
}

pub fn equal(rt: &impl Abort, found: u64, want: u64) {
    assert_eq!(rt; found, want);
}

pub fn same(rt: &impl Abort, found: &[u8], want: &str) {
    let found = std::str::from_utf8(found).expect(rt, want);
    assert_eq!(rt; found, want);
}

pub fn text(rt: &(impl Abort + AllocGlobal), characters: &str) -> Text {
    Text::of(rt.alloc(), characters).expect(rt, "memory")
}

/// So many of a character.
pub fn repeated(rt: &(impl Abort + AllocGlobal), character: char, times: u64) -> Text {
    let mut all = String::new(rt.alloc());
    for _ in 0..times {
        all.push(character).expect(rt, "memory");
    }
    Text::shared(all).expect(rt, "memory")
}

pub fn name(rt: &(impl Abort + AllocGlobal), characters: &str) -> Name {
    Name::new(text(rt, characters)).ok().expect(rt, "a name")
}

/// The call that fails; none where it is 0.
pub fn failing(rt: &(impl Abort + AllocGlobal), call: u64) -> Vec<u64> {
    vec![in rt.alloc(); call].expect(rt, "memory")
}

/// A source of a text, read in pieces of at most so many bytes, of whose reads one fails.
pub fn source(rt: &(impl Abort + AllocGlobal), text: &str, most: usize, fails: u64) -> MemorySource
    requires { 0 < most }
{
    let bytes = text.as_bytes().to_vec(rt.alloc()).expect(rt, "memory");
    MemorySource::in_pieces(bytes, most, failing(rt, fails))
}

pub fn sink(rt: &(impl Abort + AllocGlobal), most: usize, fails: u64) -> MemorySink
    requires { 0 < most }
{
    MemorySink::in_pieces(rt.alloc(), most, failing(rt, fails))
}

/// More time than a test takes.
pub fn patience() -> Duration {
    Duration::from_secs(20)
}

/// This reply came.
pub fn got(rt: &impl Abort, exchange: Exchange, want: &str) {
    match exchange {
        Exchange::Reply(reply) => same(rt, reply.as_slice(), want),
        _ => holds(rt, want, false),
    }
}

/// It failed, with these counts before and after.
pub fn lost(rt: &impl Abort, exchange: Exchange, before: u64, after: u64) {
    match exchange {
        Exchange::Failed(note) => {
            equal(rt, note.before, before);
            equal(rt, note.after, after);
        }
        _ => holds(rt, "an exchange that fails", false),
    }
}

// Sends `ok ` and the first piece of what comes.
fn repeat<C: Connection>(conn: &mut C) {
    let mut piece = [0u8; 64];
    let Ok(n) = conn.read(&mut piece) else {
        return;
    };
    if write_all(conn, b"ok ").is_ok() {
        let _ = write_all(conn, &piece[..n as usize]);
    }
}

/// Serves so many connections, each with `ok ` and the first piece of what it sent, and says
/// whether so many came.
pub fn serve<E: Ear>(ear: &E, count: u64) -> bool {
    let mut served = 0u64;
    for _ in 0..100_000u64 {
        if served == count {
            return true;
        }
        if let Accepted::Conn(mut conn) = ear.accept() {
            repeat(&mut conn);
            served = served.saturating_add(1);
        }
    }
    false
}

/// A number that a thread is to square.
#[derive(Drop)]
pub struct Square(pub u32);

impl Job for Square {
    type Out = u64;

    fn run(self) -> u64 {
        let Square(side) = self;
        u64::from(side) * u64::from(side)
    }
}
