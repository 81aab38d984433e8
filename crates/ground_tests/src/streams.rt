// What no clause says: that calls succeed with memory at hand, and where faults fall in mid-stream.
ghost use Rattle.std.specs.Prelude.{◌≡◌, ◌<◌, ◌≤◌, IfOk, OnOk};
ghost use Rattle.std.specs.Option.{ForSome};
ghost use Rattle.io_edge.specs.Edge.{Wrote};

use crate::given::{equal, failing, holds, same, sink, source};
use io_edge::{
    Connection, Failed, MemoryConnection, MemorySink, ReadRefused, Reading, Sink, Source, Writing,
    read_all, write_all,
};
use std::alloc::Global;
use std::collections::VecDeque;
use std::io;
use std::process::Abort;

// `journal`, read in pieces of at most so many bytes, comes whole within the limit.
fn comes_whole(rt: &(impl Abort + AllocGlobal), most: usize, limit: u64)
    requires { 0 < most }
{
    let mut source = source(rt, "journal", most, 0);
    let bytes = read_all(rt.alloc(), &mut source, limit).expect(rt, "bytes");
    same(rt, bytes.as_slice(), "journal");
    same(rt, source.whole(), "journal");
    same(rt, source.left(), "");
    equal(rt, source.faults(), 0);
}

// It is refused as too long, with this left.
fn leaves(rt: &(impl Abort + AllocGlobal), most: usize, limit: u64, left: &str)
    requires { 0 < most }
{
    let mut source = source(rt, "journal", most, 0);
    let refused = read_all(rt.alloc(), &mut source, limit).err();
    holds(rt, left, refused == Some(ReadRefused::TooLong));
    same(rt, source.left(), left);
    equal(rt, source.faults(), 0);
}

// Reads whole in pieces, up to the limit and one byte over it.
#[test]
fn reads_up_to_the_limit(rt: HostRuntime) {
    comes_whole(&rt, 1, 7);
    comes_whole(&rt, 3, 8);
    comes_whole(&rt, usize::MAX, 7);
    leaves(&rt, 1, 6, "");
    leaves(&rt, usize::MAX, 3, "nal");
    leaves(&rt, 2, 0, "ournal");
    let mut nothing = source(&rt, "", 1, 0);
    let none = read_all(rt.alloc(), &mut nothing, 0).expect(&rt, "bytes");
    same(&rt, none.as_slice(), "");
}

// The second read fails in mid-stream, and the next one goes on behind what was taken.
#[test]
fn reads_on_after_a_fault(rt: HostRuntime) {
    let mut source = source(&rt, "abcdef", 2, 2);
    let refused = read_all(rt.alloc(), &mut source, 6).err();
    holds(&rt, "fault", refused == Some(ReadRefused::Fault));
    equal(&rt, source.faults(), 1);
    let rest = read_all(rt.alloc(), &mut source, 4).expect(&rt, "bytes");
    same(&rt, rest.as_slice(), "cdef");
}

fn writes<K: Sink>(rt: &impl Abort, sink: &mut K, text: &str) {
    holds(rt, text, write_all(sink, text.as_bytes()).is_ok());
}

fn fails<K: Sink>(rt: &impl Abort, sink: &mut K, text: &str) {
    holds(rt, text, write_all(sink, text.as_bytes()) == Err(Failed));
}

// The second write fails in mid-stream, a front is there, and the next write goes on behind it.
#[test]
fn writes_on_after_a_fault(rt: HostRuntime) {
    let mut sink = sink(&rt, 2, 2);
    fails(&rt, &mut sink, "abcdef");
    equal(&rt, sink.faults(), 1);
    same(&rt, sink.bytes(), "ab");
    writes(&rt, &mut sink, "cdef");
    same(&rt, sink.bytes(), "abcdef");
}

// What a peer sends, sent back to it: a read keeps what was written, and a write what there was to
// read.
fn echo<C: Connection>(alloc: Global, connection: &mut C) -> Result<(), ReadRefused>
    ensures echoed { OnOk result (ForSome (C.reads connection.old).left (λ bytes.
        Wrote (C.writes connection.old) (C.writes connection.new) bytes)) }
    ensures whole { (C.reads connection.new).whole ≡ (C.reads connection.old).whole }
    ensures reads { (C.reads connection.old).faults ≤ (C.reads connection.new).faults }
    ensures writes { (C.writes connection.old).faults ≤ (C.writes connection.new).faults }
{
    let bytes = read_all(alloc, connection, 100)?;
    write_all(connection, &bytes)?;
    Ok(())
}

// A connection echoes, and counts the faults of each half.
#[test]
fn echoes_a_connection(rt: HostRuntime) {
    let sink = MemorySink::new(rt.alloc(), failing(&rt, 2));
    let mut connection = MemoryConnection::new(source(&rt, "ask", 1, 0), sink);
    holds(&rt, "echo", echo(rt.alloc(), &mut connection).is_ok());
    same(&rt, connection.sink.bytes(), "ask");
    fails(&rt, &mut connection, "more");
    equal(&rt, Source::faults(&connection), 0);
    equal(&rt, Sink::faults(&connection), 1);
}

// A connection's read fails where its source is told to, and takes nothing.
#[test]
fn counts_faults_of_a_connection(rt: HostRuntime) {
    let mut connection = MemoryConnection::new(source(&rt, "ask", 9, 1), sink(&rt, 9, 0));
    let refused = read_all(rt.alloc(), &mut connection, 9).err();
    holds(&rt, "fault", refused == Some(ReadRefused::Fault));
    equal(&rt, Source::faults(&connection), 1);
    equal(&rt, Sink::faults(&connection), 0);
    same(&rt, connection.source.left(), "ask");
}

// A reader and a writer that fail at each call.
#[derive(Drop)]
struct Broken;

impl io::Read for Broken {
    fn read(&mut self, _: &mut [u8]) -> io::Result<usize> {
        Err(io::Error::from(io::ErrorKind::BrokenPipe))
    }
}

impl io::Write for Broken {
    fn write(&mut self, _: &[u8]) -> io::Result<usize> {
        Err(io::Error::from(io::ErrorKind::BrokenPipe))
    }

    fn flush(&mut self) -> io::Result<()> {
        Ok(())
    }
}

// A reader and a writer that fail once, and then read nothing and write all.
#[derive(Drop)]
struct FailsOnce {
    failed: bool,
}

// An error at the first call, an interrupted one, and `then` at each later one.
fn first_fails(failed: &mut bool, then: usize) -> io::Result<usize>
    ensures { IfOk result (λ n. n ≡ then) }
{
    if *failed {
        return Ok(then);
    }
    *failed = true;
    Err(io::Error::from(io::ErrorKind::Interrupted))
}

impl io::Read for FailsOnce {
    fn read(&mut self, _: &mut [u8]) -> io::Result<usize> {
        first_fails(&mut self.failed, 0)
    }
}

impl io::Write for FailsOnce {
    fn write(&mut self, bytes: &[u8]) -> io::Result<usize> {
        first_fails(&mut self.failed, bytes.len())
    }

    fn flush(&mut self) -> io::Result<()> {
        Ok(())
    }
}

// A call that failed isn't made again, an interrupted one neither: the caller is told, and decides.
#[test]
fn tries_no_failed_call_again(rt: HostRuntime) {
    let mut reader = Reading::new(FailsOnce { failed: false });
    let refused = read_all(rt.alloc(), &mut reader, 9).err();
    holds(&rt, "read", refused == Some(ReadRefused::Fault));
    equal(&rt, reader.faults(), 1);
    let none = read_all(rt.alloc(), &mut reader, 9).expect(&rt, "bytes");
    same(&rt, none.as_slice(), "");
    equal(&rt, reader.faults(), 1);

    let mut writer = Writing::new(FailsOnce { failed: false });
    fails(&rt, &mut writer, "x");
    equal(&rt, writer.faults(), 1);
    writes(&rt, &mut writer, "x");
    equal(&rt, writer.faults(), 1);
}

// The adapters pass bytes on.
#[test]
fn adapts_readers_and_writers(rt: HostRuntime) {
    let mut queue = VecDeque::new(rt.alloc());
    {
        let mut sink = Writing::new(&mut queue);
        writes(&rt, &mut sink, "passed on");
        writes(&rt, &mut sink, "");
        equal(&rt, sink.faults(), 0);
    }
    let mut source = Reading::new(queue);
    let bytes = read_all(rt.alloc(), &mut source, 100).expect(&rt, "bytes");
    same(&rt, bytes.as_slice(), "passed on");
    equal(&rt, source.faults(), 0);
}

fn fills(rt: &impl Abort, room: &mut [u8]) {
    let mut full = Writing::new(room);
    fails(rt, &mut full, "four");
    writes(rt, &mut full, "");
    equal(rt, full.faults(), 1);
}

// The adapters count what fails, and a writer that is full.
#[test]
fn counts_faults_of_readers_and_writers(rt: HostRuntime) {
    let mut room = [0u8; 3];
    fills(&rt, room.as_mut_slice());
    same(&rt, room.as_slice(), "fou");

    let mut reader = Reading::new(Broken);
    holds(&rt, "read", reader.read(&mut [0; 4]) == Err(Failed));
    let refused = read_all(rt.alloc(), &mut reader, 9).err();
    holds(&rt, "read all", refused == Some(ReadRefused::Fault));
    equal(&rt, reader.faults(), 2);
    let mut writer = Writing::new(Broken);
    fails(&rt, &mut writer, "x");
    equal(&rt, writer.faults(), 1);
}
