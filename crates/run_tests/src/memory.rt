// Commands over memory.
use crate::given::failing;
use aire_top::{Ended, aire, offline};
use io_edge::{MemoryConnection, MemoryFile, MemoryFiles, MemorySink, MemorySource};
use io_links::{MemoryDoor, MemoryLink, MemoryNetwork, MemorySpawner};
use lang_core::{Bytes, Seq, Text};
use recorded_inputs::{ScriptClock, ScriptWords};
use std::process::Abort;
use std::str;
use std::sync::Wait;
use std::thread::Threads;
use std::time::Clock;

/// What a run came to: its status, and what was written.
pub type Came = (u8, MemorySink);

fn words_of(rt: &(impl Abort + AllocGlobal), words: &str) -> Vec<String> {
    let mut owned = Vec::new(rt.alloc());
    for word in words.split(' ') {
        let word = String::from_str(rt.alloc(), word).expect(rt, "memory");
        owned.push(word).ok().expect(rt, "memory");
    }
    owned
}

fn bytes_of(rt: &(impl Abort + AllocGlobal), text: &str) -> Vec<u8> {
    text.as_bytes().to_vec(rt.alloc()).expect(rt, "memory")
}

fn file_of(rt: &(impl Abort + AllocGlobal), path: &str, text: &str) -> MemoryFile {
    let path = Text::of(rt.alloc(), path).expect(rt, "memory");
    MemoryFile {
        path,
        bytes: Bytes::from(bytes_of(rt, text)),
    }
}

/// The files `world` and `script`, of which the load of this number, counted from 1, fails, and none where that is 0.
pub fn two_files(
    rt: &(impl Abort + AllocGlobal),
    world: &str,
    script: &str,
    fails: u64,
) -> MemoryFiles {
    let mut files = Seq::new(rt.alloc());
    files.push(file_of(rt, "world", world)).expect(rt, "memory");
    files
        .push(file_of(rt, "script", script))
        .expect(rt, "memory");
    MemoryFiles::new(files, failing(rt, fails))
}

/// An input of this text, in which the read of this number fails.
pub fn input_of(rt: &(impl Abort + AllocGlobal), text: &str, fails: u64) -> MemorySource {
    MemorySource::new(bytes_of(rt, text), failing(rt, fails))
}

/// A run with these words, files and input, in which the write of this number fails.
pub fn ran(
    rt: &(impl Abort + AllocGlobal),
    words: &str,
    files: &mut MemoryFiles,
    input: &mut MemorySource,
    write_fails: u64,
) -> Came {
    let words = words_of(rt, words);
    let mut out = MemorySink::new(rt.alloc(), failing(rt, write_fails));
    let ended: Ended<MemoryConnection> = offline(rt.alloc(), &words, files, input, &mut out);
    (ended.status, out)
}

/// A command with these words over this network, without files and input, in which the call of the door, the start of a thread and
/// the write with these numbers fail.
pub fn commanded<R: Abort + AllocGlobal + Threads + Wait + Clock + Sync>(
    rt: &R,
    network: &MemoryNetwork,
    words: &str,
    door_fails: u64,
    start_fails: u64,
    write_fails: u64,
) -> Came {
    let words = words_of(rt, words);
    let mut out = MemorySink::new(rt.alloc(), failing(rt, write_fails));
    let ended = aire(
        rt,
        rt.alloc(),
        &words,
        &mut MemoryFiles::new(Seq::new(rt.alloc()), Vec::new(rt.alloc())),
        &mut MemorySource::new(Vec::new(rt.alloc()), Vec::new(rt.alloc())),
        &mut out,
        &mut MemoryDoor::new(rt, rt.alloc(), network, failing(rt, door_fails)),
        &mut MemoryLink::new(rt, rt.alloc(), network),
        &mut ScriptClock::new(),
        &mut ScriptWords::new(),
        &mut MemorySpawner::new(failing(rt, start_fails)),
    );
    (ended.status, out)
}

/// That it came to this.
pub fn is_told(rt: &impl Abort, came: &Came, status: u8, told: &str) {
    assert_eq!(rt; came.0, status);
    assert_eq!(rt; str::from_utf8(came.1.bytes()).expect(rt, "text"), told);
}
