//! The program, over the files, standard streams, network, clock and threads of the machine.
#![tactic(auto)]

ghost use Rattle.std.specs.Prelude.{◌≡◌, IfOk, codes, string_bytes};
ghost use Rattle.std.specs.Str.{IsUtf8};

use aire_top::{TellingDoor, aire, leave};
use command_ends::lacking;
use io_edge::{Reading, RealFiles, Writing};
use io_links::SystemSpawner;
use std::alloc::{AllocError, Global};
use std::env::{Env, FillError};
use std::io;
use std::process::ExitCode;
use system_inputs::{SystemClock, SystemWords};
use tcp_links::{StopSignal, TcpDoor, TcpLink};

// The most bytes of a word and a zero behind it: the system hands over no longer one.
const LONGEST_WORD: usize = 131072;

// The word of these bytes. One that isn't UTF-8 fits nowhere, and neither does what stands for it.
fn word_of(alloc: Global, bytes: &[u8]) -> Result<String, AllocError>
    ensures text { IfOk result (λ word. IsUtf8 bytes.now → string_bytes word ≡ bytes.now) }
    ensures other { IfOk result (λ word. ¬ (IsUtf8 bytes.now) → string_bytes word ≡ codes "--") }
{
    match str::from_utf8(bytes) {
        Ok(text) => String::from_str(alloc, text),
        Err(_) => String::from_str(alloc, "--"),
    }
}

// The word of this index, counted from the program's name, if there is one.
fn word_at(
    rt: &impl Env,
    alloc: Global,
    room: &mut [u8],
    i: usize,
) -> Result<Option<String>, AllocError> {
    match rt.arg(i, room) {
        Ok(n) => Ok(Some(word_of(alloc, &room[..n])?)),
        Err(FillError::TooLong) => Ok(Some(String::from_str(alloc, "--")?)),
        Err(FillError::NotPresent) => Ok(None),
    }
}

// The words after the program's name.
fn words_of(rt: &impl Env, alloc: Global) -> Result<Vec<String>, AllocError> {
    let mut room = vec![in alloc; 0u8; LONGEST_WORD]?;
    let mut words = Vec::new(alloc);
    for i in 1..usize::MAX {
        let Some(word) = word_at(rt, alloc, &mut room, i)? else {
            break;
        };
        words.push(word)?;
    }
    Ok(words)
}

fn main(rt: HostRuntime) -> ExitCode {
    let alloc = rt.alloc();
    let mut out = Writing::new(io::writer(&rt));
    let Ok(words) = words_of(&rt, alloc) else {
        return ExitCode::from(lacking(&mut out));
    };
    let stop = StopSignal::new();
    let doors = TcpDoor::new(&rt, alloc, &stop);
    let ended = aire(
        &rt,
        alloc,
        &words,
        &mut RealFiles::new(alloc, &rt),
        &mut Reading::new(rt.reader()),
        &mut out,
        &mut TellingDoor::new(alloc, doors, Writing::new(rt.stderr())),
        &mut TcpLink::new(&rt, &stop),
        &mut SystemClock::new(&rt),
        &mut SystemWords::new(&rt),
        &mut SystemSpawner::new(),
    );
    ExitCode::from(leave(ended))
}
