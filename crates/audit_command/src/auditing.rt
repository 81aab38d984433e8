// The command.
ghost use Rattle.std.specs.Prelude.{◌≡◌, ◌<◌, ◌⊎◌, None, map, string_bytes};
ghost use Rattle.audit_command.specs.Audits.{AuditEnds, IsGood, dump_word, misfit};

use crate::loading::{NoDump, load_dump};
use crate::telling::{refused, told};
use crate::words::asked;
use command_ends::{lacking, misused, unread};
use dump_audit::judge_beside;
use io_edge::{Files, Sink};
use std::alloc::Global;
use std::thread::Threads;

fn audit_file<R: Threads + Sync, F: Files, K: Sink>(
    rt: &R,
    alloc: Global,
    path: &str,
    workers: u64,
    files: &mut F,
    out: &mut K,
) -> u8
    requires { 0 < workers }
    ensures { (words : _) → misfit words ≡ None → dump_word words ≡ path.now
        → AuditEnds words (F.loads files.old) (F.loads files.new) (K.writes out.old) (K.writes out.new) result }
{
    match load_dump(alloc, path, files) {
        Ok(dump) => match judge_beside(rt, alloc, &dump, workers) {
            Ok(judged) => told(alloc, out, &judged),
            Err(_) => lacking(out),
        },
        Err(NoDump::NoMemory) => lacking(out),
        Err(NoDump::Failed) => unread(out),
        Err(NoDump::Refused(why)) => refused(alloc, out, why),
    }
}

/// Judges the services of a dump by running each of their entries anew, and tells what it found. The words are `audit`, a
/// file, and how many workers may judge at once, from 1 to 64, which changes nothing of what is found.
pub fn audit<R: Threads + Sync, F: Files, K: Sink>(
    rt: &R,
    alloc: Global,
    words: &[String],
    files: &mut F,
    out: &mut K,
) -> u8
    // How it ends: what was asked for, what is written, and the status.
    ensures ends { AuditEnds (map string_bytes words.now) (F.loads files.old) (F.loads files.new) (K.writes out.old) (K.writes out.new) result }
    // It doesn't give up by itself.
    ensures complete { IsGood (map string_bytes words.now) (F.loads files.old) (F.loads files.new) (K.writes out.old) (K.writes out.new)
        → (result ≡ 0) ⊎ (result ≡ 6) }
{
    match asked(words) {
        Ok((path, workers)) => audit_file(rt, alloc, path, workers, files, out),
        Err(place) => misused(alloc, out, place),
    }
}
