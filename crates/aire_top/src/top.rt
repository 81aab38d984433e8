// The top call.
ghost use Rattle.std.specs.Prelude.{◌≡◌, All, IfSome, Some, map, string_bytes};
ghost use Rattle.journal_rows.specs.declared.verdict.Verdict.TheVariants.{Legal};
ghost use Rattle.world_events.specs.Live.{IsLiveWorld};
ghost use Rattle.service_events.specs.Allowed.{IsAllowed};
ghost use Rattle.service_events.specs.Fits.{Fits};
ghost use Rattle.world_events.specs.Sound.{IsSound};
ghost use Rattle.script_run.specs.Audits.{SaysForged};
ghost use Rattle.world_agreement.specs.Legal.{AreLegal};
ghost use Rattle.node_run.specs.HandedOn.{IsWhole};
ghost use Rattle.world_file.specs.Worlds.{KnowEachOther};
ghost use Rattle.aire_top.specs.Closings.{RunsIn};
ghost use Rattle.aire_top.specs.Commands.{AnswersBy, Ends, EndsOffline, EndsPlainly, IsDone, IsDoneAs, IsGoodCommand, IsGoodOffline, command_of, offline_command};
ghost use Rattle.aire_top.specs.Ended.{faults};
ghost use Rattle.aire_top.specs.Endings.{RunEnds, ScriptEnds, answer_in, outside};
ghost use Rattle.aire_top.specs.Seen.{ending_of};
ghost use Rattle.aire_top.specs.Top.{fitting};
ghost use Rattle.aire_top.specs.declared.words.Command.TheVariants.{Audit, Order, Serve};

use crate::announcing::AnnouncingDoor;
use crate::ended::Ended;
use crate::ending::{closed, refusal, without, worldless};
use crate::loading::{load_script, load_world};
use crate::making::make;
use crate::outcome::Outcome;
use crate::served::served;
use crate::starting::started;
use crate::words::{Command, command_of, is_make, named};
use audit_command::audit;
use command_ends::{DONE, UNWRITTEN};
use io_edge::{Connection, Files, ReadRefused, Sink, Source};
use io_links::{Ear, Link, Spawner};
use node_run::look_at_all;
use order_command::order;
use recorded_inputs::{Clock, Words};
use script_run::{ScriptRefused, World, run_script};
use std::alloc::Global;
use std::sync::Wait;
use std::thread::Threads;
use std::time;
use world_file::Setup;

// Runs a script in a world.
fn play<K: Sink>(alloc: Global, world: World, script: &[u8], out: &mut K) -> Outcome
    requires sound { IsSound world }
    requires live { IsLiveWorld world }
    ensures { ScriptEnds world script.now (K.writes out.old) (K.writes out.new) (answer_in result.status result.world) }
{
    let mut world = world;
    match run_script(alloc, &mut world, script, out) {
        Ok(_) => Outcome::standing(DONE, world),
        Err(ScriptRefused::WriteFault) => Outcome::standing(UNWRITTEN, world),
        Err(ScriptRefused::Refused(line, fault)) => {
            refusal(alloc, world, out, line, fault.number())
        }
        Err(ScriptRefused::NoMemory) => Outcome::lacking(out),
    }
}

// Runs a script in a new world of services that are set up so.
fn run_in<F: Files, S: Source, K: Sink>(
    alloc: Global,
    setups: &[Setup],
    script: &str,
    files: &mut F,
    input: &mut S,
    out: &mut K,
) -> Outcome
    requires { KnowEachOther setups.now }
    ensures { RunsIn setups.now script.now
        (outside (F.loads files.old) (S.reads input.old) (K.writes out.old))
        (outside (F.loads files.new) (S.reads input.new) (K.writes out.new))
        (answer_in result.status result.world) }
{
    let Ok(world) = started(alloc, setups) else {
        return Outcome::lacking(out);
    };
    match load_script(alloc, script, files, input) {
        Ok(script) => play(alloc, world, script.as_slice(), out),
        Err(ReadRefused::NoMemory) => Outcome::lacking(out),
        Err(ReadRefused::Fault) => Outcome::unread(out),
        Err(ReadRefused::TooLong) => refusal(alloc, world, out, 0, 7),
    }
}

// Runs a script in a new world, each named by a word.
fn run<F: Files, S: Source, K: Sink>(
    alloc: Global,
    world: &str,
    script: &str,
    files: &mut F,
    input: &mut S,
    out: &mut K,
) -> Outcome
    ensures { RunEnds (fitting world.now script.now)
        (outside (F.loads files.old) (S.reads input.old) (K.writes out.old))
        (outside (F.loads files.new) (S.reads input.new) (K.writes out.new))
        (answer_in result.status result.world) }
{
    match load_world(alloc, world, files) {
        Ok(setups) => run_in(alloc, &setups, script, files, input, out),
        Err(why) => Outcome::without(worldless(alloc, why, out)),
    }
}

// Does what words ask for without threads, up to the verdict.
fn done<F: Files, S: Source, K: Sink>(
    alloc: Global,
    words: &[String],
    files: &mut F,
    input: &mut S,
    out: &mut K,
) -> Outcome
    ensures { AnswersBy (offline_command (map string_bytes words.now)) (map string_bytes words.now)
        (outside (F.loads files.old) (S.reads input.old) (K.writes out.old))
        (outside (F.loads files.new) (S.reads input.new) (K.writes out.new))
        (answer_in result.status result.world) }
{
    if is_make(words) {
        return make(alloc, words, out);
    }
    match named(words) {
        Ok((world, script)) => run(alloc, world, script, files, input, out),
        Err(place) => Outcome::misused(alloc, out, place),
    }
}

/// What the program does for words that ask for a command without threads, or for none: `run WORLD SCRIPT`, where WORLD is
/// `@notes`, `@shops`, `@posts` or a world file, SCRIPT a file or `-` for the input, and the script is run in a new world; or
/// `make SEED N`, where a script of N requests is made of a number and run in a new world of the services of `@posts`, and
/// what it comes to is written in one line. It starts no thread and waits for nobody.
///
/// A run ends in one of five ways: the script was run (status 0, 3, 5 or 6), the words don't fit (2), the world is
/// refused (3), a file or the input can't be read (4), or memory is wanting (6). So does a script that is made, which asks
/// for no file and reads nothing.
pub fn offline<X: Connection + Drop, F: Files, S: Source, K: Sink>(
    alloc: Global,
    words: &[String],
    files: &mut F,
    input: &mut S,
    out: &mut K,
) -> Ended<X>
    // How it ends: what was asked for, read and written, the status, the services and the verdict over them. No request was
    // answered over a connection, and nobody asked to stop.
    ensures ends { EndsOffline (map string_bytes words.now)
        (outside (F.loads files.old) (S.reads input.old) (K.writes out.old))
        (outside (F.loads files.new) (S.reads input.new) (K.writes out.new))
        (ending_of result) }

    // It doesn't give up by itself.
    ensures complete { IsGoodOffline (map string_bytes words.now)
        (outside (F.loads files.old) (S.reads input.old) (K.writes out.old))
        (outside (F.loads files.new) (S.reads input.new) (K.writes out.new))
        → IsDone result.status }

    // Where the verdict is Legal, the logs and rows of all services form one legal execution of the surviving requests,
    // each service in logged order: with each call of one of them there is exactly one request at its destination, whose
    // response is what the call consumed, and no other call has one that is wanted.
    ensures legal { result.verdict ≡ Some Legal → AreLegal result.services.items }

    // It is never Forged: what each service says of another is what that one says of itself.
    ensures joined { IfSome result.verdict (λ v. ¬ (SaysForged v)) }

    // Where there is a verdict, Legal or not, each repair that a service applied was allowed by its rules, as things and these rules
    // stood before it.
    ensures allowed { IfSome result.verdict (λ v. All IsAllowed result.services.items) }

    // So it was of all services, and each fits its journal, which a service's type keeps.
    ensures kept { All Fits result.services.items × All IsAllowed result.services.items }
{
    closed(alloc, done(alloc, words, files, input, out))
}

// Judges the services of a dump.
fn audited<X: Connection + Drop, R: Threads + Sync, F: Files, K: Sink>(
    rt: &R,
    alloc: Global,
    words: &[String],
    files: &mut F,
    out: &mut K,
) -> Ended<X>
    ensures ends { (reads : _) → EndsPlainly Audit (map string_bytes words.now)
        (outside (F.loads files.old) reads (K.writes out.old))
        (outside (F.loads files.new) reads (K.writes out.new))
        (ending_of result) }
    ensures verdict { result.verdict ≡ None }
    ensures kept { All Fits result.services.items × All IsAllowed result.services.items }
{
    let status = audit(rt, alloc, words, files, out);
    without(alloc, status)
}

// The same end, with what the services' type keeps of each.
fn looked_at<X: Connection + Drop>(ended: Ended<X>) -> Ended<X>
    ensures same { ending_of result ≡ ending_of ended }
    ensures kept { All Fits result.services.items × All IsAllowed result.services.items }
{
    look_at_all(&ended.services);
    ended
}

// Looks for one order of the roots of a dump.
fn ordered<X: Connection + Drop, F: Files, K: Sink>(
    alloc: Global,
    words: &[String],
    files: &mut F,
    out: &mut K,
) -> Ended<X>
    ensures ends { (reads : _) → EndsPlainly Order (map string_bytes words.now)
        (outside (F.loads files.old) reads (K.writes out.old))
        (outside (F.loads files.new) reads (K.writes out.new))
        (ending_of result) }
    ensures verdict { result.verdict ≡ None }
    ensures kept { All Fits result.services.items × All IsAllowed result.services.items }
{
    let status = order(alloc, words, files, out);
    without(alloc, status)
}

/// What the program does. The words are those after its name: `audit DUMP WORKERS`, where DUMP is a file, and the services
/// that it writes down are judged by it alone, in at most WORKERS threads; `order DUMP`, and one order of their requests is looked
/// for in which all of them could have run as one program; `serve WORLD`, where WORLD is named as for a run, and its services
/// listen at their doors, answer requests and are repaired until an operator stops them; else they are those of `offline`. It
/// may wait.
///
/// An audit ends in one of five ways: the dump was judged (status 0 or 5), it is refused (3), the words don't fit (2), the
/// file can't be read (4), or memory is wanting (6). So does a search for an order, where it is told, or that there is none. So
/// does serving: an operator stopped the services (0 or 5), the world is refused (3), the words don't fit (2), the world can't
/// be read (4), or memory is wanting (6); and in three more: a door can't be listened at (7), a worker can't be started
/// (8), or a receipt isn't that of the journal (9).
pub fn aire<
    R: Threads + Wait + time::Clock + Sync,
    F: Files,
    S: Source,
    K: Sink,
    D: AnnouncingDoor,
    L: Link + Send,
    C: Clock + Send,
    V: Words + Send,
    P: Spawner,
>(
    rt: &R,
    alloc: Global,
    words: &[String],
    files: &mut F,
    input: &mut S,
    out: &mut K,
    doors: &mut D,
    links: &mut L,
    clock: &mut C,
    random: &mut V,
    spawner: &mut P,
) -> Ended<<D::Ear as Ear>::Conn>
    // How it ends, by the command that the first word asks for: what was asked for, read and written, the status, the
    // services and the verdict over them; and where they were served, the receipts of what they answered, and who asked to stop.
    ensures ends { Ends (map string_bytes words.now)
        (faults (D.faults doors.old) (P.faults spawner.old))
        (faults (D.faults doors.new) (P.faults spawner.new))
        (outside (F.loads files.old) (S.reads input.old) (K.writes out.old))
        (outside (F.loads files.new) (S.reads input.new) (K.writes out.new))
        (ending_of result) }

    // It doesn't give up by itself.
    ensures complete { IsGoodCommand (map string_bytes words.now)
        (faults (D.faults doors.old) (P.faults spawner.old))
        (faults (D.faults doors.new) (P.faults spawner.new))
        (outside (F.loads files.old) (S.reads input.old) (K.writes out.old))
        (outside (F.loads files.new) (S.reads input.new) (K.writes out.new))
        → IsDoneAs (map string_bytes words.now) result.status }

    // What `offline` says of a verdict over services. Where they were served it may be Forged: whoever holds a service's secret
    // can seal what that one never sent.
    ensures legal { result.verdict ≡ Some Legal → AreLegal result.services.items }
    ensures joined { ¬ (command_of (map string_bytes words.now) ≡ Serve) → IfSome result.verdict (λ v. ¬ (SaysForged v)) }
    ensures allowed { IfSome result.verdict (λ v. All IsAllowed result.services.items) }

    // Whatever the status, each service fits its journal, and its rules allowed each repair in that, as things and these rules stood
    // before it.
    ensures kept { All Fits result.services.items × All IsAllowed result.services.items }

    // Where an operator stopped services, each receipt is that of an answer in a journal, with its request and the bytes of its
    // reply, and each live request that a journal answers has exactly one.
    ensures receipts { IfSome result.last (λ _. IsWhole result.services.items result.receipts.items) }
{
    match command_of(words) {
        Command::Run => offline(alloc, words, files, input, out),
        Command::Make => offline(alloc, words, files, input, out),
        Command::Audit => audited(rt, alloc, words, files, out),
        Command::Order => ordered(alloc, words, files, out),
        Command::Serve => looked_at(served(
            rt, alloc, words, files, out, doors, links, clock, random, spawner,
        )),
    }
}
