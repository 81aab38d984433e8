// A script that is made of a number, and its run.
ghost use Rattle.std.specs.Prelude.{◌≡◌, ◌⊎◌, ◌++◌, ◌≤◌, Some, IfOk, IsSome, OnOk, codes, length, map, option_map, string_bytes};
ghost use Rattle.script_run.specs.Counting.{capped};
ghost use Rattle.script_run.specs.Plays.{audit_text};
ghost use Rattle.world_agreement.specs.Partners.{IsJoined};
ghost use Rattle.world_events.specs.Sound.{IsSound};
ghost use Rattle.world_file.specs.Standard.{built_in};
ghost use Rattle.world_file.specs.Worlds.{KnowEachOther};
ghost use Rattle.aire_top.specs.Endings.{LacksMemory, answer_in};
ghost use Rattle.aire_top.specs.Making.{IsPostsWorld, Prints, ScriptTold, SeedEnds, WordsEnd, counted_text, entries_of, made_line, numbers_text, settled_text};

use crate::ending::refusal;
use crate::outcome::Outcome;
use crate::starting::started;
use crate::words::{MOST_REQUESTS, seed_and_count};
use command_ends::print;
use io_edge::{Failed, Sink};
use lang_core::NoMemory;
use script_make::make_script;
use script_run::{Counts, ScriptRefused, Service, World, run_script, verdict_line};
use std::alloc::Global;
use world_file::{Setup, built_in};

/// Where output goes that nobody wants: what is written there is dropped, and no write fails.
#[derive(Drop)]
struct Nowhere;

impl Sink for Nowhere {
    ghost use Rattle.std.specs.Prelude.{None};

    ghost writes = { λ _. record { written = None; faults = 0 } };

    fn write(&mut self, bytes: &[u8]) -> Result<u64, Failed> {
        Ok(bytes.len() as u64)
    }

    fn faults(&self) -> u64 {
        0
    }
}

// How many entries a service has, folded ones among them, as far as 64 bits count.
#[tactic(auto, using(crate::proofs::MakingLemmas::in_both))]
fn entries_in(service: &Service) -> u64
    ensures { result ≡ capped (length service.now.entries) }
{
    let log = service.entries();
    log.folded().len().saturating_add(log.len())
}

// How many entries services have, as far as 64 bits count.
fn entries_of(services: &[Service]) -> u64
    ensures { result ≡ capped (entries_of services.now) }
{
    let mut entries: u64 = 0;
    for service in services {
        entries = entries.saturating_add(entries_in(service));
    }
    entries
}

// How many there are, before what was settled.
fn push_counted(text: &mut String, n: u64, entries: u64, cancelled: u64) -> Result<(), NoMemory>
    ensures { OnOk result (string_bytes text.new ≡ string_bytes text.old
        ++ counted_text n entries cancelled) }
{
    write!(text, "made {n} entries {entries} cancelled {cancelled}")?;
    Ok(())
}

// What was settled.
fn push_settled(text: &mut String, counts: Counts) -> Result<(), NoMemory>
    ensures { OnOk result (string_bytes text.new ≡ string_bytes text.old
        ++ settled_text counts) }
{
    let rounds = counts.rounds;
    let runs = counts.runs;
    let posts = counts.posts;
    write!(text, " settled {rounds} {runs} {posts} ")?;
    Ok(())
}

fn push_numbers(text: &mut String, n: u64, entries: u64, counts: Counts) -> Result<(), NoMemory>
    ensures { OnOk result (string_bytes text.new ≡ string_bytes text.old ++ numbers_text n entries counts) }
{
    push_counted(text, n, entries, counts.cancelled)?;
    push_settled(text, counts)
}

fn push_verdict(text: &mut String, alloc: Global, world: &World) -> Result<(), NoMemory>
    ensures { OnOk result (string_bytes text.new ≡ string_bytes text.old ++ audit_text world.now.services) }
{
    let verdict = verdict_line(alloc, world)?;
    text.push_str(verdict.as_str())?;
    Ok(())
}

// The line that says what a script of so many requests came to.
fn made_line(alloc: Global, n: u64, counts: Counts, world: &World) -> Result<String, NoMemory>
    ensures { IfOk result (λ line. string_bytes line ≡ made_line n counts world.now.services) }
{
    let entries = entries_of(world.services());
    let mut line = String::new(alloc);
    push_numbers(&mut line, n, entries, counts)?;
    push_verdict(&mut line, alloc, world)?;
    Ok(line)
}

// The end where each line of a script is done.
fn print_made<K: Sink>(alloc: Global, world: World, n: u64, counts: Counts, out: &mut K) -> Outcome
    requires { IsJoined world.services }
    ensures { Prints (K.writes out.old) (K.writes out.new) (made_line n counts world.services) world (answer_in result.status result.world)
        ⊎ LacksMemory (K.writes out.old) (K.writes out.new) (answer_in result.status result.world) }
{
    match made_line(alloc, n, counts, &world) {
        Ok(line) => Outcome::standing(print(out, line.as_str()), world),
        Err(_) => Outcome::lacking(out),
    }
}

// Runs a script of so many requests without its output, and prints what it comes to.
fn run_made<K: Sink>(alloc: Global, world: World, script: &[u8], n: u64, out: &mut K) -> Outcome
    requires { IsSound world }
    ensures { ScriptTold world script.now n (K.writes out.old) (K.writes out.new) (answer_in result.status result.world) }
{
    let mut world = world;
    match run_script(alloc, &mut world, script, &mut Nowhere) {
        Ok(counts) => print_made(alloc, world, n, counts, out),
        Err(ScriptRefused::Refused(line, fault)) => {
            refusal(alloc, world, out, line, fault.number())
        }
        Err(ScriptRefused::NoMemory) => Outcome::lacking(out),
        Err(ScriptRefused::WriteFault) => unreachable!(),
    }
}

// The world that is there.
fn there(world: Option<Vec<Setup>>) -> Vec<Setup>
    requires { IsSome world }
    ensures { option_map (λ setups. setups.items) world ≡ Some result.items }
{
    match world {
        Some(setups) => setups,
        None => unreachable!(),
    }
}

// The services that come with the program under `@posts`.
fn posts(alloc: Global) -> Result<Vec<Setup>, NoMemory>
    ensures posts { IfOk result (λ setups. built_in (codes "@posts") ≡ Some setups.items) }
    ensures together { IfOk result (λ setups. KnowEachOther setups.items) }
{
    let world = built_in(alloc, "@posts")?;
    Ok(there(world))
}

// A new world of these.
fn posts_world(alloc: Global) -> Result<World, NoMemory>
    ensures world { IfOk result (λ world. IsPostsWorld world) }
    ensures sound { IfOk result (λ world. IsSound world) }
{
    let setups = posts(alloc)?;
    started(alloc, &setups)
}

// Makes a script of so many requests by a seed, runs it in such a world without its output, and prints in one line what it
// comes to.
fn make_of<K: Sink>(alloc: Global, seed: u64, n: u64, out: &mut K) -> Outcome
    requires { n ≤ MOST_REQUESTS }
    ensures { SeedEnds seed n (K.writes out.old) (K.writes out.new) (answer_in result.status result.world) }
{
    let Ok(script) = make_script(alloc, seed, n) else {
        return Outcome::lacking(out);
    };
    let Ok(world) = posts_world(alloc) else {
        return Outcome::lacking(out);
    };
    run_made(alloc, world, script.as_bytes(), n, out)
}

/// Makes and runs the script for which words ask, without its output, and prints in one line what it comes to; or says which
/// word doesn't fit.
pub fn make<K: Sink>(alloc: Global, words: &[String], out: &mut K) -> Outcome
    ensures { WordsEnd (map string_bytes words.now) (K.writes out.old) (K.writes out.new) (answer_in result.status result.world) }
{
    match seed_and_count(words) {
        Ok((seed, n)) => make_of(alloc, seed, n, out),
        Err(place) => Outcome::misused(alloc, out, place),
    }
}
