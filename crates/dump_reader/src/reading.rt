// Texts, read as dumps.
ghost use Rattle.std.specs.Prelude.{◌≡◌, ◌∷◌, [], ◌<◌, ◌≤◌, ◌==◌, List, Ok, IfOk, false, length, position};
ghost use Rattle.dump_tables.specs.Kept.{AreKept};
ghost use Rattle.dump_tables.specs.declared.dump.DumpService.{DumpService};
ghost use Rattle.dump_words.specs.Lines.{line_at};
ghost use Rattle.dump_reader.specs.Reading.{Answers, all_read, is_between, may_have_program, lines_of, misread, read_of, services_of, step, step_read, stepped, taken, with_lines};
ghost use Rattle.dump_reader.specs.Spelled.{Spells};

use crate::refused::{DumpRefused, without};
use crate::stage::Stage;
use crate::steps::{is_empty, next_stage};
use dump_tables::{Dump, DumpServices};
use dump_words::{Line, LineFault, read_line};
use lang_core::NoMemory;
use std::alloc::Global;
use std::mem;

/// The most bytes of a dump.
pub const LONGEST_DUMP: u64 = 67108864;

// ---- lines

fn line_end(bytes: &[u8]) -> Option<usize>
    ensures { result ≡ position (λ b. b == 10) bytes.now }
{
    bytes.iter().position(|b| *b == b'\n')
}

// The first line, and what stands behind its end.
fn cut_line(bytes: &[u8]) -> (&[u8], &[u8])
    requires { 0 < length bytes.now }
    ensures line { lines_of bytes.now ≡ result.0.now ∷ lines_of result.1.now }
    ensures shorter { length result.1.now < length bytes.now }
{
    match line_end(bytes) {
        Some(end) => (&bytes[..end], &bytes[end + 1..]),
        None => (bytes, &[]),
    }
}

fn may_have_program(stage: &Stage) -> bool
    ensures { result ≡ may_have_program stage.now }
{
    match stage {
        Stage::Between => false,
        Stage::Named(_) => false,
        Stage::Headed(_) => true,
        Stage::Within(service) => is_empty(service),
        Stage::Runs(_) => false,
    }
}

fn misread(expected: bool, n: u64, why: LineFault) -> DumpRefused
    ensures { result ≡ misread expected n why }
{
    match why {
        LineFault::Text => DumpRefused::Text(n),
        LineFault::Shape => DumpRefused::Shape(n),
        LineFault::Program(why) => {
            if expected {
                DumpRefused::Program(n, why)
            } else {
                DumpRefused::Shape(n)
            }
        }
    }
}

// An assignment would have to find out what of the stage is to be dropped.
fn put_stage(stage: &mut Stage, next: Stage)
    ensures { stage.new ≡ next }
{
    without(mem::replace(stage, next), ());
}

// Goes on with what a line says.
fn step(
    alloc: Global,
    services: &mut DumpServices,
    stage: &mut Stage,
    n: u64,
    line: Line,
) -> Result<(), DumpRefused>
    ensures { Answers (stepped result services.new stage.new) (step services.old stage.old n line) }
{
    let before = mem::replace(stage, Stage::Between);
    match next_stage(alloc, services, before, n, line) {
        Ok(next) => {
            put_stage(stage, next);
            Ok(())
        }
        Err(why) => Err(why),
    }
}

fn step_read(
    alloc: Global,
    services: &mut DumpServices,
    stage: &mut Stage,
    n: u64,
    read: Result<Line, LineFault>,
) -> Result<(), DumpRefused>
    ensures { Answers (stepped result services.new stage.new) (step_read services.old stage.old n read) }
{
    match read {
        Ok(line) => step(alloc, services, stage, n, line),
        Err(why) => Err(misread(may_have_program(stage), n, why)),
    }
}

fn step_line(
    alloc: Global,
    services: &mut DumpServices,
    stage: &mut Stage,
    n: u64,
    line: &[u8],
) -> Result<(), DumpRefused>
    ensures { Answers (stepped result services.new stage.new) (step_read services.old stage.old n (line_at line.now)) }
{
    match read_line(alloc, line) {
        Ok(read) => step_read(alloc, services, stage, n, read),
        Err(NoMemory) => Err(DumpRefused::NoMemory),
    }
}

// ---- whole texts

fn is_between(stage: &Stage) -> bool
    ensures { result ≡ is_between stage.now }
{
    match stage {
        Stage::Between => true,
        Stage::Named(_) => false,
        Stage::Headed(_) => false,
        Stage::Within(_) => false,
        Stage::Runs(_) => false,
    }
}

// Whether a line is taken; else why not. The reason stands outside of the loop over the lines, which is so without one.
fn take_line(
    alloc: Global,
    services: &mut DumpServices,
    stage: &mut Stage,
    n: u64,
    line: &[u8],
    why: &mut DumpRefused,
) -> bool
    ensures { Answers (taken result why.new services.new stage.new) (step_read services.old stage.old n (line_at line.now)) }
{
    match step_line(alloc, services, stage, n, line) {
        Ok(()) => true,
        Err(refused) => {
            *why = refused;
            false
        }
    }
}

// Whether the lines may end here; else why not.
fn take_end(stage: &Stage, n: u64, why: &mut DumpRefused) -> bool
    ensures end { result ≡ is_between stage.now }
    ensures why { result ≡ false → why.new ≡ DumpRefused.Shape n }
{
    if is_between(stage) {
        true
    } else {
        *why = DumpRefused::Shape(n);
        false
    }
}

// Goes on with the lines of a text, of which the first has the number 1.
fn read_lines(
    alloc: Global,
    services: &mut DumpServices,
    stage: &mut Stage,
    bytes: &[u8],
    why: &mut DumpRefused,
) -> bool
    ensures { Answers (all_read result why.new services.new) (with_lines services.old stage.old 1 (lines_of bytes.now)) }
{
    let mut rest = bytes;
    let mut n = 1;
    while !rest.is_empty() {
        let (line, more) = cut_line(rest);
        if !take_line(alloc, services, stage, n, line, why) {
            return false;
        }
        rest = more;
        n += 1;
    }
    take_end(stage, n, why)
}

fn read_services(alloc: Global, bytes: &[u8]) -> Result<DumpServices, DumpRefused>
    ensures { Answers result (with_lines [] Stage.Between 1 (lines_of bytes.now)) }
{
    let mut services = DumpServices::new(alloc);
    let mut stage = Stage::Between;
    let mut why = DumpRefused::NoMemory;
    if read_lines(alloc, &mut services, &mut stage, bytes, &mut why) {
        Ok(services)
    } else {
        Err(without(services, why))
    }
}

// The dump of services that keep what it keeps.
fn dump_of(services: DumpServices) -> Dump
    requires { ∥ AreKept services ∥₁ }
    ensures { result.services ≡ services }
{
    Dump { services }
}

fn read_short(alloc: Global, bytes: &[u8]) -> Result<Dump, DumpRefused>
    ensures { Answers (services_of result) (with_lines [] Stage.Between 1 (lines_of bytes.now)) }
{
    let services = read_services(alloc, bytes)?;
    Ok(dump_of(services))
}

fn read(alloc: Global, bytes: &[u8]) -> Result<Dump, DumpRefused>
    ensures { Answers (services_of result) (read_of bytes.now) }
{
    if bytes.len() as u64 > LONGEST_DUMP {
        Err(DumpRefused::TooLong)
    } else {
        read_short(alloc, bytes)
    }
}

/// The dump that a text of at most 67,108,864 bytes writes down. Another text is refused at its first line that doesn't
/// fit, or at the one behind its last where it ends within a service.
pub fn read_dump(alloc: Global, bytes: &[u8]) -> Result<Dump, DumpRefused>
    // Which services they are, or which refusal and where.
    ensures exact { Answers (services_of result) (read_of bytes.now) }
    // What is read is what the lines say, line by line, and nothing else.
    ensures found { IfOk result (λ dump. Spells bytes.now dump.services) }
    // What the lines say is read, where nothing of it stands twice and the text isn't too long, unless memory runs out.
    ensures only { (services : List DumpService) → AreKept services → Spells bytes.now services → length bytes.now ≤ LONGEST_DUMP
        → Answers (services_of result) (Ok services) }
{
    read(alloc, bytes)
}
