// A script, line by line.
ghost use Rattle.std.specs.Prelude.{◌≡◌, ◌==◌, ◌<◌, ◌≤◌, ℕ, ◌∷◌, [], IfOk, IfSome, OnOk, OnErr, IsErrOf, Some, None, length, position};
ghost use Rattle.io_edge.specs.Edge.{WriteFails};
ghost use Rattle.script_lines.specs.Faults.{fault_number};
ghost use Rattle.script_lines.specs.Lines.{line_at};
ghost use Rattle.script_run.specs.Plays.{AreEventsFor, SaysFor, is_long, lines_of};
ghost use Rattle.script_run.specs.Stops.{AreCountsOf, Does, DoesAll, DoesFirst, IsDetermined, KeepsSound, StopsEarly, StopsInLine};
ghost use Rattle.script_lines.specs.declared.line.LineFault.{LineFault};
ghost use Rattle.script_run.specs.declared.script.ScriptRefused.TheVariants.{Refused, NoMemory, WriteFault};

use crate::acting::act;
use crate::counts::{Counts, Said};
use io_edge::{Failed, Sink, write_all};
use lang_core::NoMemory as LacksMemory;
use script_lines::{LineFault, read_line};
use std::alloc::Global;
use world_settle::World;

/// The most bytes of a script.
pub const LONGEST_SCRIPT: u64 = 16777216;

/// Why a script was not done to its end.
#[derive(Clone, Copy, PartialEq, Eq)]
pub enum ScriptRefused {
    /// There was no memory for what a line does or prints.
    NoMemory,
    /// What a line prints could not be written.
    WriteFault,
    /// The line of this number, counted from 1, is refused; or the script is too long, as line 0.
    Refused(u64, LineFault),
}

impl From<LacksMemory> for ScriptRefused {
    ghost from_gives = { λ _ why. why ≡ NoMemory };

    fn from(_: LacksMemory) -> ScriptRefused {
        ScriptRefused::NoMemory
    }
}

impl From<Failed> for ScriptRefused {
    ghost from_gives = { λ _ why. why ≡ WriteFault };

    fn from(_: Failed) -> ScriptRefused {
        ScriptRefused::WriteFault
    }
}

// Does what the bytes of a line say, and answers what that says, or why it is refused.
#[tactic(auto, using(crate::proofs::Following::unread_does, crate::proofs::Following::read_acts, crate::proofs::Following::read_first))]
fn play_line(
    alloc: Global,
    world: &mut World,
    bytes: &[u8],
) -> Result<Result<Said, LineFault>, LacksMemory>
    ensures does { IfOk result (λ said. Does world.old (AreEventsFor world.old (line_at bytes.now)) (SaysFor world.old (line_at bytes.now)) said world.new) }
    ensures early { OnErr result (DoesFirst world.old (AreEventsFor world.old (line_at bytes.now)) world.new) }
{
    match read_line(alloc, bytes)? {
        Ok(line) => act(alloc, world, line),
        Err(fault) => Ok(Err(fault)),
    }
}

fn line_end(bytes: &[u8]) -> Option<usize>
    ensures { result ≡ position (λ b. b == 10) bytes.now }
{
    bytes.iter().position(|b| *b == b'\n')
}

// The first line, and what stands behind its end; None where no line is left.
fn next_line(bytes: &[u8]) -> Option<(&[u8], &[u8])>
    ensures ended { (result ≡ None) → lines_of bytes.now ≡ [] }
    ensures line { IfSome result (λ cut. lines_of bytes.now ≡ cut.0.now ∷ lines_of cut.1.now) }
    ensures shorter { IfSome result (λ cut. length cut.1.now < length bytes.now) }
{
    if bytes.is_empty() {
        return None;
    }
    match line_end(bytes) {
        Some(end) => Some((&bytes[..end], &bytes[end + 1..])),
        None => Some((bytes, &[])),
    }
}

fn is_long(script: &[u8]) -> bool
    ensures { result ≡ is_long script.now }
{
    script.len() as u64 > LONGEST_SCRIPT
}

/// Does a script's lines in order, writes what each prints before the next is done, and answers what they count. A script of
/// more than 16,777,216 bytes is refused as line 0, before any line. On an error the lines before it are done and written. A
/// line that can't be written is done, and not all that it prints was written. For want of memory some first events of the
/// line happened, and nothing that it prints was written. However far it comes, where all lines are of live requests each
/// call of a request that was committed consumes its callee's answer, or its register says why not.
#[tactic(auto, using(crate::proofs::PlayLaws::determined))]
pub fn run_script<K: Sink>(
    alloc: Global,
    world: &mut World,
    script: &[u8],
    out: &mut K,
) -> Result<Counts, ScriptRefused>
    ensures ok { OnOk result (DoesAll world.old script.now None world.new (K.writes out.old) (K.writes out.new)) }
    ensures counts { IfOk result (λ counts. AreCountsOf world.old script.now counts) }
    ensures refused { (line : ℕ) (fault : LineFault) → IsErrOf result (Refused line fault)
        → DoesAll world.old script.now (Some (line, fault_number fault)) world.new (K.writes out.old) (K.writes out.new) }
    ensures cut { IsErrOf result WriteFault → StopsInLine world.old script.now world.new (K.writes out.old) (K.writes out.new) }
    ensures fault { IsErrOf result WriteFault → WriteFails (K.writes out.old) (K.writes out.new) }
    ensures early { IsErrOf result NoMemory → StopsEarly world.old script.now world.new (K.writes out.old) (K.writes out.new) }
    ensures counted { (K.writes out.old).faults ≤ (K.writes out.new).faults }

    // A script comes to one thing alone, and what an `ask` delivers comes to an end.
    ensures one { IsDetermined world.old script.now }

    // Whatever it does, services that fit their journals and agree on what went between them do so still.
    ensures sound { KeepsSound world.old world.new }
{
    if is_long(script) {
        return Err(ScriptRefused::Refused(0, LineFault::TooLong));
    }
    let mut left = script;
    let mut number = 0;
    let mut counts = Counts::none();
    while let Some((bytes, more)) = next_line(left) {
        number += 1;
        let said = match play_line(alloc, world, bytes)? {
            Ok(said) => said,
            Err(fault) => return Err(ScriptRefused::Refused(number, fault)),
        };
        write_all(out, said.text.as_bytes())?;
        counts = counts.and(said.counts);
        left = more;
    }
    Ok(counts)
}
