// A line that lets all services settle.
ghost use Rattle.std.specs.Prelude.{◌≡◌, IfOk, OnErr};
ghost use Rattle.world_settle.specs.Doing.{AreOfSettling};
ghost use Rattle.script_run.specs.Settling.{SaysSettled, settled_counts, settled_text};
ghost use Rattle.script_run.specs.Stops.{Does, DoesFirst};

use crate::counts::{Counts, Said};
use crate::printed::Printed;
use lang_core::NoMemory;
use script_lines::LineFault;
use std::alloc::Global;
use world_settle::{Settled, World, settle};

fn settled_text(alloc: Global, settled: Settled) -> Result<Printed, NoMemory>
    ensures { IfOk result (λ text. text ≡ settled_text settled) }
{
    let rounds = settled.rounds;
    let runs = settled.runs;
    let posts = settled.posts;
    let mut line = String::new(alloc);
    write!(line, "settled {rounds} {runs} {posts}\n")?;
    Ok(Printed::line(line))
}

fn settled_counts(settled: Settled) -> Counts
    ensures { result ≡ settled_counts settled }
{
    let mut counts = Counts::of_line();
    counts.rounds = settled.rounds;
    counts.runs = settled.runs;
    counts.posts = settled.posts;
    counts
}

/// At most so many rounds of repair at all services: the rounds that did something, the runs and the posts. For want of memory
/// some first of their events happened, and nothing is said.
pub fn settle_all(
    alloc: Global,
    world: &mut World,
    rounds: u64,
) -> Result<Result<Said, LineFault>, NoMemory>
    ensures does { IfOk result (λ said. Does world.old (AreOfSettling rounds world.old) (SaysSettled rounds world.old) said world.new) }
    ensures early { OnErr result (DoesFirst world.old (AreOfSettling rounds world.old) world.new) }
{
    let settled = settle(alloc, world, rounds)?;
    let text = settled_text(alloc, settled)?;
    let counts = settled_counts(settled);
    Ok(Ok(Said { text, counts }))
}
