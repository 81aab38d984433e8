// What a line does, and what it says.
ghost use Rattle.std.specs.Prelude.{◌≡◌, [], Ok, IfOk, OnErr};
ghost use Rattle.script_run.specs.Counting.{printed};
ghost use Rattle.script_run.specs.Plays.{AreEventsOf, Says};
ghost use Rattle.script_run.specs.Stops.{Does, DoesFirst};

use crate::asking::ask;
use crate::counts::Said;
use crate::giving::given;
use crate::previews::{previewed, rehearsed};
use crate::printed::Printed;
use crate::reports::{changed, dump, log, notices, programs, rows, verdict_over};
use crate::settling::settle_all;
use crate::telling::happen;
use lang_core::NoMemory;
use script_lines::{Line, LineFault};
use std::alloc::Global;
use world_settle::World;

// A line that prints nothing.
fn silent(alloc: Global) -> Result<Result<Said, LineFault>, NoMemory>
    ensures { IfOk result (λ said. said ≡ Ok (printed [])) }
{
    Ok(Ok(Said::printed(Printed::line(String::new(alloc)))))
}

/// Does what a line says, and answers what it prints and counts, or which of the things that it names isn't there. For want
/// of memory some first of its events happened, and nothing is printed.
#[tactic(auto, using(crate::proofs::Following::does_nothing))]
pub fn act(
    alloc: Global,
    world: &mut World,
    line: Line,
) -> Result<Result<Said, LineFault>, NoMemory>
    ensures does { IfOk result (λ said. Does world.old (AreEventsOf world.old line) (Says world.old line) said world.new) }
    ensures early { OnErr result (DoesFirst world.old (AreEventsOf world.old line) world.new) }
{
    match line {
        Line::Blank => silent(alloc),
        Line::Event(event) => happen(alloc, world, event),
        Line::Given {
            service,
            order,
            token,
            who,
            text,
        } => given(alloc, world, service, order, token, who, &text),
        Line::Ask { service, request } => ask(alloc, world, service, request),
        Line::Settle(rounds) => settle_all(alloc, world, rounds),
        Line::Rows { service } => rows(alloc, world, &service),
        Line::Log { service } => log(alloc, world, &service),
        Line::Notices { service } => notices(alloc, world, &service),
        Line::Preview { service, id, who } => previewed(alloc, world, &service, id, &who),
        Line::Programs { service } => programs(alloc, world, &service),
        Line::Changed { service } => changed(alloc, world, &service),
        Line::Rehearse {
            service,
            number,
            who,
            text,
        } => rehearsed(alloc, world, &service, number, &who, &text),
        Line::Dump => dump(alloc, world),
        Line::Audit => verdict_over(alloc, world),
    }
}
