// A request, and the deliveries that follow it.
ghost use Rattle.std.specs.Prelude.{IfOk, OnErr, OnOk, Some};
ghost use Rattle.world_laws.specs.InHand.{IsInHand};
ghost use Rattle.world_laws.specs.Runs.{IsAsking, IsRun};
ghost use Rattle.script_run.specs.Told.{events_said, saying};
ghost use Rattle.script_run.specs.Stops.{Does, DoesFirst};
ghost use Rattle.script_run.specs.Deliveries.{Delivers};

use crate::counts::Said;
use crate::telling::{step, tell};
use lang_core::{Name, NoMemory, Request};
use script_lines::LineFault;
use script_text::Detail;
use std::alloc::Global;
use world_settle::{Event, Happened, World};

// Delivers what is in hand, and what that writes, until nothing is written. What happened first, and what its event was told,
// become what happened last.
fn follow(
    alloc: Global,
    world: &mut World,
    detail: &mut Detail,
    happened: &mut Happened,
) -> Result<(), NoMemory>
    requires { IsInHand world.old happened.old.packet }
    ensures run { OnOk result (Delivers world.old happened.old.packet (Some (detail.old, happened.old)) (Some (detail.new, happened.new)) world.new) }
    ensures early { OnErr result (DoesFirst world.old (IsRun world.old happened.old.packet) world.new) }
{
    let mut next = happened.packet;
    while let Some(number) = next {
        match step(alloc, world, Event::Deliver(number))? {
            Ok(came) => {
                next = came.packet;
                *detail = Detail::Packet(number);
                *happened = came;
            }
            Err(_) => next = None,
        }
    }
    Ok(())
}

/// A request comes from outside, and what is written of it is delivered until nothing is. Only what happened last is
/// told. For want of memory some first of these events happened, and nothing is said.
pub fn ask(
    alloc: Global,
    world: &mut World,
    service: Name,
    request: Request,
) -> Result<Result<Said, LineFault>, NoMemory>
    ensures does { IfOk result (λ said. Does world.old (IsAsking world.old service request) (saying (events_said world.old)) said world.new) }
    ensures early { OnErr result (DoesFirst world.old (IsAsking world.old service request) world.new) }
{
    match step(alloc, world, Event::Begin { service, request })? {
        Ok(mut happened) => {
            let mut detail = Detail::Nothing;
            follow(alloc, world, &mut detail, &mut happened)?;
            let text = tell(alloc, world, &detail, &happened)?;
            Ok(Ok(Said::printed(text)))
        }
        Err(fault) => Ok(Err(fault)),
    }
}
