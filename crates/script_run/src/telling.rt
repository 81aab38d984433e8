// Events, and the lines that are printed of them.
ghost use Rattle.std.specs.Prelude.{◌≡◌, ◌<◌, ◌^◌, ◌∷◌, [], All, IfOk, OnOk, OnErr, Some, length};
ghost use Rattle.script_text.specs.Happenings.{journal_of};
ghost use Rattle.world_events.specs.Events.{after_event, answer_to};
ghost use Rattle.world_events.specs.Sound.{AreFew};
ghost use Rattle.service_events.specs.State.{Kept};
ghost use Rattle.script_run.specs.Told.{event_counts, events_said, fault_of, happened_or, is_accepted, is_cancel, line_of, saying};
ghost use Rattle.script_run.specs.Stops.{Does, DoesFirst};

use crate::counts::{Counts, Said};
use crate::printed::Printed;
use journal_rows::{Command, Row};
use lang_core::{Name, NoMemory};
use script_lines::LineFault;
use script_text::{Detail, happened_line};
use std::alloc::Global;
use world_settle::{Event, Happened, Service, What, World, WorldStepRefused, world_step};

// What an event names that isn't there.
fn fault_of(why: WorldStepRefused) -> LineFault
    ensures { result ≡ fault_of why }
{
    match why {
        WorldStepRefused::NoPacket(_) => LineFault::Packet,
        WorldStepRefused::NoFlight(_) => LineFault::Flight,
        WorldStepRefused::NoService | WorldStepRefused::NoMemory => LineFault::Service,
    }
}

// Each journal has fewer rows than a number of 64 bits counts.
fn counted(services: &[Service])
    ensures { All (λ (s : Kept). length s.journal < 2 ^ 64) services.now }
{
    for service in services {
        let _journal = service.journal();
    }
}

/// An event happens, or names something that isn't there. For want of memory the world is as before.
pub fn step(
    alloc: Global,
    world: &mut World,
    event: Event,
) -> Result<Result<Happened, LineFault>, NoMemory>
    ensures heard { IfOk result (λ heard. heard ≡ happened_or (answer_to world.old event)) }
    ensures after { OnOk result (world.new ≡ after_event world.old event) }
    ensures few { OnOk result (AreFew world.new) }
    ensures early { OnErr result (world.new ≡ world.old) }
{
    let answer = world_step(alloc, world, event);
    counted(world.services());
    match answer {
        Ok(happened) => Ok(Ok(happened)),
        Err(WorldStepRefused::NoMemory) => Err(NoMemory),
        Err(why) => Ok(Err(fault_of(why))),
    }
}

fn journal_of<'a>(world: &'a World, service: &Option<Name>) -> &'a [Row]
    ensures { result.now ≡ journal_of service.now world.now }
{
    let Some(name) = service else {
        return &[];
    };
    match world.service(name) {
        Some(service) => service.journal().as_slice(),
        None => &[],
    }
}

/// The line of what happened last, where the event was told this.
pub fn tell(
    alloc: Global,
    world: &World,
    detail: &Detail,
    happened: &Happened,
) -> Result<Printed, NoMemory>
    ensures { IfOk result (λ text. text ≡ line_of world.now (Some (detail.now, happened.now))) }
{
    let rows = journal_of(world, &happened.service);
    let line = happened_line(alloc, world.packets(), rows, detail, happened)?;
    Ok(Printed::line(line))
}

// An order to cancel an entry.
fn is_cancel(event: &Event) -> bool
    ensures { result ≡ is_cancel event.now }
{
    match event {
        Event::Order {
            command: Command::Cancel(_),
            ..
        } => true,
        _ => false,
    }
}

// An order was accepted.
fn is_accepted(what: What) -> bool
    ensures { result ≡ is_accepted what }
{
    match what {
        What::Order(Ok(_)) => true,
        _ => false,
    }
}

// What a line counts that orders to cancel, or doesn't.
fn event_counts(cancels: bool, what: What) -> Counts
    ensures { result ≡ event_counts cancels what }
{
    let mut counts = Counts::of_line();
    if cancels && is_accepted(what) {
        counts.cancelled = 1;
    }
    counts
}

/// A line of one event. For want of memory it happened or it didn't, and nothing is said.
pub fn happen(
    alloc: Global,
    world: &mut World,
    event: Event,
) -> Result<Result<Said, LineFault>, NoMemory>
    ensures does { IfOk result (λ said. Does world.old (λ events. events ≡ event ∷ []) (saying (events_said world.old)) said world.new) }
    ensures early { OnErr result (DoesFirst world.old (λ events. events ≡ event ∷ []) world.new) }
{
    let detail = Detail::of(alloc, &event)?;
    let cancels = is_cancel(&event);
    match step(alloc, world, event)? {
        Ok(happened) => {
            let counts = event_counts(cancels, happened.what);
            let text = tell(alloc, world, &detail, &happened)?;
            Ok(Ok(Said { text, counts }))
        }
        Err(fault) => Ok(Err(fault)),
    }
}
