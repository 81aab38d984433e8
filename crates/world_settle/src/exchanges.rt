// A service exchanges its posts with another one.
ghost use Rattle.std.specs.Prelude.{◌≡◌, ◌≢◌, IfOk, IfSome, OnErr, OnOk};
ghost use Rattle.service_events.specs.Fits.{Fits};
ghost use Rattle.world_agreement.specs.Partners.{service_of};
ghost use Rattle.world_events.specs.declared.event.Event.{Event};
ghost use Rattle.world_settle.specs.Doing.{Comes, Delivers, Does, DoesFirst, Exchanges};
ghost use Rattle.world_settle.specs.Settles.{IsDelivered, IsExchange, IsPosting};

use crate::came::Came;
use crate::happening::happen;
use crate::tally::Tally;
use lang_base::both;
use lang_core::{Copied, Name, NoMemory};
use std::alloc::Global;
use world_core::{Event, World};

// What the service of this name keeps fits its journal, which its type keeps.
fn fits_there(world: &World, name: &Name)
    ensures { IfSome (service_of name.now world.now.services) Fits }
{
    if let Some(service) = world.service(name) {
        let _journal = service.journal();
    }
}

// What comes back of a post, if anything does, is delivered; whether its sender is done with it.
#[tactic(auto, using(crate::proofs::Telling::delivers_back_none, crate::proofs::Telling::delivers_back, crate::proofs::Telling::delivers_back_first, crate::proofs::EventLemmas::on_err))]
fn deliver_back(
    alloc: Global,
    world: &mut World,
    packet: Option<u64>,
    tally: &mut Tally,
) -> Result<bool, NoMemory>
    ensures does { IfOk result (λ done. Delivers world.old 1 packet tally.old tally.new done world.new) }
    ensures early { OnErr result (DoesFirst world.old (λ w events. IsDelivered 1 w packet events) world.new) }
{
    match packet {
        None => Ok(false),
        Some(number) => {
            let came = happen(alloc, world, Event::Deliver(number), tally)?;
            Ok(came.is_done)
        }
    }
}

// A post, if one was written, is delivered, and so is what comes back of it; whether its sender is done with it.
#[tactic(auto, using(crate::proofs::Telling::delivers_none, crate::proofs::Telling::delivers_on, crate::proofs::Telling::delivers_within, crate::proofs::Telling::delivers_first, crate::proofs::EventLemmas::on_err))]
fn deliver(
    alloc: Global,
    world: &mut World,
    packet: Option<u64>,
    tally: &mut Tally,
) -> Result<bool, NoMemory>
    ensures does { IfOk result (λ done. Delivers world.old 2 packet tally.old tally.new done world.new) }
    ensures early { OnErr result (DoesFirst world.old (λ w events. IsDelivered 2 w packet events) world.new) }
{
    match packet {
        None => Ok(false),
        Some(number) => {
            let came = happen(alloc, world, Event::Deliver(number), tally)?;
            let done = deliver_back(alloc, world, came.packet, tally)?;
            Ok(came.is_done || done)
        }
    }
}

// The next post, if there is one, is written.
fn post(
    alloc: Global,
    world: &mut World,
    from: &Name,
    to: &Name,
    tally: &mut Tally,
) -> Result<Came, NoMemory>
    ensures comes { IfOk result (λ came. Comes world.old (Event.Post from.now to.now) tally.old tally.new came world.new) }
    ensures early { OnErr result (world.new ≡ world.old) }
{
    let (from, to) = both(from.copied(alloc), to.copied(alloc))?;
    happen(alloc, world, Event::Post { from, to }, tally)
}

// The next post, if there is one, is written and delivered, and so is what comes back of it; whether its sender is done with
// it, and the next one follows.
#[tactic(auto, using(crate::proofs::Telling::exchanges, crate::proofs::Telling::exchange_within, crate::proofs::Telling::exchange_first, crate::proofs::EventLemmas::on_err))]
fn exchange(
    alloc: Global,
    world: &mut World,
    from: &Name,
    to: &Name,
    tally: &mut Tally,
) -> Result<bool, NoMemory>
    requires apart { from.now ≢ to.now }
    ensures does { IfOk result (λ more. Exchanges world.old from.now to.now tally.old tally.new more world.new) }
    ensures early { OnErr result (DoesFirst world.old (IsExchange from.now to.now) world.new) }
{
    fits_there(world, from);
    let came = post(alloc, world, from, to, tally)?;
    let done = deliver(alloc, world, came.packet, tally)?;
    Ok(came.is_done || done)
}

/// Posts are written, delivered and answered, until there is none or one was left.
#[tactic(auto, using(crate::proofs::Parts::posting_none, crate::proofs::Parts::posting_on, crate::proofs::Parts::posting_done, crate::proofs::Parts::posting_within, crate::proofs::Parts::posts_fall, crate::proofs::EventLemmas::on_err))]
pub(crate) fn post_all(
    alloc: Global,
    world: &mut World,
    from: &Name,
    to: &Name,
    tally: &mut Tally,
) -> Result<(), NoMemory>
    requires apart { from.now ≢ to.now }
    ensures does { OnOk result (Does world.old (IsPosting from.now to.now) tally.old tally.new world.new) }
    ensures early { OnErr result (DoesFirst world.old (IsPosting from.now to.now) world.new) }
{
    let mut more = true;
    while more {
        more = exchange(alloc, world, from, to, tally)?;
    }
    Ok(())
}
