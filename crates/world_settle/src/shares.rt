// A service's share of a round, and a round.
ghost use Rattle.std.specs.Prelude.{◌≡◌, IfOk, OnErr, OnOk, map};
ghost use Rattle.service_events.specs.State.{me};
ghost use Rattle.world_settle.specs.Doing.{Does, DoesFirst};
ghost use Rattle.world_settle.specs.Settles.{PostsTo, others, EachInOrder, IsPosting, IsRound, IsShare};

use crate::exchanges::post_all;
use crate::steps::step_until_idle;
use crate::tally::Tally;
use lang_core::{Copied, Name, Names, NoMemory, Same};
use std::alloc::Global;
use world_core::{Service, World};

// The service posts to this one, unless it is itself.
#[tactic(auto, using(crate::proofs::Parts::posts_to_itself, crate::proofs::Parts::posts_to_other, crate::proofs::Parts::posts_to_first, crate::proofs::EventLemmas::on_err))]
fn post_to(
    alloc: Global,
    world: &mut World,
    name: &Name,
    other: &Name,
    tally: &mut Tally,
) -> Result<(), NoMemory>
    ensures does { OnOk result (Does world.old (PostsTo name.now other.now) tally.old tally.new world.new) }
    ensures early { OnErr result (DoesFirst world.old (PostsTo name.now other.now) world.new) }
{
    if other.is(name) {
        Ok(())
    } else {
        post_all(alloc, world, name, other, tally)?;
        Ok(())
    }
}

// The service posts to each other one, in order.
#[tactic(auto, using(crate::proofs::Parts::posts_none, crate::proofs::Parts::posts_on, crate::proofs::Parts::posts_within, crate::proofs::Parts::posts_done, crate::proofs::EventLemmas::on_err))]
fn post_to_others(
    alloc: Global,
    world: &mut World,
    names: &[Name],
    name: &Name,
    tally: &mut Tally,
) -> Result<(), NoMemory>
    ensures does { OnOk result (Does world.old (EachInOrder (IsPosting name.now) (others name.now names.now)) tally.old tally.new world.new) }
    ensures early { OnErr result (DoesFirst world.old (EachInOrder (IsPosting name.now) (others name.now names.now)) world.new) }
{
    for other in names {
        post_to(alloc, world, name, other, tally)?;
    }
    Ok(())
}

// The service steps until it is idle, and then posts to each other one.
#[tactic(auto, using(crate::proofs::Parts::share_does, crate::proofs::Parts::share_steps, crate::proofs::Parts::share_posts, crate::proofs::EventLemmas::on_err))]
fn share(
    alloc: Global,
    world: &mut World,
    names: &[Name],
    name: &Name,
    tally: &mut Tally,
) -> Result<(), NoMemory>
    ensures does { OnOk result (Does world.old (IsShare names.now name.now) tally.old tally.new world.new) }
    ensures early { OnErr result (DoesFirst world.old (IsShare names.now name.now) world.new) }
{
    step_until_idle(alloc, world, name, tally)?;
    post_to_others(alloc, world, names, name, tally)?;
    Ok(())
}

// Each of the services of these names does its share.
#[tactic(auto, using(crate::proofs::Parts::shares_none, crate::proofs::Parts::each_on, crate::proofs::Parts::shares_within, crate::proofs::Parts::each_done, crate::proofs::EventLemmas::on_err))]
fn shares(
    alloc: Global,
    world: &mut World,
    names: &[Name],
    tally: &mut Tally,
) -> Result<(), NoMemory>
    ensures does { OnOk result (Does world.old (EachInOrder (IsShare names.now) names.now) tally.old tally.new world.new) }
    ensures early { OnErr result (DoesFirst world.old (EachInOrder (IsShare names.now) names.now) world.new) }
{
    for name in names {
        share(alloc, world, names, name, tally)?;
    }
    Ok(())
}

/// The names of services, in order.
pub fn names_of(alloc: Global, services: &[Service]) -> Result<Names, NoMemory>
    ensures { IfOk result (λ names. names ≡ map me services.now) }
{
    let mut names = Names::new(alloc);
    for service in services {
        names.push(service.setting().me.copied(alloc)?)?;
    }
    Ok(names)
}

/// Each service does its share.
#[tactic(auto, using(crate::proofs::Parts::round_first, crate::proofs::Parts::round_does, crate::proofs::Parts::round_within, crate::proofs::EventLemmas::on_err))]
pub(crate) fn round(alloc: Global, world: &mut World, tally: &mut Tally) -> Result<(), NoMemory>
    ensures does { OnOk result (Does world.old IsRound tally.old tally.new world.new) }
    ensures early { OnErr result (DoesFirst world.old IsRound world.new) }
{
    let names = names_of(alloc, world.services())?;
    shares(alloc, world, names.as_slice(), tally)?;
    Ok(())
}
