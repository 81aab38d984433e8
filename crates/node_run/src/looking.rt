// The verdict over services that are being served.
ghost use Rattle.std.specs.Prelude.{◌≡◌, ◌++◌, ◌∷◌, [], IfOk, OnOk, map};
ghost use Rattle.world_file.specs.Worlds.{name_of};
ghost use Rattle.node_run.specs.Looking.{IsLiveVerdict, SaysVerdict};

use crate::judging::judge;
use crate::same::are_set_so;
use lang_core::{Copied, Names, NoMemory, Text};
use node_core::Node;
use report_text::verdict_text;
use service_core::Service;
use std::alloc::Global;
use std::cmp::Ordering;
use std::sync::Wait;
use std::sync::ledger::Ledger;
use world_file::Setup;

// How many services have lesser names.
fn rank_of(here: &[Setup], setup: &Setup) -> usize {
    let name = setup.setting.me.text();
    let lesser = |other: &&Setup| other.setting.me.text().order(name) == Ordering::Less;
    here.iter().filter(lesser).count()
}

// The node whose service's name comes so far in the order of names.
fn node_of_rank<'a, R: Ledger>(
    here: &[Setup],
    nodes: &'a [Node<R>],
    rank: usize,
) -> Option<&'a Node<R>> {
    let place = here.iter().position(|setup| rank_of(here, setup) == rank)?;
    nodes.get(place)
}

// Adds a copy of a service that its guard lends.
fn add_copy(alloc: Global, copies: &mut Vec<Service>, lent: &Service) -> Result<(), NoMemory>
    ensures { OnOk result (copies.new.items ≡ copies.old.items ++ lent.now ∷ []) }
{
    copies.push(lent.copied(alloc)?)?;
    Ok(())
}

// Copies of all services as they are at one moment. The locks are taken in the order of names, as everybody does who takes
// several, so nobody waits for one that waits for him. What a lock guards is told to no contract before it is taken: so none says
// that these are the nodes' services, and `add_copy` says that each is the one that is lent to it.
fn copies<R: Ledger, W: Wait>(
    rt: &W,
    alloc: Global,
    here: &[Setup],
    nodes: &[Node<R>],
) -> Result<Vec<Service>, NoMemory> {
    let mut held = Vec::with_capacity(alloc, here.len())?;
    for rank in 0..here.len() {
        let Some(node) = node_of_rank(here, nodes, rank) else {
            return Err(NoMemory);
        };
        held.push(node.state.lock(rt))?;
    }
    let mut copies = Vec::with_capacity(alloc, here.len())?;
    for setup in here {
        let Some(state) = held.get(rank_of(here, setup)) else {
            return Err(NoMemory);
        };
        add_copy(alloc, &mut copies, state.service())?;
    }
    Ok(copies)
}

fn names_of(alloc: Global, here: &[Setup]) -> Result<Names, NoMemory>
    ensures { IfOk result (λ names. names ≡ map name_of here.now) }
{
    let mut names = Names::new(alloc);
    for setup in here {
        names.push(setup.setting.me.copied(alloc)?)?;
    }
    Ok(names)
}

// The line of the verdict over services, if they are those of the setups.
#[tactic(auto, using(crate::proofs::EndingLemmas::live_line, crate::proofs::EndingLemmas::over_names))]
fn verdict_over(alloc: Global, here: &[Setup], services: &[Service]) -> Result<Text, NoMemory>
    ensures { IfOk result (SaysVerdict here.now services.now) }
{
    if !are_set_so(alloc, services, here)? {
        return Err(NoMemory);
    }
    let names = names_of(alloc, here)?;
    verdict_text(alloc, &names, &judge(services))
}

/// The line of the verdict over all services that run here, as they are at one moment.
#[tactic(auto, using(crate::proofs::EndingLemmas::said_live))]
pub fn verdict_now<R: Ledger, W: Wait>(
    rt: &W,
    alloc: Global,
    here: &[Setup],
    nodes: &[Node<R>],
) -> Result<Text, NoMemory>
    ensures { IfOk result (λ line. IsLiveVerdict here.now line) }
{
    let services = copies(rt, alloc, here, nodes)?;
    verdict_over(alloc, here, &services)
}
