// What serves each service: its node, its setup, and how its peers are reached.
ghost use Rattle.std.specs.Prelude.{◌≡◌, ◌<◌, ◌++◌, ◌∷◌, [], All, IfOk, OnOk, find, length, map, slice_get, vec_len, Some};
ghost use Rattle.std.specs.Option.{option_copied};
ghost use Rattle.node_run.specs.Peers.{door_of, has_name, names_of, node_at, secret_of, setup_at, IsToldBy, KnowsPeers};

use lang_core::{Copied, Name, NoMemory, Same};
use node_core::Nodes;
use node_workers::{Desk, Doors};
use std::alloc::Global;
use std::sync::ledger::Ledger;
use wire_fields::Secrets;
use world_file::Setup;

fn has_name(setup: &Setup, name: &Name) -> bool
    ensures { result ≡ has_name name.now setup.now }
{
    setup.setting.me.text().is(name.text())
}

/// The setup of this name, the first where there are several; None exactly where there is none.
pub(crate) fn setup_of<'a>(known: &'a [Setup], name: &Name) -> Option<&'a Setup>
    ensures { option_copied result ≡ find (has_name name.now) known.now }
{
    known.iter().find(|setup| has_name(setup, name))
}

// Adds the door and the secret of a peer, which is one of the services that are known.
fn add_peer(
    alloc: Global,
    known: &[Setup],
    peer: &Name,
    doors: &mut Doors,
    secrets: &mut Secrets,
) -> Result<(), NoMemory>
    ensures doors { OnOk result (names_of doors.new ≡ names_of doors.old ++ peer.now ∷ []) }
    ensures secrets { OnOk result (names_of secrets.new ≡ names_of secrets.old ++ peer.now ∷ []) }
    ensures told_doors { OnOk result (All (IsToldBy door_of known.now) doors.old → All (IsToldBy door_of known.now) doors.new) }
    ensures told_secrets { OnOk result (All (IsToldBy secret_of known.now) secrets.old → All (IsToldBy secret_of known.now) secrets.new) }
{
    let Some(setup) = setup_of(known, peer) else {
        return Err(NoMemory);
    };
    let door = doors.add(peer.copied(alloc)?, setup.door.copied(alloc)?)?;
    let secret = secrets.add(peer.copied(alloc)?, setup.secret.copied(alloc)?)?;
    if door && secret {
        Ok(())
    } else {
        Err(NoMemory)
    }
}

// The doors and the secrets of these peers.
fn peers_of(alloc: Global, known: &[Setup], peers: &[Name]) -> Result<(Doors, Secrets), NoMemory>
    ensures names { IfOk result (λ both. (names_of both.0 ≡ peers.now) × (names_of both.1 ≡ peers.now)) }
    ensures told { IfOk result (λ both. All (IsToldBy door_of known.now) both.0 × All (IsToldBy secret_of known.now) both.1) }
{
    let mut doors = Doors::new(alloc);
    let mut secrets = Secrets::new(alloc);
    for peer in peers {
        add_peer(alloc, known, peer, &mut doors, &mut secrets)?;
    }
    Ok((doors, secrets))
}

// The desk of the service at this place.
fn desk_at<'a, R: Ledger, Q: Ledger>(
    alloc: Global,
    here: &'a [Setup],
    known: &[Setup],
    nodes: &'a Nodes<R, Q>,
    place: usize,
) -> Result<Desk<'a, R, Q>, NoMemory>
    requires node { place < vec_len nodes.now.nodes }
    requires setup { place < length here.now }
    ensures node { IfOk result (λ desk. slice_get nodes.now.nodes.items place ≡ Some (node_at desk)) }
    ensures setup { IfOk result (λ desk. slice_get here.now place ≡ Some (setup_at desk)) }
    ensures peers { IfOk result (KnowsPeers known.now) }
{
    let setup = &here[place];
    let (doors, secrets) = peers_of(alloc, known, setup.setting.peers.as_slice())?;
    Ok(Desk {
        tally: &nodes.tally,
        node: &nodes.nodes[place],
        setup,
        doors,
        secrets,
    })
}

/// A desk for each service that runs here, in order, with its node and its setup. The doors and the secrets of its peers are those of the
/// setups that are known.
#[tactic(auto, using(crate::proofs::DeskLemmas::nodes_more, crate::proofs::DeskLemmas::setups_more, crate::proofs::DeskLemmas::peers_more))]
pub fn desks_of<'a, R: Ledger, Q: Ledger>(
    alloc: Global,
    here: &'a [Setup],
    known: &[Setup],
    nodes: &'a Nodes<R, Q>,
) -> Result<Vec<Desk<'a, R, Q>>, NoMemory>
    requires { vec_len nodes.now.nodes ≡ length here.now }
    ensures len { IfOk result (λ desks. vec_len desks ≡ length here.now) }
    ensures nodes { IfOk result (λ desks. map node_at desks.items ≡ nodes.now.nodes.items) }
    ensures setups { IfOk result (λ desks. map setup_at desks.items ≡ here.now) }
    ensures peers { IfOk result (λ desks. All (KnowsPeers known.now) desks.items) }
{
    let mut desks = Vec::with_capacity(alloc, here.len())?;
    for place in 0..here.len() {
        desks.push(desk_at(alloc, here, known, nodes, place)?)?;
    }
    Ok(desks)
}
