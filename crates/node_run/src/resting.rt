// How workers wait at a node until there is something to do.
use lang_core::Name;
use node_core::{Node, NodeState};
use node_workers::{FoldDue, fold_due};
use std::sync::ledger::Ledger;
use std::sync::{CondvarTimeouts, Wait};
use std::time::{Clock, Duration};

/// The longest that a worker rests without a look at its node, in milliseconds. It is told of all that happens there, so it
/// looks only to be sure.
const REST: u64 = 1_000;

/// How long a worker waits before it tries again what failed, in milliseconds.
const PAUSE: u64 = 250;

fn has_stale<R: Ledger>(state: &NodeState<R>) -> bool {
    state.service().first_stale().is_some()
}

// Whether a fold is to be ordered. That one waits is noted by who asks for it, and is nothing to do.
fn has_fold<R: Ledger>(state: &NodeState<R>, keep: Option<u64>) -> bool {
    matches!(fold_due(state, keep), FoldDue::UpTo(_))
}

fn has_post<R: Ledger>(state: &NodeState<R>, peers: &[Name]) -> bool {
    let service = state.service();
    peers.iter().any(|peer| service.next_post(peer).is_some())
}

/// Rests until an entry is stale, a service that keeps so many entries is to fold, the node is to stop, or a second is over.
pub fn rest_from_repair<R: Ledger, W: Wait + Clock>(rt: &W, node: &Node<R>, keep: Option<u64>) {
    let state = node.state.lock(rt);
    let longest = Duration::from_millis(REST);
    let rests = |state: &mut NodeState<R>| {
        !state.stopped() && !has_stale(state) && !has_fold(state, keep)
    };
    let _ = node.work.wait_timeout_while(rt, state, longest, rests);
}

/// Rests until something is to be posted to one of these, the node is to stop, or a second is over.
pub fn rest_from_posts<R: Ledger, W: Wait + Clock>(rt: &W, node: &Node<R>, peers: &[Name]) {
    let state = node.state.lock(rt);
    let longest = Duration::from_millis(REST);
    let rests = |state: &mut NodeState<R>| !state.stopped() && !has_post(state, peers);
    let _ = node.work.wait_timeout_while(rt, state, longest, rests);
}

/// Waits a quarter of a second, unless the node is to stop.
pub fn pause<R: Ledger, W: Wait + Clock>(rt: &W, node: &Node<R>) {
    let state = node.state.lock(rt);
    let longest = Duration::from_millis(PAUSE);
    let rests = |state: &mut NodeState<R>| !state.stopped();
    let _ = node.work.wait_timeout_while(rt, state, longest, rests);
}
