// What the workers of a run share.
use crate::last::LastCell;
use io_edge::Connection;
use io_links::Ear;
use node_core::{Node, Nodes};
use node_workers::Desk;
use std::sync::Wait;
use std::sync::ledger::Ledger;
use world_file::Setup;

/// What all workers of a run share.
#[derive(Drop)]
pub struct Shared<'a, R: Ledger, Q: Ledger, C: Connection, D, G> {
    /// The setups of the services that run here.
    pub here: &'a [Setup],
    pub nodes: &'a Nodes<R, Q>,
    pub desks: Vec<Desk<'a, R, Q>>,
    /// Where inputs are drawn.
    pub drawing: &'a D,
    pub gate: &'a G,
    /// Where the last connection goes.
    pub last: LastCell<C>,
}

/// Whether the node is to stop.
pub fn is_stopped<R: Ledger>(rt: &impl Wait, node: &Node<R>) -> bool {
    node.state.lock(rt).stopped()
}

// All nodes are to stop, and who rests at one is told.
fn stop_nodes<R: Ledger>(rt: &impl Wait, nodes: &[Node<R>]) {
    for node in nodes {
        node.state.lock(rt).stop();
        node.work.notify_all();
    }
}

/// All workers are to stop, and who waits at a node, for a connection or on one is told.
pub fn stop_all<R: Ledger, E: Ear>(rt: &impl Wait, nodes: &[Node<R>], ears: &[E]) {
    stop_nodes(rt, nodes);
    for ear in ears {
        ear.close();
    }
}
