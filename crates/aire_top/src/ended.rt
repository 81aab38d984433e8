// How a command ended.
use io_edge::Connection;
use journal_rows::Verdict;
use node_run::{Last, Receipt};
use script_run::Service;

/// How a command ended: its status, its services and the verdict over them, a receipt for each live request that they answered
/// over connections of this type, and the connection on which an operator asked to stop. A command that serves nobody has
/// neither of the last two.
#[derive(Drop)]
pub struct Ended<C: Connection> {
    pub status: u8,
    pub services: Vec<Service>,
    pub verdict: Option<Verdict>,
    pub receipts: Vec<Receipt>,
    pub last: Option<Last<C>>,
}
