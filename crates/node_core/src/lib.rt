//! Nodes: services behind locks, the passes of workers that make events of them, the receipts of what was answered, and the
//! notes of operators' orders.
//!
//! Two ledgers stand behind all nodes of a run, one of rows and one of what is kept of them. Each node has a share of the
//! first, whose amount is the number of live requests that its service's journal answers since the node was opened, with that
//! of the orders that it got since. Each pass has a share of the second, whose amount is the number of its receipts and notes
//! of orders. Both totals are equal, so when all nodes and passes are back there are as many receipts as answers of that time,
//! and as many notes as orders.
#![tactic(auto)]

mod closing;
mod events;
mod flying;
mod memos;
mod nodes;
mod noted;
mod notes;
mod noting;
mod orders;
mod pass;
mod receipt;
mod receipts;
mod state;
mod tally;
mod twice;
mod waiting;

pub use closing::{CloseRefused, Closed, close};
pub use events::event;
pub use nodes::{Node, Nodes, Opened};
pub use notes::{Begun, Gave, LastGave, Notes, Posting, Turn};
pub use orders::{OrderNote, OrderNotes};
pub use pass::Pass;
pub use receipt::Receipt;
pub use repair_messages::RefusalWord as TurnWord;
pub use service_events::{Done as NodeDone, Event as NodeEvent};
pub use state::{NodeState, OwnFolds};
pub use tally::Tally;
