// A node whose lock is held, where operators' orders are made.
ghost use Rattle.std.specs.Prelude.{◌≡◌, IfOk};
ghost use Rattle.node_workers.specs.Held.{service_at, waits_at, AnswersAs, IsOrderAnswer, OrdersThere};

use crate::turns::fits;
use admin_console::{Orders, Service};
use journal_rows::Command;
use lang_core::{Inputs, NoMemory, Text};
use node_core::{NodeDone, NodeEvent, NodeState, Pass, Tally, event};
use repair_messages::Refusal;
use service_events::{OrderRefused, Ordered};
use std::alloc::Global;
use std::sync::Wait;
use std::sync::ledger::Ledger;

/// A node whose lock is held, and the pass of the worker who holds it. To an operator it is where one service is, and where orders
/// of that service are made, each as one event of this pass.
pub(crate) struct HeldNode<'a, R: Ledger, Q: Ledger, W> {
    pub state: &'a mut NodeState<R>,
    pub pass: &'a mut Pass<Q>,
    pub rt: &'a W,
    pub tally: &'a Tally<R, Q>,
}

// What is lent goes back as it stands.
impl<'a, R: Ledger, Q: Ledger, W> Drop for HeldNode<'a, R, Q, W> {
    fn drop(self)
        ensures state { self.exit.0.now ≡ self.entry.state.now }
        ensures pass { self.exit.1.0.now ≡ self.entry.pass.now }
    {
        let Self {
            state: _,
            pass: _,
            rt: _,
            tally: _,
        } = self;
    }
}

// What the service answered to an order; where no event was made, memory was wanting.
fn ordered_by(done: Result<NodeDone, NoMemory>) -> Result<Ordered, OrderRefused>
    requires { IfOk done IsOrderAnswer }
    ensures { AnswersAs done result }
{
    match done {
        Ok(NodeDone::Order(ordered)) => ordered,
        Ok(_) => unreachable!(),
        Err(_) => Err(OrderRefused::NoMemory),
    }
}

impl<'a, R: Ledger, Q: Ledger, W: Wait> Orders for HeldNode<'a, R, Q, W> {
    ghost kept = { service_at };

    ghost waits = { waits_at };

    ghost made = { OrdersThere };

    fn service(&self) -> &Service {
        self.state.service()
    }

    fn waits(&self) -> Option<Refusal> {
        self.state.folds().waits
    }

    fn order(
        &mut self,
        alloc: Global,
        command: Command,
        token: Text,
        who: Text,
        inputs: Inputs,
    ) -> Result<Ordered, OrderRefused> {
        fits(self.state);
        let order = NodeEvent::Order {
            command,
            token,
            who,
            inputs,
        };
        ordered_by(event(self.rt, alloc, self.tally, self.state, self.pass, order))
    }
}
