// Where operators' orders are made.
ghost use Rattle.std.specs.Prelude.{◌≡◌, ℕ, List, None, Option, Result};
ghost use Rattle.lang_core.specs.declared.inputs.Inputs.{Inputs};
ghost use Rattle.journal_rows.specs.declared.orders.Command.{Command};
ghost use Rattle.repair_messages.specs.declared.refusals.Refusal.{Refusal};
ghost use Rattle.service_events.specs.Commits.{live_rows};
ghost use Rattle.service_events.specs.State.{Kept};
ghost use Rattle.service_events.specs.declared.answers.Ordered.{Ordered};
ghost use Rattle.service_events.specs.declared.refusals.OrderRefused.{OrderRefused};
ghost use Rattle.admin_console.specs.Answers.{MakesOrder};

use journal_rows::Command;
use lang_core::{Inputs, Text};
use repair_messages::Refusal;
use service_events::{OrderRefused, Ordered};
use service_reports::Service;
use std::alloc::Global;

/// A desk at which an operator is answered: it lends one service, and makes orders of that service.
pub trait Orders {
    // The service.
    ghost kept: { Self → Kept };

    // Why a fold waits that the service would make by itself, if one does.
    ghost waits: { Self → Option Refusal };

    // What an order that was made is at this desk, besides what it is at the service.
    ghost made: { Self → Command → List ℕ → List ℕ → Inputs → Result Ordered OrderRefused → Self → Type 0 };

    /// The service, as it is now.
    fn service(&self) -> &Service
        ensures { result.now ≡ kept self.now };

    /// Why a fold waits that the service would make by itself; None where none does.
    fn waits(&self) -> Option<Refusal>
        ensures { result ≡ waits self.now };

    /// Makes an order at the service, which is one call of its own `order`. It makes no live answer.
    fn order(
        &mut self,
        alloc: Global,
        command: Command,
        token: Text,
        who: Text,
        inputs: Inputs,
    ) -> Result<Ordered, OrderRefused>
        ensures desk { made self.old command token who inputs result self.new }
        ensures service { MakesOrder (kept self.old) command token who inputs result (kept self.new) }
        ensures silent { live_rows (kept self.new).journal ≡ live_rows (kept self.old).journal };
}

impl Orders for Service {
    ghost kept = { λ s. s };

    ghost waits = { λ _. None };

    ghost made = { MakesOrder };

    fn service(&self) -> &Service {
        self
    }

    // A service alone folds nothing by itself.
    fn waits(&self) -> Option<Refusal> {
        None
    }

    fn order(
        &mut self,
        alloc: Global,
        command: Command,
        token: Text,
        who: Text,
        inputs: Inputs,
    ) -> Result<Ordered, OrderRefused> {
        Service::order(self, alloc, command, token, who, inputs)
    }
}
