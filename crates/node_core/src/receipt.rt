// A receipt.
ghost use Rattle.std.specs.Prelude.{◌≡◌, true};
ghost use Rattle.service_events.specs.Commits.{is_live_row};
ghost use Rattle.node_core.specs.Replies.{row_bytes};

use crate::twice::OfRow;
use journal_rows::Row;
use lang_core::{Bytes, Inputs, Name, Request, Text};

/// A live request that was committed, and what its client is told. Its type keeps that the row answers a live request, and that
/// the reply is the message that spells this answer.
pub struct Receipt {
    /// The service that answered.
    pub service: Name,
    /// The index of the answer in the service's journal.
    pub index: u64,
    pub request: Request,
    pub inputs: Inputs,
    /// The answer, as the journal has it.
    pub row: Row,
    /// The secret with which the service seals what goes to services.
    pub secret: Text,
    /// The bytes that are written to the client.
    pub reply: Bytes,
    ghost live: { is_live_row row ≡ true },
    ghost spelled: { reply ≡ row_bytes service secret row },
}

impl Drop for Receipt {
    fn drop(self) {
        let Self {
            service: _,
            index: _,
            request: _,
            inputs: _,
            row: _,
            secret: _,
            reply: _,
        } = self;
    }
}

impl OfRow for Receipt {
    ghost service = { λ receipt. receipt.service };

    ghost index = { λ receipt. receipt.index };

    fn service(&self) -> &Name {
        &self.service
    }

    fn index(&self) -> u64 {
        self.index
    }
}
