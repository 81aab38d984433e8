// What a worker carries from node to node.
ghost use Rattle.std.specs.Prelude.{◌≡◌, ◌+◌, None, length, vec_len};
ghost use Rattle.std.specs.Option.{option_copied};

use crate::notes::{Begun, Gave, Notes, Posting, Turn};
use crate::receipt::Receipt;
use std::sync::ledger::{Ledger, Share};

/// A worker's receipts, its share of their ledger, and what is kept of its events, with the notes of its orders. Its type keeps
/// that the share is one part of the ledger, and that its amount is the number of receipts and of these notes. Nothing outside
/// of this crate makes one, copies one, or changes more of it than `forget_turn` does.
#[derive(Drop)]
pub struct Pass<Q: Ledger> {
    pub(crate) share: Share<Q>,
    pub(crate) receipts: Vec<Receipt>,
    pub(crate) notes: Notes,
    ghost one_part: { share.parts ≡ 1 },
    ghost counted: { share.amount ≡ vec_len receipts + length notes.orders },
}

impl<Q: Ledger> Pass<Q> {
    /// Its receipts, one for each live request that it was told is committed, in the order of time.
    pub fn receipts(&self) -> &[Receipt]
        ensures receipts { result.now ≡ self.now.receipts.items }
        ensures counted { self.now.share.amount ≡ vec_len self.now.receipts + length self.now.notes.orders }
    {
        self.receipts.as_slice()
    }

    /// Its open flight.
    pub fn begun(&self) -> Option<&Begun>
        ensures { option_copied result ≡ self.now.notes.begun }
    {
        self.notes.begun.as_ref()
    }

    /// How its last event was turned away, if it was.
    pub fn turn(&self) -> Option<Turn>
        ensures { result ≡ self.now.notes.turn }
    {
        self.notes.turn
    }

    /// How far its last post is.
    pub fn posting(&self) -> Option<&Posting>
        ensures { option_copied result ≡ self.now.notes.posting }
    {
        self.notes.posting.as_ref()
    }

    /// Its last request, message or order that was neither committed nor begun, with what came of it.
    pub fn gave(&self) -> Option<&Gave>
        ensures { option_copied result ≡ self.now.notes.gave }
    {
        self.notes.gave.get()
    }

    /// How many calls it gave up as lost.
    pub fn lost(&self) -> u64
        ensures { result ≡ self.now.notes.lost }
    {
        self.notes.lost
    }

    /// How many calls it gave up as refused.
    pub fn refused(&self) -> u64
        ensures { result ≡ self.now.notes.refused }
    {
        self.notes.refused
    }

    /// Forgets how the last event was turned away, how far the last post is, and what was asked. Nothing else changes.
    pub fn forget_turn(&mut self)
        ensures notes { self.new.notes ≡ record self.old.notes { turn = None; posting = None; gave = None } }
        ensures share { self.new.share ≡ self.old.share }
        ensures receipts { self.new.receipts ≡ self.old.receipts }
    {
        self.notes.turn = None;
        self.notes.posting = None;
        self.notes.gave.forget();
    }
}
