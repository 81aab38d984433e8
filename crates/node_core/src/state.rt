// What stands behind a node's lock.
ghost use Rattle.std.specs.Prelude.{◌≡◌, ◌≤◌, None, length, false, true};
ghost use Rattle.node_core.specs.Closings.{row_count, told_since};

use lang_core::Text;
use repair_messages::Refusal;
use service_core::Service;
use std::sync::ledger::{Ledger, Share};

/// How far a service is that folds by itself.
#[derive(Clone, Copy)]
pub struct OwnFolds {
    /// Up to this number the tokens of its orders to fold are all used.
    pub used: u64,
    /// What its last order to fold was refused with, or what stands in the way of one; None where no fold waits.
    pub waits: Option<Refusal>,
}

/// A service, its share of the ledger of rows, the secret with which it seals, whether it is to stop, how many rows its
/// journal had when the node was opened, and how far it is with folds of its own. Its type keeps that the journal still has as
/// many, that the share is one part of the ledger, and that its amount is the number of live requests that the journal answers
/// since then, with that of the orders that it got; the service's own type keeps that the service fits its journal. So all of
/// it holds whenever somebody gets the lock. Nothing outside of this crate makes one or copies one. What others change of it
/// is two things: that it is to stop, and how far it is with folds of its own.
#[derive(Drop)]
pub struct NodeState<R: Ledger> {
    pub(crate) service: Service,
    pub(crate) share: Share<R>,
    pub(crate) secret: Text,
    pub(crate) stopped: bool,
    pub(crate) since: u64,
    pub(crate) folds: OwnFolds,
    ghost one_part: { share.parts ≡ 1 },
    ghost within: { since ≤ length service.journal },
    ghost counted: { share.amount ≡ told_since since service },
}

impl<R: Ledger> NodeState<R> {
    /// That of a node which begins: nobody has told it to stop, and what its service answered before isn't counted. Each state is
    /// made here.
    pub(crate) fn fresh(service: Service, secret: Text, share: Share<R>) -> NodeState<R>
        requires one_part { share.parts ≡ 1 }
        requires none { share.amount ≡ 0 }
        ensures service { result.service ≡ service }
        ensures share { result.share ≡ share }
        ensures secret { result.secret ≡ secret }
        ensures stopped { result.stopped ≡ false }
        ensures since { result.since ≡ row_count service }
        ensures folds { result.folds.waits ≡ None }
    {
        let since = service.journal().len();
        NodeState {
            service,
            share,
            secret,
            stopped: false,
            since,
            folds: OwnFolds {
                used: 0,
                waits: None,
            },
        }
    }

    /// The service.
    pub fn service(&self) -> &Service
        ensures { result.now ≡ self.now.service }
    {
        &self.service
    }

    /// Its share of the ledger of rows.
    pub fn share(&self) -> &Share<R>
        ensures share { result.now ≡ self.now.share }
        ensures counted { self.now.share.amount ≡ told_since self.now.since self.now.service }
    {
        &self.share
    }

    /// The secret with which it seals.
    pub fn secret(&self) -> &Text
        ensures { result.now ≡ self.now.secret }
    {
        &self.secret
    }

    /// Whether it is to stop.
    pub fn stopped(&self) -> bool
        ensures { result ≡ self.now.stopped }
    {
        self.stopped
    }

    /// How many rows its journal had when the node was opened.
    pub fn since(&self) -> u64
        ensures since { result ≡ self.now.since }
        ensures within { self.now.since ≤ length self.now.service.journal }
    {
        self.since
    }

    /// It is to stop. Nothing else changes.
    pub fn stop(&mut self)
        ensures stopped { self.new.stopped ≡ true }
        ensures service { self.new.service ≡ self.old.service }
        ensures share { self.new.share ≡ self.old.share }
        ensures secret { self.new.secret ≡ self.old.secret }
        ensures since { self.new.since ≡ self.old.since }
        ensures folds { self.new.folds ≡ self.old.folds }
    {
        self.stopped = true;
    }

    /// How far it is with folds of its own.
    pub fn folds(&self) -> OwnFolds
        ensures { result ≡ self.now.folds }
    {
        self.folds
    }

    /// So far it is with them now. Nothing else changes.
    pub fn note_folds(&mut self, folds: OwnFolds)
        ensures folds { self.new.folds ≡ folds }
        ensures service { self.new.service ≡ self.old.service }
        ensures share { self.new.share ≡ self.old.share }
        ensures secret { self.new.secret ≡ self.old.secret }
        ensures stopped { self.new.stopped ≡ self.old.stopped }
        ensures since { self.new.since ≡ self.old.since }
    {
        self.folds = folds;
    }
}
