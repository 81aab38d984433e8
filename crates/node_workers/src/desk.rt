// What a worker has at hand.
ghost use Rattle.std.specs.Prelude.{◌≡◌, ◌↔◌, IsTrue};
ghost use Rattle.service_events.specs.State.{me};
ghost use Rattle.node_exchanges.specs.Endpoints.{at_place};
ghost use Rattle.node_workers.specs.Desks.{at_desk, IsServiceOf};

use admin_console::Service;
use lang_core::Same;
use node_core::{Node, Tally};
use node_exchanges::{Doors, Place};
use std::sync::ledger::Ledger;
use wire_fields::Secrets;
use world_file::Setup;

/// A node and how its service is set up, the tally of all nodes, and the secret and the door of each of its peers.
#[derive(Drop)]
pub struct Desk<'a, R: Ledger, Q: Ledger> {
    pub tally: &'a Tally<R, Q>,
    pub node: &'a Node<R>,
    pub setup: &'a Setup,
    /// Where each peer listens.
    pub doors: Doors,
    /// With which secret each peer seals.
    pub secrets: Secrets,
}

impl<'a, R: Ledger, Q: Ledger> Desk<'a, R, Q> {
    /// The service's place among its peers.
    pub(crate) fn place(&self) -> Place<'_>
        ensures { at_place result ≡ at_desk self.now }
    {
        Place {
            setup: self.setup,
            doors: &self.doors,
            secrets: &self.secrets,
        }
    }
}

/// Whether a service is the one that is set up so. What a worker does rests on its name alone.
pub(crate) fn is_set_up(service: &Service, setup: &Setup) -> bool
    ensures { IsTrue result ↔ (me service.now ≡ setup.now.setting.me) }
{
    service.setting().me.is(&setup.setting.me)
}

/// Whether a service is the one that is set up so. What its type keeps of it goes along: it fits its journal, and its rules
/// allowed each repair in that.
pub(crate) fn is_service_of(service: &Service, setup: &Setup) -> bool
    ensures { IsTrue result → IsServiceOf setup.now.setting.me service.now }
{
    let _journal = service.journal();
    is_set_up(service, setup)
}
