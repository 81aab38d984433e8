// A service's place among its peers.
ghost use Rattle.std.specs.Prelude.{IfSome};
ghost use Rattle.node_exchanges.specs.Endpoints.{at_place, IsPeer};

use lang_core::{Name, Text};
use wire_fields::{ByName, Secrets};
use world_file::Setup;

/// The address at which each of a service's peers listens, under the peer's name.
pub type Doors = ByName<Text>;

/// How a service is set up, and the door and the secret of each of its peers.
#[derive(Clone, Copy, Drop)]
pub struct Place<'a> {
    pub setup: &'a Setup,
    /// Where each peer listens.
    pub doors: &'a Doors,
    /// With which secret each peer seals.
    pub secrets: &'a Secrets,
}

/// What is known of one peer.
#[derive(Clone, Copy, Drop)]
pub(crate) struct Peer<'a> {
    /// Where it listens.
    pub door: &'a Text,
    /// With which it seals.
    pub secret: &'a Text,
}

/// The peer of this name; None where it isn't known.
pub(crate) fn peer_of<'a>(place: &Place<'a>, name: &Name) -> Option<Peer<'a>>
    ensures { IfSome result (IsPeer (at_place place.now) name.now) }
{
    let (Some(door), Some(secret)) = (
        place.doors.get(name.as_str()),
        place.secrets.get(name.as_str()),
    ) else {
        return None;
    };
    Some(Peer { door, secret })
}
