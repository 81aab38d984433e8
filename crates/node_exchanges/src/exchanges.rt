// One exchange with a peer: bytes go there, and what comes back is read.
ghost use Rattle.std.specs.Prelude.{◌≡◌, ◌≤◌, false, Err, IfOk, Ok, OnOk};
ghost use Rattle.io_links.specs.Exchanges.{IsFailure};
ghost use Rattle.io_links.specs.declared.links.Exchange.TheVariants.{Reply as RepliedWith};
ghost use Rattle.http_front.specs.Answers.{interrupts};
ghost use Rattle.wire_fields.specs.Fits.{lacks_memory};
ghost use Rattle.node_exchanges.specs.Exchanging.{back_of, ComesBack, IsExchanged, NotesRise};

use crate::place::Peer;
use http_front::FrontRefused;
use io_links::{Exchange, Link, SliceSource};
use lang_core::{Bytes, FaultNote, Name, NoMemory, Text};
use std::alloc::Global;
use wire_bytes::{Replied, hear_reply};
use wire_fields::WireRefused;
use wire_replies::{Asking, Outgoing};

/// What came back of an exchange with a peer.
#[derive(Drop)]
pub(crate) enum Back {
    /// The exchange failed.
    Failed(FaultNote),
    /// A response of this status, and what it replies, if it is a reply. Bytes that are no response have the status 0.
    Response {
        status: u16,
        reply: Option<Outgoing>,
    },
}

fn heard(replied: Replied) -> Result<Back, NoMemory>
    ensures back { IfOk result (λ back. back ≡ back_of (Ok replied)) }
    ensures whole { OnOk result (lacks_memory replied.reply ≡ false) }
{
    let Replied { status, reply } = replied;
    match reply {
        Ok(reply) => Ok(Back::Response {
            status,
            reply: Some(reply),
        }),
        Err(WireRefused::NoMemory) => Err(NoMemory),
        Err(_) => Ok(Back::Response {
            status,
            reply: None,
        }),
    }
}

// Bytes that are no response reply nothing; of a reading that broke off nothing is known.
fn unheard(why: FrontRefused) -> Result<Back, NoMemory>
    ensures back { IfOk result (λ back. back ≡ back_of (Err why)) }
    ensures whole { OnOk result (interrupts why ≡ false) }
{
    match why {
        FrontRefused::NoMemory | FrontRefused::ReadFault => Err(NoMemory),
        _ => Ok(Back::Response {
            status: 0,
            reply: None,
        }),
    }
}

fn read_back(
    alloc: Global,
    me: &Name,
    dest: &Name,
    secret: &Text,
    asking: Asking,
    bytes: &Bytes,
) -> Result<Back, NoMemory>
    ensures { IfOk result (ComesBack me.now dest.now secret.now asking (RepliedWith bytes.now)) }
{
    let mut source = SliceSource::new(bytes.as_slice());
    match hear_reply(alloc, &mut source, me, dest, secret, asking) {
        Ok(replied) => heard(replied),
        Err(why) => unheard(why),
    }
}

fn came_back(
    alloc: Global,
    me: &Name,
    dest: &Name,
    secret: &Text,
    asking: Asking,
    answer: &Exchange,
) -> Result<Back, NoMemory>
    ensures back { IfOk result (ComesBack me.now dest.now secret.now asking answer.now) }
    ensures rose { IsFailure answer.now → NotesRise answer.now }
{
    match answer {
        Exchange::Reply(bytes) => read_back(alloc, me, dest, secret, asking, bytes),
        Exchange::NoMemory => Err(NoMemory),
        Exchange::Failed(note) => Ok(Back::Failed(*note)),
    }
}

/// Sends these bytes from the service `me` to the peer `dest`, which is asked this, and reads what comes back. So many services
/// stand in the chain of what they spell, by which the exchange has its time. Of a reading that breaks off nothing is known, and it
/// is answered as memory that lacks.
pub(crate) fn exchange<L: Link>(
    alloc: Global,
    me: &Name,
    dest: &Name,
    peer: &Peer,
    asking: Asking,
    bytes: Bytes,
    services: usize,
    link: &mut L,
) -> Result<Back, NoMemory>
    ensures made { IsExchanged me.now dest.now peer.now.secret.now asking peer.now.door.now bytes (L.exchanges link.old) (L.exchanges link.new) result }
    ensures counted { (L.exchanges link.old).faults ≤ (L.exchanges link.new).faults }
{
    let answer = link.exchange(alloc, peer.door.as_str(), bytes.as_slice(), services);
    came_back(alloc, me, dest, peer.secret, asking, &answer)
}
