// A live call to a peer.
ghost use Rattle.std.specs.Prelude.{◌≡◌, ◌≤◌, ◌<◌, Ok, IfOk};
ghost use Rattle.io_edge.specs.Edge.{Rose};
ghost use Rattle.node_exchanges.specs.Calls.{came_by, came_in, came_with, chain_length, if_answer_to, lost_by_one, refused_by_one, CallsIt, CallsMade, FailsOnly, SendsAtMost};
ghost use Rattle.node_exchanges.specs.Endpoints.{at_place};

use crate::exchanges::{Back, exchange};
use crate::place::{Place, peer_of};
use call_registers::Why;
use io_links::{Gate, Link};
use lang_core::NoMemory;
use repair_messages::{AnswerMessage, SetMessage};
use std::alloc::Global;
use wire_bytes::call_bytes;
use wire_replies::{Asking, Outgoing};
use wire_words::{call_reply, why_unread};

// The answer, where it is one of version 1 to the call; another one is as good as unread.
fn if_answer_to(set: &SetMessage, answer: AnswerMessage, status: u16) -> Result<AnswerMessage, Why>
    ensures { result ≡ if_answer_to set.now status answer }
{
    if answer.number == set.number && answer.version == 1 {
        Ok(answer)
    } else {
        Err(why_unread(status))
    }
}

fn answer_in(set: &SetMessage, reply: Outgoing, status: u16) -> Result<AnswerMessage, Why>
    ensures { result ≡ came_in set.now status (Ok reply) }
{
    match call_reply(reply, status) {
        Ok(answer) => if_answer_to(set, answer, status),
        Err(why) => Err(why),
    }
}

fn came_by(set: &SetMessage, back: Back) -> Result<AnswerMessage, Why>
    ensures { result ≡ came_by set.now back }
{
    match back {
        Back::Failed(note) => Err(Why::Lost(note)),
        Back::Response {
            status,
            reply: Some(reply),
        } => answer_in(set, reply, status),
        Back::Response {
            status,
            reply: None,
        } => Err(why_unread(status)),
    }
}

fn came_with(
    set: &SetMessage,
    back: Result<Back, NoMemory>,
) -> Result<Result<AnswerMessage, Why>, NoMemory>
    ensures { result ≡ came_with set.now back }
{
    match back {
        Ok(back) => Ok(came_by(set, back)),
        Err(NoMemory) => Err(NoMemory),
    }
}

// How many services stand in the chain of what the call asks, of which the caller is the last.
fn chain_length(set: &SetMessage) -> usize
    ensures { result ≡ chain_length set.now.desired }
{
    match &set.desired {
        Some(request) => request.chain.as_slice().len(),
        None => 0,
    }
}

/// Makes a live call: the peer's answer, or why there is none. The gate is told of it before and after. A peer that isn't
/// known is answered as memory that lacks. The call is sent once at most.
pub fn call<L: Link, G: Gate>(
    alloc: Global,
    place: &Place,
    set: &SetMessage,
    link: &mut L,
    gate: &G,
) -> Result<Result<AnswerMessage, Why>, NoMemory>
    requires from { set.now.caller ≡ (at_place place.now).me }
    ensures came { IfOk result (λ came. CallsIt (at_place place.now) set.now came (L.exchanges link.old) (L.exchanges link.new)) }
    ensures sends { SendsAtMost (at_place place.now) set.now (L.exchanges link.old) (L.exchanges link.new) }
    ensures calls { CallsMade (at_place place.now) (lost_by_one result) (refused_by_one result) (L.exchanges link.old) (L.exchanges link.new) }
    ensures rose { 0 < lost_by_one result → Rose (L.exchanges link.old).faults (L.exchanges link.new).faults }
    ensures failure { IfOk result FailsOnly }
    ensures counted { (L.exchanges link.old).faults ≤ (L.exchanges link.new).faults }
{
    let setup = place.setup;
    let Some(peer) = peer_of(place, &set.dest) else {
        return Err(NoMemory);
    };
    let Ok(bytes) = call_bytes(alloc, peer.door, &setup.door, &setup.secret, set) else {
        return Err(NoMemory);
    };
    gate.call_starts(&set.dest);
    let me = &setup.setting.me;
    let services = chain_length(set);
    let back = exchange(
        alloc,
        me,
        &set.dest,
        &peer,
        Asking::Call,
        bytes,
        services,
        link,
    );
    gate.call_ends(&set.dest);
    came_with(set, back)
}
