// A post to a peer.
ghost use Rattle.std.specs.Prelude.{◌≡◌, ◌≤◌, IfOk};
ghost use Rattle.wire_bytes.specs.Sending.{receiver_of, sender_of};
ghost use Rattle.node_exchanges.specs.Endpoints.{at_place};
ghost use Rattle.node_exchanges.specs.Posts.{PostsAtMost, PostsIt, said_by, said_with};

use crate::exchanges::{Back, exchange};
use crate::place::{Place, peer_of};
use io_links::Link;
use lang_core::{Name, NoMemory};
use repair_messages::Post;
use service_events::PostReply;
use std::alloc::Global;
use wire_bytes::post_bytes;
use wire_words::{asking_of, post_reply};

/// How many services stand in a post's chain: no request waits for it, so it has all the time that an exchange may take.
const NO_SERVICES: usize = 0;

fn said_by(post: &Post, back: Back) -> Option<PostReply>
    ensures { result ≡ said_by post.now back }
{
    match back {
        Back::Failed(note) => Some(PostReply::Lost(note)),
        Back::Response {
            status: _,
            reply: Some(reply),
        } => post_reply(post, reply),
        Back::Response {
            status: _,
            reply: None,
        } => None,
    }
}

fn said_with(post: &Post, back: Result<Back, NoMemory>) -> Result<Option<PostReply>, NoMemory>
    ensures { result ≡ said_with post.now back }
{
    match back {
        Ok(back) => Ok(said_by(post, back)),
        Err(NoMemory) => Err(NoMemory),
    }
}

/// Sends the post to the peer, and what came back of it, if that says anything. A peer that isn't known is answered as memory
/// that lacks. The post is sent once at most.
pub fn post_to<L: Link>(
    alloc: Global,
    place: &Place,
    dest: &Name,
    post: &Post,
    link: &mut L,
) -> Result<Option<PostReply>, NoMemory>
    requires from { sender_of post.now ≡ (at_place place.now).me }
    requires goes { receiver_of post.now ≡ dest.now }
    ensures sends { PostsAtMost (at_place place.now) dest.now post.now (L.exchanges link.old) (L.exchanges link.new) }
    ensures sent { IfOk result (λ reply. PostsIt (at_place place.now) dest.now post.now reply (L.exchanges link.old) (L.exchanges link.new)) }
    ensures counted { (L.exchanges link.old).faults ≤ (L.exchanges link.new).faults }
{
    let setup = place.setup;
    let Some(peer) = peer_of(place, dest) else {
        return Err(NoMemory);
    };
    let bytes = post_bytes(alloc, peer.door, &setup.secret, post)?;
    let me = &setup.setting.me;
    let back = exchange(
        alloc,
        me,
        dest,
        &peer,
        asking_of(post),
        bytes,
        NO_SERVICES,
        link,
    );
    said_with(post, back)
}
