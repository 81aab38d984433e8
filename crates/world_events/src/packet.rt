// What goes over the network.
ghost use Rattle.std.specs.Prelude.{◌≡◌, IfOk};
ghost use Rattle.world_events.specs.Events.{live_refusal};
ghost use Rattle.world_events.specs.declared.packet.Packet.TheVariants as packet;

use lang_base::both;
use lang_core::{Copied, Name, NoMemory};
use repair_messages::{AnswerMessage, Post, SetMessage};
use service_events::{ArriveRefused, PostReply};
use std::alloc::Global;

/// What comes back of a live call.
#[derive(Drop)]
pub enum Live {
    /// Its answer.
    Answer(AnswerMessage),
    /// The callee refused it, with this number of a refusal of arrivals and what that refusal carries.
    Refused { word: u16, number: u64 },
}

impl Live {
    /// The callee refused the call. What a reply over the wire comes to has the same number.
    pub fn refused(why: ArriveRefused) -> Live
        ensures { result ≡ live_refusal why }
    {
        Live::Refused {
            word: why.call_word(),
            number: why.refusal().number,
        }
    }
}

/// What was written to another service. It carries all that its receiver, and its sender when it is lost, are told.
#[derive(Drop)]
pub enum Packet {
    /// A live call of a flight of the service `from`, which is the call's caller.
    Call {
        from: Name,
        flight: u64,
        set: SetMessage,
    },
    /// What comes back of the call of this number, to that flight of the service `to`, which is the call's caller.
    CallReply {
        to: Name,
        flight: u64,
        number: u64,
        reply: Live,
    },
    /// A message that was posted.
    Post(Post),
    /// What comes back of that post, to the service that posted it.
    PostReply {
        post: Post,
        reply: PostReply,
    },
}

impl Copied for Live {
    fn copied(&self, alloc: Global) -> Result<Live, NoMemory> {
        match self {
            Live::Answer(answer) => Ok(Live::Answer(answer.copied(alloc)?)),
            Live::Refused { word, number } => Ok(Live::Refused {
                word: *word,
                number: *number,
            }),
        }
    }
}

fn copied_call(
    alloc: Global,
    from: &Name,
    flight: u64,
    set: &SetMessage,
) -> Result<Packet, NoMemory>
    ensures { IfOk result (λ copy. copy ≡ packet.Call from.now flight set.now) }
{
    let (from, set) = both(from.copied(alloc), set.copied(alloc))?;
    Ok(Packet::Call { from, flight, set })
}

fn copied_call_reply(
    alloc: Global,
    to: &Name,
    flight: u64,
    number: u64,
    reply: &Live,
) -> Result<Packet, NoMemory>
    ensures { IfOk result (λ copy. copy ≡ packet.CallReply to.now flight number reply.now) }
{
    let (to, reply) = both(to.copied(alloc), reply.copied(alloc))?;
    Ok(Packet::CallReply {
        to,
        flight,
        number,
        reply,
    })
}

fn copied_post_reply(alloc: Global, post: &Post, reply: &PostReply) -> Result<Packet, NoMemory>
    ensures { IfOk result (λ copy. copy ≡ packet.PostReply post.now reply.now) }
{
    let (post, reply) = both(post.copied(alloc), reply.copied(alloc))?;
    Ok(Packet::PostReply { post, reply })
}

impl Copied for Packet {
    fn copied(&self, alloc: Global) -> Result<Packet, NoMemory> {
        match self {
            Packet::Call { from, flight, set } => copied_call(alloc, from, *flight, set),
            Packet::CallReply {
                to,
                flight,
                number,
                reply,
            } => copied_call_reply(alloc, to, *flight, *number, reply),
            Packet::Post(post) => Ok(Packet::Post(post.copied(alloc)?)),
            Packet::PostReply { post, reply } => copied_post_reply(alloc, post, reply),
        }
    }
}
