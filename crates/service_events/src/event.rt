// An event of a service as a value, and what the service answered.
ghost use Rattle.std.specs.Prelude.{◌≡◌};
ghost use Rattle.service_events.specs.Refusals.{memory_refusal, refusal_of};

use crate::answers::{Arrived, Heard, Ordered, PostReply, Posted, Taken};
use crate::refusals::{
    AnswerRefused, ArriveRefused, CallRefused, GiveRefused, OrderRefused, PostRefused, TakeRefused,
};
use call_registers::Why;
use journal_rows::Command;
use lang_core::{Inputs, Name, NoMemory, Origin, Request, Text};
use local_repair::Stepped;
use repair_messages::{
    AnswerMessage, Fetch, Post, PostName, Refusal, RefusalWord, SetMessage, TokenMessage,
};

/// An event of a service. `Give`, `NextPost` and `WritePost` only ask, and leave it as it is.
#[derive(Drop)]
pub enum Event {
    /// A live request arrives.
    Arrive {
        origin: Origin,
        request: Request,
        inputs: Inputs,
    },
    /// The call for which a flight waits was answered.
    CallAnswered {
        flight: u64,
        answer: AnswerMessage,
    },
    /// The call of this number, for which a flight waits, got no answer.
    CallFailed {
        flight: u64,
        number: u64,
        why: Why,
    },
    /// The flight is given up.
    Abandon {
        flight: u64,
    },
    /// A version of another service's call came by a message.
    Take {
        set: SetMessage,
        inputs: Inputs,
    },
    /// A token came, which announces an answer to an own call.
    TakeToken {
        token: TokenMessage,
    },
    /// Another service asks for an answer that was announced to it.
    Give {
        fetch: Fetch,
    },
    /// Which post goes there next?
    NextPost {
        dest: Name,
    },
    /// How does this post read now?
    WritePost {
        name: PostName,
    },
    /// This came back of a post.
    Posted {
        post: Post,
        reply: PostReply,
    },
    /// The first stale entry is run again.
    Step,
    /// An operator's order.
    Order {
        command: Command,
        token: Text,
        who: Text,
        inputs: Inputs,
    },
}

/// What the service answered, by the name of the event.
#[derive(Drop)]
pub enum Done {
    Arrive(Result<Arrived, ArriveRefused>),
    CallAnswered(Result<Arrived, CallRefused>),
    CallFailed(Result<Arrived, CallRefused>),
    /// Whether there was such a flight.
    Abandon(bool),
    Take(Result<Taken, TakeRefused>),
    TakeToken(Result<Heard, AnswerRefused>),
    Give(Result<AnswerMessage, GiveRefused>),
    NextPost(Option<PostName>),
    WritePost(Result<Post, NoMemory>),
    Posted(Result<Posted, PostRefused>),
    Step(Result<Stepped, NoMemory>),
    Order(Result<Ordered, OrderRefused>),
    /// No event was made: who asked for it waits with a flight that the service doesn't have any more. No event answers this.
    Gone,
}

fn lacking(_why: &NoMemory) -> Refusal
    ensures { result ≡ memory_refusal _why.now }
{
    Refusal {
        word: RefusalWord::NoMemory,
        number: 0,
    }
}

impl Done {
    /// How the event was refused, if it was.
    pub fn refusal(&self) -> Option<Refusal>
        ensures { result ≡ refusal_of self.now }
    {
        match self {
            Done::Arrive(Err(why)) => Some(why.refusal()),
            Done::CallAnswered(Err(why)) | Done::CallFailed(Err(why)) => Some(why.refusal()),
            Done::Take(Err(why)) => Some(why.refusal()),
            Done::TakeToken(Err(why)) => Some(why.refusal()),
            Done::Give(Err(why)) => Some(why.refusal()),
            Done::WritePost(Err(why)) => Some(lacking(why)),
            Done::Posted(Err(why)) => Some(why.refusal()),
            Done::Step(Err(why)) => Some(lacking(why)),
            Done::Order(Err(why)) => Some(why.refusal()),
            _ => None,
        }
    }
}
