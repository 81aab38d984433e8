// What an event came to.
ghost use Rattle.std.specs.Prelude.{◌≡◌};
ghost use Rattle.world_events.specs.Events.{outcome_of, what_of};

use lang_core::Name;
use repair_messages::PostName;
use service_events::{
    AnswerRefused, ArriveRefused, Arrived, CallRefused, Done, GiveRefused, OrderRefused, Ordered,
    PostRefused, Posted, TakeRefused,
};
use world_agreement::Stepped;

/// What became of a live request.
#[derive(Clone, Copy, PartialEq, Eq)]
pub enum Outcome {
    /// It was committed as the entry of this number; its answer is the row of this index in the journal.
    Done { index: u64, id: u64 },
    /// It is a flight of this number, and awaits the call that was written as a packet.
    Call { flight: u64 },
    /// It is a call that has the entry of this number, whose last answer has this version.
    Known { id: u64, answer_version: u64 },
}

/// What happened, by the answer or the refusal of the service (`what_of`), without the message that goes into a packet.
#[derive(Clone, Copy, PartialEq, Eq)]
pub enum What {
    /// A request came from outside, or a call came from another service.
    Arrive(Result<Outcome, ArriveRefused>),
    /// An answer came to a call.
    CallAnswered(Result<Outcome, CallRefused>),
    /// A call failed.
    CallFailed(Result<Outcome, CallRefused>),
    /// A version of a call came, and the rule of this number allowed it; None where it was known, or one above it.
    Take(Result<Option<u32>, TakeRefused>),
    /// A token came, and the rule of this number allowed it; None where it told nothing new.
    TakeToken(Result<Option<u32>, AnswerRefused>),
    /// An answer was given to who fetches it, and has this version.
    Give(Result<u64, GiveRefused>),
    /// Something came back of a post.
    Posted(Result<Posted, PostRefused>),
    /// The oldest outstanding post was written as a packet; None where nothing is outstanding.
    NextPost(Option<PostName>),
    /// A repair step.
    RepairStep(Stepped),
    /// A flight was abandoned.
    Abandon(bool),
    /// An order.
    Order(Result<Ordered, OrderRefused>),
    /// No event of a service that is told: the clock or the random words were set.
    Set,
}

fn outcome_of(arrived: &Arrived) -> Outcome
    ensures { result ≡ outcome_of arrived.now }
{
    match arrived {
        Arrived::Done { index, id, .. } => Outcome::Done {
            index: *index,
            id: *id,
        },
        Arrived::Call { flight, .. } => Outcome::Call { flight: *flight },
        Arrived::Known(answer) => Outcome::Known {
            id: answer.id,
            answer_version: answer.answer_version,
        },
    }
}

/// What is told of a service's answer to an event. The answer stays whole, since the packet that is written of it is made of
/// its message: a copy could run out of memory once the service has changed. A post that is written is told by the answer
/// that named it; and where memory lacks, or no event was made, there is nothing to tell.
pub fn what_of(done: &Done) -> What
    ensures { result ≡ what_of done.now }
{
    match done {
        Done::Arrive(Ok(arrived)) => What::Arrive(Ok(outcome_of(arrived))),
        Done::Arrive(Err(why)) => What::Arrive(Err(*why)),
        Done::CallAnswered(Ok(arrived)) => What::CallAnswered(Ok(outcome_of(arrived))),
        Done::CallAnswered(Err(why)) => What::CallAnswered(Err(*why)),
        Done::CallFailed(Ok(arrived)) => What::CallFailed(Ok(outcome_of(arrived))),
        Done::CallFailed(Err(why)) => What::CallFailed(Err(*why)),
        Done::Abandon(was_there) => What::Abandon(*was_there),
        Done::Take(Ok(taken)) => What::Take(Ok(taken.rule)),
        Done::Take(Err(why)) => What::Take(Err(*why)),
        Done::TakeToken(Ok(heard)) => What::TakeToken(Ok(heard.rule)),
        Done::TakeToken(Err(why)) => What::TakeToken(Err(*why)),
        Done::Give(Ok(answer)) => What::Give(Ok(answer.answer_version)),
        Done::Give(Err(why)) => What::Give(Err(*why)),
        Done::NextPost(name) => What::NextPost(*name),
        Done::WritePost(_) => What::Set,
        Done::Posted(posted) => What::Posted(*posted),
        Done::Step(Ok(stepped)) => What::RepairStep(*stepped),
        Done::Step(Err(_)) => What::Set,
        Done::Order(ordered) => What::Order(*ordered),
        Done::Gone => What::Set,
    }
}

/// What happened at an event. What a message says stands in its packet, and what a request was answered in the journal.
#[derive(Drop)]
pub struct Happened {
    /// The service where it happened; None exactly where the clock or the random words were set.
    pub service: Option<Name>,
    pub what: What,
    /// The number of the packet that was written.
    pub packet: Option<u64>,
}
