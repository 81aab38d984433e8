// What is replied.
ghost use Rattle.std.specs.Prelude.{◌≡◌, IfOk};

use lang_base::both;
use lang_core::{Copied, NoMemory, RequestId, Response, Text};
use repair_messages::{Ack, AnswerMessage, Confirm};
use std::alloc::Global;

/// What a service replies to a request.
#[derive(Drop)]
pub enum Outgoing {
    /// What its handlers answered.
    Answered {
        /// The service's id for the request.
        id: RequestId,
        /// The answer as its caller keeps it, where the request is a peer's call or fetch.
        answer: Option<AnswerMessage>,
        response: Response,
    },
    /// That a version of a peer's call was taken.
    Ack(Ack),
    /// That a peer's token was noted.
    Confirm(Confirm),
    /// That nothing was done, and why.
    Refused {
        /// The word of the refusal.
        word: Text,
        /// Its number, 0 where the word has none.
        number: u64,
    },
}

fn answered_copied(
    alloc: Global,
    id: &RequestId,
    answer: &Option<AnswerMessage>,
    response: &Response,
) -> Result<Outgoing, NoMemory>
    ensures { IfOk result (λ copy. copy ≡ Outgoing.Answered id.now answer.now response.now) }
{
    let message = both(id.copied(alloc), answer.copied(alloc));
    let ((id, answer), response) = both(message, response.copied(alloc))?;
    Ok(Outgoing::Answered {
        id,
        answer,
        response,
    })
}

impl Copied for Outgoing {
    fn copied(&self, alloc: Global) -> Result<Outgoing, NoMemory> {
        match self {
            Outgoing::Answered {
                id,
                answer,
                response,
            } => answered_copied(alloc, id, answer, response),
            Outgoing::Ack(ack) => Ok(Outgoing::Ack(ack.copied(alloc)?)),
            Outgoing::Confirm(confirm) => Ok(Outgoing::Confirm(confirm.copied(alloc)?)),
            Outgoing::Refused { word, number } => Ok(Outgoing::Refused {
                word: word.copied(alloc)?,
                number: *number,
            }),
        }
    }
}
