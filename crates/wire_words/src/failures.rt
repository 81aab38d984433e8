// What a reply to a live call comes to for the request that waits for it.
ghost use Rattle.std.specs.Prelude.{◌≡◌, None};
ghost use Rattle.wire_words.specs.Failures.{ReadsRefusals, ReadsRefusalsAlone, answer_or_failure, arrive_refused, call_reply, refused_so, why_failed, why_refused};

use call_registers::Why;
use repair_messages::{AnswerMessage, RefusalWord};
use service_events::ArriveRefused;
use wire_replies::Outgoing;

fn refused_so(word: RefusalWord, number: u64) -> Option<ArriveRefused>
    ensures { result ≡ refused_so number word }
{
    match word {
        RefusalWord::NoMemory if number == 0 => Some(ArriveRefused::NoMemory),
        RefusalWord::Full => Some(ArriveRefused::Full(number)),
        RefusalWord::NotYet => Some(ArriveRefused::NotYet(number)),
        RefusalWord::Gone => Some(ArriveRefused::Gone(number)),
        _ => None,
    }
}

#[tactic(auto, unfolding(crate::specs::Failures::arrive_refused))]
fn arrive_refused(word: &str, number: u64) -> Option<ArriveRefused>
    ensures { result ≡ arrive_refused word.now number }
{
    match RefusalWord::said(word) {
        Some(word) => refused_so(word, number),
        None => None,
    }
}

fn why_refused(refused: ArriveRefused) -> Why
    ensures { result ≡ why_refused refused }
{
    Why::Refused {
        word: refused.call_word(),
        number: refused.refusal().number,
    }
}

/// Why a call failed whose reply can't be read: refused with number 0, and the status of the reply, 0 where no head of
/// one was read.
pub fn why_unread(status: u16) -> Why
    ensures { result ≡ why_failed None status }
{
    Why::Refused {
        word: 0,
        number: u64::from(status),
    }
}

fn why_failed(refused: Option<ArriveRefused>, status: u16) -> Why
    ensures { result ≡ why_failed refused status }
{
    match refused {
        Some(refused) => why_refused(refused),
        None => why_unread(status),
    }
}

fn answer_or_failure(answer: Option<AnswerMessage>, status: u16) -> Result<AnswerMessage, Why>
    ensures { result ≡ answer_or_failure answer status }
{
    match answer {
        Some(answer) => Ok(answer),
        None => Err(why_unread(status)),
    }
}

/// What a reply with this status to a live call comes to: the answer, or why the call failed. A refusal with a word of
/// those that refuse live calls is kept under the number of that refusal, 1 to 4, with what it carries; any other reply
/// under 0, with the status.
#[tactic(auto, using(crate::proofs::TableLaws::call_refused, crate::proofs::TableLaws::call_alone))]
pub fn call_reply(reply: Outgoing, status: u16) -> Result<AnswerMessage, Why>
    ensures reply { result ≡ call_reply reply status }
    ensures refusals { ReadsRefusals reply status }
    ensures alone { ReadsRefusalsAlone reply status }
{
    match reply {
        Outgoing::Answered { answer, .. } => answer_or_failure(answer, status),
        Outgoing::Ack(_) | Outgoing::Confirm(_) => Err(why_unread(status)),
        Outgoing::Refused { word, number } => {
            Err(why_failed(arrive_refused(word.as_str(), number), status))
        }
    }
}
