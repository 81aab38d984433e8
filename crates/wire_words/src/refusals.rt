// The words and numbers with which a service tells why it did nothing.
ghost use Rattle.std.specs.Prelude.{◌≡◌, Some, IfOk};
ghost use Rattle.wire_fields.specs.Words.{refusal_of, refusal_text};
ghost use Rattle.wire_words.specs.Failures.{IsArriveTold};
ghost use Rattle.wire_words.specs.Posts.{IsAnswerTold, IsGiveTold, IsTakeTold};
ghost use Rattle.wire_words.specs.Refusals.{IsOrderTold, IsTold, answer_told, arrive_told, give_told, order_told, refusal_told, take_told};

use lang_core::{NoMemory, Text};
use repair_messages::Refusal;
use service_events::{AnswerRefused, ArriveRefused, GiveRefused, OrderRefused, TakeRefused};
use std::alloc::Global;
use wire_replies::Outgoing;

/// What tells a refusal: its word, and the word's number, 0 where it has none.
pub type Told = (&'static str, u64);

fn refusal_told(refusal: Refusal) -> Told
    ensures { (result.0.now, result.1) ≡ refusal_told refusal }
{
    (refusal.word.text(), refusal.number)
}

/// Why a live request was refused.
#[tactic(auto, using(crate::proofs::TableLaws::arrive_spelt, crate::proofs::TableLaws::arrive_back))]
pub fn arrive_told(why: ArriveRefused) -> Told
    ensures told { (result.0.now, result.1) ≡ arrive_told why }
    ensures spelt { IsTold (arrive_told why) }
    ensures back { IsArriveTold why }
{
    refusal_told(why.refusal())
}

/// Why a version of a call was refused.
#[tactic(auto, using(crate::proofs::TableLaws::take_spelt, crate::proofs::TableLaws::take_back))]
pub fn take_told(why: TakeRefused) -> Told
    ensures told { (result.0.now, result.1) ≡ take_told why }
    ensures spelt { IsTold (take_told why) }
    ensures back { IsTakeTold why }
{
    refusal_told(why.refusal())
}

/// Why a token was refused.
#[tactic(auto, using(crate::proofs::TableLaws::answer_spelt, crate::proofs::TableLaws::answer_back))]
pub fn answer_told(why: AnswerRefused) -> Told
    ensures told { (result.0.now, result.1) ≡ answer_told why }
    ensures spelt { IsTold (answer_told why) }
    ensures back { IsAnswerTold why }
{
    refusal_told(why.refusal())
}

/// Why a fetch was refused.
#[tactic(auto, using(crate::proofs::TableLaws::give_spelt, crate::proofs::TableLaws::give_back))]
pub fn give_told(why: GiveRefused) -> Told
    ensures told { (result.0.now, result.1) ≡ give_told why }
    ensures spelt { IsTold (give_told why) }
    ensures back { IsGiveTold why }
{
    refusal_told(why.refusal())
}

/// Why an order was refused.
#[tactic(auto, using(crate::proofs::TableLaws::order_spelt, crate::proofs::TableLaws::order_apart))]
pub fn order_told(why: OrderRefused) -> Told
    ensures told { (result.0.now, result.1) ≡ order_told why }
    ensures spelt { IsTold (order_told why) }
    ensures apart { IsOrderTold why }
{
    refusal_told(why.refusal())
}

/// A refusal as a reply. Where the word is of the table, and the number is 0 if the word has none, its text is read back as
/// these two.
pub fn refusal(alloc: Global, word: &str, number: u64) -> Result<Outgoing, NoMemory>
    ensures reply { IfOk result (λ reply. reply ≡ Outgoing.Refused word.now number) }
    ensures read { IsTold (word.now, number) → refusal_of (refusal_text word.now number) ≡ Some (word.now, number) }
{
    let word = Text::of(alloc, word)?;
    Ok(Outgoing::Refused { word, number })
}
