// The words with which a service tells why bytes were no message, or no message for it.
ghost use Rattle.std.specs.Prelude.{◌≡◌};
ghost use Rattle.std.specs.Option.{ForSome, option_map};
ghost use Rattle.wire_words.specs.Words.{IsFrontWord, IsLone, IsWireWord, front_word, wire_word};

use http_front::FrontRefused;
use repair_messages::RefusalWord;
use wire_fields::{UnreadWord, WireRefused};

/// The word that tells why no HTTP message was read; None exactly where it was cut, or its source failed: then nothing is
/// answered. No two of the others have one word.
#[tactic(auto, using(crate::proofs::WordLaws::front_apart), unfolding(wire_fields::specs::Words::lone_status, wire_fields::specs::Unread::unread_word, repair_messages::specs::Refusals::word_said))]
pub fn front_word(why: FrontRefused) -> Option<&'static str>
    ensures word { option_map (λ word. word.now) result ≡ front_word why }
    ensures apart { IsFrontWord why }
    ensures lone { ForSome (front_word why) IsLone }
{
    match why {
        FrontRefused::NoMemory => Some(RefusalWord::NoMemory.text()),
        FrontRefused::ReadFault | FrontRefused::Cut(_) => None,
        FrontRefused::BadHead => Some(UnreadWord::Head.text()),
        FrontRefused::HeadTooLong => Some(UnreadWord::HeadTooLong.text()),
        FrontRefused::BodyTooLong => Some(UnreadWord::Body.text()),
        FrontRefused::Coding => Some(UnreadWord::Coding.text()),
        FrontRefused::BadLength => Some(UnreadWord::Length.text()),
        FrontRefused::NotText => Some(UnreadWord::Text.text()),
        FrontRefused::Method => Some(UnreadWord::Method.text()),
    }
}

/// The word that tells why an HTTP message is no message between services. Which header field was missing or bad isn't
/// told; apart from that no two have one word.
#[tactic(auto, using(crate::proofs::WordLaws::wire_apart), unfolding(wire_fields::specs::Words::lone_status, wire_fields::specs::Unread::unread_word, repair_messages::specs::Refusals::word_said))]
pub fn wire_word(why: WireRefused) -> &'static str
    ensures word { result.now ≡ wire_word why }
    ensures apart { IsWireWord why }
    ensures lone { IsLone result.now }
{
    match why {
        WireRefused::NoMemory => RefusalWord::NoMemory.text(),
        WireRefused::MissingHeader(_) => UnreadWord::Missing.text(),
        WireRefused::BadHeader(_) => UnreadWord::Bad.text(),
        WireRefused::UnknownKind => UnreadWord::Kind.text(),
        WireRefused::Seal => UnreadWord::Seal.text(),
    }
}
