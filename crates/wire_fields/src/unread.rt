// The words of refusals that no service means: the one place where each is spelled, with its status.
ghost use Rattle.std.specs.Prelude.{◌≡◌, find};
ghost use Rattle.std.specs.Option.{option_copied};
ghost use Rattle.wire_fields.specs.Unread.{is_spelled, unread_status, unread_text, unread_word};

/// Why bytes were no message, or no message for who reads them, in one word. It has no number.
#[derive(Clone, Copy, PartialEq, Eq)]
pub enum UnreadWord {
    /// Up to the head's end stands no head of HTTP/1.0 or HTTP/1.1, or a request's target is no path.
    Head,
    /// The head's end doesn't stand within as many bytes as a head may have.
    HeadTooLong,
    /// A `Content-Length` isn't of its form, or two of them differ.
    Length,
    /// The body isn't UTF-8.
    Text,
    /// The body has more bytes than it may have.
    Body,
    /// There is a `Transfer-Encoding`.
    Coding,
    /// The method is none of the four.
    Method,
    /// A header field that the message must have isn't there.
    Missing,
    /// A header field is there twice, or isn't of its form, or doesn't fit the message; or an operator's body is ill.
    Bad,
    /// There is no such kind of request.
    Kind,
    /// The seal isn't that of these bytes, or the sender is no peer.
    Seal,
}

/// All of them, in the order of the table.
const UNREAD: [UnreadWord; 11] = [
    UnreadWord::Head,
    UnreadWord::HeadTooLong,
    UnreadWord::Length,
    UnreadWord::Text,
    UnreadWord::Body,
    UnreadWord::Coding,
    UnreadWord::Method,
    UnreadWord::Missing,
    UnreadWord::Bad,
    UnreadWord::Kind,
    UnreadWord::Seal,
];

fn spelled<'a>(words: &'a [UnreadWord], text: &str) -> Option<&'a UnreadWord>
    ensures { option_copied result ≡ find (is_spelled text.now) words.now }
{
    words.iter().find(|word| word.text() == text)
}

impl UnreadWord {
    /// The word that is spelled so, if one is.
    #[tactic(auto, unfolding(crate::specs::Unread::unread_word))]
    pub fn named(text: &str) -> Option<UnreadWord>
        ensures { result ≡ unread_word text.now }
    {
        spelled(UNREAD.as_slice(), text).copied()
    }

    /// How it is spelled.
    pub fn text(self) -> &'static str
        ensures { result.now ≡ unread_text self }
    {
        match self {
            UnreadWord::Head => "head",
            UnreadWord::HeadTooLong => "headlong",
            UnreadWord::Length => "length",
            UnreadWord::Text => "text",
            UnreadWord::Body => "body",
            UnreadWord::Coding => "coding",
            UnreadWord::Method => "method",
            UnreadWord::Missing => "missing",
            UnreadWord::Bad => "bad",
            UnreadWord::Kind => "kind",
            UnreadWord::Seal => "seal",
        }
    }

    /// The status of the HTTP response that refuses so.
    pub fn status(self) -> u16
        ensures { result ≡ unread_status self }
    {
        match self {
            UnreadWord::Seal => 403,
            UnreadWord::Body => 413,
            UnreadWord::Coding | UnreadWord::Method => 501,
            _ => 400,
        }
    }
}
