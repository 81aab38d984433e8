// The header fields of messages between services: one table, in the order in which they are tested, written and sealed.
ghost use Rattle.std.specs.Prelude.{◌≡◌};
ghost use Rattle.http_front.specs.Table.{spelling};

/// A header field of a message between services.
#[derive(Clone, Copy, Debug, PartialEq, Eq)]
pub enum AireHeader {
    /// The service that sends the message.
    From,
    /// The service that it is for.
    Dest,
    /// The id of a request at the service that was called.
    RequestId,
    /// The id of a call at the service that made it.
    ResponseId,
    /// Where the caller hears of new responses.
    NotifierUrl,
    /// The kind of a repair.
    Repair,
    /// A call's version.
    Version,
    /// An answer's version.
    AnswerVersion,
    /// The user or service on whose behalf the message is sent.
    Who,
    /// The desired request's method.
    Method,
    /// The desired request's path.
    Path,
    /// The desired request's user.
    RequestWho,
    /// The services that called for a request, outermost first.
    Chain,
    /// The caller's next call.
    Before,
    /// The caller's call before.
    After,
    /// The word of a refusal, and its number.
    Refused,
    /// The seal.
    Seal,
}

/// All of them, in the order of the table.
pub const AIRE_HEADERS: [AireHeader; 17] = [
    AireHeader::From,
    AireHeader::Dest,
    AireHeader::RequestId,
    AireHeader::ResponseId,
    AireHeader::NotifierUrl,
    AireHeader::Repair,
    AireHeader::Version,
    AireHeader::AnswerVersion,
    AireHeader::Who,
    AireHeader::Method,
    AireHeader::Path,
    AireHeader::RequestWho,
    AireHeader::Chain,
    AireHeader::Before,
    AireHeader::After,
    AireHeader::Refused,
    AireHeader::Seal,
];

impl AireHeader {
    /// The field's name as it is written. It is read in any case.
    pub fn spelling(self) -> &'static str
        ensures { result.now ≡ spelling self }
    {
        match self {
            AireHeader::From => "Aire-From",
            AireHeader::Dest => "Aire-Dest",
            AireHeader::RequestId => "Aire-Request-Id",
            AireHeader::ResponseId => "Aire-Response-Id",
            AireHeader::NotifierUrl => "Aire-Notifier-URL",
            AireHeader::Repair => "Aire-Repair",
            AireHeader::Version => "Aire-Version",
            AireHeader::AnswerVersion => "Aire-Answer-Version",
            AireHeader::Who => "Aire-Who",
            AireHeader::Method => "Aire-Method",
            AireHeader::Path => "Aire-Path",
            AireHeader::RequestWho => "Aire-Request-Who",
            AireHeader::Chain => "Aire-Chain",
            AireHeader::Before => "Aire-Before",
            AireHeader::After => "Aire-After",
            AireHeader::Refused => "Aire-Refused",
            AireHeader::Seal => "Aire-Seal",
        }
    }
}
