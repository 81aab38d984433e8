// Why a message isn't read.
use http_front::AireHeader;

/// Why an HTTP message spells no message between services.
#[derive(Clone, Copy, Debug, PartialEq, Eq)]
pub enum WireRefused {
    /// No memory for it.
    NoMemory,
    /// A header field that it must have isn't there.
    MissingHeader(AireHeader),
    /// A header field is there twice, or isn't of its form, or doesn't fit the message.
    BadHeader(AireHeader),
    /// There is no such kind of request below `/aire/`.
    UnknownKind,
    /// The seal isn't that of these bytes, or the sender is no peer.
    Seal,
}
