// What became of a connection.
use http_front::{FrontRefused, WireResponse};
use wire_fields::{ConsoleRequest, WireRefused};

/// What became of a connection that was served.
#[derive(Drop)]
pub enum Served {
    /// A live request was committed, its answer stands at this index of the journal, and the receipt's reply was written.
    Committed(u64),
    /// This was written, without a commit: a known answer, an acknowledgement, a confirmation, a refusal, or a reply to an
    /// operator.
    Said(WireResponse),
    /// An operator asks for what the workers answer: a preview, an audit or the end. Nothing was written.
    Console(ConsoleRequest),
    /// The bytes are no HTTP request. Its word was written, but for a cut and a fault of the connection.
    FrontRefused(FrontRefused),
    /// The request is no message for this service. Its word was written.
    WireRefused(WireRefused),
    /// The request's flight is gone. Nothing was written.
    Gone,
    /// A write failed. Of the reply a front was written, perhaps nothing.
    WriteFault,
    /// No memory for it. Nothing was committed or written, but an operator's order may have been made.
    NoMemory,
}
