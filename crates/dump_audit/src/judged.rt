// What a dump is found to be.
use lang_core::Name;

/// In what a dump isn't a legal execution.
#[derive(Clone, Copy, PartialEq, Eq, Debug)]
pub enum Fault {
    /// The run of an entry with the answers that it consumed calls otherwise, or wants an answer more.
    Calls,
    /// It calls so, and answers otherwise; or no answer is told.
    Reply,
    /// The rows aren't those that the entries leave.
    Rows,
    /// A call of an entry that survives has no entry at its destination, or more than one, or one that isn't wanted, asks
    /// something else or answers otherwise.
    Answer,
    /// An entry that a call wants is called for by no entry of its caller that survives.
    Stray,
}

/// What a dump is found to be.
#[derive(Drop)]
pub enum Judged {
    /// A legal execution.
    Legal,
    /// None, for this fault first: at this entry of this service, or at its rows, where the number is 0.
    Differs { service: Name, id: u64, what: Fault },
}
