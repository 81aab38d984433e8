// What a run has so far, and what it comes to.
use lang_core::{Answers, CallMade, Calls, Response, Trace, Writes};
use lang_values::{Fault, Recorded, Variables};

/// What a run has so far: its variables, its own writes, the reads that it recorded, its calls and the
/// answers that they took, how many random words it drew, and how many steps it began.
#[derive(Drop)]
pub struct State {
    pub vars: Variables,
    pub own: Writes,
    pub reads: Recorded,
    pub calls: Calls,
    pub answers: Answers,
    pub drawn: u64,
    pub steps: u64,
}

/// How a statement or a block ends.
#[derive(Drop)]
pub enum Flow {
    GoesOn,
    Replied(Response),
    Wants(CallMade),
    Faulted(Fault),
}

/// What a run comes to.
#[derive(Drop)]
pub enum Ran {
    /// It ended, with as many answers as calls.
    Done(Trace),
    /// It made these calls, whose answers it had, and wants the answer of one more; the slot is their number.
    Wants {
        slot: u64,
        calls: Calls,
        call: CallMade,
    },
}
