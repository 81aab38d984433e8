// What a script counts, and what a line says.
ghost use Rattle.std.specs.Prelude.{◌≡◌};
ghost use Rattle.script_run.specs.Counting.{both, counted, line_counts, no_counts, printed};

use crate::printed::Printed;

/// What a script counts. A count that stands at the greatest number of 64 bits stays there.
#[derive(Clone, Copy, PartialEq, Eq)]
pub struct Counts {
    /// Its lines, those that say nothing among them.
    pub lines: u64,
    /// Its `cancel` lines whose order was accepted.
    pub cancelled: u64,
    /// Of its `settle` lines the rounds that did something.
    pub rounds: u64,
    /// The runs in those rounds.
    pub runs: u64,
    /// The posts in those rounds.
    pub posts: u64,
}

impl Counts {
    /// Of nothing.
    pub(crate) fn none() -> Counts
        ensures { result ≡ no_counts }
    {
        Counts {
            lines: 0,
            cancelled: 0,
            rounds: 0,
            runs: 0,
            posts: 0,
        }
    }

    /// Of one line, which counts as nothing else.
    pub(crate) fn of_line() -> Counts
        ensures { result ≡ line_counts }
    {
        Counts {
            lines: 1,
            cancelled: 0,
            rounds: 0,
            runs: 0,
            posts: 0,
        }
    }

    /// Both together.
    pub(crate) fn and(self, other: Counts) -> Counts
        ensures { result ≡ counted (both self other) }
    {
        Counts {
            lines: self.lines.saturating_add(other.lines),
            cancelled: self.cancelled.saturating_add(other.cancelled),
            rounds: self.rounds.saturating_add(other.rounds),
            runs: self.runs.saturating_add(other.runs),
            posts: self.posts.saturating_add(other.posts),
        }
    }
}

/// What a line says: what it prints, and what it counts.
#[derive(Drop)]
pub struct Said {
    pub text: Printed,
    pub counts: Counts,
}

impl Said {
    /// What a line prints that counts as a line and as nothing else.
    pub(crate) fn printed(text: Printed) -> Said
        ensures { result ≡ printed text }
    {
        Said {
            text,
            counts: Counts::of_line(),
        }
    }
}
