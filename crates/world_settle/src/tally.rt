// What is counted on the way.
ghost use Rattle.std.specs.Prelude.{◌≡◌, false, if◌then◌else◌};
ghost use Rattle.call_registers.specs.Changes.{raised};
ghost use Rattle.world_settle.specs.Doing.{noted};

use crate::came::{is_post, is_run};
use world_core::What;

/// What was counted so far. A count that stands at the greatest number of 64 bits stays there.
#[derive(Clone, Copy)]
pub(crate) struct Tally {
    /// The entries that ran again.
    pub runs: u64,
    /// The posts that were written.
    pub posts: u64,
    /// Whether there was one of either since this was last set back.
    pub works: bool,
}

/// One more, where it is to rise; a number that stands at the greatest of 64 bits stays.
pub(crate) fn raised_if(raise: bool, n: u64) -> u64
    ensures { result ≡ (if raise then raised n else n) }
{
    if raise { n.saturating_add(1) } else { n }
}

impl Tally {
    /// Nothing was counted.
    pub(crate) fn new() -> Tally
        ensures { result ≡ record { runs = 0; posts = 0; works = false } }
    {
        Tally {
            runs: 0,
            posts: 0,
            works: false,
        }
    }

    /// What came of an event is counted.
    pub(crate) fn note(&mut self, what: What)
        ensures { self.new ≡ noted self.old what }
    {
        let ran = is_run(what);
        let posted = is_post(what);
        self.runs = raised_if(ran, self.runs);
        self.posts = raised_if(posted, self.posts);
        self.works = ran || posted || self.works;
    }
}
