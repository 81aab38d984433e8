// The program of an entry that is made.
ghost use Rattle.std.specs.Prelude.{◌≡◌, ◌+◌, length, slice_get};
ghost use Rattle.service_events.specs.State.{program_for, program_or};
ghost use Rattle.service_parts.specs.Parts.{kept};

use crate::parts::Parts;
use lang_core::Shared;
use request_log::{Deployed, KeptEntry};

// The program of an entry that is made at this place among these, where this one is the newest.
fn program_at<'a>(
    entries: &'a [KeptEntry],
    at: u64,
    newest: &'a Shared<Deployed>,
) -> &'a Shared<Deployed>
    ensures { result.now ≡ program_or newest.now (slice_get entries.now at) }
{
    match entries.get(at as usize) {
        None => newest,
        Some(next) => next.entry().under.now(),
    }
}

/// The program of an entry that is made at a place, counted from 0 behind the folded entries: that of the entry which it stands
/// before, and the newest at the end.
#[tactic(auto, using(crate::proofs::WholeLemmas::program_behind))]
pub fn program_for(parts: &Parts, at: u64) -> &Shared<Deployed>
    ensures { result.now ≡ program_for (kept parts.now) (length parts.now.repairer.folded + at) }
{
    program_at(parts.repairer.log().as_slice(), at, &parts.newest)
}
