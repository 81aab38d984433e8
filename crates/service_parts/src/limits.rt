// How much there is where there is too much.
ghost use Rattle.std.specs.Prelude.{◌≡◌, ◌≤◌};
ghost use Rattle.service_events.specs.Orders.{is_programmed};
ghost use Rattle.service_events.specs.State.{in_all, is_crowded, is_heavy};
ghost use Rattle.service_parts.specs.Parts.{kept};

use crate::parts::Parts;
use request_log::MOST_ENTRIES;

/// The most programs that a service may have had.
pub const MOST_PROGRAMS: u64 = 10_000;

/// How many entries that aren't folded and flights there are, where there is no place for one more.
#[tactic(auto, using(crate::proofs::WholeLemmas::in_all_is))]
pub fn is_crowded(parts: &Parts) -> Option<u64>
    requires { in_all (kept parts.now) ≤ 100000 }
    ensures { result ≡ is_crowded (kept parts.now) }
{
    let in_all = parts.repairer.log().len() + parts.flights.len();
    if in_all >= MOST_ENTRIES {
        Some(in_all)
    } else {
        None
    }
}

/// What the journal weighs, where that has reached what it may weigh.
pub fn is_heavy(parts: &Parts) -> Option<u64>
    ensures { result ≡ is_heavy (kept parts.now) }
{
    let weight = parts.journal.weight();
    if weight >= parts.setting.weight {
        Some(weight)
    } else {
        None
    }
}

/// How many programs there may be, where there are as many.
pub fn is_programmed(parts: &Parts) -> Option<u64>
    ensures { result ≡ is_programmed (kept parts.now) }
{
    if parts.journal.programs() >= MOST_PROGRAMS {
        Some(MOST_PROGRAMS)
    } else {
        None
    }
}
