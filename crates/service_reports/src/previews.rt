// What is shown of the preview of one order.
ghost use Rattle.std.specs.Prelude.{◌≡◌, [], ◌∷◌, Some, IfOk};
ghost use Rattle.lang_base.specs.Memory.{Unless, lacks};
ghost use Rattle.preview_core.specs.Previews.{preview_memory};
ghost use Rattle.service_reports.specs.Previews.{IsPreviewOf, IsPreviewUntilIdle, IsShownOf, IsShownUntilIdle, reason};

use crate::lines::shown_lines;
use lang_core::{NoMemory, Text};
use preview_core::{Preview, PreviewRefused, Service, Trial, Trials, preview};
use service_events::OrderRefused;
use std::alloc::Global;

/// Why nothing is shown. It is tested in this order.
#[derive(Clone, Copy)]
pub enum Unshown {
    /// A live request waits for a call, or an entry is stale.
    NotIdle,
    /// The call of this number holds an answer to a later version of it than its own; it is the least such number.
    Untimely(u64),
    /// The order would be refused so.
    Order(OrderRefused),
}

fn alone(alloc: Global, trial: Trial) -> Result<Trials, NoMemory>
    ensures { IfOk result (λ trials. trials ≡ trial ∷ []) }
{
    let mut trials = Trials::new(alloc);
    trials.push(trial)?;
    Ok(trials)
}

// What would come of this order alone, given by this user.
fn preview_of(
    alloc: Global,
    service: &Service,
    trial: Trial,
    who: &Text,
) -> Result<Preview, PreviewRefused>
    ensures exact { Unless (lacks preview_memory result) (IsPreviewUntilIdle trial who.now service.now result) Unit }
    ensures within { Unless (lacks preview_memory result) (IsPreviewOf trial who.now service.now result) Unit }
{
    let trials = alone(alloc, trial)?;
    preview(alloc, service, &trials, who)
}

fn reason(why: PreviewRefused) -> Result<Unshown, NoMemory>
    ensures { IfOk result (λ told. reason why ≡ Some told) }
{
    match why {
        PreviewRefused::NoMemory => Err(NoMemory),
        PreviewRefused::NotIdle(_) => Ok(Unshown::NotIdle),
        PreviewRefused::Order { at: _, refused } => Ok(Unshown::Order(refused)),
        PreviewRefused::Untimely(number) => Ok(Unshown::Untimely(number)),
    }
}

/// What would come of this order, given by this user, and of repair steps until one is idle, as lines, or why nothing is shown.
/// The service stays.
#[tactic(auto, using(crate::proofs::PreviewLemmas::lines_shown, crate::proofs::PreviewLemmas::lines_until, crate::proofs::PreviewLemmas::reason_shown, crate::proofs::PreviewLemmas::reason_until))]
pub fn trial_shown(
    alloc: Global,
    service: &Service,
    trial: Trial,
    who: &Text,
) -> Result<Result<Text, Unshown>, NoMemory>
    ensures exact { IfOk result (IsShownUntilIdle trial who.now service.now) }

    // There are at most as many steps as entries.
    ensures within { IfOk result (IsShownOf trial who.now service.now) }
{
    match preview_of(alloc, service, trial, who) {
        Ok(shown) => Ok(Ok(shown_lines(alloc, service, &shown)?)),
        Err(why) => Ok(Err(reason(why)?)),
    }
}
