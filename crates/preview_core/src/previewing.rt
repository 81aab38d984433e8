// What a repair would come to, tried on a copy of the service.
ghost use Rattle.std.specs.Prelude.{◌≡◌, All, IfOk, IsSome, None};
ghost use Rattle.call_registers.specs.Registers.{IsTimely};
ghost use Rattle.lang_base.specs.Memory.{Unless, lacks};
ghost use Rattle.preview_core.specs.Differences.{LeadsTo, difference};
ghost use Rattle.preview_core.specs.Posts.{new_posts};
ghost use Rattle.preview_core.specs.Previews.{HasReplay, IsPreview, IsPreviewAtMost, IsReplayOf, IsShown, ShowsTrials, not_ready, preview_memory, rows_of};
ghost use Rattle.preview_core.specs.Repairs.{AreResponses, HaveRunAtMost, HaveRunUntilIdle, response_of};

use crate::difference::difference;
use crate::posts::new_posts;
use crate::ready::not_ready;
use crate::refused::PreviewRefused;
use crate::responses::responses;
use crate::stepping::{look_at, step_until_idle};
use crate::told::Preview;
use crate::trial::Trials;
use crate::trying::try_all;
use lang_base::both;
use lang_core::{Copied, NoMemory, Text, Writes};
use service_core::Service;
use std::alloc::Global;

// The writes that lead from the rows of one service to those of the other.
fn changed_rows(alloc: Global, before: &Service, after: &Service) -> Result<Writes, NoMemory>
    ensures same { IfOk result (λ writes. writes ≡ difference (rows_of before.now) (rows_of after.now)) }
    ensures leads { IfOk result (λ writes. LeadsTo (rows_of before.now) (rows_of after.now) writes) }
{
    let (old, new) = both(before.rows(alloc), after.rows(alloc))?;
    difference(alloc, &old, &new)
}

// What is told of a service and of what it would be, where these entries ran.
fn told(alloc: Global, before: &Service, after: &Service, ids: &[u64]) -> Result<Preview, NoMemory>
    requires { All (λ id. IsSome (response_of id after.now)) ids.now }
    ensures ran { IfOk result (λ p. AreResponses after.now ids.now p.ran) }
    ensures rows { IfOk result (λ p. p.rows ≡ difference (rows_of before.now) (rows_of after.now)) }
    ensures leads { IfOk result (λ p. LeadsTo (rows_of before.now) (rows_of after.now) p.rows) }
    ensures posts { IfOk result (λ p. p.posts ≡ new_posts before.now after.now) }
{
    let ran = responses(alloc, after, ids);
    let rows = changed_rows(alloc, before, after);
    let posts = new_posts(alloc, before, after);
    let (ran, (rows, posts)) = both(ran, both(rows, posts))?;
    Ok(Preview { ran, rows, posts })
}

// The trials were orders of this copy, which steps until it is idle.
fn repair(alloc: Global, service: &Service, copy: &mut Service) -> Result<Preview, NoMemory>
    requires { IsTimely copy.old.registers }
    ensures shown { IfOk result (IsShown HaveRunUntilIdle service.now copy.old) }
    ensures within { IfOk result (IsShown HaveRunAtMost service.now copy.old) }
    ensures replay { IfOk result (IsReplayOf service.now copy.old) }
{
    let ids = step_until_idle(alloc, copy)?;
    look_at(copy);
    told(alloc, service, copy, ids.as_slice())
}

fn try_repair(
    alloc: Global,
    service: &Service,
    copy: &mut Service,
    trials: &Trials,
    who: &Text,
) -> Result<Preview, PreviewRefused>
    requires ready { not_ready service.now ≡ None }
    requires same { copy.old ≡ service.now }
    ensures exact { Unless (lacks preview_memory result) (ShowsTrials HaveRunUntilIdle service.now trials.now who.now result) Unit }
    ensures within { Unless (lacks preview_memory result) (ShowsTrials HaveRunAtMost service.now trials.now who.now result) Unit }
    ensures replay { IfOk result (HasReplay service.now trials.now who.now) }
{
    match try_all(alloc, copy, service.journal(), trials.as_slice(), who) {
        Ok(()) => Ok(repair(alloc, service, copy)?),
        Err(why) => Err(why),
    }
}

fn preview_ready(
    alloc: Global,
    service: &Service,
    trials: &Trials,
    who: &Text,
) -> Result<Preview, PreviewRefused>
    requires { not_ready service.now ≡ None }
    ensures exact { Unless (lacks preview_memory result) (ShowsTrials HaveRunUntilIdle service.now trials.now who.now result) Unit }
    ensures within { Unless (lacks preview_memory result) (ShowsTrials HaveRunAtMost service.now trials.now who.now result) Unit }
    ensures replay { IfOk result (HasReplay service.now trials.now who.now) }
{
    let mut copy = service.copied(alloc)?;
    try_repair(alloc, service, &mut copy, trials, who)
}

/// What would come of these orders of a user, given one behind another, and of repair steps until one is idle: which requests
/// would run again, how the rows would differ, and which posts would be outstanding. All is done on a copy, and the service
/// stays. The trials' tokens are the first ones of `p1`, `p2`, `p3` and so on that no order of the service had.
pub fn preview(
    alloc: Global,
    service: &Service,
    trials: &Trials,
    who: &Text,
) -> Result<Preview, PreviewRefused>
    ensures exact { Unless (lacks preview_memory result) (IsPreview service.now trials.now who.now result) Unit }

    // There are at most as many steps as entries that aren't folded.
    ensures within { Unless (lacks preview_memory result) (IsPreviewAtMost service.now trials.now who.now result) Unit }

    // The writes shown lead to the rows of a replay of the log that the trials leave, from those that folded entries left on.
    ensures replay { IfOk result (HasReplay service.now trials.now who.now) }
{
    match not_ready(service) {
        Some(why) => Err(why),
        None => preview_ready(alloc, service, trials, who),
    }
}
