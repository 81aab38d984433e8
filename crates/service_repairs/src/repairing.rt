// A repair step.
ghost use Rattle.std.specs.Prelude.{◌≡◌, Ok};
ghost use Rattle.local_repair.specs.Current.{AllCurrent};
ghost use Rattle.service_events.specs.State.{answers, base, unfolded};
ghost use Rattle.service_parts.specs.Parts.{kept};
ghost use Rattle.service_parts.specs.Services.{IsService};
ghost use Rattle.service_repairs.specs.Answers.{IsChecked, Steps};

use crate::step_drafts::repair;
use lang_core::NoMemory;
use local_repair::Stepped;
use service_parts::Parts;
use std::alloc::Global;

/// Runs the first stale entry again, if there is one, and settles its calls. So many of the log's first entries are known to be
/// current, and aren't looked at; how many are it afterwards is noted.
pub fn repair_step(
    alloc: Global,
    parts: &mut Parts,
    checked: &mut usize,
) -> Result<Stepped, NoMemory>
    requires service { IsService parts.old }
    requires checked { IsChecked (kept parts.old) checked.old }
    ensures checked { IsChecked (kept parts.new) checked.new }
    ensures steps { Steps (kept parts.old) result (kept parts.new) }
    ensures free { AllCurrent (answers (kept parts.old)) (base (kept parts.old)) (unfolded (kept parts.old)) → result ≡ Ok Stepped.Idle }
    ensures service { IsService parts.new }
{
    repair(alloc, parts, checked)
}
