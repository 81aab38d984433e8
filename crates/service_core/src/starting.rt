// What a service begins with.
ghost use Rattle.std.specs.Prelude.{◌≡◌, IfOk};

use authorise_rules::GivenRules;
use lang_core::{Copied, NoMemory, Setting, Shared};
use lang_programs::Deployed;
use std::alloc::Global;

/// The program of its setting, which has number 1.
pub(crate) fn first_program(alloc: Global, setting: &Setting) -> Result<Shared<Deployed>, NoMemory>
    ensures { IfOk result (λ program. program ≡ record { number = 1; program = setting.now.program }) }
{
    let program = setting.program.copied(alloc)?;
    Deployed::of(alloc, 1, program)
}

/// The rules with which it begins, and those by which it allows repairs: they are the same.
pub(crate) fn first_rules(
    alloc: Global,
    rules: GivenRules,
) -> Result<(Shared<GivenRules>, Shared<GivenRules>), NoMemory>
    ensures { IfOk result (λ pair. (pair.0 ≡ rules) × (pair.1 ≡ rules)) }
{
    let began = Shared::new(alloc, rules)?;
    let now = began.copied(alloc)?;
    Ok((began, now))
}
