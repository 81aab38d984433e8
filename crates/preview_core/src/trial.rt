// Orders that are tried.
ghost use Rattle.std.specs.Prelude.{◌≡◌, IfOk};
ghost use Rattle.preview_core.specs.declared.trial.Trial.{Trial as TrialValue};
ghost use Rattle.preview_core.specs.Trials.{command_of};

use journal_rows::Command;
use lang_core::{Copied, Method, NoMemory, Seq, Shared, Text};
use lang_programs::ProgramText;
use repair_messages::copied_pair;
use std::alloc::Global;

/// An order that is tried on a copy of a service.
#[derive(Drop)]
pub enum Trial {
    /// The request of this number is struck.
    Cancel(u64),
    /// The request of this number isn't struck any more.
    Restore(u64),
    /// The request of this number gets another method, path and body.
    Replace {
        id: u64,
        method: Method,
        path: Text,
        body: Text,
    },
    /// A program stands in place of the one of this number.
    Correct(u64, Shared<ProgramText>),
}

/// Orders that are tried one behind another.
pub type Trials = Seq<Trial>;

fn copied_replace(
    alloc: Global,
    id: u64,
    method: Method,
    path: &Text,
    body: &Text,
) -> Result<Trial, NoMemory>
    ensures { IfOk result (λ trial. trial ≡ TrialValue.Replace id method path.now body.now) }
{
    let (path, body) = copied_pair(alloc, path, body)?;
    Ok(Trial::Replace {
        id,
        method,
        path,
        body,
    })
}

impl Copied for Trial {
    fn copied(&self, alloc: Global) -> Result<Trial, NoMemory> {
        match self {
            Trial::Cancel(id) => Ok(Trial::Cancel(*id)),
            Trial::Restore(id) => Ok(Trial::Restore(*id)),
            Trial::Replace {
                id,
                method,
                path,
                body,
            } => copied_replace(alloc, *id, *method, path, body),
            Trial::Correct(number, program) => Ok(Trial::Correct(*number, program.copied(alloc)?)),
        }
    }
}

fn command_in(trial: Trial) -> Command
    ensures { result ≡ command_of trial }
{
    match trial {
        Trial::Cancel(id) => Command::Cancel(id),
        Trial::Restore(id) => Command::Restore(id),
        Trial::Replace {
            id,
            method,
            path,
            body,
        } => Command::Replace {
            id,
            method,
            path,
            body,
        },
        Trial::Correct(number, program) => Command::Correct(number, program),
    }
}

/// The order that a trial is.
pub(crate) fn command_of(alloc: Global, trial: &Trial) -> Result<Command, NoMemory>
    ensures { IfOk result (λ command. command ≡ command_of trial.now) }
{
    let trial = trial.copied(alloc)?;
    Ok(command_in(trial))
}
