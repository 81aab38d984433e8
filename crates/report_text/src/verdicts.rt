// Verdicts as texts.
ghost use Rattle.std.specs.Prelude.{◌≡◌, ◌++◌, OnOk, IfOk, length, string_bytes};
ghost use Rattle.report_text.specs.Reports.{IsVerdictOver, outstanding_text, verdict_text};

use journal_rows::{Outstanding, Verdict};
use lang_core::{Name, Names, NoMemory, Text};
use request_names::push_id;
use std::alloc::Global;

fn push_outstanding(text: &mut String, service: &Name, what: Outstanding) -> Result<(), NoMemory>
    ensures { OnOk result (string_bytes text.new ≡ string_bytes text.old ++ outstanding_text service.now what) }
{
    match what {
        Outstanding::Flight(number) => {
            text.push_str("flight ")?;
            push_id(text, service, number)
        }
        Outstanding::Stale(number) => {
            text.push_str("stale ")?;
            push_id(text, service, number)
        }
        Outstanding::Call(number) => {
            text.push_str("call ")?;
            push_id(text, service, number)
        }
        Outstanding::Fetch(number) => {
            text.push_str("fetch ")?;
            push_id(text, service, number)
        }
        Outstanding::Answer(number) => {
            text.push_str("answer ")?;
            push_id(text, service, number)
        }
    }
}

/// The verdict of an audit over services of these names: the line `legal`, `forged S/I` with the index of the row, or
/// `unsettled KIND S/N`, where the kind is `flight`, `stale`, `call`, `fetch` or `answer`.
pub fn verdict_text(alloc: Global, names: &Names, verdict: &Verdict) -> Result<Text, NoMemory>
    requires { IsVerdictOver (length names.now) verdict.now }
    ensures { IfOk result (λ text. text ≡ verdict_text names.now verdict.now) }
{
    let mut line = String::new(alloc);
    match *verdict {
        Verdict::Legal => line.push_str("legal\n")?,
        Verdict::Forged { at, index } => {
            line.push_str("forged ")?;
            push_id(&mut line, &names.as_slice()[at as usize], index)?;
            line.push_str("\n")?;
        }
        Verdict::Unsettled { at, what } => {
            line.push_str("unsettled ")?;
            push_outstanding(&mut line, &names.as_slice()[at as usize], what)?;
            line.push_str("\n")?;
        }
    }
    Text::shared(line)
}
