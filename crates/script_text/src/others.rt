// Steps, orders and abandonments in a line.
ghost use Rattle.std.specs.Prelude.{◌≡◌, ◌++◌, None, OnOk, Some, string_bytes, true};
ghost use Rattle.std.specs.Option.{option_map};
ghost use Rattle.script_text.specs.Happenings.{abandoned_line, ordered_line, step_line};

use crate::refusals::push_refused;
use lang_core::{Name, NoMemory, Text};
use report_text::push_about;
use request_names::push_id;
use service_events::{OrderRefused, Ordered, Stepped};

fn push_ran(text: &mut String, service: &Name, id: u64) -> Result<(), NoMemory>
    ensures { OnOk result (string_bytes text.new ≡ string_bytes text.old ++ step_line service.now (Stepped.Ran id true)) }
{
    text.push_str(service.as_str())?;
    text.push_str(" ran ")?;
    push_id(text, service, id)?;
    text.push_str("\n")?;
    Ok(())
}

fn push_idle(text: &mut String, service: &Name) -> Result<(), NoMemory>
    ensures { OnOk result (string_bytes text.new ≡ string_bytes text.old ++ step_line service.now Stepped.Idle) }
{
    text.push_str(service.as_str())?;
    text.push_str(" idle\n")?;
    Ok(())
}

/// Puts the line of a repair step last.
pub fn push_stepped(text: &mut String, service: &Name, stepped: Stepped) -> Result<(), NoMemory>
    ensures { OnOk result (string_bytes text.new ≡ string_bytes text.old ++ step_line service.now stepped) }
{
    match stepped {
        Stepped::Idle => push_idle(text, service),
        Stepped::Ran { id, answered: _ } => push_ran(text, service, id),
    }
}

fn push_accepted(
    text: &mut String,
    service: &Name,
    token: &Text,
    ordered: Ordered,
) -> Result<(), NoMemory>
    ensures { OnOk result (string_bytes text.new ≡ string_bytes text.old
        ++ ordered_line service.now (Some token.now) (Ok ordered) None) }
{
    let name = service.as_str();
    let token = token.as_str();
    let rule = ordered.rule;
    write!(text, "{name} ordered {token} ")?;
    push_about(text, service, ordered.about)?;
    write!(text, " rule {rule}\n")?;
    Ok(())
}

/// Puts the line of an order last.
pub fn push_ordered(
    text: &mut String,
    service: &Name,
    token: Option<&Text>,
    ordered: Result<Ordered, OrderRefused>,
    packet: Option<u64>,
) -> Result<(), NoMemory>
    ensures { OnOk result (string_bytes text.new ≡ string_bytes text.old
        ++ ordered_line service.now (option_map (λ token. token.now) token.entry) ordered packet) }
{
    match (ordered, token) {
        (Ok(ordered), Some(token)) => push_accepted(text, service, token, ordered),
        (Ok(_), None) => Ok(()),
        (Err(why), _) => push_refused(text, service, why.refusal(), packet),
    }
}

/// Puts the line of a flight last that was given up, if it was there.
pub fn push_abandoned(
    text: &mut String,
    service: &Name,
    flight: Option<u64>,
    was_there: bool,
) -> Result<(), NoMemory>
    ensures { OnOk result (string_bytes text.new ≡ string_bytes text.old
        ++ abandoned_line service.now flight was_there) }
{
    if let (Some(flight), true) = (flight, was_there) {
        let service = service.as_str();
        write!(text, "{service} abandoned f{flight}\n")?;
    }
    Ok(())
}
