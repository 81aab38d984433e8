// The words of a line.
ghost use Rattle.std.specs.Prelude.{◌≡◌, ◌++◌, OnOk, codes, string_bytes};
ghost use Rattle.std.specs.List.{flat_map};
ghost use Rattle.dump_lines.specs.Dumps.{digit_of, inputs_text, names_text, number_behind, origin_text, request_text};

use lang_core::{Inputs, Name, Names, NoMemory, Origin, Request};
use report_text::{push_asked, push_body_behind};
use request_names::push_id;

fn push_more_names(text: &mut String, names: &[Name]) -> Result<(), NoMemory>
    ensures { OnOk result (string_bytes text.new ≡ string_bytes text.old ++ flat_map (λ n. codes "," ++ n) names.now) }
{
    for name in names {
        text.push_str(",")?;
        text.push_str(name.as_str())?;
    }
    Ok(())
}

/// Puts names last, with commas between them; a `-` where there are none.
pub(crate) fn push_names(text: &mut String, names: &Names) -> Result<(), NoMemory>
    ensures { OnOk result (string_bytes text.new ≡ string_bytes text.old ++ names_text names.now) }
{
    match names.as_slice().split_first() {
        None => {
            text.push_str("-")?;
            Ok(())
        }
        Some((first, others)) => {
            text.push_str(first.as_str())?;
            push_more_names(text, others)
        }
    }
}

/// 1 for yes and 0 for no.
pub(crate) fn digit_of(yes: bool) -> &'static str
    ensures { result.now ≡ digit_of yes }
{
    if yes { "1" } else { "0" }
}

/// Puts an origin last: `out`, or the name of the call.
pub(crate) fn push_origin(text: &mut String, origin: &Origin) -> Result<(), NoMemory>
    ensures { OnOk result (string_bytes text.new ≡ string_bytes text.old ++ origin_text origin.now) }
{
    match origin {
        Origin::Outside => {
            text.push_str("out")?;
            Ok(())
        }
        Origin::Call { caller, number } => push_id(text, caller, *number),
    }
}

fn push_number(text: &mut String, number: u64) -> Result<(), NoMemory>
    ensures { OnOk result (string_bytes text.new ≡ string_bytes text.old ++ number_behind number) }
{
    write!(text, " {number}")?;
    Ok(())
}

fn push_numbers(text: &mut String, numbers: &[u64]) -> Result<(), NoMemory>
    ensures { OnOk result (string_bytes text.new ≡ string_bytes text.old ++ flat_map number_behind numbers.now) }
{
    for number in numbers {
        push_number(text, *number)?;
    }
    Ok(())
}

/// Puts the moment and the eight words last, each behind a space.
pub(crate) fn push_inputs(text: &mut String, inputs: &Inputs) -> Result<(), NoMemory>
    ensures { OnOk result (string_bytes text.new ≡ string_bytes text.old ++ inputs_text inputs.now) }
{
    let numbers = [
        inputs.moment,
        inputs.w1,
        inputs.w2,
        inputs.w3,
        inputs.w4,
        inputs.w5,
        inputs.w6,
        inputs.w7,
        inputs.w8,
    ];
    push_numbers(text, &numbers)
}

/// Puts a request last, behind a space: ` METHOD PATH WHO CHAIN BODY`.
pub(crate) fn push_request(text: &mut String, request: &Request) -> Result<(), NoMemory>
    ensures { OnOk result (string_bytes text.new ≡ string_bytes text.old ++ request_text request.now) }
{
    text.push_str(" ")?;
    push_asked(text, request)?;
    let who = request.who.as_str();
    write!(text, " {who} ")?;
    push_names(text, &request.chain)?;
    push_body_behind(text, request.body.as_str())
}
