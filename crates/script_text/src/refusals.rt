// Refusals in a line, and how a line ends.
ghost use Rattle.std.specs.Prelude.{◌≡◌, ◌++◌, OnOk, string_bytes};
ghost use Rattle.script_text.specs.Happenings.{arrow, carried, ending, number_behind, refusal_told, refused_line};

use lang_core::{Name, NoMemory};
use repair_messages::Refusal;

/// Puts the packet that was written last in a line.
pub fn push_arrow(text: &mut String, packet: Option<u64>) -> Result<(), NoMemory>
    ensures { OnOk result (string_bytes text.new ≡ string_bytes text.old ++ arrow packet) }
{
    if let Some(number) = packet {
        write!(text, " -> p{number}")?;
    }
    Ok(())
}

/// Ends a line.
pub fn push_ending(text: &mut String, packet: Option<u64>) -> Result<(), NoMemory>
    ensures { OnOk result (string_bytes text.new ≡ string_bytes text.old ++ ending packet) }
{
    push_arrow(text, packet)?;
    text.push_str("\n")?;
    Ok(())
}

fn push_number(text: &mut String, number: Option<u64>) -> Result<(), NoMemory>
    ensures { OnOk result (string_bytes text.new ≡ string_bytes text.old ++ number_behind number) }
{
    if let Some(number) = number {
        write!(text, " {number}")?;
    }
    Ok(())
}

/// Puts the line of a refusal last that this word tells, and a number where it has one.
pub fn push_refused_so(
    text: &mut String,
    service: &Name,
    word: &str,
    number: Option<u64>,
    packet: Option<u64>,
) -> Result<(), NoMemory>
    ensures { OnOk result (string_bytes text.new ≡ string_bytes text.old
        ++ refused_line service.now (word.now, number) packet) }
{
    let service = service.as_str();
    write!(text, "{service} refused {word}")?;
    push_number(text, number)?;
    push_ending(text, packet)
}

fn carried(why: Refusal) -> Option<u64>
    ensures { result ≡ carried why }
{
    if why.word.has_number() {
        Some(why.number)
    } else {
        None
    }
}

/// Puts the line of a refusal last.
pub fn push_refused(
    text: &mut String,
    service: &Name,
    why: Refusal,
    packet: Option<u64>,
) -> Result<(), NoMemory>
    ensures { OnOk result (string_bytes text.new ≡ string_bytes text.old
        ++ refused_line service.now (refusal_told why) packet) }
{
    push_refused_so(text, service, why.word.text(), carried(why), packet)
}
