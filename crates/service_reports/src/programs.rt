// The programs of a service, and its rules, as a text.
ghost use Rattle.std.specs.Prelude.{◌≡◌, ◌++◌, IfOk, OnOk, string_bytes};
ghost use Rattle.std.specs.List.{flat_map};
ghost use Rattle.service_reports.specs.Programs.{counts_text, newest_behind, program_line, programs_of_service, rules_line};

use lang_core::{NoMemory, Text};
use preview_core::{ProgramInUse, Service};
use report_text::push_body_behind;
use std::alloc::Global;

fn push_counts(text: &mut String, program: &ProgramInUse) -> Result<(), NoMemory>
    ensures { OnOk result (string_bytes text.new ≡ string_bytes text.old ++ counts_text program.now) }
{
    let number = program.program.get().number;
    let entries = program.entries;
    let flights = program.flights;
    write!(text, "program {number} entries {entries} flights {flights}")?;
    Ok(())
}

fn push_newest(text: &mut String, is_newest: bool) -> Result<(), NoMemory>
    ensures { OnOk result (string_bytes text.new ≡ string_bytes text.old ++ newest_behind is_newest) }
{
    if is_newest {
        text.push_str(" newest")?;
    }
    Ok(())
}

fn push_program(text: &mut String, newest: u64, program: &ProgramInUse) -> Result<(), NoMemory>
    ensures { OnOk result (string_bytes text.new ≡ string_bytes text.old ++ program_line newest program.now) }
{
    let kept = program.program.get();
    push_counts(text, program)?;
    push_newest(text, kept.number == newest)?;
    push_body_behind(text, kept.text.get().text().as_str())?;
    text.push_str("\n")?;
    Ok(())
}

fn push_programs(text: &mut String, newest: u64, programs: &[ProgramInUse]) -> Result<(), NoMemory>
    ensures { OnOk result (string_bytes text.new ≡ string_bytes text.old ++ flat_map (program_line newest) programs.now) }
{
    for program in programs {
        push_program(text, newest, program)?;
    }
    Ok(())
}

fn push_rules(text: &mut String, service: &Service) -> Result<(), NoMemory>
    ensures { OnOk result (string_bytes text.new ≡ string_bytes text.old ++ rules_line service.now.rules) }
{
    text.push_str("rules")?;
    push_body_behind(text, service.rules().text().as_str())?;
    text.push_str("\n")?;
    Ok(())
}

/// The programs that its entries and its flights have, and the newest, a line for each by its number:
/// `program K entries E flights F TEXT`, with `newest` behind the newest one's F; and behind them `rules TEXT`. E counts the
/// entries that have it and aren't folded, F the flights. A program's text is as it is printed, that of rules as they were given.
pub fn programs_of(alloc: Global, service: &Service) -> Result<Text, NoMemory>
    ensures { IfOk result (λ text. text ≡ programs_of_service service.now) }
{
    let programs = service.programs(alloc)?;
    let mut lines = String::new(alloc);
    push_programs(
        &mut lines,
        service.newest().get().number(),
        programs.as_slice(),
    )?;
    push_rules(&mut lines, service)?;
    Text::shared(lines)
}
