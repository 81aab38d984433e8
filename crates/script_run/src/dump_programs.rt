// The programs of a service.
ghost use Rattle.std.specs.Prelude.{◌≡◌, ◌++◌, OnOk, codes, string_bytes};
ghost use Rattle.std.specs.List.{flat_map};
ghost use Rattle.report_text.specs.Reports.{body_behind};
ghost use Rattle.dump_lines.specs.Dumps.{program_lines, under_line};
ghost use Rattle.script_run.specs.Dumping.{brought_line, command_line};

use handler_lang::print_program;
use journal_rows::{Command, Row};
use lang_core::{NoMemory, Text};
use report_text::push_body_behind;
use std::alloc::Global;
use world_settle::Service;

// `program TEXT`
fn push_program(text: &mut String, program: &Text) -> Result<(), NoMemory>
    ensures { OnOk result (string_bytes text.new ≡ string_bytes text.old ++ (codes "program" ++ (body_behind program.now ++ codes "\n"))) }
{
    text.push_str("program")?;
    push_body_behind(text, program.as_str())?;
    text.push_str("\n")?;
    Ok(())
}

fn push_command(text: &mut String, command: &Command) -> Result<(), NoMemory>
    ensures { OnOk result (string_bytes text.new ≡ string_bytes text.old ++ command_line command.now) }
{
    match command {
        Command::Deploy(program) => push_program(text, program.get().text()),
        Command::Correct(_, program) => push_program(text, program.get().text()),
        _ => Ok(()),
    }
}

fn push_brought(text: &mut String, row: &Row) -> Result<(), NoMemory>
    ensures { OnOk result (string_bytes text.new ≡ string_bytes text.old ++ brought_line row.now) }
{
    match row {
        Row::Ordered(row) => push_command(text, &row.get().command),
        _ => Ok(()),
    }
}

fn push_all_brought(text: &mut String, rows: &[Row]) -> Result<(), NoMemory>
    ensures { OnOk result (string_bytes text.new ≡ string_bytes text.old ++ flat_map brought_line rows.now) }
{
    for row in rows {
        push_brought(text, row)?;
    }
    Ok(())
}

/// Puts a service's programs last, a line for each, by their numbers: the one of its setting, and each that an order brought.
pub(crate) fn push_programs(
    alloc: Global,
    text: &mut String,
    service: &Service,
) -> Result<(), NoMemory>
    ensures { OnOk result (string_bytes text.new ≡ string_bytes text.old ++ program_lines service.now) }
{
    let first = print_program(alloc, &service.setting().program)?;
    push_program(text, &first)?;
    push_all_brought(text, service.journal().as_slice())
}

/// Puts the number of an entry's program last, where that isn't the first: `under K`.
pub(crate) fn push_under(text: &mut String, number: u64) -> Result<(), NoMemory>
    ensures { OnOk result (string_bytes text.new ≡ string_bytes text.old ++ under_line number) }
{
    if number != 1 {
        write!(text, "under {number}\n")?;
    }
    Ok(())
}
