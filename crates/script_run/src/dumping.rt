// A service, and all services.
ghost use Rattle.std.specs.Prelude.{◌≡◌, ◌++◌, IfOk, OnOk, string_bytes};
ghost use Rattle.std.specs.List.{flat_map};
ghost use Rattle.service_events.specs.State.{answers, folded, unfolded};
ghost use Rattle.dump_lines.specs.Dumps.{dump_text, entry_lines, head_lines, row_line, service_lines};

use crate::dump_entries::{push_entry, push_folded};
use crate::dump_programs::push_programs;
use crate::dump_words::push_names;
use lang_core::{Cell, Cells, NoMemory, Text};
use report_text::{push_body_behind, push_key};
use std::alloc::Global;
use world_settle::Service;

fn push_head(alloc: Global, text: &mut String, service: &Service) -> Result<(), NoMemory>
    ensures { OnOk result (string_bytes text.new ≡ string_bytes text.old ++ head_lines service.now) }
{
    let setting = service.setting();
    let me = setting.me.as_str();
    write!(text, "service {me}\npeers ")?;
    push_names(text, &setting.peers)?;
    text.push_str("\n")?;
    push_programs(alloc, text, service)
}

fn push_row(text: &mut String, cell: &Cell) -> Result<(), NoMemory>
    ensures { OnOk result (string_bytes text.new ≡ string_bytes text.old ++ row_line cell.now) }
{
    text.push_str("row ")?;
    push_key(text, cell.table.as_str())?;
    text.push_str(" ")?;
    push_key(text, cell.key.as_str())?;
    push_body_behind(text, cell.text.as_str())?;
    text.push_str("\n")?;
    Ok(())
}

fn push_rows(text: &mut String, cells: &Cells) -> Result<(), NoMemory>
    ensures { OnOk result (string_bytes text.new ≡ string_bytes text.old ++ flat_map row_line cells.now) }
{
    for cell in cells.as_slice() {
        push_row(text, cell)?;
    }
    Ok(())
}

fn push_all_folded(text: &mut String, service: &Service) -> Result<(), NoMemory>
    ensures { OnOk result (string_bytes text.new ≡ string_bytes text.old ++ flat_map (entry_lines (answers service.now)) (folded service.now)) }
{
    for kept in service.entries().folded().as_slice() {
        push_folded(text, service.registers(), kept.folded())?;
    }
    Ok(())
}

fn push_unfolded(text: &mut String, service: &Service) -> Result<(), NoMemory>
    ensures { OnOk result (string_bytes text.new ≡ string_bytes text.old ++ flat_map (entry_lines (answers service.now)) (unfolded service.now)) }
{
    for kept in service.entries().as_slice() {
        push_entry(text, service.registers(), kept.entry())?;
    }
    Ok(())
}

// Its entries, the folded ones first.
fn push_entries(text: &mut String, service: &Service) -> Result<(), NoMemory>
    ensures { OnOk result (string_bytes text.new ≡ string_bytes text.old ++ flat_map (entry_lines (answers service.now)) service.now.entries) }
{
    push_all_folded(text, service)?;
    push_unfolded(text, service)
}

fn push_service(alloc: Global, text: &mut String, service: &Service) -> Result<(), NoMemory>
    ensures { OnOk result (string_bytes text.new ≡ string_bytes text.old ++ service_lines service.now) }
{
    push_head(alloc, text, service)?;
    push_entries(text, service)?;
    let rows = service.rows(alloc)?;
    push_rows(text, &rows)?;
    text.push_str("end\n")?;
    Ok(())
}

/// These services as a text, from which they can be judged: each with its peers, its programs, its entries in logged order, the
/// folded ones first, and its rows. An entry has its request as it is now, its calls in the order of their slots, what each consumes now, and its reply.
pub fn dump_text(alloc: Global, services: &[Service]) -> Result<Text, NoMemory>
    ensures { IfOk result (λ text. text ≡ dump_text services.now) }
{
    let mut text = String::new(alloc);
    for service in services {
        push_service(alloc, &mut text, service)?;
    }
    Text::shared(text)
}
