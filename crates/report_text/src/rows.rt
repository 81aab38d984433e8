// Rows as a text.
ghost use Rattle.std.specs.Prelude.{◌≡◌, ◌++◌, IfOk, OnOk, string_bytes};
ghost use Rattle.report_text.specs.Reports.{cell_line, or_none, rows_text};

use crate::escapes::{push_body_behind, push_key};
use lang_core::{Cell, Cells, NoMemory, Text};
use std::alloc::Global;

fn push_cell(text: &mut String, cell: &Cell) -> Result<(), NoMemory>
    ensures { OnOk result (string_bytes text.new ≡ string_bytes text.old ++ cell_line cell.now) }
{
    text.push_str(cell.table.as_str())?;
    text.push_str(" ")?;
    push_key(text, cell.key.as_str())?;
    push_body_behind(text, cell.text.as_str())?;
    text.push_str("\n")?;
    Ok(())
}

/// The lines, or `none` where there are none.
pub(crate) fn or_none(mut lines: String) -> Result<Text, NoMemory>
    ensures { IfOk result (λ text. text ≡ or_none (string_bytes lines)) }
{
    if lines.is_empty() {
        lines.push_str("none\n")?;
    }
    Text::shared(lines)
}

/// The rows, a line for each cell: `TABLE KEY TEXT`, or `none` alone. An empty text leaves out its space; a
/// backslash, a line feed, a carriage return and in a key a space are printed as `\\`, `\n`, `\r` and `\s`.
pub fn rows_text(alloc: Global, cells: &Cells) -> Result<Text, NoMemory>
    ensures { IfOk result (λ text. text ≡ rows_text cells.now) }
{
    let mut lines = String::new(alloc);
    for cell in cells.as_slice() {
        push_cell(&mut lines, cell)?;
    }
    or_none(lines)
}
