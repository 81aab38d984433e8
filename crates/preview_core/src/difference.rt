// How rows differ from others.
ghost use Rattle.std.specs.Prelude.{◌≡◌, ◌<◌, ◌+◌, [], ◌∷◌, ◌++◌, IfOk, OnOk, length};
ghost use Rattle.lang_base.specs.Texts.{same_text};
ghost use Rattle.lang_core.specs.Places.{IsOrdered, place_order};
ghost use Rattle.lang_core.specs.Rows.{cell_place, write_place};
ghost use Rattle.preview_core.specs.Differences.{LeadsTo, difference, dropped, put, put_other};

use lang_base::both;
use lang_core::{Cell, Cells, Copied, NoMemory, Same, Text, Write, Writes};
use std::alloc::Global;
use std::cmp::Ordering;

fn place_order(left: &Cell, right: &Cell) -> Ordering
    ensures { result ≡ place_order (cell_place left.now) (cell_place right.now) }
{
    match left.table.order(&right.table) {
        Ordering::Less => Ordering::Less,
        Ordering::Equal => left.key.order(&right.key),
        Ordering::Greater => Ordering::Greater,
    }
}

// A write that leaves nothing at the place of this cell.
fn dropped(alloc: Global, cell: &Cell) -> Result<Write, NoMemory>
    ensures { IfOk result (λ write. write ≡ dropped cell.now) }
{
    let (table, key) = both(cell.table.copied(alloc), cell.key.copied(alloc))?;
    Ok(Write {
        table,
        key,
        text: None,
    })
}

// A write that puts this cell there.
fn put(alloc: Global, cell: &Cell) -> Result<Write, NoMemory>
    ensures { IfOk result (λ write. write ≡ put cell.now) }
{
    let Cell { table, key, text } = cell.copied(alloc)?;
    Ok(Write {
        table,
        key,
        text: Some(text),
    })
}

fn push_dropped(alloc: Global, writes: &mut Writes, cell: &Cell) -> Result<(), NoMemory>
    requires { IsOrdered write_place (writes.old ++ dropped cell.now ∷ []) }
    ensures { OnOk result (writes.new ≡ writes.old ++ dropped cell.now ∷ []) }
{
    writes.push(dropped(alloc, cell)?)
}

fn push_put(alloc: Global, writes: &mut Writes, cell: &Cell) -> Result<(), NoMemory>
    requires { IsOrdered write_place (writes.old ++ put cell.now ∷ []) }
    ensures { OnOk result (writes.new ≡ writes.old ++ put cell.now ∷ []) }
{
    writes.push(put(alloc, cell)?)
}

fn same_text(left: &Text, right: &Text) -> bool
    ensures { result ≡ same_text left.now right.now }
{
    left.is(right)
}

// Where the second of two cells at one place has another text, the write that puts it there.
fn push_other(alloc: Global, writes: &mut Writes, was: &Cell, is: &Cell) -> Result<(), NoMemory>
    requires { IsOrdered write_place (writes.old ++ put_other was.now is.now []) }
    ensures { OnOk result (writes.new ≡ writes.old ++ put_other was.now is.now []) }
{
    if same_text(&was.text, &is.text) {
        Ok(())
    } else {
        push_put(alloc, writes, is)
    }
}

// What the first cells differ in, and what stands behind them.
fn differ_first<'a>(
    alloc: Global,
    writes: &mut Writes,
    old: &'a [Cell],
    new: &'a [Cell],
) -> Result<(&'a [Cell], &'a [Cell]), NoMemory>
    requires { IsOrdered write_place (writes.old ++ difference old.now new.now) }
    ensures same { IfOk result (λ left. writes.new ++ difference left.0.now left.1.now ≡ writes.old ++ difference old.now new.now) }
    ensures fewer { IfOk result (λ left. 0 < length old.now + length new.now → length left.0.now + length left.1.now < length old.now + length new.now) }
{
    match old.split_first() {
        None => match new.split_first() {
            None => Ok((old, new)),
            Some((is, news)) => {
                push_put(alloc, writes, is)?;
                Ok((old, news))
            }
        },
        Some((was, olds)) => match new.split_first() {
            None => {
                push_dropped(alloc, writes, was)?;
                Ok((olds, new))
            }
            Some((is, news)) => match place_order(was, is) {
                Ordering::Less => {
                    push_dropped(alloc, writes, was)?;
                    Ok((olds, new))
                }
                Ordering::Equal => {
                    push_other(alloc, writes, was, is)?;
                    Ok((olds, news))
                }
                Ordering::Greater => {
                    push_put(alloc, writes, is)?;
                    Ok((old, news))
                }
            },
        },
    }
}

/// The writes that lead from these rows to those.
pub(crate) fn difference(alloc: Global, before: &Cells, after: &Cells) -> Result<Writes, NoMemory>
    ensures same { IfOk result (λ writes. writes ≡ difference before.now after.now) }
    ensures leads { IfOk result (λ writes. LeadsTo before.now after.now writes) }
{
    let mut writes = Writes::new(alloc);
    let mut old = before.as_slice();
    let mut new = after.as_slice();
    while !old.is_empty() || !new.is_empty() {
        (old, new) = differ_first(alloc, &mut writes, old, new)?;
    }
    Ok(writes)
}
