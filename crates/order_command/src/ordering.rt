// The command.
ghost use Rattle.std.specs.Prelude.{◌≡◌, ◌⊎◌, None, map, string_bytes};
ghost use Rattle.execution.specs.Together.{IsLegalTogether};
ghost use Rattle.dump_audit.specs.Histories.{histories_of};
ghost use Rattle.command_ends.specs.Ends.{LacksMemory, StatusOf};
ghost use Rattle.audit_command.specs.Audits.{dump_word};
ghost use Rattle.order_command.specs.Orders.{IsGoodOrder, OrderEnds, Tells, cycle_line, misfit, order_lines};

use crate::telling::{cycle_line, order_lines};
use crate::words::asked;
use audit_command::{NoDump, load_dump, refused, told};
use command_ends::{lacking, misused, print, unread};
use dump_reader::Dump;
use io_edge::{Files, Sink};
use lang_core::RequestId;
use one_order::{Certificate, Ids, OneRefused, find_order, one_run};
use std::alloc::Global;

// Tells an order, in which the world runs as one program.
fn ordered<K: Sink>(alloc: Global, dump: &Dump, order: &Ids, out: &mut K) -> u8
    requires legal { IsLegalTogether (histories_of dump.now.services) }
    ensures { StatusOf (K.writes out.old) (K.writes out.new) (order_lines order.now) result
        ⊎ LacksMemory (K.writes out.old) (K.writes out.new) result }
{
    if one_run(alloc, dump, order).is_err() {
        return lacking(out);
    }
    match order_lines(alloc, order) {
        Ok(lines) => print(out, lines.as_str()),
        Err(_) => lacking(out),
    }
}

fn cycled<K: Sink>(alloc: Global, first: &RequestId, second: &RequestId, out: &mut K) -> u8
    ensures { StatusOf (K.writes out.old) (K.writes out.new) (cycle_line first.now second.now) result
        ⊎ LacksMemory (K.writes out.old) (K.writes out.new) result }
{
    match cycle_line(alloc, first, second) {
        Ok(line) => print(out, line.as_str()),
        Err(_) => lacking(out),
    }
}

// Tells of a dump whether its roots have one order.
fn order_of<K: Sink>(alloc: Global, dump: &Dump, out: &mut K) -> u8
    ensures { ((text : _) × Tells dump.now.services text × StatusOf (K.writes out.old) (K.writes out.new) text result)
        ⊎ LacksMemory (K.writes out.old) (K.writes out.new) result }
{
    match find_order(alloc, dump) {
        Ok(Certificate::Order(order)) => ordered(alloc, dump, &order, out),
        Ok(Certificate::Cycle { first, second, .. }) => cycled(alloc, &first, &second, out),
        Err(OneRefused::NotLegal(found)) => told(alloc, out, &found),
        Err(OneRefused::NoMemory) => lacking(out),
    }
}

fn order_file<F: Files, K: Sink>(alloc: Global, path: &str, files: &mut F, out: &mut K) -> u8
    ensures { (words : _) → misfit words ≡ None → dump_word words ≡ path.now
        → OrderEnds words (F.loads files.old) (F.loads files.new) (K.writes out.old) (K.writes out.new) result }
{
    match load_dump(alloc, path, files) {
        Ok(dump) => order_of(alloc, &dump, out),
        Err(NoDump::NoMemory) => lacking(out),
        Err(NoDump::Failed) => unread(out),
        Err(NoDump::Refused(why)) => refused(alloc, out, why),
    }
}

/// Finds one order of the roots of a dump in which the whole world could have run as one program, runs it so, and tells the
/// order, or that there is none. The words are `order` and a file.
pub fn order<F: Files, K: Sink>(alloc: Global, words: &[String], files: &mut F, out: &mut K) -> u8
    // How it ends: what was asked for, what is written, and the status.
    ensures ends { OrderEnds (map string_bytes words.now) (F.loads files.old) (F.loads files.new) (K.writes out.old) (K.writes out.new) result }
    // It doesn't give up by itself.
    ensures complete { IsGoodOrder (map string_bytes words.now) (F.loads files.old) (F.loads files.new) (K.writes out.old) (K.writes out.new)
        → (result ≡ 0) ⊎ (result ≡ 6) }
{
    match asked(words) {
        Ok(path) => order_file(alloc, path, files, out),
        Err(place) => misused(alloc, out, place),
    }
}
