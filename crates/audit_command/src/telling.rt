// What an audit writes, and with which status it ends.
ghost use Rattle.std.specs.Prelude.{◌≡◌, ◌⊎◌, IfOk, string_bytes};
ghost use Rattle.command_ends.specs.Ends.{Closes, LacksMemory, StatusOf};
ghost use Rattle.audit_command.specs.Audits.{fault_word, judged_line, refused_line};

use command_ends::{REFUSED, lacking, print, write_last};
use dump_audit::{Fault, Judged};
use dump_reader::DumpRefused;
use io_edge::Sink;
use std::alloc::{AllocError, Global};

/// The end where the dump is refused: 3.
pub fn refused<K: Sink>(alloc: Global, out: &mut K, why: DumpRefused) -> u8
    ensures { Closes (K.writes out.old) (K.writes out.new) 3 (refused_line why) result }
{
    let line = why.line();
    let number = why.number();
    match format!(in alloc; "dump refused line {line} number {number}\n") {
        Ok(line) => {
            write_last(out, line.as_str());
            REFUSED
        }
        Err(_) => lacking(out),
    }
}

fn fault_word(what: Fault) -> &'static str
    ensures { result.now ≡ fault_word what }
{
    match what {
        Fault::Calls => "calls",
        Fault::Reply => "reply",
        Fault::Rows => "rows",
        Fault::Answer => "answer",
        Fault::Stray => "stray",
    }
}

fn judged_line(alloc: Global, judged: &Judged) -> Result<String, AllocError>
    ensures { IfOk result (λ line. string_bytes line ≡ judged_line judged.now) }
{
    match judged {
        Judged::Legal => String::from_str(alloc, "legal\n"),
        Judged::Differs { service, id, what } => {
            let name = service.text().as_str();
            let what = fault_word(*what);
            format!(in alloc; "differs {name}/{id} {what}\n")
        }
    }
}

/// The end where it is told what the dump is found to be: 0, or 5 where a write failed.
pub fn told<K: Sink>(alloc: Global, out: &mut K, judged: &Judged) -> u8
    ensures { StatusOf (K.writes out.old) (K.writes out.new) (judged_line judged.now) result
        ⊎ LacksMemory (K.writes out.old) (K.writes out.new) result }
{
    match judged_line(alloc, judged) {
        Ok(line) => print(out, line.as_str()),
        Err(_) => lacking(out),
    }
}
