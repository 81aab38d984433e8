// What a command writes last.
ghost use Rattle.std.specs.Prelude.{◌≤◌, []};
ghost use Rattle.command_ends.specs.Ends.{EndsWith, StatusOf};

use crate::statuses::{DONE, UNWRITTEN};
use io_edge::{Sink, write_all};

/// Writes a last line. A fault there changes nothing else.
#[tactic(auto, using(crate::proofs::LastLines::last_ends))]
pub fn write_last<K: Sink>(out: &mut K, line: &str)
    ensures ends { EndsWith (K.writes out.old) (K.writes out.new) [] line.now }
    ensures counted { (K.writes out.old).faults ≤ (K.writes out.new).faults }
{
    let _ = write_all(out, line.as_bytes());
}

/// Writes all that a command has to say, and answers the status of that: 0, or 5 where a write failed.
pub fn print<K: Sink>(out: &mut K, text: &str) -> u8
    ensures { StatusOf (K.writes out.old) (K.writes out.new) text.now result }
{
    match write_all(out, text.as_bytes()) {
        Ok(_) => DONE,
        Err(_) => UNWRITTEN,
    }
}
