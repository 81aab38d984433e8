// Ends that commands share. Each writes a last line and answers the status.
ghost use Rattle.std.specs.Prelude.{◌≡◌, []};
ghost use Rattle.command_ends.specs.Ends.{Closes, EndsWith, LacksMemory, unread_line, usage_line};

use crate::last::write_last;
use crate::statuses::{LACKING, MISUSED, UNREAD};
use io_edge::Sink;
use std::alloc::Global;

/// The end for want of memory: 6.
pub fn lacking<K: Sink>(out: &mut K) -> u8
    ensures { LacksMemory (K.writes out.old) (K.writes out.new) result }
{
    write_last(out, "no memory\n");
    LACKING
}

/// The end where a file or the input can't be read: 4.
pub fn unread<K: Sink>(out: &mut K) -> u8
    ensures status { result ≡ 4 }
    ensures ends { EndsWith (K.writes out.old) (K.writes out.new) [] unread_line }
{
    write_last(out, "read fault\n");
    UNREAD
}

/// The end where the word at this place doesn't fit, or is missing: 2.
pub fn misused<K: Sink>(alloc: Global, out: &mut K, place: u64) -> u8
    ensures { Closes (K.writes out.old) (K.writes out.new) 2 (usage_line place) result }
{
    match format!(in alloc; "usage: word {place}\n") {
        Ok(line) => {
            write_last(out, line.as_str());
            MISUSED
        }
        Err(_) => lacking(out),
    }
}
