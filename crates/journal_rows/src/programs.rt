// How many programs a journal tells of.
ghost use Rattle.std.specs.Prelude.{◌≡◌, ◌+◌, ◌<◌, ◌^◌};
ghost use Rattle.journal_rows.specs.Programs.{counted, program_step};

use crate::orders::Command;
use crate::row::Row;

fn counted(count: u64, command: &Command) -> u64
    requires { count + 1 < 2 ^ 64 }
    ensures { result ≡ counted count command.now }
{
    match command {
        Command::Deploy(_) | Command::Correct(_, _) => count + 1,
        _ => count,
    }
}

/// How many programs there are with a row more.
pub(crate) fn programs_after(count: u64, row: &Row) -> u64
    requires { count + 1 < 2 ^ 64 }
    ensures { result ≡ program_step count row.now }
{
    match row {
        Row::Ordered(order) => counted(count, &order.get().command),
        _ => count,
    }
}
