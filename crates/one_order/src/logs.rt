// What is left of all logs behind the roots that a search took, and the root that comes next.
ghost use Rattle.std.specs.Prelude.{◌≡◌, IfOk, map, not};
ghost use Rattle.std.specs.Option.{is_some, option_map};
ghost use Rattle.dump_tables.specs.Kept.{AreKept};
ghost use Rattle.dump_audit.specs.Histories.{histories_of, history_of};
ghost use Rattle.one_order.specs.Logs.{acts_of, log_of, taken_of};
ghost use Rattle.one_world.specs.Searches.{all_passed, behind_each, front, logs_of, named, next_root, tried, whole_log};

use crate::checking::behind_id;
use crate::finding::is_alive;
use dump_tables::{DumpEntry, DumpService, DumpServices};
use lang_core::{Copied, NoMemory, RequestId};
use std::alloc::Global;

/// A service, and what is left of its log.
#[derive(Clone, Copy)]
pub(crate) struct Log<'a> {
    pub(crate) service: &'a DumpService,
    pub(crate) left: &'a [DumpEntry],
}

/// A root, and what is left of all logs behind it and all that it calls.
#[derive(Drop)]
pub(crate) struct Taken<'a> {
    pub(crate) id: RequestId,
    pub(crate) logs: Vec<Log<'a>>,
}

fn log_of(service: &DumpService) -> Log<'_>
    ensures { log_of result ≡ whole_log (history_of service.now) }
{
    Log {
        service,
        left: service.entries.as_slice(),
    }
}

/// All logs, of which nothing was passed.
pub(crate) fn logs_of(alloc: Global, world: &[DumpService]) -> Result<Vec<Log<'_>>, NoMemory>
    ensures { IfOk result (λ logs. map log_of logs.items ≡ logs_of (histories_of world.now)) }
{
    let mut logs = Vec::with_capacity(alloc, world.len())?;
    for service in world {
        logs.push(log_of(service))?;
    }
    Ok(logs)
}

/// The number of the first entry that survives.
pub(crate) fn front(left: &[DumpEntry]) -> Option<u64>
    ensures { result ≡ front (acts_of left.now) }
{
    for entry in left {
        if is_alive(entry) {
            return Some(entry.id);
        }
    }
    None
}

// What is left of logs behind a root and all that it calls, where that comes next in each of them.
fn behind_each<'a>(
    alloc: Global,
    world: &DumpServices,
    id: &RequestId,
    logs: &[Log<'a>],
) -> Result<Option<Vec<Log<'a>>>, NoMemory>
    requires kept { ∥ AreKept world.now ∥₁ }
    ensures { IfOk result (λ behind. option_map (λ logs. map log_of logs.items) behind ≡ behind_each (histories_of world.now) id.now (map log_of logs.now)) }
{
    let mut behind = Vec::with_capacity(alloc, logs.len())?;
    for log in logs {
        match behind_id(world, &log.service.setting.me, id, log.left) {
            None => return Ok(None),
            Some(left) => behind.push(Log {
                service: log.service,
                left,
            })?,
        }
    }
    Ok(Some(behind))
}

/// The entry of this number of a service.
pub(crate) fn named(
    alloc: Global,
    service: &DumpService,
    number: u64,
) -> Result<RequestId, NoMemory>
    ensures { IfOk result (λ id. id ≡ named (history_of service.now) number) }
{
    Ok(RequestId {
        service: service.setting.me.copied(alloc)?,
        number,
    })
}

// The first entry left of a log, where that is a root which comes next in all logs.
fn tried<'a>(
    alloc: Global,
    world: &DumpServices,
    logs: &[Log<'a>],
    log: &Log<'a>,
) -> Result<Option<Taken<'a>>, NoMemory>
    requires kept { ∥ AreKept world.now ∥₁ }
    ensures { IfOk result (λ found. option_map taken_of found ≡ tried (histories_of world.now) (map log_of logs.now) (history_of log.now.service.now) (front (acts_of log.now.left.now))) }
{
    let Some(number) = front(log.left) else {
        return Ok(None);
    };
    let id = named(alloc, log.service, number)?;
    match behind_each(alloc, world, &id, logs)? {
        None => Ok(None),
        Some(logs) => Ok(Some(Taken { id, logs })),
    }
}

/// Of these logs the first that goes on with a root that comes next in all logs.
pub(crate) fn next_root<'a>(
    alloc: Global,
    world: &DumpServices,
    logs: &[Log<'a>],
) -> Result<Option<Taken<'a>>, NoMemory>
    requires kept { ∥ AreKept world.now ∥₁ }
    ensures { IfOk result (λ found. option_map taken_of found ≡ next_root (histories_of world.now) (map log_of logs.now) (map log_of logs.now)) }
{
    for log in logs {
        if let Some(found) = tried(alloc, world, logs, log)? {
            return Ok(Some(found));
        }
    }
    Ok(None)
}

/// The first entry that survives and is left of these logs, by its service and number.
pub(crate) fn first_left<'a>(logs: &[Log<'a>]) -> Option<(&'a DumpService, u64)>
    ensures { not (is_some result) ≡ all_passed (map log_of logs.now) }
{
    for log in logs {
        if let Some(number) = front(log.left) {
            return Some((log.service, number));
        }
    }
    None
}
