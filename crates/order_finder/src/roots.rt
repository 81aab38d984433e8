// The entries that are left where a search stopped, with their roots, and the precedence graph of these.
use crate::candidate::{At, Mark};
use crate::graph::Graph;
use dump_tables::{DumpEntry, DumpService, DumpServices};
use lang_core::{NoMemory, Origin, Same};
use std::alloc::Global;

/// An entry that survives, and the place of its root among all roots.
#[derive(Clone, Copy)]
pub(crate) struct Rooted<'a> {
    pub(crate) at: At<'a>,
    pub(crate) root: usize,
}

/// All entries that survive, log by log, with their roots.
pub(crate) struct RootedEntries<'a> {
    pub(crate) entries: Vec<Rooted<'a>>,
    pub(crate) roots: Vec<At<'a>>,
}

impl Drop for RootedEntries<'_> {
    fn drop(self) {
        let Self {
            entries: _,
            roots: _,
        } = self;
    }
}

// A root by its number, and its place among all.
#[derive(Clone, Copy)]
struct Numbered {
    number: u64,
    place: usize,
}

// The entry that made the call which an entry comes from, if it comes from one.
fn caller_of<'a>(services: &'a DumpServices, entry: &DumpEntry) -> Option<(At<'a>, u64)> {
    let Origin::Call { caller, number } = &entry.origin else {
        return None;
    };
    let service = services.named(caller)?;
    let entry = service.entries.with_number(*number)?;
    Some((At { service, entry }, *number))
}

fn root_of<'a>(services: &'a DumpServices, at: At<'a>) -> At<'a> {
    let mut root = at;
    for _ in services.as_slice() {
        match caller_of(services, root.entry) {
            None => return root,
            Some((caller, _)) => root = caller,
        }
    }
    root
}

fn slot_of(entry: &DumpEntry, number: u64) -> usize {
    for (slot, own) in entry.numbers.as_slice().iter().enumerate() {
        if *own == number {
            return slot;
        }
    }
    0
}

/// The slots that lead from a root down to an entry.
pub(crate) fn slots_of(
    alloc: Global,
    services: &DumpServices,
    at: At<'_>,
) -> Result<Vec<usize>, NoMemory> {
    let mut slots = Vec::new(alloc);
    let mut below = at;
    for _ in services.as_slice() {
        match caller_of(services, below.entry) {
            None => break,
            Some((caller, number)) => {
                slots.push(slot_of(caller.entry, number))?;
                below = caller;
            }
        }
    }
    slots.reverse();
    Ok(slots)
}

/// An entry with its slots.
pub(crate) fn marked<'a>(
    alloc: Global,
    services: &DumpServices,
    at: At<'a>,
) -> Result<Mark<'a>, NoMemory> {
    let slots = slots_of(alloc, services, at)?;
    Ok(Mark { at, slots })
}

fn is_root(entry: &DumpEntry) -> bool {
    match &entry.origin {
        Origin::Outside => entry.is_alive(),
        Origin::Call { .. } => false,
    }
}

fn push_roots<'a>(
    service: &'a DumpService,
    left: &'a [DumpEntry],
    roots: &mut Vec<At<'a>>,
    numbered: &mut Vec<Numbered>,
) -> Result<(), NoMemory> {
    for entry in left {
        if is_root(entry) {
            numbered.push(Numbered {
                number: entry.id,
                place: roots.len(),
            })?;
            roots.push(At { service, entry })?;
        }
    }
    Ok(())
}

/// Whether two entries are of one log.
pub(crate) fn are_of_one_log(first: &At<'_>, second: &At<'_>) -> bool {
    first
        .service
        .setting
        .me
        .text()
        .is(second.service.setting.me.text())
}

// The place of a root, by the numbers of all of them in order: services may have the same.
fn place_of(roots: &[At<'_>], numbered: &[Numbered], root: &At<'_>) -> Option<usize> {
    let start = numbered.partition_point(|other| other.number < root.entry.id);
    for other in &numbered[start..] {
        if other.number != root.entry.id {
            return None;
        }
        if are_of_one_log(roots.get(other.place)?, root) {
            return Some(other.place);
        }
    }
    None
}

fn push_rooted<'a>(
    services: &'a DumpServices,
    service: &'a DumpService,
    left: &'a [DumpEntry],
    numbered: &[Numbered],
    all: &mut RootedEntries<'a>,
) -> Result<(), NoMemory> {
    for entry in left {
        if entry.is_alive() {
            let at = At { service, entry };
            if let Some(root) = place_of(&all.roots, numbered, &root_of(services, at)) {
                all.entries.push(Rooted { at, root })?;
            }
        }
    }
    Ok(())
}

// The roots' numbers, in order.
fn numbered_roots<'a>(
    alloc: Global,
    services: &'a DumpServices,
    left: &[&'a [DumpEntry]],
    roots: &mut Vec<At<'a>>,
) -> Result<Vec<Numbered>, NoMemory> {
    let mut numbered = Vec::new(alloc);
    for (service, left) in services.as_slice().iter().zip(left) {
        push_roots(service, left, roots, &mut numbered)?;
    }
    numbered.sort_unstable_by_key(|root| root.number);
    Ok(numbered)
}

fn push_all<'a>(
    alloc: Global,
    services: &'a DumpServices,
    left: &[&'a [DumpEntry]],
    all: &mut RootedEntries<'a>,
) -> Result<(), NoMemory> {
    let numbered = numbered_roots(alloc, services, left, &mut all.roots)?;
    for (service, left) in services.as_slice().iter().zip(left) {
        push_rooted(services, service, left, &numbered, all)?;
    }
    Ok(())
}

/// All that is left of the services' logs, one after the other, and survives. The roots of it are left too.
pub(crate) fn all_rooted<'a>(
    alloc: Global,
    services: &'a DumpServices,
    left: &[&'a [DumpEntry]],
) -> Result<RootedEntries<'a>, NoMemory> {
    let mut all = RootedEntries {
        entries: Vec::new(alloc),
        roots: Vec::new(alloc),
    };
    push_all(alloc, services, left, &mut all)?;
    Ok(all)
}

/// Which roots come right before which, in any of the logs.
pub(crate) fn precedence(alloc: Global, all: &RootedEntries<'_>) -> Result<Graph, NoMemory> {
    let mut graph = Graph::new(alloc, all.roots.len())?;
    let mut last: Option<Rooted<'_>> = None;
    for entry in &all.entries {
        if let Some(first) = last {
            if first.root != entry.root && are_of_one_log(&first.at, &entry.at) {
                graph.push_edge(first.root, entry.root)?;
            }
        }
        last = Some(*entry);
    }
    Ok(graph)
}
