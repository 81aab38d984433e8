// The first two neighbours of a log with a way back from the second to the first.
use crate::breadth_first::shortest_path;
use crate::candidate::{At, Candidate, Link, Mark};
use crate::graph::{Graph, nones};
use crate::kosaraju::components;
use crate::roots::{
    Rooted, RootedEntries, all_rooted, are_of_one_log, marked, precedence, slots_of,
};
use dump_tables::{DumpEntry, DumpServices};
use lang_core::NoMemory;
use std::alloc::Global;

// What is left, which roots come before which, and for each root its strongly connected component.
#[derive(Clone, Copy)]
struct Left<'a, 'b> {
    all: &'b RootedEntries<'a>,
    before: &'b Graph,
    components: &'b [usize],
}

// Two that stand one after another.
#[derive(Clone, Copy)]
struct Pair<'a> {
    first: Rooted<'a>,
    second: Rooted<'a>,
}

// Where a path goes on from each root on it.
fn next_on(alloc: Global, count: usize, path: &[usize]) -> Result<Vec<Option<usize>>, NoMemory> {
    let mut next = nones(alloc, count)?;
    let mut last: Option<usize> = None;
    for root in path {
        if let Some(from) = last {
            if let Some(own) = next.get_mut(from) {
                *own = Some(*root);
            }
        }
        last = Some(*root);
    }
    Ok(next)
}

// Keeps a pair for the root of its first, where a path goes on there to the root of its second.
fn keep<'a>(next: &[Option<usize>], pair: Pair<'a>, kept: &mut [Option<Pair<'a>>]) {
    let (Some(Some(to)), Some(own)) = (next.get(pair.first.root), kept.get_mut(pair.first.root))
    else {
        return;
    };
    if *to == pair.second.root && own.is_none() {
        *own = Some(pair);
    }
}

// For each root that a path goes on from the first two neighbours where it does.
fn pairs_on<'a>(
    alloc: Global,
    all: &RootedEntries<'a>,
    path: &[usize],
) -> Result<Vec<Option<Pair<'a>>>, NoMemory> {
    let next = next_on(alloc, all.roots.len(), path)?;
    let mut pairs = nones(alloc, all.roots.len())?;
    let mut last: Option<Rooted<'a>> = None;
    for second in &all.entries {
        if let Some(first) = last {
            if are_of_one_log(&first.at, &second.at) {
                let second = *second;
                keep(&next, Pair { first, second }, &mut pairs);
            }
        }
        last = Some(*second);
    }
    Ok(pairs)
}

fn marks_of<'a>(
    alloc: Global,
    services: &DumpServices,
    pair: Pair<'a>,
) -> Result<(Mark<'a>, Mark<'a>), NoMemory> {
    let first = marked(alloc, services, pair.first.at)?;
    let second = marked(alloc, services, pair.second.at)?;
    Ok((first, second))
}

fn push_link<'a>(
    alloc: Global,
    services: &DumpServices,
    all: &RootedEntries<'a>,
    pair: Pair<'a>,
    links: &mut Vec<Link<'a>>,
) -> Result<(), NoMemory> {
    if let Some(root) = all.roots.get(pair.second.root) {
        let root = *root;
        let (first, second) = marks_of(alloc, services, pair)?;
        links.push(Link {
            first,
            second,
            root,
        })?;
    }
    Ok(())
}

fn links_by<'a>(
    alloc: Global,
    services: &DumpServices,
    all: &RootedEntries<'a>,
    path: &[usize],
    pairs: &[Option<Pair<'a>>],
) -> Result<Vec<Link<'a>>, NoMemory> {
    let mut links = Vec::new(alloc);
    for root in path {
        if let Some(Some(pair)) = pairs.get(*root) {
            push_link(alloc, services, all, *pair, &mut links)?;
        }
    }
    Ok(links)
}

// The links of a path from root to root.
fn links_of<'a>(
    alloc: Global,
    services: &DumpServices,
    all: &RootedEntries<'a>,
    path: &[usize],
) -> Result<Vec<Link<'a>>, NoMemory> {
    let pairs = pairs_on(alloc, all, path)?;
    links_by(alloc, services, all, path, &pairs)
}

// Whether the roots of two are of one component.
fn are_of_one_component(left: Left<'_, '_>, first: Rooted<'_>, second: Rooted<'_>) -> bool {
    match (
        left.components.get(first.root),
        left.components.get(second.root),
    ) {
        (Some(component), Some(other)) => *component == *other,
        _ => false,
    }
}

// Whether calls lead from a root to the one before they lead to the other, depth first.
fn is_earlier(
    alloc: Global,
    services: &DumpServices,
    one: At<'_>,
    other: At<'_>,
) -> Result<bool, NoMemory> {
    let slots = slots_of(alloc, services, one)?;
    let others = slots_of(alloc, services, other)?;
    Ok(slots.as_slice() < others.as_slice())
}

// The way back from the second of two neighbours to the first, if there may be one; it is empty where both are of one root.
fn back_of<'a>(
    alloc: Global,
    services: &DumpServices,
    left: Left<'a, '_>,
    pair: Pair<'a>,
) -> Result<Option<Vec<Link<'a>>>, NoMemory> {
    let Pair { first, second } = pair;
    if first.root == second.root {
        return Ok(if is_earlier(alloc, services, second.at, first.at)? {
            Some(Vec::new(alloc))
        } else {
            None
        });
    }
    if !are_of_one_component(left, first, second) {
        return Ok(None);
    }
    match shortest_path(alloc, left.before, second.root, first.root)? {
        None => Ok(None),
        Some(path) => Ok(Some(links_of(alloc, services, left.all, path.as_slice())?)),
    }
}

fn roots_of<'a>(all: &RootedEntries<'a>, pair: Pair<'a>) -> Option<(At<'a>, At<'a>)> {
    let root = all.roots.get(pair.first.root)?;
    let other = all.roots.get(pair.second.root)?;
    Some((*root, *other))
}

fn candidate_of<'a>(
    alloc: Global,
    services: &DumpServices,
    pair: Pair<'a>,
    roots: (At<'a>, At<'a>),
    back: Vec<Link<'a>>,
) -> Result<Candidate<'a>, NoMemory> {
    let (root, other) = roots;
    let (first, second) = marks_of(alloc, services, pair)?;
    Ok(Candidate {
        first,
        root,
        second,
        other,
        back,
    })
}

// Two entries one after another, if they are neighbours with a way back.
fn found_in<'a>(
    alloc: Global,
    services: &DumpServices,
    left: Left<'a, '_>,
    pair: Pair<'a>,
) -> Result<Option<Candidate<'a>>, NoMemory> {
    if !are_of_one_log(&pair.first.at, &pair.second.at) {
        return Ok(None);
    }
    let Some(roots) = roots_of(left.all, pair) else {
        return Ok(None);
    };
    match back_of(alloc, services, left, pair)? {
        None => Ok(None),
        Some(back) => Ok(Some(candidate_of(alloc, services, pair, roots, back)?)),
    }
}

fn first_in<'a>(
    alloc: Global,
    services: &DumpServices,
    left: Left<'a, '_>,
) -> Result<Option<Candidate<'a>>, NoMemory> {
    let mut last: Option<Rooted<'a>> = None;
    for second in &left.all.entries {
        if let Some(first) = last {
            let second = *second;
            if let Some(found) = found_in(alloc, services, left, Pair { first, second })? {
                return Ok(Some(found));
            }
        }
        last = Some(*second);
    }
    Ok(None)
}

fn first_of<'a>(
    alloc: Global,
    services: &DumpServices,
    all: &RootedEntries<'a>,
) -> Result<Option<Candidate<'a>>, NoMemory> {
    let before = precedence(alloc, all)?;
    let components = components(alloc, &before)?;
    let left = Left {
        all,
        before: &before,
        components: &components,
    };
    first_in(alloc, services, left)
}

/// Of what is left of each service's log, in the dump's order, the first two neighbours that may show that there is no order,
/// by service and place. Nothing is known of them until they are tried.
pub fn find_cycle<'a>(
    alloc: Global,
    services: &'a DumpServices,
    left: &[&'a [DumpEntry]],
) -> Result<Option<Candidate<'a>>, NoMemory> {
    let all = all_rooted(alloc, services, left)?;
    first_of(alloc, services, &all)
}
