// Shortest paths, by a breadth-first search.
use crate::graph::{Graph, nones};
use lang_core::NoMemory;
use std::alloc::Global;

// Goes along each edge of a vertex. Beside each vertex stands the one from which it was reached first.
fn visit(
    graph: &Graph,
    from: usize,
    reached: &mut [Option<usize>],
    queue: &mut Vec<usize>,
) -> Result<(), NoMemory> {
    for vertex in graph.successors(from) {
        if let Some(earlier) = reached.get_mut(*vertex) {
            if earlier.is_none() {
                *earlier = Some(from);
                queue.push(*vertex)?;
            }
        }
    }
    Ok(())
}

// Beside each vertex that can be reached from this one puts its predecessor on a shortest path.
fn search(
    alloc: Global,
    graph: &Graph,
    from: usize,
    reached: &mut [Option<usize>],
) -> Result<(), NoMemory> {
    let mut queue = Vec::new(alloc);
    queue.push(from)?;
    for i in 0..=graph.len() {
        match queue.get(i) {
            None => break,
            Some(vertex) => {
                let vertex = *vertex;
                visit(graph, vertex, reached, &mut queue)?;
            }
        }
    }
    Ok(())
}

fn predecessors(alloc: Global, graph: &Graph, from: usize) -> Result<Vec<Option<usize>>, NoMemory> {
    let mut reached = nones(alloc, graph.len())?;
    search(alloc, graph, from, &mut reached)?;
    Ok(reached)
}

// The path by these predecessors, if it comes from this vertex.
fn path_by(
    alloc: Global,
    predecessors: &[Option<usize>],
    from: usize,
    to: usize,
) -> Result<Option<Vec<usize>>, NoMemory> {
    let mut path = Vec::new(alloc);
    let mut vertex = to;
    for _ in 0..=predecessors.len() {
        path.push(vertex)?;
        if vertex == from {
            path.reverse();
            return Ok(Some(path));
        }
        match predecessors.get(vertex) {
            Some(Some(earlier)) => vertex = *earlier,
            _ => return Ok(None),
        }
    }
    Ok(None)
}

/// A shortest path from a vertex to another, with both of them, if there is one.
pub(crate) fn shortest_path(
    alloc: Global,
    graph: &Graph,
    from: usize,
    to: usize,
) -> Result<Option<Vec<usize>>, NoMemory> {
    let predecessors = predecessors(alloc, graph, from)?;
    path_by(alloc, &predecessors, from, to)
}
