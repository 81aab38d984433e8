// Strongly connected components, by Kosaraju's algorithm: two depth-first searches, of a graph and of its transpose. The
// second takes the vertices in the order in which the first left them, the last one first, and each tree of it is a component.
use crate::graph::Graph;
use lang_core::NoMemory;
use std::alloc::Global;

// A vertex on the way down, and how many of its edges were gone along.
#[derive(Clone, Copy)]
struct Visit {
    vertex: usize,
    gone: usize,
}

// A depth-first search: where it was, where it is on its way down, and the vertices that it left, in order.
#[derive(Drop)]
struct DepthFirst {
    seen: Vec<bool>,
    stack: Vec<Visit>,
    left: Vec<usize>,
}

impl DepthFirst {
    fn new(alloc: Global, count: usize) -> Result<DepthFirst, NoMemory> {
        let mut seen = Vec::with_capacity(alloc, count)?;
        for _ in 0..count {
            seen.push(false)?;
        }
        Ok(DepthFirst {
            seen,
            stack: Vec::new(alloc),
            left: Vec::new(alloc),
        })
    }

    // Comes to a vertex, unless it was there.
    fn enter(&mut self, vertex: usize) -> Result<(), NoMemory> {
        if let Some(seen) = self.seen.get_mut(vertex) {
            if !*seen {
                *seen = true;
                self.stack.push(Visit { vertex, gone: 0 })?;
            }
        }
        Ok(())
    }

    // Goes along one edge more of a vertex, or leaves it where it went along all of them.
    fn go_on(&mut self, graph: &Graph, visit: Visit) -> Result<(), NoMemory> {
        match graph.successors(visit.vertex).get(visit.gone) {
            None => self.left.push(visit.vertex)?,
            Some(next) => {
                self.stack.push(Visit {
                    vertex: visit.vertex,
                    gone: visit.gone.saturating_add(1),
                })?;
                self.enter(*next)?;
            }
        }
        Ok(())
    }

    // Goes down from a vertex until it has left all that it came to.
    fn search_from(&mut self, graph: &Graph, vertex: usize) -> Result<(), NoMemory> {
        self.enter(vertex)?;
        for _ in 0..graph.turns() {
            match self.stack.pop() {
                None => break,
                Some(visit) => self.go_on(graph, visit)?,
            }
        }
        Ok(())
    }
}

// All vertices, in the order in which a depth-first search leaves them.
fn postorder(alloc: Global, graph: &Graph) -> Result<Vec<usize>, NoMemory> {
    let mut search = DepthFirst::new(alloc, graph.len())?;
    for vertex in 0..graph.len() {
        search.search_from(graph, vertex)?;
    }
    Ok(search.left)
}

fn put_in(components: &mut [usize], members: &[usize], component: usize) {
    for member in members {
        if let Some(own) = components.get_mut(*member) {
            *own = component;
        }
    }
}

// Puts each tree of a search of the transpose into a component of its own. The search begins with the vertex left last.
fn put_trees(
    alloc: Global,
    transposed: &Graph,
    left: &[usize],
    components: &mut [usize],
) -> Result<(), NoMemory> {
    let mut search = DepthFirst::new(alloc, transposed.len())?;
    for vertex in left.iter().rev() {
        search.left.clear();
        search.search_from(transposed, *vertex)?;
        put_in(components, &search.left, *vertex);
    }
    Ok(())
}

fn components_by(
    alloc: Global,
    transposed: &Graph,
    left: &[usize],
) -> Result<Vec<usize>, NoMemory> {
    let mut components = Vec::from_slice(alloc, left)?;
    put_trees(alloc, transposed, left, &mut components)?;
    Ok(components)
}

/// For each vertex its strongly connected component, which is the number of a vertex in it: two vertices are of one where each
/// can be reached from the other.
pub(crate) fn components(alloc: Global, graph: &Graph) -> Result<Vec<usize>, NoMemory> {
    let left = postorder(alloc, graph)?;
    let transposed = graph.transposed(alloc)?;
    components_by(alloc, &transposed, &left)
}
