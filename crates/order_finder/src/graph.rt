// Directed graphs.
use lang_core::NoMemory;
use std::alloc::Global;

/// Vertices, numbered from 0, each with those to which its edges lead.
pub(crate) struct Graph {
    successors: Vec<Vec<usize>>,
    // How many they are: vertices and edges.
    size: usize,
}

impl Drop for Graph {
    fn drop(self) {
        let Self {
            successors: _,
            size: _,
        } = self;
    }
}

impl Graph {
    /// So many vertices, and no edges.
    pub(crate) fn new(alloc: Global, count: usize) -> Result<Graph, NoMemory> {
        let mut successors = Vec::with_capacity(alloc, count)?;
        for _ in 0..count {
            successors.push(Vec::new(alloc))?;
        }
        Ok(Graph {
            successors,
            size: count,
        })
    }

    /// An edge more, which may be there already.
    pub(crate) fn push_edge(&mut self, from: usize, to: usize) -> Result<(), NoMemory> {
        if let Some(successors) = self.successors.get_mut(from) {
            successors.push(to)?;
            self.size = self.size.saturating_add(1);
        }
        Ok(())
    }

    /// How many vertices there are.
    pub(crate) fn len(&self) -> usize {
        self.successors.len()
    }

    /// More turns than a search takes that leaves each vertex once and goes along each edge once.
    pub(crate) fn turns(&self) -> usize {
        self.size.saturating_add(1)
    }

    /// The vertices to which edges lead from this one.
    pub(crate) fn successors(&self, vertex: usize) -> &[usize] {
        match self.successors.get(vertex) {
            Some(successors) => successors.as_slice(),
            None => &[],
        }
    }

    /// The transpose: the same vertices, and each edge turned round.
    pub(crate) fn transposed(&self, alloc: Global) -> Result<Graph, NoMemory> {
        let mut transposed = Graph::new(alloc, self.len())?;
        for from in 0..self.len() {
            for to in self.successors(from) {
                transposed.push_edge(*to, from)?;
            }
        }
        Ok(transposed)
    }
}

/// So many times nothing.
pub(crate) fn nones<T: Drop>(alloc: Global, count: usize) -> Result<Vec<Option<T>>, NoMemory> {
    let mut nones = Vec::with_capacity(alloc, count)?;
    for _ in 0..count {
        nones.push(None)?;
    }
    Ok(nones)
}
