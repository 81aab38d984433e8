//! A cycle among the roots of a world, where a search for one order of them stops.
//!
//! **This crate is tested and not proved.** It is proved safe, as all of this repository is: it doesn't panic, reads nothing
//! that isn't there, and ends. No clause says that it finds a cycle where there is one, nor that what it gives is one. So
//! whoever asks tries what it gives by what the definition says of a cycle, before anything is told of it.
//!
//! It makes the graph of which roots come right before which in any log (the precedence graph, as for the serialisability
//! of transactions), cuts that into strongly connected components by Kosaraju's algorithm, and goes back within one by a
//! breadth-first search.
#![tactic(auto)]

mod breadth_first;
mod candidate;
mod cycles;
mod graph;
mod kosaraju;
mod roots;

pub use candidate::{At, Candidate, Link, Mark};
pub use cycles::find_cycle;
