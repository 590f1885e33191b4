//! Why a package is in a lockfile: the dependencies between its packages, and a shortest path from a root.
#![tactic(auto)]

mod candidates;
mod edges;
mod entries;
mod graph;
mod index;
mod releases;
mod reverse;
mod search;

pub use crate::graph::Graph;
