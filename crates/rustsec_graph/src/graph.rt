//! The graph of a lockfile's dependencies.

ghost use Rattle.std.specs.Prelude.{◌≡◌, ◌<◌, IfErr, IfOk, List, OnErr, length, option_map, ℕ};
ghost use Rattle.toml.specs.View.{table_view};
ghost use Rattle.rustsec_values.specs.Failure.{IsMemory};
ghost use Rattle.rustsec_graph.specs.Edges.{dependents};
ghost use Rattle.rustsec_graph.specs.Graph.{graph_of};
ghost use Rattle.rustsec_graph.specs.Paths.{IsAnswer, IsPathTo};

use crate::candidates::is_old;
use crate::edges::{Resolved, resolve_all, roots_of};
use crate::index::Index;
use crate::reverse::{copied, reversed};
use crate::search::{Search, path_to, search_from};
use rustsec_lock::Lockfile;
use rustsec_values::{Items, Result, Text};
use std::alloc::Global;
use std::marker::Model;
use toml::Table;

/// The dependencies between the packages of a lockfile. A package is given by its place in the lockfile, from 0 on.
#[derive(Debug, Drop)]
pub struct Graph {
    edges: Items<Items<usize>>,
    /// The packages that depend on each package.
    dependents: Vec<Items<usize>>,
    roots: Items<usize>,
    unresolved: Items<Items<Text>>,
    search: Search,
}

impl Model for Graph {
    ghost use Rattle.rustsec_graph.specs.Graph.{GraphValue, IsClosed};
    ghost use Rattle.rustsec_graph.specs.Reverse.{AreReversed};
    ghost use Rattle.rustsec_graph.specs.Search.{IsWhole};

    ghost Value = { GraphValue };

    ghost view = { λ g. record { edges = g.edges; roots = g.roots; unresolved = g.unresolved } };

    ghost invariant = { λ g. IsClosed g.edges g.roots × IsWhole g.edges g.roots g.search × AreReversed g.edges g.dependents.items };
}

impl Graph {
    /// Returns the graph of a lockfile, which was read from this table. An edge leads from each package to those that
    /// its entries at `dependencies` and `replace` name. An entry that fits one package names it. One that fits several
    /// of the same name and version names the only one without a source. Any other entry is unresolved. The roots are
    /// the packages without a source and those on which no other package depends.
    ///
    /// # Errors
    ///
    /// `OutOfMemory` alone.
    pub fn from_table(alloc: Global, table: &Table, lockfile: &Lockfile) -> Result<Graph>
        ensures ok { IfOk result (λ g. g ≡ graph_of (table_view table.now) lockfile.now.packages) }
        ensures err { IfErr result IsMemory }
    {
        let packages = lockfile.packages.as_slice();
        let index = Index::new(alloc, is_old(table), packages)?;
        let Resolved { edges, unresolved } = resolve_all(alloc, table, &index)?;
        let edge_lists = edges.as_slice();
        let dependents = reversed(alloc, edge_lists)?;
        let roots = roots_of(alloc, packages, edge_lists)?;
        let root_places = roots.as_slice();
        let search = search_from(alloc, edge_lists, root_places)?;
        Ok(Graph {
            edges,
            dependents,
            roots: Items::from(roots),
            unresolved,
            search,
        })
    }

    /// Returns the first of the shortest paths from a root to a package, or `None` if no root reaches it. Paths of the
    /// same length are compared place by place.
    ///
    /// # Errors
    ///
    /// `OutOfMemory` alone, and only if a root reaches the package.
    pub fn path_to(&self, alloc: Global, place: usize) -> Result<Option<Vec<usize>>>
        ensures ok { IfOk result (λ path. IsAnswer self.now.edges self.now.roots place (option_map (λ v. v.items) path)) }
        ensures err { IfErr result IsMemory }

        // The answer that there is no path takes no memory.
        ensures none { OnErr result ((path : List ℕ) × IsPathTo self.now.edges self.now.roots place path) }
    {
        let path = path_to(alloc, &self.search, place)?;
        Ok(path)
    }

    /// Returns the packages that depend on a package themselves, in order.
    ///
    /// # Errors
    ///
    /// `OutOfMemory` alone, and only if a package depends on it.
    pub fn dependents(&self, alloc: Global, place: usize) -> Result<Vec<usize>>
        ensures ok { IfOk result (λ v. v.items ≡ dependents self.now.edges place) }
        ensures err { IfErr result IsMemory }

        // The answer that there is no package takes no memory.
        ensures none { OnErr result (0 < length (dependents self.now.edges place)) }
    {
        let Some(dependents) = self.dependents.get(place) else {
            return Ok(Vec::new(alloc));
        };
        let places = copied(alloc, dependents.as_slice())?;
        Ok(places)
    }

    /// Returns the roots, in order.
    pub fn roots(&self) -> &[usize]
        ensures { result.now ≡ self.now.roots }
    {
        self.roots.as_slice()
    }

    /// Returns for each package the texts of its unresolved entries, in order: those at `dependencies`, and then the one at
    /// `replace`. That of a value that is not a string is `(not a string)`, and one at `dependencies` that is not a list
    /// counts as an entry with the text `(not a list)`.
    pub fn unresolved(&self) -> &[Items<Text>]
        ensures { result.now ≡ self.now.unresolved }
    {
        self.unresolved.as_slice()
    }
}
