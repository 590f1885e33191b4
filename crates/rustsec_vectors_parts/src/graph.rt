//! Paths and dependents in the graph of a lockfile, by the places of packages that no command looks at.

use rustsec_graph::Graph;
use rustsec_lock::Lockfile;
use std::alloc::Global;
use std::test::Fail;

/// Two versions of one package, a git package, an entry that names nothing, an entry that fits two packages, and two
/// packages that only need one another.
const FULL: &str = r#"package = [
{ name = "app", version = "0.1.0", dependencies = ["left", "right", "gone"] },
{ name = "left", version = "1.0.0", source = "registry+https://github.com/rust-lang/crates.io-index", dependencies = ["shared", "shared 1.0.0"] },
{ name = "right", version = "1.0.0", source = "registry+https://github.com/rust-lang/crates.io-index", dependencies = ["shared 2.0.0", "tool 0.1.0 (git+https://example.com/tool)"] },
{ name = "shared", version = "1.0.0", source = "registry+https://github.com/rust-lang/crates.io-index" },
{ name = "shared", version = "2.0.0", source = "registry+https://github.com/rust-lang/crates.io-index", dependencies = ["shared 1.0.0", "tool"] },
{ name = "tool", version = "0.1.0", source = "git+https://example.com/tool#0123456789012345678901234567890123456789" },
{ name = "x", version = "1.0.0", source = "registry+https://github.com/rust-lang/crates.io-index", dependencies = ["y"] },
{ name = "y", version = "1.0.0", source = "registry+https://github.com/rust-lang/crates.io-index", dependencies = ["x"] },
]"#;

/// Git packages in a lockfile without a version: a branch with a number sign, an entry that is cut at the first one,
/// and the branch `master`, which entries leave out.
const OLD_GIT: &str = r#"package = [
{ name = "app", version = "0.1.0", dependencies = ["left 1.0.0 (git+https://example.com/left?branch=a#b)", "left 1.0.0 (git+https://example.com/left?branch=a)", "right 1.0.0 (git+https://example.com/right)"] },
{ name = "left", version = "1.0.0", source = "git+https://example.com/left?branch=a#b#0123456789012345678901234567890123456789" },
{ name = "right", version = "1.0.0", source = "git+https://example.com/right?branch=master#0123456789012345678901234567890123456789" },
]"#;

/// One git package of the branch `master` and one without a branch in a lockfile of version 3, and an entry for each.
const NEW_GIT: &str = r#"version = 3
package = [
{ name = "app", version = "0.1.0", dependencies = ["tool 1.0.0 (git+https://example.com/tool)"] },
{ name = "base", version = "0.1.0", dependencies = ["tool 1.0.0 (git+https://example.com/tool?branch=master)"] },
{ name = "tool", version = "1.0.0", source = "git+https://example.com/tool#0123456789012345678901234567890123456789" },
{ name = "tool", version = "1.0.0", source = "git+https://example.com/tool?branch=master#0123456789012345678901234567890123456789" },
]"#;

/// A local package and one from a registry with the same name and version, and two further versions of one name.
const LOCAL: &str = r#"package = [
{ name = "app", version = "0.1.0", dependencies = ["tool", "two", "two 2.0.0"] },
{ name = "base", version = "0.1.0", dependencies = ["tool 1.0.0", "two 1.0.0"] },
{ name = "last", version = "0.1.0", dependencies = ["tool 1.0.0 (registry+https://github.com/rust-lang/crates.io-index)"] },
{ name = "tool", version = "1.0.0" },
{ name = "tool", version = "1.0.0", source = "registry+https://github.com/rust-lang/crates.io-index" },
{ name = "two", version = "1.0.0" },
{ name = "two", version = "1.0.0", source = "registry+https://github.com/rust-lang/crates.io-index" },
{ name = "two", version = "2.0.0", source = "registry+https://github.com/rust-lang/crates.io-index" },
]"#;

/// Two local packages with the same name and version, and an entry that fits both.
const TWO_LOCAL: &str = r#"package = [
{ name = "app", version = "0.1.0", dependencies = ["tool"] },
{ name = "tool", version = "1.0.0" },
{ name = "tool", version = "1.0.0" },
]"#;

/// A package that is replaced by a local one, one that is replaced by a package that is not there, and one whose
/// `replace` is not a text.
const REPLACED: &str = r#"package = [
{ name = "app", version = "0.1.0", dependencies = ["tool 1.0.0 (registry+https://github.com/rust-lang/crates.io-index)"], replace = 1 },
{ name = "base", version = "0.1.0", dependencies = ["gone"], replace = "gone 1.0.0" },
{ name = "tool", version = "1.0.0" },
{ name = "tool", version = "1.0.0", source = "registry+https://github.com/rust-lang/crates.io-index", dependencies = ["app"], replace = "tool 1.0.0" },
]"#;

/// Dependencies that are not a list, and a list with a value that is not a text.
const NO_LIST: &str = r#"package = [
{ name = "app", version = "0.1.0", dependencies = "tool" },
{ name = "tool", version = "1.0.0", dependencies = [1, "app"] },
]"#;

/// Lockfiles, each with the dependents of each of its packages.
const DEPENDENTS: &[(&str, &[&[usize]])] = &[
    (FULL, &[&[], &[0], &[0], &[1, 4], &[2], &[2, 4], &[7], &[6]]),
    (OLD_GIT, &[&[], &[0], &[0]]),
    (NEW_GIT, &[&[], &[], &[0], &[1]]),
    (LOCAL, &[&[], &[], &[], &[0, 1], &[2], &[1], &[], &[0]]),
    (TWO_LOCAL, &[&[], &[], &[]]),
    (REPLACED, &[&[3], &[], &[3], &[0]]),
    (NO_LIST, &[&[1], &[]]),
];

/// Places of the eight packages, each with the path to it, which is empty if there is none: the program, the git
/// package, and no package.
const PATHS: &[(usize, &[usize])] = &[(0, &[0]), (5, &[0, 2, 5]), (8, &[])];

fn graph(alloc: Global, text: &str) -> Result<Graph, Fail> {
    let table = toml::table_from_str(alloc, text)?;
    let lockfile = Lockfile::from_table(alloc, &table)?;
    Ok(Graph::from_table(alloc, &table, &lockfile)?)
}

/// Returns whether these are the dependents of a place, or of each package of a lockfile.
fn are_of(alloc: Global, graph: &Graph, place: usize, wanted: &[usize]) -> Result<bool, Fail> {
    let places = graph.dependents(alloc, place)?;
    Ok(places.as_slice() == wanted)
}

fn has_dependents(alloc: Global, text: &str, expected: &[&[usize]]) -> Result<bool, Fail> {
    let graph = graph(alloc, text)?;
    let mut same = true;
    for (place, dependents) in expected.iter().enumerate() {
        same = same && are_of(alloc, &graph, place, dependents)?;
    }
    Ok(same)
}

#[test]
fn dependents(rt: HostRuntime) -> Result<(), Fail> {
    for (text, expected) in DEPENDENTS {
        assert!(rt; has_dependents(rt.alloc(), text, expected)?, "of {text}");
    }
    Ok(())
}

/// Returns whether the path to a place is this one, and the program is the one root.
fn path_is(alloc: Global, place: usize, expected: &[usize]) -> Result<bool, Fail> {
    let graph = graph(alloc, FULL)?;
    let is_root = graph.roots() == &[0][..];
    match graph.path_to(alloc, place)? {
        Some(path) => Ok(is_root && path.as_slice() == expected),
        None => Ok(is_root && expected.is_empty()),
    }
}

#[test]
fn paths(rt: HostRuntime) -> Result<(), Fail> {
    for (place, expected) in PATHS {
        assert!(rt; path_is(rt.alloc(), *place, expected)?, "to {place}");
    }
    Ok(())
}
