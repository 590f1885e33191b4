//! Texts of lockfiles and the places of their packages, counted by hand.

use crate::{Place, package_places};
use std::alloc::Global;
use std::process::Abort;
use std::test::Fail;

/// A text and the places of the headers in it.
struct Row {
    text: &'static str,
    places: &'static [Place],
}

/// The rows.
const ROWS: &[Row] = &[
    Row {
        text: "",
        places: &[],
    },
    Row {
        text: "version = 4\n",
        places: &[],
    },
    Row {
        text: "[[package]]\nname = \"a\"\n\n[[package]]\r\nname = \"b\"\n",
        places: &[Place { line: 1, column: 1 }, Place { line: 4, column: 1 }],
    },
    Row {
        text: "\u{feff}[[package]]\nname = \"a\"\n",
        places: &[Place { line: 1, column: 1 }],
    },
    Row {
        text: "\u{feff}version = 4\n [[package]]\n",
        places: &[Place { line: 2, column: 2 }],
    },
    Row {
        text: "# [[package]]\nversion = 4 # [[package]] \u{e9}\n\n  [[package]] # one\n",
        places: &[Place { line: 4, column: 3 }],
    },
    Row {
        text: "a = \"\"\"\n[[package]]\n\"\"\"\nb = '''\n[[package]]'''\nc = '[[package]]'\n[[package]]\n",
        places: &[Place { line: 7, column: 1 }],
    },
    Row {
        text: "a = \"\\\"[[package]]\"\nb = [\n  \"\u{e9}\u{10348}\", # \"\n]\n[[package]]",
        places: &[Place { line: 5, column: 1 }],
    },
    Row {
        text: "x = '\u{e9}\u{10348}'[[package]]\n[[package]] y = 1\n[[package.z]]\n[package]\n",
        places: &[],
    },
    Row {
        text: "[[ 'package' ]] # one\n\t[[package]]",
        places: &[Place { line: 1, column: 1 }, Place { line: 2, column: 2 }],
    },
    Row {
        text: "a = \"open\n[[package]]\n",
        places: &[],
    },
];

/// Returns whether the headers of a row's text are found at its places.
fn is_found(alloc: Global, row: &Row) -> Result<bool, Fail> {
    let places = package_places(alloc, row.text)?;
    Ok(places.as_slice() == row.places)
}

/// Asserts that each row holds.
fn expect_rows<R: Abort>(rt: &R, alloc: Global) -> Result<(), Fail> {
    for row in ROWS {
        assert!(rt; is_found(alloc, row)?, "of {}", row.text);
    }
    Ok(())
}

#[test]
fn places_of_headers(rt: HostRuntime) -> Result<(), Fail> {
    expect_rows(&rt, rt.alloc())
}
