//! Orders of sources, packages, names, dates, IDs and paths of functions: for each pair of a rising list, with whether
//! the two are equal.

use crate::packages::package;
use crate::rows::{compare, is_kept};
use rustsec_lock::SourceId;
use rustsec_lock::package::Name;
use rustsec_texts::{Date, FunctionPath, Id};
use std::alloc::Global;
use std::cmp::Ordering;
use std::process::Abort;
use std::test::Fail;

/// Rising sources, by their texts, whatever the order of their kinds.
const SOURCES: &str =
    "directory+z, git+a, git+a#b, git+b, local-registry+a, path+a, registry+a, sparse+a";

/// Rising packages: name, version, source and checksum.
const PACKAGES: &str =
    "Base 9.0.0 registry+https://a/ 9, base 1.0.0-rc.1 - -, base 1.0.0 - -, base 1.0.0 - 00, base 1.0.0 - 01, base 1.0.0 git+https://a/ -, base 1.0.0 registry+https://a/ -, base 1.0.0+a - -, base 1.0.1 - -, base-x 0.1.0 - -";

/// Examples with rising lists.
const RISING: &[(&str, &str)] = &[
    ("source_order", SOURCES),
    ("package_order", PACKAGES),
    ("names", "base, é base\n"),
    ("order_of_dates", "2000-12-31, 2001-01-01"),
];

/// Rising IDs, by kind, then by year, none first, then by text. The eighth is empty.
const IDS: &str =
    "RUSTSEC-0000-0000, RUSTSEC-2018-0001, RUSTSEC-2018-0002, RUSTSEC-+2019-1, CVE-2001-1, GHSA-a, TALOS-2000-1, , A-1";

/// Rising paths, identifier by identifier, a path before its longer continuations; never by the whole text.
const PATHS: &str = "base::a, base::a::b, base::a0, base::a<b>::c, base0::b";

fn packages_compare(alloc: Global, pair: (&str, &str), order: Ordering) -> Result<bool, Fail> {
    let low = package(alloc, pair.0)?;
    let high = package(alloc, pair.1)?;
    Ok(low.cmp(&high) == order && (low == high) == order.is_eq())
}

/// Returns whether the values of two texts in the list of an example compare so.
fn is_so(alloc: Global, example: &str, pair: (&str, &str), order: Ordering) -> Result<bool, Fail> {
    let (low, high) = pair;
    match example {
        "source_order" => compare::<SourceId>(alloc, low, high, order),
        "package_order" => packages_compare(alloc, pair, order),
        "names" => compare::<Name>(alloc, low, high, order),
        "order_of_dates" => compare::<Date>(alloc, low, high, order),
        "order_of_ids" => compare::<Id>(alloc, low, high, order),
        _ => compare::<FunctionPath>(alloc, low, high, order),
    }
}

/// Checks that the value of a text compares with those of a list as its place does.
fn expect_place<T: AllocGlobal + Abort>(
    rt: &T,
    example: &str,
    place: usize,
    text: &str,
    rising: &str,
) -> Result<(), Fail> {
    for (i, other) in rising.split(", ").enumerate() {
        let found = is_so(rt.alloc(), example, (text, other), place.cmp(&i))?;
        assert!(rt; found, "{example}: {text} beside {other}");
    }
    Ok(())
}

fn expect_rising<T: AllocGlobal + Abort>(rt: &T, example: &str, rising: &str) -> Result<(), Fail> {
    for (i, text) in rising.split(", ").enumerate() {
        expect_place(rt, example, i, text, rising)?;
    }
    Ok(())
}

#[test]
fn rising_lists(rt: HostRuntime) -> Result<(), Fail> {
    for (example, rising) in RISING {
        expect_rising(&rt, example, rising)?;
    }
    Ok(())
}

// IDs are equal by text alone.
#[test]
fn order_of_ids(rt: HostRuntime) -> Result<(), Fail> {
    expect_rising(&rt, "order_of_ids", IDS)?;
    expect_rising(&rt, "order_of_ids", "RUSTSEC-+2018-1, RUSTSEC-2018-0001")?;
    for text in IDS.split(", ") {
        assert!(rt; is_kept::<Id>(rt.alloc(), text)?, "of {text}");
    }
    Ok(())
}

#[test]
fn order_of_paths(rt: HostRuntime) -> Result<(), Fail> {
    expect_rising(&rt, "order_of_paths", PATHS)
}
