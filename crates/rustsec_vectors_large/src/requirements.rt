//! Hundreds of requirements: unaffected ones of a single version each, below patched ones that leave gaps; and those
//! that Cargo's matching reads differently.

use crate::folders::writes;
use crate::numbers::{REQUIREMENTS, long, numbered};
use rustsec_check::least_free;
use rustsec_commands::answer_ranges;
use rustsec_fixtures::{lists, version};
use rustsec_versions::{Versions, find_difference, ranges_for_advisory};
use semver::VersionReq;
use std::alloc::Global;
use std::test::Fail;

/// The patched requirement with a number, on a line.
const PATCHED: &str = ">=$.0.0, <$.5.0\n";

/// Returns a template for each requirement, and then another one for each.
pub(crate) fn both(alloc: Global, first: &str, second: &str) -> Result<String, Fail> {
    let first = numbered(alloc, REQUIREMENTS, first)?;
    let second = numbered(alloc, REQUIREMENTS, second)?;
    Ok(format!(in alloc; "{first}{second}")?)
}

/// Returns the lists of the requirements on the lines of two texts.
fn lists_of(alloc: Global, patched: &str, unaffected: &str) -> Result<Versions, Fail> {
    let patched: Vec<&str> = patched.lines().collect(alloc)?;
    let unaffected: Vec<&str> = unaffected.lines().collect(alloc)?;
    Ok(lists(alloc, &patched, &unaffected)??)
}

/// Returns both lists of requirements.
fn large_lists(alloc: Global) -> Result<Versions, Fail> {
    let patched = numbered(alloc, REQUIREMENTS, PATCHED)?;
    let unaffected = numbered(alloc, REQUIREMENTS, "=0.0.$\n")?;
    lists_of(alloc, &patched, &unaffected)
}

/// Returns how many requirements lists have, and how many ranges, if a copy of the lists is equal to them.
fn counts(alloc: Global, lists: &Versions) -> Result<(usize, usize, usize, bool), Fail> {
    let ranges = ranges_for_advisory(alloc, lists)?;
    let copy = lists.clone(alloc)?;
    let (patched, unaffected) = (lists.patched().len(), lists.unaffected().len());
    Ok((patched, unaffected, ranges.len(), copy == *lists))
}

/// Returns whether lists leave a version affected.
fn is_affected(alloc: Global, lists: &Versions, text: &str) -> Result<bool, Fail> {
    let version = version(alloc, text)?;
    Ok(lists.is_vulnerable(&version))
}

/// Versions that hundreds of requirements leave affected; those with `!` they do not.
const VERSIONS: &str =
    "0.0.0 !0.0.1 !0.0.150 0.0.150-a !0.0.300 0.0.301 1.0.0-a !1.0.0 !150.4.9 150.5.0 !300.4.9 300.5.0 301.0.0";

// The intervals of both lists are disjoint, so there is one more range than there are requirements.
#[test]
fn hundreds_of_requirements(rt: HostRuntime) -> Result<(), Fail> {
    let lists = large_lists(rt.alloc())?;
    assert!(rt; counts(rt.alloc(), &lists)? == (300, 300, 601, true));
    for word in VERSIONS.split_whitespace() {
        let text = word.trim_start_matches('!');
        let found = is_affected(rt.alloc(), &lists, text)?;
        assert!(rt; found == (text == word), "of {word}");
    }
    Ok(())
}

/// Returns patched requirements by a template, and a last one that is above them.
fn stepped(alloc: Global, template: &str) -> Result<Versions, Fail> {
    let patched = numbered(alloc, REQUIREMENTS, template)?;
    let patched = format!(in alloc; "{patched}>=301.0.0\n")?;
    lists_of(alloc, &patched, "")
}

/// Returns whether 301.0.0 is the least version from 0.1.0 on that neither of two lists leaves affected.
fn frees_the_last(alloc: Global, first: &Versions, second: &Versions) -> Result<bool, Fail> {
    let locked = version(alloc, "0.1.0")?;
    let found = least_free(alloc, &[first, second], &locked)?.ok_or("none is free")?;
    Ok(found == version(alloc, "301.0.0")?)
}

// Each interval begins inside the one before it. Each of two advisories leaves affected what the other one patches.
#[test]
fn the_least_version_above_hundreds_of_intervals(rt: HostRuntime) -> Result<(), Fail> {
    let first = stepped(rt.alloc(), PATCHED)?;
    let second = stepped(rt.alloc(), ">=$.5.0, <$.9.0\n")?;
    assert!(rt; frees_the_last(rt.alloc(), &first, &second)?);
    Ok(())
}

/// Returns the lines of both lists, as an input of the commands, and lines by a template after them.
fn list_lines(alloc: Global, more: &str) -> Result<String, Fail> {
    let mut lines = both(alloc, "patched >=$.0.0, <$.5.0\n", "unaffected =0.0.$\n")?;
    lines.push_str(&numbered(alloc, REQUIREMENTS, more)?)?;
    Ok(lines)
}

#[test]
fn affected_by_hundreds_of_requirements(rt: HostRuntime) -> Result<(), Fail> {
    let input = list_lines(rt.alloc(), "version $.4.9\nversion $.5.0\n")?;
    let output = "$.4.9 not affected\n$.5.0 affected\n";
    let output = numbered(rt.alloc(), REQUIREMENTS, output)?;
    assert!(rt; writes(rt.alloc(), &[], "affected", &input, (0, &output, None))?);
    Ok(())
}

/// Returns whether `answer_ranges` writes a text for an input, with status 0.
fn is_answered(alloc: Global, mut input: &[u8], text: &str) -> Result<bool, Fail> {
    let mut output = Vec::new(alloc);
    let status = answer_ranges(alloc, &mut input, &mut output)?;
    Ok(status == 0 && output.as_slice() == text.as_bytes())
}

#[test]
fn ranges_of_hundreds_of_requirements(rt: HostRuntime) -> Result<(), Fail> {
    let input = list_lines(rt.alloc(), "")?;
    let gaps = both(rt.alloc(), "0.0.$\n0.0.$+-0 ", "$.0.0\n$.5.0 ")?;
    let output = format!(in rt.alloc(); "- {gaps}-\n")?;
    assert!(rt; writes(rt.alloc(), &[], "ranges", &input, (0, &output, None))?);
    assert!(rt; is_answered(rt.alloc(), input.as_bytes(), &output)?);
    Ok(())
}

/// The numbers of a release that shows a difference, and whether the interval holds it.
type Found = Option<(u64, u64, u64, bool)>;

/// Returns what shows that a requirement is read differently, if anything does.
fn difference_in(alloc: Global, text: &str) -> Result<Found, Fail> {
    let requirement = VersionReq::parse(alloc, text)?;
    let found = find_difference(alloc, &requirement)?;
    Ok(match &found {
        Some(found) => {
            let release = &found.release;
            Some((release.major, release.minor, release.patch, found.is_held))
        }
        None => None,
    })
}

/// Returns whether a requirement that ends at a major number is read differently, and one with three numbers is not.
fn is_found(alloc: Global, number: u32) -> Result<bool, Fail> {
    let short = format!(in alloc; "<={number}")?;
    let whole = format!(in alloc; ">={number}.0.0, <{number}.5.0")?;
    let first = Some((u64::from(number), 0, 1, false));
    Ok(difference_in(alloc, &short)? == first && difference_in(alloc, &whole)?.is_none())
}

#[test]
fn hundreds_of_requirements_read_differently(rt: HostRuntime) -> Result<(), Fail> {
    for number in 0..REQUIREMENTS {
        assert!(rt; is_found(rt.alloc(), number)?, "of {number}");
    }
    Ok(())
}

#[test]
fn a_long_requirement_read_differently(rt: HostRuntime) -> Result<(), Fail> {
    let start = long(rt.alloc(), ">1.2.3-", "a")?;
    let text = format!(in rt.alloc(); "{start}, <=4")?;
    assert!(rt; difference_in(rt.alloc(), &text)? == Some((4, 0, 1, false)));
    Ok(())
}
