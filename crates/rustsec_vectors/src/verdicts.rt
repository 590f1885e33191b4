//! Lists of requirements by the library's calls: which are accepted, which versions they leave affected, their ranges,
//! and how many comparisons a search makes among the gaps that the lists keep.

use crate::rows::{field, prints};
use rustsec_fixtures::{kind_of, some_affects, version};
use rustsec_values::ErrorKind;
use rustsec_versions::{OsvRange, Steps, Versions, ranges_for_advisory};
use semver::{Version, VersionReq};
use std::alloc::Global;
use std::test::Fail;

/// Lists that are accepted: the example, the patched requirements, the unaffected ones, the ranges from `introduced` to
/// `fixed` (`-` if it is missing), versions that are affected, and versions that are not.
const ACCEPTED: &str = "
acceptance | > 1.0.0 | < 1.0.0 | 1.0.0..1.0.1-0 | |
acceptance | < 1.2.3; >= 1.2.3 | | 1.2.3..1.2.3 | |
patched_lower_bound | >= 1.2.3 | | -..1.2.3 | 1.2.2 1.2.3-alpha | 1.2.3 1.2.3+b 1.2.4-alpha
no_requirement | | | -..- | 0.0.0-0 |
star_alone | * | | | | 1.0.0 0.0.0-0
exact_then_greater | =1.2.3; > 1.2.3 | | -..1.2.3 1.2.4-0..1.2.4-0 | |
exclusive_bounds_around_a_point | > 1.0.0 | < 1.0.0 | 1.0.0..1.0.1-0 | 1.0.0 | 1.0.1-0
exclusive_bounds_around_a_point | < 1.0.0 | > 1.0.0 | 1.0.0..1.0.1-0 | 1.0.0 | 1.0.1-0
bounds_overlap_without_a_version | < 1.2.4-0; > 1.2.3 | | | | 1.2.3 1.2.4-0
one_requirement_two_bounds | > 1.2.3, < 1.2.4-0 | | -..1.2.4-0 1.2.4-0..- | 1.2.4-0 1.2.3 |
touching_bounds | < 1.2.3; >= 1.2.3 | | 1.2.3..1.2.3 | | 1.2.3 1.2.3-a 0.0.0-0
range_between_successors | <= 1.2.3; > 2.0.0 | | 1.2.4-0..2.0.1-0 | |
ranges_of_two_lists | ^1.2; >= 2.1.0 | < 1.0.0 | 1.0.0..1.2.0 2.0.0-0..2.1.0 | 1.1.0 2.0.0-alpha1 | 0.9.0 1.0.0-rc.1 1.9.0
range_after_an_inclusive_end | <= 1.2.3; > 1.2.3, < 1.2.4-0 | | 1.2.4-0..1.2.4-0 1.2.4-0..- | 1.2.4-0 | 1.2.3
merged_chains | >= 1.0.0, < 1.5.0; >= 1.4.0, < 2.0.0 | | -..1.0.0 2.0.0..- | 0.9.9 2.0.0 | 1.4.5
merged_chains | >= 1, < 3; >= 4, < 6; >= 2, < 5 | | -..1.0.0 6.0.0..- | 6.0.0 | 3.5.0 5.9.9
merged_chains | ^1; ^1; ~1.9 | | -..1.0.0 2.0.0-0..- | 2.0.0-0 | 1.9.5
merged_chains | > 1.0.0; >= 1.0.0; < 2.0.0, > 1.5.0 | < 0.5.0 | 0.5.0..1.0.0 | 0.5.0 | 1.0.0 2.0.0
touching_stays_apart | =1.2.3; >= 1.2.3 | | -..1.2.3 | 1.2.2 | 1.2.3
touching_stays_apart | =1.2.3; > 1.2.3 | | -..1.2.3 1.2.4-0..1.2.4-0 | 1.2.2 | 1.2.3 1.2.4-0
touching_stays_apart | < 1.2.3; >= 1.2.3 | | 1.2.3..1.2.3 | | 1.2.2 1.2.3
touching_stays_apart | *; >= 1 | | | | 0.1.0 1.0.0
numbers_at_the_limit | >= 1.2.18446744073709551615 | | -..1.2.18446744073709551615 | |
numbers_at_each_limit | < 1.2.18446744073709551615 | | 1.2.18446744073709551615..- | 1.2.18446744073709551615 | 1.2.18446744073709551614 1.2.18446744073709551615-a
numbers_at_each_limit | > 1.2.18446744073709551615-a | | -..1.2.18446744073709551615-a.0 | 1.2.18446744073709551615-a | 1.2.18446744073709551615-a.0 1.2.18446744073709551615
numbers_at_each_limit | > 18446744073709551615 | | -..18446744073709551615.0.1-0 | 18446744073709551615.0.0 | 18446744073709551615.0.1-0
numbers_at_each_limit | =1.2.18446744073709551615-0 | | -..1.2.18446744073709551615-0 1.2.18446744073709551615-0.0..- | 1.2.18446744073709551614 1.2.18446744073709551615-0.0 1.2.18446744073709551615 | 1.2.18446744073709551615-0
";

/// Lists that are refused: the example, the patched requirements, and the unaffected ones.
const REFUSED: &str = "
acceptance | ^1 | ^1.2
acceptance | | < 1.0.0; < 1.0.0
acceptance | 1.* |
bounds_overlap_without_a_version | < 1.2.4-0 | > 1.2.3
bounds_overlap_without_a_version | > 1.2.3 | < 1.2.4-0
bounds_overlap_without_a_version | | < 1.2.4-0; > 1.2.3
clash_between_lists | ^1.2 | ^1
clash_between_lists | | < 1.0.0; < 1.0.0
numbers_at_the_limit | > 1.2.18446744073709551615 |
numbers_at_the_limit | =1.2.18446744073709551615 |
numbers_at_the_limit | <= 1.2.18446744073709551615 |
numbers_at_the_limit | ^18446744073709551615 |
numbers_at_each_limit_are_refused | ~1.18446744073709551615 |
numbers_at_each_limit_are_refused | ~18446744073709551615 |
numbers_at_each_limit_are_refused | ^0.18446744073709551615 |
numbers_at_each_limit_are_refused | ^0.0.18446744073709551615 |
";

/// Parses requirements, which have semicolons between them.
fn requirements(alloc: Global, texts: &str) -> Result<Vec<VersionReq>, Fail> {
    let mut reqs = Vec::new(alloc);
    if texts.is_empty() {
        return Ok(reqs);
    }
    for text in texts.split(';') {
        reqs.push(VersionReq::parse(alloc, text.trim())?)?;
    }
    Ok(reqs)
}

fn lists(alloc: Global, row: &str) -> Result<rustsec_values::Result<Versions>, Fail> {
    let patched = requirements(alloc, field(row, 1))?;
    let unaffected = requirements(alloc, field(row, 2))?;
    Ok(Versions::new(alloc, patched, unaffected))
}

/// Returns whether a side of a range prints as a text, or as a dash if it is missing.
fn is(alloc: Global, side: &Option<Version>, text: &str) -> Result<bool, Fail> {
    match side {
        Some(version) => prints(alloc, version, text),
        None => Ok(text == "-"),
    }
}

fn are(alloc: Global, ranges: &[OsvRange], texts: &str) -> Result<bool, Fail> {
    for (range, text) in ranges.iter().zip(texts.split(' ')) {
        let (introduced, fixed) = text.split_once("..").ok_or("no range")?;
        if !is(alloc, &range.introduced, introduced)? || !is(alloc, &range.fixed, fixed)? {
            return Ok(false);
        }
    }
    Ok(ranges.len() == texts.matches("..").count())
}

/// Returns whether lists and their ranges give all these versions the same verdict.
fn all_are(
    alloc: Global,
    lists: &Versions,
    ranges: &[OsvRange],
    texts: &str,
    affected: bool,
) -> Result<bool, Fail> {
    for text in texts.split_whitespace() {
        let asked = version(alloc, text)?;
        if lists.is_vulnerable(&asked) != affected || some_affects(ranges, &asked) != affected {
            return Ok(false);
        }
    }
    Ok(true)
}

fn have(alloc: Global, lists: &Versions, row: &str) -> Result<bool, Fail> {
    let ranges = ranges_for_advisory(alloc, lists)?;
    Ok(
        are(alloc, &ranges, field(row, 3))?
            && all_are(alloc, lists, &ranges, field(row, 4), true)?
            && all_are(alloc, lists, &ranges, field(row, 5), false)?,
    )
}

fn is_accepted(alloc: Global, row: &str) -> Result<bool, Fail> {
    let lists = lists(alloc, row)??;
    Ok(row.split('|').count() == 6 && have(alloc, &lists, row)?)
}

#[test]
fn accepted_lists(rt: HostRuntime) -> Result<(), Fail> {
    for row in ACCEPTED.trim().lines() {
        assert!(rt; is_accepted(rt.alloc(), row)?, "{row}");
    }
    Ok(())
}

fn is_refused(alloc: Global, row: &str) -> Result<bool, Fail> {
    let answer = lists(alloc, row)?;
    Ok(kind_of(answer) == Some(ErrorKind::BadParam))
}

#[test]
fn refused_lists(rt: HostRuntime) -> Result<(), Fail> {
    for row in REFUSED.trim().lines() {
        assert!(rt; is_refused(rt.alloc(), row)?, "{row}");
    }
    Ok(())
}

/// Examples with patched and unaffected requirements, a version, and after it: how many ranges the lists leave, whether
/// the plain test and a search by halving find the version affected, and how many comparisons the search takes: one for
/// each start that it asks about, and one for the end of the last range that starts before the version. A bound that is
/// not there takes none.
const COMPARISONS: &str = "
halving_counts | =1.0.0; =2.0.0; =3.0.0; =4.0.0; =5.0.0; =6.0.0 | | 3.5.0 | 7 true true 4
halving_counts | =1.0.0; =2.0.0; =3.0.0; =4.0.0; =5.0.0; =6.0.0 | | 0.1.0 | 7 true true 3
halving_counts | =1.0.0; =2.0.0; =3.0.0; =4.0.0; =5.0.0; =6.0.0 | | 3.0.0 | 7 false false 4
halving_counts | =1.0.0; =2.0.0; =3.0.0; =4.0.0; =5.0.0; =6.0.0 | | 3.0.0+b | 7 false false 4
halving_counts | * | | 1.0.0 | 0 false false 0
halving_counts |  | | 1.0.0 | 1 true true 0
halving_two_ranges | <= 1.2.3; > 1.2.3, < 1.2.4-0 | | 1.2.4-0 | 2 true true 1
halving_two_ranges | <= 1.2.3; > 1.2.3, < 1.2.4-0 | | 1.2.3 | 2 false false 2
halving_two_ranges | <= 1.2.3; > 1.2.3, < 1.2.4-0 | | 9.0.0 | 2 true true 1
";

fn counts(alloc: Global, row: &str) -> Result<String, Fail> {
    let lists = lists(alloc, row)??;
    let asked = version(alloc, field(row, 3))?;
    let ranges = ranges_for_advisory(alloc, &lists)?.len();
    let mut steps = Steps::new();
    let found = lists.is_vulnerable_counted(&asked, &mut steps);
    let plain = lists.is_vulnerable(&asked);
    Ok(format!(in alloc; "{ranges} {plain} {found} {}", steps.count())?)
}

fn are_counted(alloc: Global, row: &str) -> Result<bool, Fail> {
    let found = counts(alloc, row)?;
    Ok(found.as_str() == field(row, 4))
}

#[test]
fn halving(rt: HostRuntime) -> Result<(), Fail> {
    for row in COMPARISONS.trim().lines() {
        assert!(rt; are_counted(rt.alloc(), row)?, "{row}");
    }
    Ok(())
}

fn is_affected(alloc: Global) -> Result<bool, Fail> {
    let patched = vec![in alloc; VersionReq::parse(alloc, ">= 1.2.3")?]?;
    let unaffected = vec![in alloc; VersionReq::parse(alloc, "< 1.0.0")?]?;
    let versions = Versions::new(alloc, patched, unaffected)?;
    let version = Version::parse(alloc, "1.2.3-alpha")?;
    Ok(versions.is_vulnerable(&version))
}

#[test]
fn readme(rt: HostRuntime) -> Result<(), Fail> {
    assert!(rt; is_affected(rt.alloc())?);
    Ok(())
}
