//! The intervals of requirements: their bounds, how they print, which overlap, and by which order they compare; the
//! least version above another.

use crate::rows::{field, prints};
use rustsec_fixtures::{TextWriter, interval, kind_of, version};
use rustsec_values::{Error, ErrorKind};
use rustsec_versions::{Bound, OsvRange, UnaffectedRange, requirement_text, successor};
use semver::{Comparator, Op, Prerelease, VersionReq};
use std::alloc::Global;
use std::fmt::Write as _;
use std::test::Fail;

/// Examples with a requirement and its interval.
const INTERVALS: &str = "
interval_display | ^1.2.3 | [1.2.3, 2.0.0-0)
interval_display | * | [0, ∞)
interval_display | > 1 | (1.0.0, ∞)
interval_display | <= 2 | [0, 2.0.0]
interval_display_fails_where_its_writer_does | < 2 | [0, 2.0.0)
interval_display_fails_where_its_writer_does | > 1, < 2 | (1.0.0, 2.0.0)
interval_display_fails_where_its_writer_does | > 1, <= 2 | (1.0.0, 2.0.0]
interval_display_fails_where_its_writer_does | >= 1 | [1.0.0, ∞)
interval_display_fails_where_its_writer_does | ^1.2.3-a.1 | [1.2.3-a.1, 2.0.0-0)
requirement_intervals | ^0.0.3 | [0.0.3, 0.0.4-0)
requirement_intervals | ^0.0 | [0.0.0, 0.1.0-0)
requirement_intervals | ~1.2 | [1.2.0, 1.3.0-0)
requirement_intervals | =1.0 | [1.0.0, 1.0.0]
requirement_intervals | > 1 | (1.0.0, ∞)
overlap_cases_of_operators | =1.0 | [1.0.0, 1.0.0]
overlap_cases_of_operators | ^1.2.3 | [1.2.3, 2.0.0-0)
overlap_cases_of_operators | ^1.2 | [1.2.0, 2.0.0-0)
overlap_cases_of_operators | ^1 | [1.0.0, 2.0.0-0)
overlap_cases_of_operators | ~1 | [1.0.0, 2.0.0-0)
overlap_cases_of_operators | ^0.2.3 | [0.2.3, 0.3.0-0)
overlap_cases_of_operators | ^0.2 | [0.2.0, 0.3.0-0)
overlap_cases_of_operators | ^0.0.3 | [0.0.3, 0.0.4-0)
overlap_cases_of_operators | ^0.0 | [0.0.0, 0.1.0-0)
overlap_cases_of_operators | ^0 | [0.0.0, 1.0.0-0)
overlap_cases_of_operators | ~1.2.3 | [1.2.3, 1.3.0-0)
overlap_cases_of_operators | ~1.2 | [1.2.0, 1.3.0-0)
wildcards_after_operators | =1.* | [1.0.0, 1.0.0]
wildcards_after_operators | >=1.* | [1.0.0, ∞)
wildcards_after_operators | ^1.x | [1.0.0, 2.0.0-0)
wildcards_after_operators | x | [0, ∞)
bounds_at_the_greatest_number | < 1.2.18446744073709551615 | [0, 1.2.18446744073709551615)
bounds_at_the_greatest_number | > 1.2.18446744073709551615-a | (1.2.18446744073709551615-a, ∞)
bounds_at_the_greatest_number | > 18446744073709551615 | (18446744073709551615.0.0, ∞)
bounds_at_the_greatest_number | =1.2.18446744073709551615-0 | [1.2.18446744073709551615-0, 1.2.18446744073709551615-0]
";

/// Returns how many writes the text of an interval takes, if a writer that never fails gets this text.
fn writes_of(alloc: Global, interval: &UnaffectedRange, printed: &str) -> Option<u64> {
    let mut writer = TextWriter::new(alloc, 0);
    let answer = write!(writer, "{interval}");
    let is_whole = answer.is_ok() && writer.held() == printed.as_bytes();
    is_whole.then_some(writer.calls())
}

/// Returns whether printing an interval fails at a write that fails, after which nothing is written.
fn stops_at(alloc: Global, interval: &UnaffectedRange, printed: &str, call: u64) -> bool {
    let mut writer = TextWriter::new(alloc, call);
    let answer = write!(writer, "{interval}");
    let is_beginning = printed.as_bytes().starts_with(writer.held());
    answer.is_err() && is_beginning && writer.calls() == call
}

/// Returns whether printing an interval fails exactly where its writer does: at each of its writes.
fn stops_at_each(alloc: Global, interval: &UnaffectedRange, printed: &str) -> bool {
    let Some(writes) = writes_of(alloc, interval, printed) else {
        return false;
    };
    for call in 0..writes {
        if !stops_at(alloc, interval, printed, call + 1) {
            return false;
        }
    }
    writes > 2
}

fn has_interval(alloc: Global, row: &str) -> Result<bool, Fail> {
    let printed = field(row, 2);
    let interval = interval(alloc, field(row, 1))??;
    Ok(prints(alloc, &interval, printed)? && stops_at_each(alloc, &interval, printed))
}

#[test]
fn intervals_of_requirements(rt: HostRuntime) -> Result<(), Fail> {
    for row in INTERVALS.trim().lines() {
        assert!(rt; has_interval(rt.alloc(), row)?, "{row}");
    }
    Ok(())
}

fn is_refused(alloc: Global, text: &str) -> Result<bool, Fail> {
    let answer = interval(alloc, text)?;
    Ok(kind_of(answer) == Some(ErrorKind::BadParam))
}

// Requirements without an interval. None can have the pre-release `a..b`: `Prerelease` is made by its parser alone,
// which refuses an empty identifier.
#[test]
fn refused_requirements(rt: HostRuntime) -> Result<(), Fail> {
    for (example, text) in [
        ("requirement_intervals", "1.*"),
        ("requirement_intervals", "^1, <2"),
        ("requirement_intervals", "> 1, > 2"),
        ("wildcards_after_operators", "1.X"),
    ] {
        assert!(rt; is_refused(rt.alloc(), text)?, "{example}: {text}");
    }
    Ok(())
}

/// Returns the kind of the refusal of a requirement of one comparator with a patch number but no minor one.
fn refusal_by_hand(alloc: Global, op: Op) -> Result<Option<ErrorKind>, Fail> {
    let comparator = Comparator {
        op,
        major: 1,
        minor: None,
        patch: Some(2),
        pre: Prerelease::empty(),
    };
    let req = VersionReq {
        comparators: vec![in alloc; comparator]?,
    };
    Ok(kind_of(UnaffectedRange::from_req(alloc, &req)))
}

#[test]
fn requirements_by_hand(rt: HostRuntime) -> Result<(), Fail> {
    assert!(rt; refusal_by_hand(rt.alloc(), Op::Caret)? == Some(ErrorKind::BadParam));
    assert!(rt; refusal_by_hand(rt.alloc(), Op::Tilde)? == Some(ErrorKind::BadParam));
    Ok(())
}

fn overlap(alloc: Global, first: &str, second: &str) -> Result<(bool, bool), Fail> {
    let first = interval(alloc, first)??;
    let second = interval(alloc, second)??;
    Ok((first.overlaps(&second), second.overlaps(&first)))
}

#[test]
fn overlap_cases(rt: HostRuntime) -> Result<(), Fail> {
    for (first, second, expected) in [
        ("*", "*", true),
        (">= 1.2.3", "<= 1.2.3", true),
        (">= 0.1.0, <= 1.1.0", ">= 0.2.0, <= 1.3.0", true),
        (">= 1.2.3", "< 1.2.3", false),
        (">= 0.1.0, <= 0.3.0", ">= 1.1.0, <= 1.3.0", false),
    ] {
        let found = overlap(rt.alloc(), first, second)?;
        assert!(rt; found == (expected, expected), "{first} with {second}");
    }
    Ok(())
}

/// Returns a bound at a version, or none without a text.
fn bound(alloc: Global, text: &str) -> Result<Bound, Fail> {
    match text {
        "" => Ok(Bound::Unbounded),
        _ => Ok(Bound::Inclusive(version(alloc, text)?)),
    }
}

/// Returns the interval between two versions, both in it, or without a bound.
fn between(alloc: Global, start: &str, end: &str) -> Result<Result<UnaffectedRange, Error>, Fail> {
    let start = bound(alloc, start)?;
    let end = bound(alloc, end)?;
    Ok(UnaffectedRange::new(alloc, start, end))
}

fn refusal(alloc: Global, start: &str, end: &str) -> Result<Option<ErrorKind>, Fail> {
    Ok(kind_of(between(alloc, start, end)?))
}

/// Returns whether the interval from a version on overlaps that up to another one, and itself.
fn overlap_by_hand(alloc: Global, low: &str, high: &str) -> Result<(bool, bool), Fail> {
    let above = between(alloc, low, "")??;
    let below = between(alloc, "", high)??;
    Ok((above.overlaps(&below), above.overlaps(&above)))
}

// Bounds made by hand are compared as they are, by the order of `Version`: build metadata and greatest numbers included.
#[test]
fn bounds_by_hand(rt: HostRuntime) -> Result<(), Fail> {
    assert!(rt; refusal(rt.alloc(), "", "1.2.18446744073709551615")?.is_none());
    let refused = refusal(rt.alloc(), "1.0.0+b", "1.0.0+a")?;
    assert!(rt; refused == Some(ErrorKind::BadParam));
    let overlap_by_the_order_of_the_type = overlap_by_hand(rt.alloc(), "1.0.0+b", "1.0.0+a")?;
    assert!(rt; overlap_by_the_order_of_the_type == (false, true));
    Ok(())
}

fn affects(alloc: Global, range: &OsvRange, text: &str) -> Result<bool, Fail> {
    let version = version(alloc, text)?;
    Ok(range.affects(&version))
}

// A range answers by the order of `Version`, in which build metadata counts.
#[test]
fn affects_by_the_order_of_the_type(rt: HostRuntime) -> Result<(), Fail> {
    let range = OsvRange {
        introduced: Some(version(rt.alloc(), "1.0.0+b")?),
        fixed: Some(version(rt.alloc(), "2.0.0+b")?),
    };
    assert!(rt; !affects(rt.alloc(), &range, "1.0.0")?);
    assert!(rt; affects(rt.alloc(), &range, "1.0.0+b")?);
    assert!(rt; affects(rt.alloc(), &range, "2.0.0")?);
    assert!(rt; !affects(rt.alloc(), &range, "2.0.0+b")?);
    Ok(())
}

fn holds(alloc: Global, requirement: &str, text: &str) -> Result<bool, Fail> {
    let interval = interval(alloc, requirement)??;
    let version = version(alloc, text)?;
    Ok(interval.holds(&version))
}

// An interval holds versions by precedence, which ignores build metadata.
#[test]
fn holds_by_precedence(rt: HostRuntime) -> Result<(), Fail> {
    for (text, expected) in [("1.2.3-a", true), ("1.2.3+b", true), ("1.2.4-0", false)] {
        assert!(rt; holds(rt.alloc(), "<= 1.2.3", text)? == expected, "{text}");
    }
    Ok(())
}

fn is_written(alloc: Global, text: &str, written: &str) -> Result<bool, Fail> {
    let req = VersionReq::parse(alloc, text)?;
    let found = requirement_text(alloc, &req)?;
    Ok(found.as_str() == written)
}

#[test]
fn requirement_texts(rt: HostRuntime) -> Result<(), Fail> {
    for (text, written) in [
        (">= 1.2.3", ">=1.2.3"),
        ("1.2", "^1.2"),
        ("1.*", "1.*"),
        ("> 1.2.3-a, <2", ">1.2.3-a, <2"),
        ("*", "*"),
    ] {
        assert!(rt; is_written(rt.alloc(), text, written)?, "of {text}");
    }
    Ok(())
}

/// Examples with a version and its successor, the least version above it.
const SUCCESSORS: &str = "
numbers_at_the_limit | 1.2.18446744073709551615 | none
range_between_successors | 1.2.3-9 | 1.2.3-9.0
range_between_successors | 1.2.3-alpha1 | 1.2.3-alpha1.0
range_between_successors | 1.2.3+b | 1.2.4-0
successor_cases | 1.2.3 | 1.2.4-0
successor_cases | 1.2.3-9 | 1.2.3-9.0
successor_cases | 1.2.3-4.5.6 | 1.2.3-4.5.6.0
successor_cases | 1.2.3-alpha1 | 1.2.3-alpha1.0
successor_cases | 1.2.3-alpha.1.foo | 1.2.3-alpha.1.foo.0
";

fn has_successor(alloc: Global, text: &str, expected: &str) -> Result<bool, Fail> {
    let version = version(alloc, text)?;
    match successor(alloc, &version)? {
        Some(found) => prints(alloc, &found, expected),
        None => Ok(expected == "none"),
    }
}

#[test]
fn successors(rt: HostRuntime) -> Result<(), Fail> {
    for row in SUCCESSORS.trim().lines() {
        let found = has_successor(rt.alloc(), field(row, 1), field(row, 2))?;
        assert!(rt; found, "{row}");
    }
    Ok(())
}

fn is_below(alloc: Global, low: &str, high: &str) -> Result<bool, Fail> {
    let low = version(alloc, low)?;
    let high = version(alloc, high)?;
    Ok(low.cmp_precedence(&high).is_lt())
}

#[test]
fn successor_cases(rt: HostRuntime) -> Result<(), Fail> {
    for (low, high) in [
        ("1.2.3-9.0", "1.2.3-10"),
        ("1.2.3-9.0", "1.2.3-9.0.0.0"),
        ("1.2.3-4.5.6.0", "1.2.3-4.5.7"),
        ("1.2.3-alpha1.0", "1.2.3-alpha2"),
        ("1.2.3-alpha1.0", "1.2.3-alpha1-"),
    ] {
        assert!(rt; is_below(rt.alloc(), low, high)?, "{low} below {high}");
    }
    Ok(())
}
