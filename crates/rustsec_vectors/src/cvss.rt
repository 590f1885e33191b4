//! Vectors of CVSS: how they are read, printed and copied, their versions, scores and ratings; names of ratings.

use crate::rows::{field, is_kept, prints};
use rustsec_fixtures::{base_of, is_printed, kind_of, score};
use rustsec_lock::{Base, Cvss, Severity};
use rustsec_values::ErrorKind;
use std::alloc::Global;
use std::test::Fail;

/// Examples with a vector, its score in tenths and its rating, and how it prints.
const VECTORS: &str = "
cvss_scores | CVSS:3.1/AV:N/AC:L/PR:N/UI:N/S:C/C:H/I:H/A:H | Some(100) Some(Critical) | CVSS:3.1/AV:N/AC:L/PR:N/UI:N/S:C/C:H/I:H/A:H
cvss_scores | CVSS:3.1/AV:N/AC:L/PR:N/UI:N/S:U/C:H/I:H/A:H | Some(98) Some(Critical) | CVSS:3.1/AV:N/AC:L/PR:N/UI:N/S:U/C:H/I:H/A:H
cvss_scores | CVSS:3.1/AV:N/AC:L/PR:N/UI:R/S:C/C:L/I:L/A:N | Some(61) Some(Medium) | CVSS:3.1/AV:N/AC:L/PR:N/UI:R/S:C/C:L/I:L/A:N
cvss_scores | CVSS:3.1/AV:N/AC:L/PR:N/UI:R/S:C/C:N/I:N/A:N | Some(0) Some(None) | CVSS:3.1/AV:N/AC:L/PR:N/UI:R/S:C/C:N/I:N/A:N
cvss_scores | CVSS:3.1/AV:N/AC:L/PR:N/UI:N/S:U/C:N/I:N/A:N | Some(0) Some(None) | CVSS:3.1/AV:N/AC:L/PR:N/UI:N/S:U/C:N/I:N/A:N
cvss_vectors | CVSS:3.0/A:N/I:L/C:L/S:C/UI:R/PR:N/AC:L/AV:N | Some(61) Some(Medium) | CVSS:3.0/AV:N/AC:L/PR:N/UI:R/S:C/C:L/I:L/A:N
cvss_vectors | CVSS:3.1/AV:L/AC:H/PR:H/UI:R/S:U/C:L/I:N/A:N | Some(18) Some(Low) | CVSS:3.1/AV:L/AC:H/PR:H/UI:R/S:U/C:L/I:N/A:N
cvss_vectors | CVSS:4.0/x | None None | CVSS:4.0/x
cvss_vectors | CVSS:4.0/ | None None | CVSS:4.0/
";

fn is_scored(alloc: Global, vector: &str, expected: &str) -> Result<bool, Fail> {
    let (tenths, rating) = score(alloc, vector)?;
    let found = format!(in alloc; "{tenths:?} {rating:?}")?;
    Ok(found.as_str() == expected)
}

fn holds(alloc: Global, row: &str) -> Result<bool, Fail> {
    let vector = field(row, 1);
    Ok(is_scored(alloc, vector, field(row, 2))? && is_printed(alloc, vector, field(row, 3))?)
}

#[test]
fn vectors(rt: HostRuntime) -> Result<(), Fail> {
    for row in VECTORS.trim().lines() {
        assert!(rt; holds(rt.alloc(), row)?, "{row}");
    }
    Ok(())
}

/// Returns the minor version of a vector, 4 for one of version 4, where its parts say the same; else nothing.
fn minor_version(alloc: Global, text: &str) -> Result<Option<u8>, Fail> {
    let vector = Cvss::from_str(alloc, text)?;
    Ok(match &vector {
        Cvss::CvssV30(base) => (base.minor_version == 0).then_some(0),
        Cvss::CvssV31(base) => (base.minor_version == 1).then_some(1),
        Cvss::CvssV40(kept) => (kept.as_str() == text).then_some(4),
    })
}

#[test]
fn cvss_versions(rt: HostRuntime) -> Result<(), Fail> {
    for (text, expected) in &[
        ("CVSS:3.0/AV:N/AC:L/PR:N/UI:N/S:C/C:H/I:H/A:H", 0),
        ("CVSS:3.1/S:C/AV:N/A:H/AC:L/I:H/PR:N/C:H/UI:N", 1),
        ("CVSS:4.0/x/AV:N", 4),
    ] {
        let found = minor_version(rt.alloc(), text)?;
        assert!(rt; found == Some(*expected), "of {text}");
    }
    Ok(())
}

fn base_by_hand(alloc: Global, text: &str, minor_version: usize) -> Result<Base, Fail> {
    let vector = Cvss::from_str(alloc, text)?;
    let base = base_of(&vector).ok_or("no vector of version 3")?;
    Ok(Base {
        minor_version,
        ..base
    })
}

fn is_by_hand(alloc: Global, text: &str, tenths: u8, printed: &str) -> Result<bool, Fail> {
    let base = base_by_hand(alloc, text, 7)?;
    Ok(base.score_tenths() == tenths && prints(alloc, &Cvss::CvssV31(base), printed)?)
}

#[test]
fn cvss_by_hand(rt: HostRuntime) -> Result<(), Fail> {
    let read = "CVSS:3.1/AV:N/AC:L/PR:N/UI:N/S:U/C:H/I:H/A:H";
    let printed = "CVSS:3.7/AV:N/AC:L/PR:N/UI:N/S:U/C:H/I:H/A:H";
    assert!(rt; is_by_hand(rt.alloc(), read, 98, printed)?);
    Ok(())
}

fn are_equal(alloc: Global, first: &str, second: &str) -> Result<bool, Fail> {
    let first = Cvss::from_str(alloc, first)?;
    let second = Cvss::from_str(alloc, second)?;
    Ok(first == second)
}

#[test]
fn cvss_values(rt: HostRuntime) -> Result<(), Fail> {
    let older = "CVSS:3.0/AV:N/AC:L/PR:N/UI:N/S:U/C:H/I:H/A:H";
    let newer = "CVSS:3.1/AV:N/AC:L/PR:N/UI:N/S:U/C:H/I:H/A:H";
    assert!(rt; is_kept::<Cvss>(rt.alloc(), newer)?);
    assert!(rt; is_kept::<Cvss>(rt.alloc(), "CVSS:4.0/AV:N")?);
    assert!(rt; !are_equal(rt.alloc(), older, newer)?);
    Ok(())
}

/// The ratings, rising.
const RATINGS: &[(Severity, &str)] = &[
    (Severity::None, "none"),
    (Severity::Low, "low"),
    (Severity::Medium, "medium"),
    (Severity::High, "high"),
    (Severity::Critical, "critical"),
];

fn is_named(alloc: Global, rating: Severity, name: &str) -> Result<bool, Fail> {
    Ok(rating.as_str() == name && prints(alloc, &rating, name)?)
}

#[test]
fn severity_names(rt: HostRuntime) -> Result<(), Fail> {
    for (rating, name) in RATINGS {
        assert!(rt; is_named(rt.alloc(), *rating, name)?, "of {name}");
    }
    Ok(())
}

#[test]
fn order_of_ratings(rt: HostRuntime) {
    for ((low, name), (high, _)) in RATINGS.iter().zip(RATINGS.iter().skip(1)) {
        assert!(rt; low < high, "{name} below the next");
    }
}

// Nine parts are read at most, so a vector of many parts takes no memory for them.
#[test]
fn vectors_of_many_parts(rt: HostRuntime) -> Result<(), Fail> {
    let alloc = rt.alloc();
    let mut text = String::from_str(alloc, "CVSS:3.1/AV:N/AC:L/PR:N/UI:N/S:C/C:H/I:H/A:H")?;
    assert!(rt; Cvss::from_str(alloc, &text).is_ok());
    for _ in 0..100_000u32 {
        text.push_str("/E:X")?;
    }
    assert!(rt; kind_of(Cvss::from_str(alloc, &text)) == Some(ErrorKind::Parse));
    Ok(())
}
