//! OSV's evaluation of documents, by the page of its schema ("Evaluation"), worked by hand.

use crate::osv_documents::{text_of, with_lists};
use rustsec_fixtures::field;
use rustsec_osv::OsvAdvisory;
use rustsec_osv_rules::{
    Event, PackageVersion, has_ordered_events, is_affected, normalized, says_affected,
};
use semver::Version;
use std::alloc::Global;
use std::test::Fail;

/// The list of a member about the crate `base`, to which a row adds keys.
const BASE: &str =
    r#""affected":[{"database_specific":{},"package":{"ecosystem":"crates.io","name":"base"},"#;

/// The keys of a member, and versions of `base`, each with whether it is affected: events in any order, each kind of
/// event, several ranges, versions that are listed, and commits. Of two events at one version the one that is given
/// first comes first, so their order decides.
const VERDICTS: &str = r#"
"ranges":[{"type":"SEMVER","events":[{"introduced":"1.0.0"},{"fixed":"1.0.2"}]}] | 0.9.0 no, 1.0.0 yes, 1.0.2-rc.1 yes, 1.0.2 no
"ranges":[{"type":"SEMVER","events":[{"fixed":"3.2.5"},{"introduced":"3.0.0"},{"fixed":"1.0.2"},{"introduced":"1.0.0"}]}] | 1.0.1 yes, 2.0.0 no
"ranges":[{"type":"SEMVER","events":[{"introduced":"0.0.0-0"},{"last_affected":"2.1.214"}]}] | 2.1.214 yes, 2.1.215-0 no
"ranges":[{"type":"SEMVER","events":[{"introduced":"1.0.0"},{"fixed":"1.0.2"}]},{"type":"SEMVER","events":[{"introduced":"3.0.0"}]}] | 3.0.0 yes
"ranges":[{"type":"SEMVER","events":[{"introduced":"1.0.0"}]}],"versions":["0.1.0","0.2.0"] | 0.2.0 yes, 0.3.0 no
"versions":["1.0.0+b"] | 1.0.0 no
"ranges":[{"type":"GIT","events":[{"introduced":"0.0.0-0"}]}] | 1.0.0 no
"ranges":null | 1.0.0 no
"ranges":[{"type":"SEMVER","events":[{"introduced":"1.2.3"},{"fixed":"1.2.3"}]}] | 1.2.3-0 no, 1.2.3 no, 2.0.0 no
"ranges":[{"type":"SEMVER","events":[{"fixed":"1.2.3"},{"introduced":"1.2.3"}]}] | 1.2.3-0 no, 1.2.3 yes, 2.0.0 yes
"#;

fn document(alloc: Global, keys: &str) -> Result<OsvAdvisory, Fail> {
    let lists = format!(in alloc; "{BASE}{keys}}}]}}")?;
    with_lists(alloc, &lists)
}

/// Returns whether the document with a member about `base` and these keys calls a version of a crate affected.
fn says_of(alloc: Global, keys: &str, name: &str, version: &str) -> Result<bool, Fail> {
    let document = document(alloc, keys)?;
    let version = Version::parse(alloc, version)?;
    let question = PackageVersion {
        ecosystem: "crates.io",
        name,
        version: &version,
    };
    Ok(is_affected(alloc, &document, &question)?)
}

/// Returns whether the document with the keys of a row has its answers.
fn has_answers(alloc: Global, row: &str) -> Result<bool, Fail> {
    for answer in field(row, 1).split(", ") {
        let (version, verdict) = answer.split_once(' ').ok_or("no verdict")?;
        if says_of(alloc, field(row, 0), "base", version)? != (verdict == "yes") {
            return Ok(false);
        }
    }
    Ok(true)
}

#[test]
fn osv_evaluation(rt: HostRuntime) -> Result<(), Fail> {
    for row in VERDICTS.trim().lines() {
        assert!(rt; has_answers(rt.alloc(), row)?, "{row}");
    }
    let keys = r#""versions":["1.0.0"]"#;
    assert!(rt; !says_of(rt.alloc(), keys, "other", "1.0.0")?);
    Ok(())
}

/// Returns whether a range from 1.0.0 with limits at 2.0.0 and at 3.0.0 has a version.
fn is_within(alloc: Global, version: &str) -> Result<bool, Fail> {
    let from = Version::parse(alloc, "1.0.0")?;
    let two = Version::parse(alloc, "2.0.0")?;
    let three = Version::parse(alloc, "3.0.0")?;
    let events = vec![in alloc;
        Event::Limit(&two),
        Event::Introduced(&from),
        Event::Limit(&three),
    ]?;
    Ok(says_affected(events, &Version::parse(alloc, version)?)?)
}

// A version at or above each limit is out of the range.
#[test]
fn osv_limits(rt: HostRuntime) -> Result<(), Fail> {
    for (version, wanted) in &[("0.9.0", false), ("2.5.0", true), ("3.0.0", false)] {
        assert!(rt; is_within(rt.alloc(), version)? == *wanted, "{version}");
    }
    Ok(())
}

/// The events of a document, and those of its normalized form.
const EVENTS: &str = r#"
{"introduced":"0.0.0-0"} | {"introduced":"0.0.0-0"}
{"introduced":"0.0.0-0"},{"fixed":"1.0.0"},{"introduced":"2.0.0"} | {"introduced":"0.0.0-0"},{"fixed":"1.0.0"},{"introduced":"2.0.0"}
{"introduced":"0.0.0-0"},{"fixed":"1.0.0"},{"introduced":"2.0.0"},{"fixed":"2.0.0"},{"introduced":"3.0.0"} | {"introduced":"0.0.0-0"},{"fixed":"1.0.0"},{"introduced":"3.0.0"}
{"introduced":"0.0.0-0"},{"fixed":"1.0.0"},{"introduced":"1.0.0"},{"fixed":"2.0.0"} | {"introduced":"0.0.0-0"},{"fixed":"2.0.0"}
{"introduced":"1.0.0"},{"fixed":"1.0.0"},{"introduced":"1.0.0"} | {"introduced":"1.0.0"}
{"introduced":"1.0.0"},{"fixed":"1.0.0"} |
{"introduced":"1.0.0"},{"last_affected":"1.0.0"} | {"introduced":"1.0.0"},{"last_affected":"1.0.0"}
{"introduced":"1.0.0"},{"introduced":"1.0.0+b"},{"fixed":"2.0.0"} | {"introduced":"1.0.0"},{"introduced":"1.0.0+b"},{"fixed":"2.0.0"}
{"introduced":"2.0.0"},{"fixed":"2.0.0"},{"introduced":"1.0.0"} | {"introduced":"2.0.0"},{"fixed":"2.0.0"},{"introduced":"1.0.0"}
"#;

fn with_events(alloc: Global, events: &str) -> Result<OsvAdvisory, Fail> {
    let keys = format!(in alloc; "\"ranges\":[{{\"type\":\"SEMVER\",\"events\":[{events}]}}]")?;
    document(alloc, &keys)
}

/// Returns whether the document with the first events of a row is the one with the others if it is normalized.
fn is_normalized(alloc: Global, row: &str) -> Result<bool, Fail> {
    let found = normalized(alloc, with_events(alloc, field(row, 0))?)?;
    let found = text_of(alloc, &found)?;
    let wanted = text_of(alloc, &with_events(alloc, field(row, 1))?)?;
    Ok(found.as_str() == wanted.as_str())
}

#[test]
fn osv_normalized(rt: HostRuntime) -> Result<(), Fail> {
    for row in EVENTS.trim().lines() {
        assert!(rt; is_normalized(rt.alloc(), row)?, "{row}");
    }
    Ok(())
}

/// Whether the events of a range rise in precedence, and the events.
const ORDERS: &str = r#"
yes |
yes | {"fixed":"1.0.0"}
yes | {"introduced":"1.0.0"},{"fixed":"1.0.0+b"}
no | {"introduced":"1.0.0"},{"fixed":"1.0.0-a"}
no | {"introduced":"0"},{"fixed":"3.0.0"},{"introduced":"2.0.0"}
yes | {"introduced":"0.9.0"},{"last_affected":"0.10.0"},{"introduced":"2"}
"#;

fn is_ordered(alloc: Global, events: &str) -> Result<bool, Fail> {
    Ok(has_ordered_events(&with_events(alloc, events)?))
}

#[test]
fn osv_order(rt: HostRuntime) -> Result<(), Fail> {
    for row in ORDERS.trim().lines() {
        let wanted = field(row, 0) == "yes";
        assert!(rt; is_ordered(rt.alloc(), field(row, 1))? == wanted, "{row}");
    }
    Ok(())
}
