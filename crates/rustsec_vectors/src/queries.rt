//! Queries: each test of an advisory alone, and pairs of them; vulnerabilities.

use crate::packages::published;
use crate::rows::is_copied;
use rustsec_advisory::Advisory;
use rustsec_database::{Query, Vulnerability};
use rustsec_fixtures::{VALID, changed};
use rustsec_lock::package::Name;
use rustsec_lock::platforms::{Arch, OS};
use rustsec_lock::{Severity, SourceId};
use rustsec_texts::Collection;
use rustsec_values::FromText;
use semver::Version;
use std::alloc::Global;
use std::process::Abort;
use std::test::Fail;

fn platforms<T: FromText>(alloc: Global, names: &str) -> Result<Vec<T>, Fail> {
    let mut list = Vec::new(alloc);
    for name in names.split_whitespace() {
        list.push(T::from_text(alloc, name)?)?;
    }
    Ok(list)
}

fn severity(name: &str) -> Severity {
    match name {
        "none" => Severity::None,
        "low" => Severity::Low,
        "medium" => Severity::Medium,
        "high" => Severity::High,
        _ => Severity::Critical,
    }
}

/// Returns the query with one field about the package.
fn query_of_package(alloc: Global, field: &str, value: &str) -> Result<Query, Fail> {
    let query = Query::new(alloc);
    Ok(match field {
        "package_name" => query.package_name(Name::from_str(alloc, value)?),
        "package_version" => query.package_version(Version::parse(alloc, value)?),
        "package_source" => query.package_source(SourceId::from_url(alloc, value)?),
        "package" => {
            let package = published(alloc, "base", value)?;
            query.package(alloc, &package)?
        }
        _ => return Err(Fail::from("no such field")),
    })
}

/// Returns the query that one call of a builder makes: its name, a space, and its argument.
fn query_of(alloc: Global, call: &str) -> Result<Query, Fail> {
    let (field, value) = call.split_once(" ").ok_or("no argument")?;
    let query = Query::new(alloc);
    Ok(match field {
        "collection" => query.collection(Collection::from_str(alloc, value)?),
        "severity" => query.severity(severity(value)),
        "target_arch" => query.target_arch(platforms::<Arch>(alloc, value)?),
        "target_os" => query.target_os(platforms::<OS>(alloc, value)?),
        "year" => query.year(value.parse::<u32>()?),
        "withdrawn" => query.withdrawn(value == "true"),
        "informational" => query.informational(value == "true"),
        _ => query_of_package(alloc, field, value)?,
    })
}

/// Returns the valid advisory with its first place of a text changed. A `;` in the new text is a line feed.
fn advisory_with(alloc: Global, old: &str, new: &str) -> Result<Advisory, Fail> {
    let new = new.replace(alloc, ";", "\n")?;
    let text = changed(alloc, VALID, old, &new)?;
    Ok(Advisory::from_str(alloc, &text)?)
}

fn call_selects(alloc: Global, call: &str, old: &str, new: &str) -> Result<bool, Fail> {
    let query = query_of(alloc, call)?;
    let advisory = advisory_with(alloc, old, new)?;
    Ok(query.matches(&advisory))
}

/// Calls of one builder, each with its argument, and whether the query selects the valid advisory. This one names no
/// collection, so it is in none, and no source, so it is one of the default registry.
const CALLS: &str = "
collection crates | no
collection rust | no
package_name base | yes
package_name somethingelse | no
package_version 1.2.2 | yes
package_version 1.2.3-alpha | yes
package_version 1.2.3 | no
package_version 1.2.3+b | no
package_source registry+https://github.com/rust-lang/crates.io-index | yes
package_source sparse+https://index.crates.io/ | no
package 1.2.2 | yes
package 1.2.3 | no
severity none | yes
severity high | yes
severity critical | yes
target_arch  | yes
target_arch x86 arm | yes
target_arch mips mips64 | no
target_os  | yes
target_os windows linux | yes
target_os macos freebsd | no
year 2001 | yes
year 2525 | no
withdrawn false | yes
withdrawn true | no
informational false | yes
informational true | no
";

/// Calls, changes of the valid advisory, in which `;` is a line feed, and whether the query selects the changed one. An
/// advisory without a severity, without a list of platforms, or with an ID without a year is kept.
const CHANGES: &str = r#"
collection crates | date | collection = "crates";date | yes
collection rust | date | collection = "crates";date | no
package_source registry+https://github.com/rust-lang/crates.io-index | date | source = "git+https://example.com/base?branch=x#abc";date | no
package_source git+https://example.com/base?branch=y#def | date | source = "git+https://example.com/base?branch=x#abc";date | yes
package_source registry+https://example.com/base | date | source = "git+https://example.com/base?branch=x#abc";date | no
severity high | UI:N/S:C/C:H/I:H/A:H | UI:R/S:C/C:L/I:L/A:N | no
severity medium | UI:N/S:C/C:H/I:H/A:H | UI:R/S:C/C:L/I:L/A:N | yes
severity none | C:H/I:H/A:H | C:N/I:N/A:N | yes
severity low | C:H/I:H/A:H | C:N/I:N/A:N | no
severity critical | cvss | other | yes
target_os linux | ["windows"] | [] | yes
target_arch arm | ["x86"] | [] | yes
target_os linux | [affected] | [other] | yes
target_arch arm | [affected] | [other] | yes
year 2525 | RUSTSEC-2001-2101 | GHSA-a | yes
withdrawn false | date | withdrawn = "2002-01-01";date | no
withdrawn true | date | withdrawn = "2002-01-01";date | yes
informational false | date | informational = "notice";date | no
informational true | date | informational = "notice";date | yes
"#;

/// Checks rows of calls, with or without a change of the valid advisory, and whether the query selects it.
fn expect_calls<R: Abort>(rt: &R, alloc: Global, rows: &str) -> Result<(), Fail> {
    for row in rows.trim().lines() {
        let (before, wanted) = row.rsplit_once(" | ").ok_or("no answer")?;
        let (call, change) = before.split_once(" | ").unwrap_or((before, " | "));
        let (old, new) = change.split_once(" | ").ok_or("no new text")?;
        let found = call_selects(alloc, call, old, new)?;
        assert!(rt; found == (wanted == "yes"), "{row}");
    }
    Ok(())
}

#[test]
fn query_builders(rt: HostRuntime) -> Result<(), Fail> {
    expect_calls(&rt, rt.alloc(), CALLS)?;
    expect_calls(&rt, rt.alloc(), CHANGES)
}

/// Returns whether a year with a package selects the advisory, if the query of the year for that package does so.
fn both_select(alloc: Global, version: &str, year: u32) -> Result<Option<bool>, Fail> {
    let package = published(alloc, "base", version)?;
    let advisory = advisory_with(alloc, "", "")?;
    let of = Query::new(alloc)
        .year(year)
        .matches_package(&package, &advisory);
    let query = Query::new(alloc).year(year).package(alloc, &package)?;
    let with = query.matches(&advisory);
    Ok(if with == of { Some(with) } else { None })
}

#[test]
fn two_tests_together(rt: HostRuntime) -> Result<(), Fail> {
    let rows = &[
        ("1.2.2", 2001, true),
        ("1.2.2", 2002, false),
        ("1.2.3", 2001, false),
    ];
    for (version, year, expected) in rows {
        let found = both_select(rt.alloc(), version, *year)?;
        assert!(rt; found == Some(*expected), "{version}, {year}: {found:?}");
    }
    Ok(())
}

fn copy_selects(alloc: Global, query: &Query, advisory: &Advisory) -> Result<bool, Fail> {
    let copy = query.clone(alloc)?;
    Ok(copy.matches(advisory))
}

/// Returns whether a copy of the published scope selects an advisory with these lines, if the default query does so.
fn scope_selects(alloc: Global, lines: &str) -> Result<Option<bool>, Fail> {
    let new = format!(in alloc; "{lines}\ndate")?;
    let advisory = advisory_with(alloc, "date", &new)?;
    let scope = copy_selects(alloc, &Query::crate_scope(alloc), &advisory)?;
    let default = Query::default(alloc).matches(&advisory);
    Ok(if scope == default { Some(scope) } else { None })
}

#[test]
fn crate_scope(rt: HostRuntime) -> Result<(), Fail> {
    for (lines, expected) in &[
        ("collection = \"crates\"", true),
        ("collection = \"rust\"", false),
        ("collection = \"crates\";withdrawn = \"2002-01-01\"", false),
        ("collection = \"crates\";informational = \"x\"", false),
    ] {
        let found = scope_selects(rt.alloc(), lines)?;
        assert!(rt; found == Some(*expected), "{lines}: {found:?}");
    }
    Ok(())
}

/// Returns the vulnerability of a package of a version, by the advisory with an old text replaced by a new one.
fn vulnerability(alloc: Global, row: (&str, &str, &str)) -> Result<Vulnerability, Fail> {
    let (version, old, new) = row;
    let package = published(alloc, "base", version)?;
    let advisory = advisory_with(alloc, old, new)?;
    Ok(Vulnerability::new(alloc, &advisory, &package)?)
}

/// Returns the affected functions of a vulnerability, with a space after each; `none` if no function is listed.
fn functions(alloc: Global, vulnerability: &Vulnerability) -> Result<String, Fail> {
    let mut text = String::new(alloc);
    match vulnerability.affected_functions(alloc)? {
        Some(paths) => {
            for path in paths.as_slice() {
                let path = path.to_string(alloc)?;
                text.push_str(&path)?;
                text.push_str(" ")?;
            }
        }
        None => text.push_str("none")?,
    }
    Ok(text)
}

fn has_functions(alloc: Global, row: (&str, &str, &str), wanted: &str) -> Result<bool, Fail> {
    let vulnerability = vulnerability(alloc, row)?;
    let found = functions(alloc, &vulnerability)?;
    Ok(found.as_str() == wanted)
}

fn is_vulnerable(alloc: Global, text: &str) -> Result<bool, Fail> {
    let advisory = Advisory::from_str(alloc, VALID)?;
    let version = Version::parse(alloc, text)?;
    Ok(advisory.versions.is_vulnerable(&version))
}

// The requirement `< 1.2.3` of the only function has no pre-release, so Cargo's rule matches none with it.
#[test]
fn affected_functions(rt: HostRuntime) -> Result<(), Fail> {
    let own = "{ \"base::belongs::All\" = [\"< 1.2.3\"] }";
    for (row, wanted) in &[
        (("1.2.2", "", ""), "base::belongs::All "),
        (("1.2.3-alpha", "", ""), ""),
        (("1.2.3", "", ""), ""),
        (("1.2.2", own, "{}"), "none"),
        (("1.2.2", "[affected]", "[other]"), "none"),
    ] {
        let found = has_functions(rt.alloc(), *row, wanted)?;
        assert!(rt; found, "of {row:?}");
    }
    assert!(rt; is_vulnerable(rt.alloc(), "1.2.2")?);
    assert!(rt; is_vulnerable(rt.alloc(), "1.2.3-alpha")?);
    assert!(rt; !is_vulnerable(rt.alloc(), "1.2.3")?);
    Ok(())
}

#[test]
fn vulnerabilities_are_copied(rt: HostRuntime) -> Result<(), Fail> {
    let first = vulnerability(rt.alloc(), ("1.2.2", "", ""))?;
    let other = vulnerability(rt.alloc(), ("1.2.1", "", ""))?;
    assert!(rt; is_copied(&first)?);
    assert!(rt; first != other);
    Ok(())
}
