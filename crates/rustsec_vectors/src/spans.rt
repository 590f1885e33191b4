//! Which advisories a query by name and version finds, and which bear on a package: versions at the ends of the span
//! between which the affected ones are, and requirements that name no end.

use crate::packages::published;
use crate::rows::field;
use rustsec_database::{Bearing, Database, Query, SourceFile};
use rustsec_lock::package::Name;
use rustsec_texts::Collection;
use rustsec_values::{Predicate, Text};
use semver::Version;
use std::alloc::Global;
use std::test::Fail;

/// Requirements, a version of `base`, and what the advisory does: it is `found` by a query for the version and bears on
/// the package, or it only `bears` on it, or it does neither.
const ROWS: &str = r#"
patched = [">= 1.2.0"] | 1.1.9 | found
patched = [">= 1.2.0"] | 1.2.0-rc.1 | found
patched = [">= 1.2.0"] | 1.2.0 | neither
patched = [">= 1.2.0"] | 1.2.0+b | neither
patched = [">= 1.2.0"] | 18446744073709551615.0.0 | neither
patched = [">= 1.2"] | 1.2.0 | neither
patched = [">= 1.2"] | 1.1.0 | found
patched = [">= 1.2.0-rc.1"] | 1.2.0-rc.0 | found
patched = [">= 1.2.0-rc.1"] | 1.2.0 | bears
patched = ["> 1.1.9"] | 1.2.0 | bears
patched = ["^1.2.0"] | 1.3.0 | bears
patched = ["^1.2.0"] | 2.0.0 | found
patched = ["^1.2.0", ">= 2.0.1"] | 1.3.0 | bears
patched = ["^1.2.0", ">= 2.0.1"] | 2.0.0 | found
patched = ["^1.2.0", ">= 2.0.1"] | 2.0.1 | neither
patched = [">= 2.0.1", "^1.2.0"] | 2.1.0 | neither
patched = [">= 2.0.1", ">= 1.2.0"] | 1.3.0 | bears
patched = [">= 1.2.0", ">= 2.0.1"] | 1.3.0 | neither
patched = [">= 1.2.0, < 2.0.0"] | 1.3.0 | bears
patched = [">= 1.2.0, < 2.0.0"] | 2.0.0 | found
patched = [], unaffected = ["< 1.0.0"] | 0.9.9 | bears
patched = [], unaffected = ["< 1.0.0"] | 1.0.0-alpha | bears
patched = [], unaffected = ["< 1.0.0"] | 1.0.0 | found
patched = [], unaffected = ["<= 1.0.0"] | 1.0.0 | bears
patched = [], unaffected = ["<= 1.0.0"] | 1.0.1 | found
patched = [], unaffected = [">= 3.0.0"] | 2.9.9 | found
patched = [], unaffected = [">= 3.0.0"] | 3.0.0 | bears
patched = ["< 1.0.0"] | 0.9.0 | bears
patched = ["< 1.0.0"] | 1.0.0 | found
patched = [] | 0.0.0-0 | found
"#;

fn database(alloc: Global, requirements: &str) -> Result<Database, Fail> {
    let versions = requirements.replace(alloc, "], ", "]\n")?;
    let text = format!(in alloc;
        "```toml\n[advisory]\nid = \"RUSTSEC-2001-2101\"\npackage = \"base\"\ndate = \"2001-02-03\"\n\n[versions]\n{versions}\n```\n\n# T\n\nD\n"
    )?;
    let path = Text::from_str(alloc, "crates/base/RUSTSEC-2001-2101.md")?;
    let text = Text::from(text);
    Ok(Database::load(alloc, &[SourceFile { path, text }])?)
}

fn is_found(alloc: Global, database: &Database, version: &str) -> Result<bool, Fail> {
    let query = Query::new(alloc)
        .collection(Collection::Crates)
        .package_name(Name::from_str(alloc, "base")?)
        .package_version(Version::parse(alloc, version)?);
    Ok(!database.query(alloc, &query)?.is_empty())
}

/// Returns whether each advisory bears on a package of this name and version.
fn all_bear(alloc: Global, database: &Database, name: &str, version: &str) -> Result<bool, Fail> {
    let packages = [published(alloc, name, version)?];
    let bearing = Bearing::new(alloc, &packages)?;
    Ok(database.iter().all(|advisory| bearing.holds(advisory)))
}

fn answer(alloc: Global, requirements: &str, version: &str) -> Result<&'static str, Fail> {
    let database = database(alloc, requirements)?;
    let found = is_found(alloc, &database, version)?;
    let bears = all_bear(alloc, &database, "base", version)?;
    Ok(match (found, bears) {
        (true, true) => "found",
        (false, true) => "bears",
        (false, false) => "neither",
        (true, false) => "found alone",
    })
}

#[test]
fn versions_at_the_ends_of_spans(rt: HostRuntime) -> Result<(), Fail> {
    for row in ROWS.trim().lines() {
        let found = answer(rt.alloc(), field(row, 0), field(row, 1))?;
        assert!(rt; found == field(row, 2), "{row}: {found}");
    }
    Ok(())
}

#[test]
fn no_advisory_bears_on_another_name(rt: HostRuntime) -> Result<(), Fail> {
    let database = database(rt.alloc(), "patched = []")?;
    assert!(rt; all_bear(rt.alloc(), &database, "base", "1.0.0")?);
    assert!(rt; !all_bear(rt.alloc(), &database, "base-x", "1.0.0")?);
    Ok(())
}
