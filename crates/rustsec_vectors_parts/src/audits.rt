//! Audits of texts: the report, and for each advisory the verdicts, the ranges and the events.

use rustsec::{Audit, AuditedAdvisory, audited};
use rustsec_files::SourceFile;
use rustsec_fixtures::{FOUR_PACKAGES, SHORT, changed, exact_field, version};
use rustsec_osv::OsvTimelineEvent;
use rustsec_report::Settings;
use rustsec_values::{Error, Text};
use rustsec_versions::OsvRange;
use semver::Version;
use std::alloc::Global;
use std::fmt::Write;
use std::test::Fail;

/// The patched and the unaffected requirements of an advisory, versions, and what is answered: whether each version is
/// affected, the ranges, the events (`+` introduces, `-` fixes), and how many packages are vulnerable.
const ANSWERED: &str = r#"
">= 1.2.3" |  | 1.2.2 1.2.3-alpha 1.2.3 1.2.3+b 1.2.4-alpha | [true, true, false, false, false] ..1.2.3 +0.0.0-0 -1.2.3; 1
"> 1.0.0" | "< 1.0.0" | 1.0.0 1.0.1-0 | [true, false] 1.0.0..1.0.1-0 +1.0.0 -1.0.1-0; 1
 |  | 0.0.0-0 | [true] .. +0.0.0-0; 1
">= 1.0.0" |  | 0.9.9 1.0.0 | [true, false] ..1.0.0 +0.0.0-0 -1.0.0; 0
"=1.2.3", "> 1.2.3" |  | 1.2.2 1.2.3 1.2.4-0 | [true, false, false] ..1.2.3 1.2.4-0..1.2.4-0 +0.0.0-0 -1.2.3 +1.2.4-0 -1.2.4-0; 1
"^1.2", ">= 2.1.0" | "< 1.0.0" | 0.9.0 1.1.0 1.9.0 2.0.0-alpha1 | [false, true, false, true] 1.0.0..1.2.0 2.0.0-0..2.1.0 +1.0.0 -1.2.0 +2.0.0-0 -2.1.0; 1
"^1.2" | "^1" | 1.0.0 | parse error
"1.*" |  | 1.0.0 | parse error
"*" |  | 1.0.0 | bad parameter
"#;

fn add_version(text: &mut String, version: &Option<Version>) -> Result<(), Fail> {
    if let Some(version) = version {
        write!(text, "{version}")?;
    }
    Ok(())
}

fn add_ranges(text: &mut String, ranges: &[OsvRange]) -> Result<(), Fail> {
    for range in ranges {
        text.push(' ')?;
        add_version(text, &range.introduced)?;
        text.push_str("..")?;
        add_version(text, &range.fixed)?;
    }
    Ok(())
}

fn add_events(text: &mut String, events: &[OsvTimelineEvent]) -> Result<(), Fail> {
    for event in events {
        match event {
            OsvTimelineEvent::Introduced(version) => write!(text, " +{version}")?,
            OsvTimelineEvent::Fixed(version) => write!(text, " -{version}")?,
            OsvTimelineEvent::LastAffected(version) => write!(text, " ={version}")?,
        }
    }
    Ok(())
}

fn add_answers(text: &mut String, advisories: &[AuditedAdvisory]) -> Result<(), Fail> {
    for answer in advisories {
        write!(text, "{:?}", answer.verdicts)?;
        add_ranges(text, &answer.ranges)?;
        add_events(text, &answer.events)?;
    }
    Ok(())
}

fn versions(alloc: Global, texts: &str) -> Result<Vec<Version>, Fail> {
    let mut versions = Vec::new(alloc);
    for text in texts.split(' ') {
        versions.push(version(alloc, text)?)?;
    }
    Ok(versions)
}

fn audit(alloc: Global, row: &str) -> Result<Result<Audit, Error>, Fail> {
    let (patched, unaffected) = (exact_field(row, 0), exact_field(row, 1));
    let lists = format!(in alloc; "patched = [{patched}]\nunaffected = [{unaffected}]")?;
    let text = changed(alloc, SHORT, "patched = [\">= 1.2.3\"]", &lists)?;
    let path = Text::from_str(alloc, "crates/base/RUSTSEC-2001-2101.md")?;
    let mut files = Vec::new(alloc);
    files.push(SourceFile {
        path,
        text: Text::from(text),
    })?;
    let versions = versions(alloc, exact_field(row, 2))?;
    let settings = Settings::new(alloc);
    Ok(audited(alloc, &files, FOUR_PACKAGES, &settings, &versions))
}

fn is_answered(alloc: Global, row: &str) -> Result<bool, Fail> {
    let mut text = String::new(alloc);
    match audit(alloc, row)? {
        Ok(audit) => {
            add_answers(&mut text, audit.advisories.as_slice())?;
            write!(text, "; {}", audit.report.vulnerabilities.count)?;
        }
        Err(error) => write!(text, "{}", error.kind())?,
    }
    Ok(text.as_str() == exact_field(row, 3))
}

#[test]
fn audited_texts(rt: HostRuntime) -> Result<(), Fail> {
    for row in ANSWERED.trim_matches('\n').lines() {
        assert!(rt; is_answered(rt.alloc(), row)?, "{row}");
    }
    Ok(())
}
