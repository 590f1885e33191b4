//! Checks a lockfile.

ghost use Rattle.std.specs.Prelude.{◌≡◌, ◌-◌, not, IfErr, IfOk, map};
ghost use Rattle.std.specs.List.{filter, list_any};
ghost use Rattle.rustsec_values.specs.Failure.{IsMemory};
ghost use Rattle.rustsec_database.specs.Loaded.{has_id};
ghost use Rattle.rustsec_report.specs.Report.{vulnerabilities, warnings};
ghost use Rattle.rustsec_lock.specs.Lockfile.{AreValid};
ghost use Rattle.rustsec_check.specs.AsReport.{vulnerabilities_in, warnings_among};
ghost use Rattle.rustsec_check.specs.Checks.{IsCheckOf, any_severity, count_of, is_known, is_unused};
ghost use Rattle.rustsec_check.specs.Pairs.{found};
ghost use Rattle.rustsec_check.specs.Subjects.{subject_view};
ghost use Rattle.rustsec_check.specs.Values.{CheckValue};

use crate::findings::{IgnoredPair, findings_of, ignored_of};
use crate::found::{Found, all_found, count_of};
use crate::outcome::Check;
use crate::subject::{Subject, Viewed};
use rustsec_database::Database;
use rustsec_report::Settings;
use rustsec_texts::Id;
use rustsec_values::Result;
use std::alloc::{AllocError, Global};

/// Returns whether some advisory has an ID.
fn is_known(database: &Database, id: &Id) -> bool
    ensures { result ≡ is_known database.now id.now }
{
    database.get(id).is_some()
}

/// Returns whether the advisory of an ignored pair has an ID.
fn is_about(id: &Id, pair: &IgnoredPair<'_>) -> bool
    ensures { result ≡ has_id id.now pair.now.advisory }
{
    *id == pair.advisory.metadata.id
}

/// Returns whether some ignored pair has an advisory with an ID.
pub(crate) fn has_pair(ignored: &[IgnoredPair<'_>], id: &Id) -> bool
    ensures { result ≡ list_any (λ i. has_id id.now i.advisory) ignored.now }
{
    ignored.iter().any(|pair| is_about(id, pair))
}

/// Returns whether some advisory has an ID, and no ignored pair does.
fn is_unused(database: &Database, ignored: &[IgnoredPair<'_>], id: &Id) -> bool
    ensures { result ≡ is_unused database.now ignored.now id.now }
{
    is_known(database, id) && !has_pair(ignored, id)
}

/// Returns the IDs that some advisory has and no ignored pair does, in order.
fn unused_of<'a>(
    alloc: Global,
    database: &Database,
    ignored: &[IgnoredPair<'_>],
    ids: &'a [Id],
) -> std::result::Result<Vec<&'a Id>, AllocError>
    ensures { IfOk result (λ v. map (λ i. i.now) v.items ≡ filter (is_unused database.now ignored.now) ids.now) }
{
    ids.iter()
        .filter(|id| is_unused(database, ignored, id))
        .collect(alloc)
}

/// Returns the IDs that no advisory has, in order.
fn unknown_of<'a>(
    alloc: Global,
    database: &Database,
    ids: &'a [Id],
) -> std::result::Result<Vec<&'a Id>, AllocError>
    ensures { IfOk result (λ v. map (λ i. i.now) v.items ≡ filter (λ id. not (is_known database.now id)) ids.now) }
{
    ids.iter()
        .filter(|id| !is_known(database, id))
        .collect(alloc)
}

/// Returns the same settings for advisories of any severity.
fn any_severity(alloc: Global, settings: &Settings) -> Result<Settings>
    ensures ok { IfOk result (λ s. s ≡ any_severity settings.now) }
    ensures err { IfErr result IsMemory }
{
    let mut any = settings.clone(alloc)?;
    any.severity = None;
    Ok(any)
}

/// Returns how many pairs the least severity alone left out, by the pairs that it left.
fn below_threshold(alloc: Global, subject: &Viewed<'_>, left: usize) -> Result<usize>
    requires { left ≡ count_of subject.now subject.now.settings }
    ensures ok { IfOk result (λ n. n ≡ count_of subject.now (any_severity subject.now.settings) - left) }
    ensures err { IfErr result IsMemory }
{
    if subject.settings.severity.is_none() {
        return Ok(0);
    }
    let any = any_severity(alloc, subject.settings)?;
    let found = all_found(alloc, subject.database, subject.lockfile, &any)?;
    Ok(count_of(any.ignore.as_slice(), &found).saturating_sub(left))
}

/// Returns the answer about a subject, by the pairs that are found.
fn check_pairs<'a>(alloc: Global, subject: &Viewed<'a>, pairs: &[Found<'a>]) -> Result<Check<'a>>
    requires { pairs.now ≡ found subject.now.advisories subject.now.packages subject.now.settings }
    ensures ok { IfOk result (IsCheckOf subject.now) }
    ensures err { IfErr result IsMemory }
{
    let ids = subject.settings.ignore.as_slice();
    let findings = findings_of(alloc, subject, pairs)?;
    let ignored = ignored_of(alloc, ids, pairs)?;
    let unused = unused_of(alloc, subject.database, &ignored, ids)?;
    let unknown = unknown_of(alloc, subject.database, ids)?;
    let below_threshold = below_threshold(alloc, subject, count_of(ids, pairs))?;
    Ok(Check {
        findings,
        ignored,
        unused,
        unknown,
        below_threshold,
    })
}

/// Returns the findings about a lockfile's packages, and what the settings left out. The pairs are those of a report
/// with these settings.
///
/// # Errors
///
/// `OutOfMemory` alone.
pub fn check<'a>(alloc: Global, subject: Subject<'a>) -> Result<Check<'a>>
    ensures ok { IfOk result (IsCheckOf (subject_view subject.entry)) }

    // If the packages have valid versions, as those of each lockfile that is read do, no other answer meets the definition.
    ensures only { AreValid subject.entry.lockfile.now.packages → IfOk result (λ c. (other : CheckValue) → IsCheckOf (subject_view subject.entry) other → other ≡ c) }

    // The findings that are vulnerabilities are those of a report with these settings.
    ensures as_reports { IfOk result (λ c. vulnerabilities_in c.findings
        ≡ vulnerabilities subject.entry.database.now subject.entry.lockfile.now.packages subject.entry.settings.now) }

    // The findings that are warnings are those of the report, by their kinds.
    ensures as_warnings { IfOk result (λ c. warnings_among c.findings
        ≡ warnings subject.entry.database.now subject.entry.lockfile.now.packages subject.entry.settings.now) }
    ensures err { IfErr result IsMemory }
{
    let subject = Viewed::new(subject);
    let pairs = all_found(alloc, subject.database, subject.lockfile, subject.settings)?;
    let answer = check_pairs(alloc, &subject, &pairs)?;
    Ok(answer)
}
