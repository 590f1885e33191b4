//! What an audit answers about one advisory: the verdict on each version, the ranges and the exported events.

ghost use Rattle.std.specs.Prelude.{◌≡◌, ◌⊎◌, ◌++◌, IfErr, IfOk, OnOk, map};
ghost use Rattle.semver.specs.Identifiers.{parts_of};
ghost use Rattle.rustsec_values.specs.Failure.{IsMemory};
ghost use Rattle.rustsec_versions.specs.acceptance.Lists.{affected};
ghost use Rattle.rustsec_files.specs.Listed.{Pairwise};
ghost use Rattle.rustsec_osv.specs.DocumentEvents.{event_of};
ghost use Rattle.rustsec_osv.specs.Export.{document_events, events_of_member};
ghost use Rattle.rustsec.specs.Answers.{HasNoExport, IsAnswer, IsFirstWithoutExport};

use rustsec_advisory::Advisory;
use rustsec_database::Database;
use rustsec_osv::{OsvAdvisory, OsvAffected, OsvJsonRange, OsvTimelineEvent};
use rustsec_texts::Id;
use rustsec_values::{Items, Result};
use rustsec_versions::{OsvRange, Versions, ranges_for_advisory};
use semver::Version;
use std::alloc::{AllocError, Global};
use std::marker::Model;

/// What an audit answers about an advisory.
#[derive(Debug, Drop)]
pub struct AuditedAdvisory {
    /// The ID of the advisory.
    pub id: Id,
    /// For each version that was asked for, in order, whether it is affected.
    pub verdicts: Vec<bool>,
    /// The ranges of affected versions, in rising order.
    pub ranges: Vec<OsvRange>,
    /// The events of its OSV document, in order.
    pub events: Vec<OsvTimelineEvent>,
}

impl Model for AuditedAdvisory {
    ghost use Rattle.std.specs.Prelude.{map};
    ghost use Rattle.rustsec_osv.specs.DocumentEvents.{event_of};
    ghost use Rattle.rustsec.specs.Answers.{Answer};

    ghost Value = { Answer };

    ghost view = { λ a. record {
      id = a.id;
      verdicts = a.verdicts.items;
      ranges = a.ranges.items;
      events = map event_of a.events.items;
    } };
}

/// Returns for each version whether it is affected.
fn verdicts_on(
    alloc: Global,
    requirements: &Versions,
    versions: &[Version],
) -> std::result::Result<Vec<bool>, AllocError>
    ensures { IfOk result (λ v. v.items ≡ map (affected requirements.now) (map parts_of versions.now)) }
{
    let mut verdicts = Vec::new(alloc);
    for version in versions {
        verdicts.push(requirements.is_vulnerable(version))?;
    }
    Ok(verdicts)
}

/// Appends copies of events.
fn add_events(
    more: &[OsvTimelineEvent],
    events: &mut Vec<OsvTimelineEvent>,
) -> std::result::Result<(), AllocError>
    ensures { OnOk result (map event_of events.new.items ≡ map event_of events.old.items ++ map event_of more.now) }
{
    for event in more {
        events.push(Clone::clone(event)?)?;
    }
    Ok(())
}

/// Appends the events of a member of a document, range by range.
fn add_events_of(
    member: &OsvAffected,
    events: &mut Vec<OsvTimelineEvent>,
) -> std::result::Result<(), AllocError>
    ensures { OnOk result (map event_of events.new.items ≡ map event_of events.old.items ++ events_of_member member.now) }
{
    let Some(ranges) = &member.ranges else {
        return Ok(());
    };
    for range in ranges.as_slice() {
        add_events(&range.events, events)?;
    }
    Ok(())
}

/// Returns the events of a document, range by range.
fn events_of(
    alloc: Global,
    document: &OsvAdvisory,
) -> std::result::Result<Vec<OsvTimelineEvent>, AllocError>
    ensures { IfOk result (λ v. map event_of v.items ≡ document_events document.now) }
{
    let mut events = Vec::new(alloc);
    for member in document.affected.as_slice() {
        add_events_of(member, &mut events)?;
    }
    Ok(events)
}

impl AuditedAdvisory {
    /// Returns what an audit answers about an advisory and these versions.
    ///
    /// # Errors
    ///
    /// `BadParam` or `Parse` if the advisory has no OSV document, as `OsvAdvisory::from_rustsec`; else `OutOfMemory`.
    fn of(alloc: Global, advisory: Advisory, versions: &[Version]) -> Result<AuditedAdvisory>
        ensures ok { IfOk result (IsAnswer (map parts_of versions.now) advisory) }
        ensures err { IfErr result (λ e. HasNoExport advisory e.kind ⊎ IsMemory e) }
    {
        let verdicts = verdicts_on(alloc, &advisory.versions, versions)?;
        let ranges = ranges_for_advisory(alloc, &advisory.versions)?;
        let id = advisory.metadata.id.clone(alloc)?;
        let document = OsvAdvisory::from_rustsec(alloc, advisory, "")?;
        let events = events_of(alloc, &document)?;
        Ok(AuditedAdvisory {
            id,
            verdicts,
            ranges,
            events,
        })
    }
}

/// Returns what an audit answers about each advisory of a database and these versions, in order.
///
/// # Errors
///
/// The refusal of the first advisory without an OSV document; else `OutOfMemory`.
pub(crate) fn audited_advisories(
    alloc: Global,
    database: Database,
    versions: &[Version],
) -> Result<Items<AuditedAdvisory>>
    ensures ok { IfOk result (Pairwise (IsAnswer (map parts_of versions.now)) database) }
    ensures err { IfErr result (λ e. IsFirstWithoutExport database e ⊎ IsMemory e) }
{
    let mut answers = Items::new(alloc);
    for advisory in database {
        answers.push(AuditedAdvisory::of(alloc, advisory, versions)?)?;
    }
    Ok(answers)
}
