//! The events of the ranges that an advisory's requirements leave (OSV schema, `events`).

ghost use Rattle.std.specs.Prelude.{◌≡◌, ◌++◌, IfErr, IfOk, OnOk, map, option_map};
ghost use Rattle.semver.specs.Identifiers.{parts_of};
ghost use Rattle.semver.specs.Parse.{Parts};
ghost use Rattle.rustsec_values.specs.Failure.{IsRefusal};
ghost use Rattle.rustsec_versions.specs.acceptance.Lists.{affected};
ghost use Rattle.rustsec_versions.specs.order.Precedence.{IsVersion, least_of};
ghost use Rattle.rustsec_versions.specs.ranges.AcceptedRanges.{HasUnboundedInterval};
ghost use Rattle.rustsec_osv.specs.EventCodec.{IsRangeAgain};
ghost use Rattle.rustsec_osv.specs.DocumentEvents.{event_of};
ghost use Rattle.rustsec_osv.specs.Events.{beginning, events_of, events_of_range, events_say};
ghost use Rattle.rustsec_osv.specs.Export.{IsRangeOf};

use crate::ranges::OsvJsonRange;
use crate::timeline::OsvTimelineEvent;
use rustsec_values::{Error, ErrorKind, Result, Text};
use rustsec_versions::{OsvRange, Versions, ranges_for_advisory};
use semver::{BuildMetadata, Prerelease, Version};
use std::alloc::{AllocError, Global};

/// Returns the least version, `0.0.0-0`.
fn least_version(alloc: Global) -> std::result::Result<Version, AllocError>
    ensures { IfOk result (λ v. parts_of v ≡ least_of 0 0 0) }
{
    match Prerelease::new(alloc, "0") {
        Ok(pre) => Ok(Version {
            major: 0,
            minor: 0,
            patch: 0,
            pre,
            build: BuildMetadata::empty(),
        }),
        Err(_) => Err(AllocError),
    }
}

/// Returns the version at which a range begins: the least version if its introduction is missing.
fn beginning(alloc: Global, introduced: Option<Version>) -> std::result::Result<Version, AllocError>
    ensures { IfOk result (λ v. parts_of v ≡ beginning (option_map parts_of introduced)) }
{
    match introduced {
        Some(version) => Ok(version),
        None => least_version(alloc),
    }
}

/// Appends the events of a range.
fn add_events(
    alloc: Global,
    range: OsvRange,
    events: &mut Vec<OsvTimelineEvent>,
) -> std::result::Result<(), AllocError>
    ensures { OnOk result (map event_of events.new.items ≡ map event_of events.old.items ++ events_of_range range) }
{
    let OsvRange { introduced, fixed } = range;
    let version = beginning(alloc, introduced)?;
    events.push(OsvTimelineEvent::Introduced(version))?;
    if let Some(version) = fixed {
        events.push(OsvTimelineEvent::Fixed(version))?;
    }
    Ok(())
}

/// Returns the events of ranges, range by range.
fn events_of(
    alloc: Global,
    ranges: Vec<OsvRange>,
) -> std::result::Result<Vec<OsvTimelineEvent>, AllocError>
    ensures { IfOk result (λ v. map event_of v.items ≡ events_of ranges.items) }
{
    let mut events = Vec::new(alloc);
    for range in ranges {
        add_events(alloc, range, &mut events)?;
    }
    Ok(events)
}

/// Returns the range of an advisory's document, with the events of all ranges that its requirements leave.
///
/// # Errors
///
/// `BadParam` if there is no range, that is, if one merged interval is unbounded on both sides, as
/// that of `*`; else `OutOfMemory`.
pub(crate) fn range_of(alloc: Global, versions: &Versions) -> Result<OsvJsonRange>
    ensures ok { IfOk result (IsRangeOf versions.now) }
    ensures events { IfOk result (λ r. (v : Parts) → IsVersion v → events_say r.events v ≡ affected versions.now v) }
    ensures valid { IfOk result IsRangeAgain }
    ensures err { IfErr result (IsRefusal ErrorKind.BadParam (HasUnboundedInterval versions.now)) }
{
    let ranges = ranges_for_advisory(alloc, versions)?;
    if ranges.is_empty() {
        return Err(Error::new(
            alloc,
            ErrorKind::BadParam,
            "the requirements leave no version affected, so there is no range to export",
        ));
    }
    let events = events_of(alloc, ranges)?;
    let kind = Text::from_str(alloc, "SEMVER")?;
    Ok(OsvJsonRange { kind, events })
}
