//! The order of a document's events.

ghost use Rattle.std.specs.Prelude.{◌≡◌, map, option_map};
ghost use Rattle.std.specs.List.{list_all};
ghost use Rattle.rustsec_osv.specs.DocumentEvents.{event_of};
ghost use Rattle.rustsec_osv_rules.specs.evaluation.Order.{at, follows, has_ordered_events, is_ordered_range, rise};
ghost use Rattle.semver.specs.Identifiers.{parts_of};

use crate::evaluation::affected::ranges_of;
use rustsec_osv::{OsvAdvisory, OsvJsonRange, OsvTimelineEvent};
use semver::Version;

/// Returns the version of an event.
pub(crate) fn at(event: &OsvTimelineEvent) -> &Version
    ensures { parts_of result.now ≡ at (event_of event.now) }
{
    match event {
        OsvTimelineEvent::Introduced(version) => version,
        OsvTimelineEvent::Fixed(version) => version,
        OsvTimelineEvent::LastAffected(version) => version,
    }
}

/// Returns whether an event is at or above a version, if any.
fn follows(event: &OsvTimelineEvent, before: Option<&Version>) -> bool
    ensures { result ≡ follows (option_map (λ v. parts_of v.now) before.entry) (event_of event.now) }
{
    match before {
        Some(version) => version.cmp_precedence(at(event)).is_le(),
        None => true,
    }
}

/// Returns whether the versions of events rise.
#[tactic(auto, using(crate::proofs::evaluation::Ordered::rise_more, crate::proofs::evaluation::Ordered::rise_stop, crate::proofs::evaluation::Ordered::rise_end))]
pub(crate) fn rise(events: &[OsvTimelineEvent]) -> bool
    ensures { result ≡ rise (map event_of events.now) }
{
    let mut before: Option<&Version> = None;
    for event in events {
        if !follows(event, before) {
            return false;
        }
        before = Some(at(event));
    }
    true
}

/// Returns whether the events of each range rise.
#[tactic(auto, using(crate::proofs::evaluation::Ordered::all_more, crate::proofs::evaluation::Ordered::all_stop, crate::proofs::evaluation::Ordered::all_end))]
fn are_ordered(ranges: &[OsvJsonRange]) -> bool
    ensures { result ≡ list_all is_ordered_range ranges.now }
{
    for range in ranges {
        if !rise(&range.events) {
            return false;
        }
    }
    true
}

/// Returns whether the versions of the events of each range rise, in precedence. The OSV schema does not require this
/// order. It takes no memory.
#[tactic(auto, using(crate::proofs::evaluation::Ordered::all_more, crate::proofs::evaluation::Ordered::all_stop, crate::proofs::evaluation::Ordered::all_end))]
pub fn has_ordered_events(document: &OsvAdvisory) -> bool
    ensures { result ≡ has_ordered_events document.now }
{
    let members = document.affected.as_slice();
    for member in members {
        if !are_ordered(ranges_of(member)) {
            return false;
        }
    }
    true
}
