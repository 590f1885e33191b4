//! Whether the events of a range call a version affected.

ghost use Rattle.std.specs.Prelude.{◌≡◌, IfOk, IsPermutation, OnOk, false, map};
ghost use Rattle.std.specs.List.{list_any};
ghost use Rattle.std.specs.List.Sorted.{IsSortedByKey};
ghost use Rattle.semver.specs.Identifiers.{parts_of};
ghost use Rattle.rustsec_versions.specs.order.Precedence.{precedence};
ghost use Rattle.rustsec_osv_rules.specs.evaluation.Event.{event_view, version_of};
ghost use Rattle.rustsec_osv_rules.specs.evaluation.Range.{IsRangeAnswer, after, is_before_limits, is_limit, is_limit_above, say_in_order};

use crate::evaluation::event::Event;
use semver::Version;
use std::alloc::AllocError;
use std::cmp::Ordering;

/// Returns whether a version is affected after an event, by whether it was before it.
fn after(version: &Version, before: bool, event: &Event<'_>) -> bool
    ensures { result ≡ after (parts_of version.now) before (event_view event.now) }
{
    match *event {
        Event::Introduced(from) => from.cmp_precedence(version).is_le() || before,
        Event::Fixed(at) => !at.cmp_precedence(version).is_le() && before,
        Event::LastAffected(last) => !last.cmp_precedence(version).is_lt() && before,
        Event::Limit(_) => before,
    }
}

/// Returns whether events in this order say that a version is affected.
fn say_in_order(events: &[Event<'_>], version: &Version) -> bool
    ensures { result ≡ say_in_order (map event_view events.now) (parts_of version.now) }
{
    let mut affected = false;
    for event in events {
        affected = after(version, affected, event);
    }
    affected
}

/// Returns whether an event is a limit.
fn is_limit(event: &Event<'_>) -> bool
    ensures { result ≡ is_limit (event_view event.now) }
{
    matches!(event, Event::Limit(_))
}

/// Returns whether an event is a limit above a version.
fn is_limit_above(version: &Version, event: &Event<'_>) -> bool
    ensures { result ≡ is_limit_above (parts_of version.now) (event_view event.now) }
{
    match *event {
        Event::Limit(limit) => version.cmp_precedence(limit).is_lt(),
        _ => false,
    }
}

/// Returns whether one of the events is a limit.
fn has_limit(events: &[Event<'_>]) -> bool
    ensures { result ≡ list_any is_limit (map event_view events.now) }
{
    for event in events {
        if is_limit(event) {
            return true;
        }
    }
    false
}

/// Returns whether one of the events is a limit above a version.
fn has_limit_above(events: &[Event<'_>], version: &Version) -> bool
    ensures { result ≡ list_any (is_limit_above (parts_of version.now)) (map event_view events.now) }
{
    for event in events {
        if is_limit_above(version, event) {
            return true;
        }
    }
    false
}

/// Returns whether a version is below one of the limits, if any is given.
fn is_before_limits(events: &[Event<'_>], version: &Version) -> bool
    ensures { result ≡ is_before_limits (map event_view events.now) (parts_of version.now) }
{
    !has_limit(events) || has_limit_above(events, version)
}

/// Compares the versions of two events, by precedence.
fn compare(a: &Event<'_>, b: &Event<'_>) -> Ordering
    ensures { result ≡ precedence (version_of (event_view a.now)) (version_of (event_view b.now)) }
{
    a.version().cmp_precedence(b.version())
}

/// Sorts events by their versions.
fn sort(events: &mut Vec<Event<'_>>) -> Result<(), AllocError>
    ensures same { IsPermutation events.old.items events.new.items }
    ensures sorted { OnOk result (IsSortedByKey (λ e. version_of (event_view e)) precedence events.new.items) }
{
    events.sort_by(|a, b| compare(a, b))
}

/// Returns whether the events of a range say that a version is affected. They are evaluated in rising order, whichever
/// order they are given in; of two at one version, the one that is given first comes first.
///
/// # Errors
///
/// Out of memory alone.
pub fn says_affected(events: Vec<Event<'_>>, version: &Version) -> Result<bool, AllocError>
    ensures { IfOk result (IsRangeAnswer (map event_view events.entry.items) (parts_of version.now)) }
{
    let within = is_before_limits(&events, version);
    let mut ordered = events;
    sort(&mut ordered)?;
    Ok(within && say_in_order(&ordered, version))
}
