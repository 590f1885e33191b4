//! Drops the pairs of events at one version from a document.

ghost use Rattle.std.specs.Prelude.{◌≡◌, ℕ, Bool, IfErr, IfOk, List, map, option_map, true};
ghost use Rattle.rustsec_osv.specs.DocumentEvents.{event_of};
ghost use Rattle.semver.specs.Parse.{Parts};
ghost use Rattle.rustsec_osv_rules.specs.evaluation.Document.{IsAnswer, says_as_given};
ghost use Rattle.rustsec_osv_rules.specs.evaluation.Pairs.{are_at_one, has_turn, normalized, normalized_document, normalized_member, normalized_range, take_turns};
ghost use Rattle.rustsec_values.specs.Failure.{IsMemory};

use crate::evaluation::order::{at, rise};
use rustsec_osv::{OsvAdvisory, OsvAffected, OsvJsonRange, OsvTimelineEvent};
use rustsec_values::{Items, Result};
use std::alloc::{AllocError, Global};
use std::mem;

/// Returns whether two events are at one version, by precedence.
fn are_at_one(event: &OsvTimelineEvent, other: &OsvTimelineEvent) -> bool
    ensures { result ≡ are_at_one (event_of event.now) (event_of other.now) }
{
    at(event).cmp_precedence(at(other)).is_le() && at(other).cmp_precedence(at(event)).is_le()
}

/// Returns events without the pairs of neighbours at one version.
fn normalized_events(
    alloc: Global,
    events: Vec<OsvTimelineEvent>,
) -> std::result::Result<Vec<OsvTimelineEvent>, AllocError>
    ensures { IfOk result (λ v. map event_of v.items ≡ normalized (map event_of events.items)) }
{
    let mut kept = Vec::new(alloc);
    let mut pending: Option<OsvTimelineEvent> = None;
    for event in events {
        pending = match pending {
            None => Some(event),
            Some(before) => {
                if are_at_one(&before, &event) {
                    None
                } else {
                    kept.push(before)?;
                    Some(event)
                }
            }
        };
    }
    if let Some(last) = pending {
        kept.push(last)?;
    }
    Ok(kept)
}

/// Returns a range without such pairs.
fn without_pairs(alloc: Global, range: &OsvJsonRange) -> Result<OsvJsonRange>
    ensures ok { IfOk result (λ r. r ≡ record { kind = range.now.kind; events = normalized range.now.events }) }
    ensures err { IfErr result IsMemory }
{
    let mut copy = range.clone(alloc)?;
    let events = mem::replace(&mut copy.events, Vec::new(alloc));
    copy.events = normalized_events(alloc, events)?;
    Ok(copy)
}

/// Returns whether an event is the next one in turn: an introduction if `introduction` is set, else a fix.
fn has_turn(event: &OsvTimelineEvent, introduction: bool) -> bool
    ensures { result ≡ has_turn introduction (event_of event.now) }
{
    match event {
        OsvTimelineEvent::Introduced(_) => introduction,
        OsvTimelineEvent::Fixed(_) => !introduction,
        OsvTimelineEvent::LastAffected(_) => false,
    }
}

/// Returns whether introductions and fixes take turns, an introduction first.
#[tactic(auto, using(crate::proofs::evaluation::TakingTurns::turns_more, crate::proofs::evaluation::TakingTurns::turns_stop, crate::proofs::evaluation::TakingTurns::turns_end))]
fn take_turns(events: &[OsvTimelineEvent]) -> bool
    ensures { result ≡ take_turns true (map event_of events.now) }
{
    let mut introduction = true;
    for event in events {
        if !has_turn(event, introduction) {
            return false;
        }
        introduction = !introduction;
    }
    true
}

/// Returns a range without such pairs if its events take turns and rise, or else a copy of it.
fn normalized_range(alloc: Global, range: &OsvJsonRange) -> Result<OsvJsonRange>
    ensures ok { IfOk result (λ r. r ≡ normalized_range range.now) }
    ensures err { IfErr result IsMemory }
{
    if take_turns(&range.events) && rise(&range.events) {
        return without_pairs(alloc, range);
    }
    range.clone(alloc)
}

/// Returns ranges, each of them normalized.
fn normalized_ranges(alloc: Global, ranges: &[OsvJsonRange]) -> Result<Items<OsvJsonRange>>
    ensures ok { IfOk result (λ rs. rs ≡ map normalized_range ranges.now) }
    ensures err { IfErr result IsMemory }
{
    let mut all = Items::new(alloc);
    for range in ranges {
        all.push(normalized_range(alloc, range)?)?;
    }
    Ok(all)
}

/// Returns a member whose ranges are normalized.
fn normalized_member(alloc: Global, member: &OsvAffected) -> Result<OsvAffected>
    ensures ok { IfOk result (λ m. m ≡ normalized_member member.now) }
    ensures err { IfErr result IsMemory }
{
    let mut copy = member.clone(alloc)?;
    if let Some(ranges) = &member.ranges {
        copy.ranges = Some(normalized_ranges(alloc, ranges.as_slice())?);
    }
    Ok(copy)
}

/// Returns members whose ranges are normalized.
fn normalized_members(alloc: Global, members: &[OsvAffected]) -> Result<Items<OsvAffected>>
    ensures ok { IfOk result (λ ms. ms ≡ map normalized_member members.now) }
    ensures err { IfErr result IsMemory }
{
    let mut all = Items::new(alloc);
    for member in members {
        all.push(normalized_member(alloc, member)?)?;
    }
    Ok(all)
}

/// Returns a document without the introductions and fixes that are beside each other at one version, in ranges whose
/// events take turns and rise; OSV's evaluation of every version stays the same. In an exported document no two events at
/// one version are left.
///
/// # Errors
///
/// `OutOfMemory` alone.
pub fn normalized(alloc: Global, document: OsvAdvisory) -> Result<OsvAdvisory>
    ensures ok { IfOk result (λ d. d ≡ normalized_document document) }

    // Each answer of the evaluation of the result is an answer of that of the given document.
    ensures keeps { IfOk result (λ d. (ecosystem name : List ℕ) (v : Parts) (answer : Bool)
        → IsAnswer ecosystem name v d answer → IsAnswer ecosystem name v document answer) }

    // With events in the order in which they are given, both have the same answer.
    ensures same_verdict { IfOk result (λ d. (ecosystem name : List ℕ) (v : Parts)
        → says_as_given ecosystem name v d ≡ says_as_given ecosystem name v document) }
    ensures err { IfErr result IsMemory }
{
    let affected = normalized_members(alloc, document.affected.as_slice())?;
    let mut normalized = document;
    normalized.affected = affected;
    Ok(normalized)
}
