//! The events of a range as OSV's evaluation takes them, limits too.

ghost use Rattle.std.specs.Prelude.{◌≡◌, IfOk, map};
ghost use Rattle.semver.specs.Identifiers.{parts_of};
ghost use Rattle.rustsec_osv.specs.DocumentEvents.{event_of};
ghost use Rattle.rustsec_osv_rules.specs.evaluation.Event.{event_view, seen, version_of};

use rustsec_osv::OsvTimelineEvent;
use semver::Version;
use std::alloc::{AllocError, Global};

/// An event of a range.
#[derive(Clone, Copy)]
pub enum Event<'a> {
    /// The first affected version.
    Introduced(&'a Version),
    /// The first version that is not affected any more.
    Fixed(&'a Version),
    /// The last affected version.
    LastAffected(&'a Version),
    /// The first version to which the range does not apply.
    Limit(&'a Version),
}

impl<'a> Event<'a> {
    /// Returns the version of the event.
    pub fn version(&self) -> &'a Version
        ensures { parts_of result.now ≡ version_of (event_view self.now) }
    {
        match *self {
            Event::Introduced(version) => version,
            Event::Fixed(version) => version,
            Event::LastAffected(version) => version,
            Event::Limit(version) => version,
        }
    }
}

/// Returns the event that a document has.
fn event_of<'a>(event: &'a OsvTimelineEvent) -> Event<'a>
    ensures { event_view result ≡ seen (event_of event.now) }
{
    match event {
        OsvTimelineEvent::Introduced(version) => Event::Introduced(version),
        OsvTimelineEvent::Fixed(version) => Event::Fixed(version),
        OsvTimelineEvent::LastAffected(version) => Event::LastAffected(version),
    }
}

/// Returns the events that a document has, in order.
pub(crate) fn events_of<'a>(
    alloc: Global,
    events: &'a [OsvTimelineEvent],
) -> Result<Vec<Event<'a>>, AllocError>
    ensures { IfOk result (λ v. map event_view v.items ≡ map seen (map event_of events.now)) }
{
    let mut all = Vec::new(alloc);
    for event in events {
        all.push(event_of(event))?;
    }
    Ok(all)
}
