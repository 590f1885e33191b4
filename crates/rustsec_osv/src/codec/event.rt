//! Builds and reads the trees of versions, events and ranges.

ghost use Rattle.std.specs.Prelude.{◌≡◌, ◌==◌, IfErr, IfOk, None, Some, map, string_bytes};
ghost use Rattle.serde_json.specs.Events.{members_len};
ghost use Rattle.serde_json.specs.View.{members_view, view};
ghost use Rattle.rustsec_json.specs.Trees.{list_tree};
ghost use Rattle.rustsec_osv.specs.DocumentEvents.{event_of};
ghost use Rattle.rustsec_osv.specs.EventCodec.{dots, event_in, event_tree, event_version, in_full, range_codec, range_tree, read_event, version_tree};
ghost use Rattle.rustsec_values.specs.Failure.{IsRefusal};
ghost use Rattle.semver.specs.Identifiers.{parts_of};

use crate::ranges::OsvJsonRange;
use crate::timeline::OsvTimelineEvent;
use rustsec_json::{
    FromTree, ToTree, fields_of, member, put_at, required_at, unexpected_error, with_key,
};
use rustsec_values::{ErrorKind, Items, Result};
use rustsec_versions::read_version;
use semver::Version;
use serde_json::{Map, Value};
use std::alloc::{AllocError, Global};
use std::marker::Model;

/// What is expected of an event.
const EVENT: &str = "an object with one key, `introduced`, `fixed` or `last_affected`";

/// Builds the tree of a version: its text.
pub(crate) fn version_tree(
    alloc: Global,
    version: &Version,
) -> std::result::Result<Value, AllocError>
    ensures { IfOk result (λ v. view v ≡ version_tree (parts_of version.now)) }
{
    let text = version.to_string(alloc)?;
    Ok(Value::from(text))
}

/// Returns the number of dots in a text.
fn dots(text: &str) -> usize
    ensures { result ≡ dots text.now }
{
    let mut dots = 0;
    let bytes = text.as_bytes();
    for byte in bytes {
        if *byte == b'.' {
            dots += 1;
        }
    }
    dots
}

/// Returns the text of a version in full: the numbers that a short form leaves out are 0.
fn in_full(alloc: Global, text: &str) -> std::result::Result<String, AllocError>
    ensures { IfOk result (λ s. string_bytes s ≡ in_full text.now) }
{
    match dots(text) {
        0 => format!(in alloc; "{text}.0.0"),
        1 => format!(in alloc; "{text}.0"),
        _ => String::from_str(alloc, text),
    }
}

/// Reads the version of an event, which may be in a short form.
fn event_version(alloc: Global, tree: &Value) -> Result<Version>
    ensures ok { IfOk result (λ v. event_version (view tree.now) ≡ Some (parts_of v)) }
    ensures err { IfErr result (IsRefusal ErrorKind.Parse (event_version (view tree.now) ≡ None)) }
{
    match tree.as_str() {
        Some(text) => {
            let full = in_full(alloc, text)?;
            read_version(alloc, &full, text)
        }
        None => Err(unexpected_error(alloc, tree, "a string")),
    }
}

/// Reads the version at an event's key.
fn version_at(alloc: Global, key: &str, tree: &Value) -> Result<Version>
    ensures ok { IfOk result (λ v. event_version (view tree.now) ≡ Some (parts_of v)) }
    ensures err { IfErr result (IsRefusal ErrorKind.Parse (event_version (view tree.now) ≡ None)) }
{
    match event_version(alloc, tree) {
        Ok(version) => Ok(version),
        Err(e) => Err(with_key(alloc, key, &e)),
    }
}

/// Reads the event of an object's key. `tree` is the object, for messages.
fn event_in(alloc: Global, tree: &Value, fields: &Map<String, Value>) -> Result<OsvTimelineEvent>
    ensures ok { IfOk result (λ e. event_in (members_view fields.now.entries) ≡ Some (event_of e)) }
    ensures err { IfErr result (IsRefusal ErrorKind.Parse (event_in (members_view fields.now.entries) ≡ None)) }
{
    if let Some(tree) = member(fields, "introduced") {
        let version = version_at(alloc, "introduced", tree)?;
        return Ok(OsvTimelineEvent::Introduced(version));
    }
    if let Some(tree) = member(fields, "fixed") {
        let version = version_at(alloc, "fixed", tree)?;
        return Ok(OsvTimelineEvent::Fixed(version));
    }
    if let Some(tree) = member(fields, "last_affected") {
        let version = version_at(alloc, "last_affected", tree)?;
        return Ok(OsvTimelineEvent::LastAffected(version));
    }
    Err(unexpected_error(alloc, tree, EVENT))
}

/// Returns whether an object has exactly one key.
fn is_lone(fields: &Map<String, Value>) -> bool
    ensures { result ≡ (members_len (members_view fields.now.entries) == 1) }
{
    fields.len() == 1
}

impl ToTree for OsvTimelineEvent {
    ghost tree = { λ e. event_tree (event_of e) };

    fn to_tree(&self, alloc: Global) -> std::result::Result<Value, AllocError> {
        let (key, version) = match self {
            OsvTimelineEvent::Introduced(version) => ("introduced", version),
            OsvTimelineEvent::Fixed(version) => ("fixed", version),
            OsvTimelineEvent::LastAffected(version) => ("last_affected", version),
        };
        let mut fields = Map::new(alloc);
        serde_json::put(&mut fields, alloc, key, version_tree(alloc, version)?)?;
        Ok(Value::from(fields))
    }
}

/// An event that was read, which contracts see by the parts of its version.
#[derive(Drop)]
struct ReadEvent {
    event: OsvTimelineEvent,
}

impl Model for ReadEvent {
    ghost use Rattle.rustsec_osv.specs.DocumentEvents.{Event, event_of};

    ghost Value = { Event };

    ghost view = { λ r. event_of r.event };
}

impl FromTree for ReadEvent {
    ghost reads = { read_event };

    fn from_tree(alloc: Global, tree: &Value) -> Result<ReadEvent> {
        let fields = fields_of(alloc, tree)?;
        if !is_lone(fields) {
            return Err(unexpected_error(alloc, tree, EVENT));
        }
        let event = event_in(alloc, tree, fields)?;
        Ok(ReadEvent { event })
    }
}

/// Builds the array of the trees of events, in order.
fn events_tree(
    alloc: Global,
    events: &Vec<OsvTimelineEvent>,
) -> std::result::Result<Value, AllocError>
    ensures { IfOk result (λ v. view v ≡ list_tree event_tree (map event_of events.now.items)) }
{
    let mut trees = Vec::new(alloc);
    for event in events {
        trees.push(event.to_tree(alloc)?)?;
    }
    Ok(Value::from(trees))
}

/// Returns the events that were read, in order.
fn events_of(
    alloc: Global,
    read: Items<ReadEvent>,
) -> std::result::Result<Vec<OsvTimelineEvent>, AllocError>
    ensures { IfOk result (λ v. map event_of v.items ≡ read) }
{
    let mut events = Vec::new(alloc);
    for item in Vec::from(read) {
        let ReadEvent { event } = item;
        events.push(event)?;
    }
    Ok(events)
}

impl ToTree for OsvJsonRange {
    ghost tree = { range_tree };

    fn to_tree(&self, alloc: Global) -> std::result::Result<Value, AllocError> {
        let mut fields = Map::new(alloc);
        put_at(alloc, &mut fields, "type", &self.kind)?;
        let events = events_tree(alloc, &self.events)?;
        serde_json::put(&mut fields, alloc, "events", events)?;
        Ok(Value::from(fields))
    }
}

impl FromTree for OsvJsonRange {
    ghost reads = { range_codec.read };

    fn from_tree(alloc: Global, tree: &Value) -> Result<OsvJsonRange> {
        let fields = fields_of(alloc, tree)?;
        let kind = required_at(alloc, fields, "type")?;
        let read = required_at(alloc, fields, "events")?;
        let events = events_of(alloc, read)?;
        Ok(OsvJsonRange { kind, events })
    }
}
