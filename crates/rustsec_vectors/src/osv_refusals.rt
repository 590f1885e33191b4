//! What refusals of OSV documents say: where the refused value is, what was found, and what was expected.

use crate::rows::{field, refuses};
use rustsec_osv::OsvAdvisory;
use serde_json::Value;
use std::alloc::{AllocError, Global};
use std::test::Fail;

/// Trees of no OSV document, the messages of their refusals, and before them whether these have a cause.
const DOCUMENTS: &str = r#"
- | [] | found the list `[]`, expected an object
- | null | found `null`, expected an object
- | {} | key `id` is missing
- | {"id":3} | at `id`: found the number `3`, expected a string
caused | {"schema_version":"1.0"} | at `schema_version`: malformed version `1.0`, expected one such as `1.2.3`
- | {"id":"X-1","modified":"","published":"","summary":"","details":"","aliases":{"a":true}} | at `aliases`: found the object `{"a":true}`, expected a list
caused | {"id":"X-1","modified":"","published":"","summary":"","details":"","affected":[{"package":{"name":"a","ecosystem":"b","purl":"c"},"database_specific":{},"ranges":[{"type":"SEMVER","events":[{"fixed":"1.x"}]}]}]} | at `affected[0].ranges[0].events[0].fixed`: malformed version `1.x`, expected one such as `1.2.3`
- | {"id":"X-1","modified":"","published":"","summary":"","details":"","aliases":["CVE-2001-0001",3]} | at `aliases[1]`: found the number `3`, expected a string
- | {"id":"X-1","modified":"","published":"","summary":"","details":"","affected":[{"package":{"name":"a","ecosystem":"b","purl":"c"},"database_specific":{},"ranges":[{"type":"SEMVER","events":[{"introduced":"1.0.0"},{"limit":"2.0.0"}]}]}]} | at `affected[0].ranges[0].events[1]`: found the object `{"limit":"2.0.0"}`, expected an object with one key, `introduced`, `fixed` or `last_affected`
- | {"id":"X-1","modified":"","published":"","summary":"","details":"","affected":[{"package":{"name":"a","ecosystem":"b","purl":"c"},"database_specific":{},"ranges":[{"type":"SEMVER","events":[{"introduced":"1.0.0"},{}]}]}]} | at `affected[0].ranges[0].events[1]`: found the object `{}`, expected an object with one key, `introduced`, `fixed` or `last_affected`
- | {"id":"X-1","modified":"","published":"","summary":"","details":"","affected":[{"package":{"name":"a","ecosystem":"b","purl":"c"},"database_specific":{},"ranges":[{"type":"SEMVER","events":[{"introduced":"1.0.0"},{"fixed":"2.0.0","last_affected":"3.0.0"}]}]}]} | at `affected[0].ranges[0].events[1]`: found the object `{"fixed":"2.0.0","last_affected":"3.0.0"}`, expected an object with one key, `introduced`, `fixed` or `last_affected`
- | {"id":"X-1","modified":"","published":"","summary":"","details":"","affected":[{"package":{"name":"a","ecosystem":"b","purl":"c"},"database_specific":{},"ranges":[{"type":"SEMVER","events":[{"introduced":"1.0.0"},{"fixed":"2.0.0"}]}]},{}]} | at `affected[1]`: key `package` is missing
- | {"schema_version":null} | key `id` is missing
- | {"id":"X-1","modified":"","published":"","summary":"","details":"","database_specific":null} | at `database_specific`: found `null`, expected an object
- | {"id":"X-1","modified":"","published":"","summary":"","details":"","database_specific":{"license":3}} | at `database_specific.license`: found the number `3`, expected a string
- | {"id":"X-1","modified":"","published":"","summary":"","details":"","affected":[{"package":{"name":"a","ecosystem":"b"},"ecosystem_specific":null,"database_specific":{"categories":null}}]} | at `affected[0].database_specific.categories`: found `null`, expected a list
- | {"id":"X-1","modified":"","published":"","summary":"","details":"","affected":[{"package":{"name":"a","ecosystem":"b"},"database_specific":{"cvss":"AV:N"}}]} | at `affected[0].database_specific.cvss`: malformed CVSS vector `AV:N`, expected `CVSS:3.0/`, `CVSS:3.1/` or `CVSS:4.0/` at its beginning
- | {"id":"X-1","modified":"","published":"","summary":"","details":"","affected":[{"package":{"name":"a","ecosystem":"b"},"ecosystem_specific":{"affects":{"arch":[],"os":[]}}}]} | at `affected[0].ecosystem_specific.affects`: key `functions` is missing
- | {"id":"X-1","modified":"","published":"","summary":"","details":"","affected":[{"package":{"name":"a","ecosystem":"b"},"ecosystem_specific":{"affects":{"arch":[],"os":["plan10"]}}}]} | at `affected[0].ecosystem_specific.affects.os[0]`: no system has the name `plan10`, expected a name such as `linux`
- | {"id":"X-1","modified":"","published":"","summary":"","details":"","affected":[{"package":{"name":"a","ecosystem":"b"},"database_specific":{},"ranges":[{"type":"SEMVER","events":[{"introduced":"0","x":1}]}]}]} | at `affected[0].ranges[0].events[0]`: found the object `{"introduced":"0","x":1}`, expected an object with one key, `introduced`, `fixed` or `last_affected`
"#;

fn is_refused(alloc: Global, row: &str) -> Result<bool, Fail> {
    let tree = Value::from_str(alloc, field(row, 1))?;
    let answer = OsvAdvisory::from_value(alloc, &tree);
    Ok(refuses(answer, field(row, 2), field(row, 0) == "caused"))
}

// A refusal of a tree has the path of keys and positions to what is refused, and keeps the reason of `semver`.
#[test]
fn osv_refusal_paths(rt: HostRuntime) -> Result<(), Fail> {
    for row in DOCUMENTS.trim().lines() {
        assert!(rt; is_refused(rt.alloc(), row)?, "{row}");
    }
    Ok(())
}

/// Returns a tree of this many lists, each in the one before.
fn lists(alloc: Global, depth: usize) -> Result<Value, AllocError> {
    let mut tree = Value::Null;
    for _ in 0..depth {
        let mut items = Vec::new(alloc);
        items.push(tree)?;
        tree = Value::Array(items);
    }
    Ok(tree)
}

fn last_item(tree: Value) -> Value {
    match tree {
        Value::Array(mut items) => items.pop().unwrap_or(Value::Null),
        _ => Value::Null,
    }
}

/// Takes a tree apart, level by level. To drop it whole takes stack for each level.
fn take_apart(tree: Value, depth: usize) {
    let mut tree = tree;
    for _ in 0..depth {
        tree = last_item(tree);
    }
}

/// Returns whether a tree is refused with the beginning of its text, of 60 lists.
fn is_refused_in_part(alloc: Global, tree: &Value) -> Result<bool, Fail> {
    let shown = "[".repeat(alloc, 60)?;
    let message = format!(in alloc; "found the list `{shown}`, expected an object")?;
    Ok(refuses(OsvAdvisory::from_value(alloc, tree), &message, false))
}

fn is_shown_in_part(alloc: Global, depth: usize) -> Result<bool, Fail> {
    let tree = lists(alloc, depth)?;
    let is = is_refused_in_part(alloc, &tree);
    take_apart(tree, depth);
    is
}

#[test]
fn deep_trees_are_refused(rt: HostRuntime) -> Result<(), Fail> {
    assert!(rt; is_shown_in_part(rt.alloc(), 10_000)?);
    Ok(())
}

fn large_list(alloc: Global, length: usize) -> Result<Value, AllocError> {
    let text = "a".repeat(alloc, length)?;
    let mut items = Vec::new(alloc);
    items.push(Value::from(text))?;
    Ok(Value::Array(items))
}

/// The refusal of a list of a long text of `a`.
const BEGINNING: &str =
    "found the list `[\"aaaaaaaaaaaaaaaaaaaaaaaaaaaaaaaaaaaaaaaaaaaaaaaaaaaaaaaaaa`, expected an object";

/// Returns whether a large tree is refused with the beginning of its text, the same for each length.
fn is_beginning_shown(alloc: Global, length: usize) -> Result<bool, Fail> {
    let tree = large_list(alloc, length)?;
    Ok(refuses(OsvAdvisory::from_value(alloc, &tree), BEGINNING, false))
}

// A tree of 10 MB is refused with the message of one of 100 bytes.
#[test]
fn large_trees_are_refused(rt: HostRuntime) -> Result<(), Fail> {
    for length in &[100, 10_000_000] {
        assert!(rt; is_beginning_shown(rt.alloc(), *length)?, "{length} bytes");
    }
    Ok(())
}
