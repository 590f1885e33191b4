//! Builds objects of JSON trees, key by key.

ghost use Rattle.std.specs.Prelude.{◌≡◌, ◌≢◌, None, OnErr, OnOk, option_map};
ghost use Rattle.serde_json.specs.Data.{put};
ghost use Rattle.serde_json.specs.View.{members_view};
ghost use Rattle.rustsec_json.specs.Codecs.{put_some};

use crate::make::ToTree;
use serde_json::{Map, Value};
use std::alloc::{AllocError, Global};

/// Puts the tree of a value at a key.
///
/// # Errors
///
/// Out of memory.
pub fn put_at<T: ToTree>(
    alloc: Global,
    fields: &mut Map<String, Value>,
    key: &str,
    value: &T,
) -> Result<(), AllocError>
    ensures { OnOk result (members_view fields.new.entries ≡ put key.now (T.tree value.now) (members_view fields.old.entries)) }
{
    let tree = value.to_tree(alloc)?;
    serde_json::put(fields, alloc, key, tree)
}

/// Puts the tree of a value at a key, if there is a value. No value takes no memory.
///
/// # Errors
///
/// Out of memory.
pub fn put_if<T: ToTree>(
    alloc: Global,
    fields: &mut Map<String, Value>,
    key: &str,
    value: &Option<T>,
) -> Result<(), AllocError>
    ensures ok { OnOk result (members_view fields.new.entries ≡ put_some key.now (option_map T.tree value.now) (members_view fields.old.entries)) }
    ensures none { OnErr result (value.now ≢ None) }
{
    match value {
        Some(value) => put_at(alloc, fields, key, value),
        None => Ok(()),
    }
}
