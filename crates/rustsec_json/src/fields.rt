//! Reads the values at the keys of a JSON object (RFC 8259, section 4).

ghost use Rattle.std.specs.Prelude.{◌≡◌, ◌≢◌, [], IfErr, IfOk, None, OnErr, Some, option_map};
ghost use Rattle.serde_json.specs.Data.{null};
ghost use Rattle.serde_json.specs.Find.{as_object, get_member};
ghost use Rattle.serde_json.specs.View.{members_view, view};
ghost use Rattle.rustsec_json.specs.Fields.{defaulted, every, optional, required};
ghost use Rattle.rustsec_values.specs.Failure.{IsRefusal};

use crate::read::FromTree;
use crate::refusal::{missing_error, unexpected_error, with_key};
use rustsec_values::{ErrorKind, Items, Result};
use serde_json::{Map, Value};
use std::alloc::Global;

/// Returns the members of a tree that must be an object.
///
/// # Errors
///
/// `Parse` if it is not an object; else `OutOfMemory`.
pub fn fields_of(alloc: Global, tree: &Value) -> Result<&Map<String, Value>>
    ensures ok { IfOk result (λ m. as_object (view tree.now) ≡ Some (members_view m.now.entries)) }
    ensures err { IfErr result (IsRefusal ErrorKind.Parse (as_object (view tree.now) ≡ None)) }
    ensures none { IfErr result (λ e. as_object (view tree.now) ≡ None) }
{
    match tree.as_object() {
        Some(fields) => Ok(fields),
        None => Err(unexpected_error(alloc, tree, "an object")),
    }
}

/// Returns the tree at a key of an object, if the key is present.
pub fn member<'a>(fields: &'a Map<String, Value>, key: &str) -> Option<&'a Value>
    ensures { option_map (λ v. view v.now) result ≡ get_member key.now (members_view fields.now.entries) }
{
    fields.get(key)
}

/// Reads the value at a required key.
///
/// # Errors
///
/// `Parse` if the key is missing, or its tree is refused; else `OutOfMemory`.
pub fn required_at<T: FromTree>(alloc: Global, fields: &Map<String, Value>, key: &str) -> Result<T>
    ensures ok { IfOk result (λ x. required T.reads key.now (members_view fields.now.entries) ≡ Some x) }
    ensures err { IfErr result (IsRefusal ErrorKind.Parse (required T.reads key.now (members_view fields.now.entries) ≡ None)) }
{
    let Some(tree) = member(fields, key) else {
        return Err(missing_error(alloc, key));
    };
    match T::from_tree(alloc, tree) {
        Ok(value) => Ok(value),
        Err(e) => Err(with_key(alloc, key, &e)),
    }
}

/// Reads the value at a key that may be missing; null means missing too. A missing key and null take no memory.
///
/// # Errors
///
/// `Parse` if its tree is refused; else `OutOfMemory`.
pub fn optional_at<T: FromTree>(
    alloc: Global,
    fields: &Map<String, Value>,
    key: &str,
) -> Result<Option<T>>
    ensures ok { IfOk result (λ x. optional T.reads key.now (members_view fields.now.entries) ≡ Some x) }
    ensures err { IfErr result (IsRefusal ErrorKind.Parse (optional T.reads key.now (members_view fields.now.entries) ≡ None)) }
    ensures none { OnErr result (get_member key.now (members_view fields.now.entries) ≢ None) }
    ensures at_null { OnErr result (get_member key.now (members_view fields.now.entries) ≢ Some null) }
{
    let Some(tree) = member(fields, key) else {
        return Ok(None);
    };
    match Option::<T>::from_tree(alloc, tree) {
        Ok(value) => Ok(value),
        Err(e) => Err(with_key(alloc, key, &e)),
    }
}

/// Reads the list at a key, empty if the key is missing.
///
/// # Errors
///
/// `Parse` if the value is not a list, or a tree in it is refused; else `OutOfMemory`.
pub fn list_at<T: FromTree>(
    alloc: Global,
    fields: &Map<String, Value>,
    key: &str,
) -> Result<Items<T>>
    ensures ok { IfOk result (λ xs. defaulted [] (every T.reads) key.now (members_view fields.now.entries) ≡ Some xs) }
    ensures err { IfErr result (IsRefusal ErrorKind.Parse (defaulted [] (every T.reads) key.now (members_view fields.now.entries) ≡ None)) }
    ensures none { OnErr result (get_member key.now (members_view fields.now.entries) ≢ None) }
{
    let Some(tree) = member(fields, key) else {
        return Ok(Items::new(alloc));
    };
    match Items::<T>::from_tree(alloc, tree) {
        Ok(values) => Ok(values),
        Err(e) => Err(with_key(alloc, key, &e)),
    }
}
