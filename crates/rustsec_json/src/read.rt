//! Reads values from JSON trees.

ghost use Rattle.std.specs.Prelude.{◌≡◌, ◌≢◌, IfErr, IfOk, None, OnErr, Option, Some};
ghost use Rattle.serde_json.specs.Data.{Data, null};
ghost use Rattle.serde_json.specs.View.{items_view, view};
ghost use Rattle.rustsec_json.specs.Fields.{list_of, or_null, text};
ghost use Rattle.rustsec_values.specs.Reading.{read_all};
ghost use Rattle.rustsec_values.specs.Failure.{IsRefusal};

use crate::refusal::{unexpected_error, with_index};
use rustsec_values::{ErrorKind, FromText, Items, Result};
use serde_json::Value;
use std::alloc::Global;

/// A type whose values are read from JSON trees.
pub trait FromTree: Drop + Sized {
    ghost reads: { Data → Option Self };

    /// Reads the value of a tree.
    ///
    /// # Errors
    ///
    /// `Parse` if the type does not accept the tree; else `OutOfMemory`.
    fn from_tree(alloc: Global, tree: &Value) -> Result<Self>
        ensures ok { IfOk result (λ x. Self.reads (view tree.now) ≡ Some x) }
        ensures err { IfErr result (IsRefusal ErrorKind.Parse (Self.reads (view tree.now) ≡ None)) };
}

/// Reads the value of a tree at a position in a list.
fn element<T: FromTree>(alloc: Global, tree: &Value, index: usize) -> Result<T>
    ensures ok { IfOk result (λ x. T.reads (view tree.now) ≡ Some x) }
    ensures err { IfErr result (IsRefusal ErrorKind.Parse (T.reads (view tree.now) ≡ None)) }
{
    match T::from_tree(alloc, tree) {
        Ok(value) => Ok(value),
        Err(e) => Err(with_index(alloc, index, &e)),
    }
}

/// Reads the values of trees, in order.
fn list<T: FromTree>(alloc: Global, trees: &Vec<Value>) -> Result<Items<T>>
    ensures ok { IfOk result (λ xs. read_all T.reads (list_of (items_view trees.now.items)) ≡ Some xs) }
    ensures err { IfErr result (IsRefusal ErrorKind.Parse (read_all T.reads (list_of (items_view trees.now.items)) ≡ None)) }
{
    let mut read = Items::new(alloc);
    for tree in trees {
        match element::<T>(alloc, tree, read.len()) {
            Ok(value) => read.push(value)?,
            Err(e) => return Err(e),
        }
    }
    Ok(read)
}

/// Parses a tree that must be a string of the type's grammar.
pub(crate) fn read_text<T: FromText>(alloc: Global, tree: &Value) -> Result<T>
    ensures ok { IfOk result (λ x. text T.reads (view tree.now) ≡ Some x) }
    ensures err { IfErr result (IsRefusal ErrorKind.Parse (text T.reads (view tree.now) ≡ None)) }
{
    match tree.as_str() {
        Some(text) => T::from_text(alloc, text),
        None => Err(unexpected_error(alloc, tree, "a string")),
    }
}

impl<T: FromTree> FromTree for Items<T> {
    ghost use Rattle.rustsec_json.specs.Fields.{every};

    ghost reads = { every T.reads };

    fn from_tree(alloc: Global, tree: &Value) -> Result<Items<T>> {
        match tree.as_array() {
            Some(trees) => list(alloc, trees),
            None => Err(unexpected_error(alloc, tree, "a list")),
        }
    }
}

impl<T: FromTree> FromTree for Option<T> {
    ghost use Rattle.rustsec_json.specs.Fields.{or_null};

    ghost reads = { or_null T.reads };

    // Null takes no memory.
    fn from_tree(alloc: Global, tree: &Value) -> Result<Option<T>>
        ensures ok { IfOk result (λ x. or_null T.reads (view tree.now) ≡ Some x) }
        ensures err { IfErr result (IsRefusal ErrorKind.Parse (or_null T.reads (view tree.now) ≡ None)) }
        ensures none { OnErr result (view tree.now ≢ null) }
    {
        if tree.is_null() {
            return Ok(None);
        }
        let value = T::from_tree(alloc, tree)?;
        Ok(Some(value))
    }
}
