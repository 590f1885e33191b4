//! Makes JSON trees of values.

ghost use Rattle.std.specs.Prelude.{◌≡◌, ◌≢◌, IfOk, None, OnErr};
ghost use Rattle.serde_json.specs.Data.{Data};
ghost use Rattle.serde_json.specs.View.{view};
ghost use Rattle.rustsec_json.specs.Trees.{list_tree, optional_tree};

use rustsec_values::Items;
use serde_json::Value;
use std::alloc::{AllocError, Global};

/// A type whose values have a JSON tree.
pub trait ToTree {
    ghost tree: { Self → Data };

    /// Builds the tree.
    ///
    /// # Errors
    ///
    /// Out of memory.
    fn to_tree(&self, alloc: Global) -> Result<Value, AllocError>
        ensures { IfOk result (λ v. view v ≡ Self.tree self.now) };
}

/// Builds the array of the trees of some values, in order.
fn list<T: ToTree>(alloc: Global, values: &[T]) -> Result<Value, AllocError>
    ensures { IfOk result (λ v. view v ≡ list_tree T.tree values.now) }
{
    let mut trees = Vec::new(alloc);
    for value in values {
        trees.push(value.to_tree(alloc)?)?;
    }
    Ok(Value::from(trees))
}

impl<T: ToTree> ToTree for Items<T> {
    ghost use Rattle.rustsec_json.specs.Trees.{list_tree};

    ghost tree = { list_tree T.tree };

    fn to_tree(&self, alloc: Global) -> Result<Value, AllocError> {
        list(alloc, self.as_slice())
    }
}

impl<T: ToTree> ToTree for Option<T> {
    ghost use Rattle.rustsec_json.specs.Trees.{optional_tree};

    ghost tree = { optional_tree T.tree };

    // `None` takes no memory.
    fn to_tree(&self, alloc: Global) -> Result<Value, AllocError>
        ensures ok { IfOk result (λ v. view v ≡ optional_tree T.tree self.now) }
        ensures none { OnErr result (self.now ≢ None) }
    {
        match self {
            Some(value) => value.to_tree(alloc),
            None => Ok(Value::Null),
        }
    }
}
