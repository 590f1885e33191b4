//! Collections of packages.

ghost use Rattle.std.specs.Prelude.{◌≡◌, IfErr, IfOk, Some, None};
ghost use Rattle.rustsec_values.specs.Failure.{IsRefusal};
ghost use Rattle.rustsec_texts.specs.Collections.{collection_cmp, collection_name, collection_of, collections};

use rustsec_values::{
    ClosedEnum, ErrorKind, ExactClone, ExactEq, FromText, Result, StatedOrder, from_name,
    text_error,
};
use std::alloc::Global;
use std::fmt;

/// A collection of the database: where the packages of an advisory are published.
#[derive(Clone, Copy, PartialEq, Eq, PartialOrd, Ord, Hash, Debug)]
pub enum Collection {
    /// Packages of crates.io.
    Crates,
    /// The standard library and tools of Rust itself.
    Rust,
}

impl Collection {
    /// Returns all collections, in their order.
    pub fn all() -> &'static [Collection]
        ensures { result.now ≡ collections }
    {
        &[Collection::Crates, Collection::Rust]
    }

    /// Returns the name, as `from_str` reads it.
    pub fn as_str(&self) -> &'static str
        ensures value { result.now ≡ collection_name self.now }
        ensures read { collection_of result.now ≡ Some self.now }
    {
        match self {
            Collection::Crates => "crates",
            Collection::Rust => "rust",
        }
    }

    /// Parses the name of a collection.
    ///
    /// # Errors
    ///
    /// `Parse` for any other text; `OutOfMemory` instead if there is no memory for the message.
    pub fn from_str(alloc: Global, text: &str) -> Result<Collection>
        ensures ok { IfOk result (λ c. collection_of text.now ≡ Some c) }
        ensures err { IfErr result (IsRefusal ErrorKind.Parse (collection_of text.now ≡ None)) }

        // Success takes no memory, so any error means that the text is not one of the names.
        ensures none { IfErr result (λ e. collection_of text.now ≡ None) }
        ensures printed { IfOk result (λ c. collection_name c ≡ text.now) }
    {
        match from_name(text) {
            Some(value) => Ok(value),
            None => Err(text_error(
                alloc,
                "no collection has the name",
                text,
                "`crates` or `rust`",
            )),
        }
    }
}

impl ClosedEnum for Collection {
    ghost use Rattle.rustsec_texts.specs.Collections.{collection_name, collections};

    ghost name_of = { collection_name };

    ghost values = { collections };

    fn all() -> &'static [Collection] {
        Collection::all()
    }

    fn name(&self) -> &'static str {
        self.as_str()
    }
}

impl FromText for Collection {
    ghost use Rattle.rustsec_texts.specs.Collections.{collection_of};

    ghost reads = { collection_of };

    fn from_text(alloc: Global, text: &str) -> Result<Collection>
        ensures ok { IfOk result (λ x. collection_of text.now ≡ Some x) }
        ensures err { IfErr result (IsRefusal ErrorKind.Parse (collection_of text.now ≡ None)) }
        ensures none { IfErr result (λ e. collection_of text.now ≡ None) }
    {
        Collection::from_str(alloc, text)
    }
}

impl ExactClone for Collection {
    ghost exact = { λ x y e. e };
}

impl ExactEq for Collection {
    ghost use Rattle.std.specs.Cmp.Rules.{comparing};
    ghost use Rattle.std.proofs.Common.{rules};

    ghost decides = { λ x y. Prim.search (comparing, rules) };
}

impl fmt::Display for Collection {
    ghost use Rattle.std.specs.Prelude.{Some};
    ghost use Rattle.rustsec_texts.specs.Collections.{collection_name};

    ghost output = { λ c. Some (collection_name c) };

    fn fmt<W: fmt::Write>(&self, f: &mut fmt::Formatter<W>) -> fmt::Result {
        f.write_str(self.as_str())
    }
}

impl StatedOrder for Collection {
    ghost use Rattle.std.specs.Cmp.Rules.{comparing};
    ghost use Rattle.std.proofs.Common.{rules};

    ghost order = { collection_cmp };

    ghost agrees = { λ x y. Prim.search (comparing, rules) };
}
