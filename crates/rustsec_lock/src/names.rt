//! Names of packages.

ghost use Rattle.std.specs.Prelude.{◌≡◌, ◌<◌, IfErr, IfOk, None, Some, length};
ghost use Rattle.rustsec_values.specs.Failure.{IsMemory, IsRefusal};
ghost use Rattle.rustsec_lock.specs.Names.{name_cmp, name_of};

use rustsec_values::{
    ErrorKind, ExactClone, ExactEq, FromText, Result, StatedOrder, Text, text_error,
};
use std::alloc::Global;
use std::convert::AsStr;
use std::fmt;
use std::marker::Model;

/// The name of a package: a text that is not empty.
#[derive(Clone, PartialEq, Eq, PartialOrd, Ord, Hash, Debug, Drop)]
pub struct Name {
    text: Text,
}

impl Model for Name {
    ghost use Rattle.std.specs.Prelude.{List, ℕ, ◌<◌, length};

    ghost Value = { List ℕ };

    ghost view = { λ n. n.text };

    ghost invariant = { λ n. 0 < length n.text };

    ghost inverse = { λ t. record { text = t } };
}

impl Name {
    /// Parses a name.
    ///
    /// # Errors
    ///
    /// `Parse` if the text is empty; else `OutOfMemory`.
    pub fn from_str(alloc: Global, text: &str) -> Result<Name>
        ensures ok { IfOk result (λ n. name_of text.now ≡ Some n) }
        ensures text { IfOk result (λ n. n ≡ text.now) }
        ensures err { IfErr result (IsRefusal ErrorKind.Parse (name_of text.now ≡ None)) }
    {
        if text.is_empty() {
            return Err(text_error(alloc, "malformed name", text, "a text that is not empty"));
        }
        let text = Text::from_str(alloc, text)?;
        Ok(Name { text })
    }

    /// Returns the text.
    pub fn as_str(&self) -> &str
        ensures text { result.now ≡ self.now }

        // Parsing the text gives the same name.
        ensures back { name_of result.now ≡ Some self.now }
    {
        self.text.as_str()
    }

    /// Returns an equal name.
    ///
    /// # Errors
    ///
    /// `OutOfMemory` alone.
    pub fn clone(&self, _alloc: Global) -> Result<Name>
        ensures ok { IfOk result (λ n. n ≡ self.now) }
        ensures err { IfErr result IsMemory }
    {
        let copy = Clone::clone(self)?;
        Ok(copy)
    }
}

impl FromText for Name {
    ghost use Rattle.rustsec_lock.specs.Names.{name_of};

    ghost reads = { name_of };

    fn from_text(alloc: Global, text: &str) -> Result<Name> {
        Name::from_str(alloc, text)
    }
}

impl ExactClone for Name {
    ghost use Rattle.std.proofs.Common.{rules};

    ghost exact = { λ x y e. Prim.search rules };
}

impl ExactEq for Name {
    ghost use Rattle.std.specs.Cmp.Lexicographic.{bytes_decides};

    ghost decides = { bytes_decides };
}

impl StatedOrder for Name {
    ghost use Rattle.std.specs.Cmp.Rules.{comparing};
    ghost use Rattle.std.proofs.Common.{rules};

    ghost order = { name_cmp };

    ghost agrees = { λ x y. Prim.search (comparing, rules) };
}

impl fmt::Display for Name {
    ghost output = { λ n. Some n };

    fn fmt<W: fmt::Write>(&self, f: &mut fmt::Formatter<W>) -> fmt::Result {
        f.write_str(self.text.as_str())
    }
}

impl AsStr for Name {
    ghost text = { λ n. n };

    fn as_str(&self) -> &str {
        self.text.as_str()
    }
}
