//! Keywords of advisories.

ghost use Rattle.std.specs.Prelude.{◌≡◌, IfErr, IfOk};
ghost use Rattle.rustsec_values.specs.Failure.{IsMemory};

use rustsec_values::{ExactClone, ExactEq, FromText, Result, StatedOrder, Text};
use std::alloc::Global;
use std::convert::AsStr;
use std::fmt;
use std::marker::Model;

/// A keyword of an advisory, which may be any text. Keywords are ordered by their bytes.
#[derive(Clone, PartialEq, Eq, PartialOrd, Ord, Debug, Drop)]
pub struct Keyword {
    text: Text,
}

impl Model for Keyword {
    ghost use Rattle.std.specs.Prelude.{List, ℕ};

    ghost Value = { List ℕ };

    ghost view = { λ k. k.text };

    ghost inverse = { λ t. record { text = t } };
}

impl Keyword {
    /// Returns the keyword with a text. Every text is one.
    ///
    /// # Errors
    ///
    /// `OutOfMemory` alone.
    pub fn from_str(alloc: Global, text: &str) -> Result<Keyword>
        ensures ok { IfOk result (λ k. k ≡ text.now) }
        ensures err { IfErr result IsMemory }
    {
        let text = Text::from_str(alloc, text)?;
        Ok(Keyword { text })
    }

    /// Returns the text.
    pub fn as_str(&self) -> &str
        ensures { result.now ≡ self.now }
    {
        self.text.as_str()
    }

    /// Returns an equal keyword.
    ///
    /// # Errors
    ///
    /// `OutOfMemory` alone.
    pub fn clone(&self, _alloc: Global) -> Result<Keyword>
        ensures ok { IfOk result (λ k. k ≡ self.now) }
        ensures err { IfErr result IsMemory }
    {
        let copy = Clone::clone(self)?;
        Ok(copy)
    }
}

impl FromText for Keyword {
    ghost use Rattle.std.specs.Prelude.{Some};

    ghost reads = { λ text. Some text };

    fn from_text(alloc: Global, text: &str) -> Result<Keyword> {
        Keyword::from_str(alloc, text)
    }
}

impl ExactClone for Keyword {
    ghost use Rattle.std.proofs.Common.{rules};

    ghost exact = { λ x y e. Prim.search rules };
}

impl ExactEq for Keyword {
    ghost use Rattle.std.specs.Cmp.Lexicographic.{bytes_decides};

    ghost decides = { bytes_decides };
}

impl StatedOrder for Keyword {
    ghost use Rattle.std.specs.Cmp.Lexicographic.{slice_cmp};
    ghost use Rattle.std.specs.Cmp.Rules.{comparing};
    ghost use Rattle.std.specs.Ordering.{nat_cmp};
    ghost use Rattle.std.proofs.Common.{rules};

    ghost order = { slice_cmp nat_cmp };

    ghost agrees = { λ x y. Prim.search (comparing, rules) };
}

impl fmt::Display for Keyword {
    ghost use Rattle.std.specs.Prelude.{Some};

    ghost output = { λ k. Some k };

    fn fmt<W: fmt::Write>(&self, f: &mut fmt::Formatter<W>) -> fmt::Result {
        f.write_str(self.as_str())
    }
}

impl AsStr for Keyword {
    ghost text = { λ k. k };

    fn as_str(&self) -> &str {
        Keyword::as_str(self)
    }
}
