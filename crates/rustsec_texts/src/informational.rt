//! Kinds of informational advisories.

ghost use Rattle.std.specs.Prelude.{◌≡◌, ◌⊎◌, ◌↔◌, IsTrue, IfErr, IfOk, List, OnErr, ℕ, None, Some};
ghost use Rattle.rustsec_values.specs.ClosedTables.{from_name};
ghost use Rattle.rustsec_values.specs.Failure.{IsMemory};
ghost use Rattle.rustsec_texts.specs.declared.informational.Informational.TheVariants as informational;
ghost use Rattle.rustsec_texts.specs.Informational.{informational_cmp, informational_kinds, informational_name, informational_of, is_other_kind, kind_of_warnings};

use crate::warning_kind::WarningKind;
use rustsec_values::{ExactClone, ExactEq, FromText, Result, StatedOrder, Text};
use std::alloc::{AllocError, Global};
use std::fmt;

/// The concern of an informational advisory: one about a package without a vulnerability to fix.
#[derive(PartialEq, Eq, PartialOrd, Ord, Hash, Debug, Drop)]
pub enum Informational {
    /// A notice.
    Notice,
    /// Nobody maintains the package.
    Unmaintained,
    /// The package is not sound.
    Unsound,
    /// Any other kind, by its text.
    Other(Text),
}

impl Informational {
    /// Parses an informational kind. Every text is one.
    ///
    /// # Errors
    ///
    /// `OutOfMemory` alone.
    pub fn from_str(alloc: Global, text: &str) -> Result<Informational>
        ensures ok { IfOk result (λ k. k ≡ informational_of text.now) }
        ensures err { IfErr result IsMemory }

        // A text that names one of the other variants takes no memory.
        ensures other { IfErr result (λ e. from_name informational_name informational_kinds text.now ≡ None) }
        ensures printed { IfOk result (λ k. informational_name k ≡ text.now) }
        ensures read_again { IfOk result (λ k. informational_of (informational_name k) ≡ k) }
    {
        match text {
            "notice" => Ok(Informational::Notice),
            "unmaintained" => Ok(Informational::Unmaintained),
            "unsound" => Ok(Informational::Unsound),
            other => {
                let kind = Text::from_str(alloc, other)?;
                Ok(Informational::Other(kind))
            }
        }
    }

    /// Returns the text of the kind, as `from_str` reads it.
    pub fn as_str(&self) -> &str
        ensures value { result.now ≡ informational_name self.now }
        ensures read { (informational_of result.now ≡ self.now) ⊎ ((text : List ℕ) × (self.now ≡ Informational.Other text)) }
    {
        match self {
            Informational::Notice => "notice",
            Informational::Unmaintained => "unmaintained",
            Informational::Unsound => "unsound",
            Informational::Other(kind) => kind.as_str(),
        }
    }

    /// Returns whether it is a notice.
    pub fn is_notice(&self) -> bool
        ensures { IsTrue result ↔ (self.now ≡ Informational.Notice) }
    {
        *self == Informational::Notice
    }

    /// Returns whether nobody maintains the package.
    pub fn is_unmaintained(&self) -> bool
        ensures { IsTrue result ↔ (self.now ≡ Informational.Unmaintained) }
    {
        *self == Informational::Unmaintained
    }

    /// Returns whether the package is not sound.
    pub fn is_unsound(&self) -> bool
        ensures { IsTrue result ↔ (self.now ≡ Informational.Unsound) }
    {
        *self == Informational::Unsound
    }

    /// Returns whether it is `Other`, a kind by its text.
    pub fn is_other(&self) -> bool
        ensures { result ≡ is_other_kind self.now }
    {
        matches!(self, Informational::Other(_))
    }

    /// Returns the kind of the warnings that it gives; none for `Other`.
    pub fn warning_kind(&self) -> Option<WarningKind>
        ensures { result ≡ kind_of_warnings self.now }
    {
        match self {
            Informational::Notice => Some(WarningKind::Notice),
            Informational::Unmaintained => Some(WarningKind::Unmaintained),
            Informational::Unsound => Some(WarningKind::Unsound),
            Informational::Other(_) => None,
        }
    }

    /// Returns an equal kind.
    ///
    /// # Errors
    ///
    /// `OutOfMemory` alone.
    pub fn clone(&self, _alloc: Global) -> Result<Informational>
        ensures ok { IfOk result (λ k. k ≡ self.now) }
        ensures err { IfErr result IsMemory }

        // A kind with a variant of its own takes no memory.
        ensures none { OnErr result ((kind : List ℕ) × (self.now ≡ informational.Other kind)) }
    {
        let copy = Clone::clone(self)?;
        Ok(copy)
    }
}

impl FromText for Informational {
    ghost use Rattle.std.specs.Prelude.{Some};
    ghost use Rattle.rustsec_texts.specs.Informational.{informational_of};

    ghost reads = { λ text. Some (informational_of text) };

    // A text that names one of the other variants takes no memory.
    fn from_text(alloc: Global, text: &str) -> Result<Informational>
        ensures ok { IfOk result (λ x. Some (informational_of text.now) ≡ Some x) }
        ensures err { IfErr result IsMemory }
        ensures other { IfErr result (λ e. from_name informational_name informational_kinds text.now ≡ None) }
    {
        Informational::from_str(alloc, text)
    }
}

impl Clone for Informational {
    ghost is_clone = { λ a b. b ≡ a };

    // A kind with a variant of its own takes no memory.
    fn clone(&self) -> std::result::Result<Informational, AllocError>
        ensures ok { IfOk result (λ k. k ≡ self.now) }
        ensures none { OnErr result ((kind : List ℕ) × (self.now ≡ informational.Other kind)) }
    {
        match self {
            Informational::Notice => Ok(Informational::Notice),
            Informational::Unmaintained => Ok(Informational::Unmaintained),
            Informational::Unsound => Ok(Informational::Unsound),
            Informational::Other(kind) => {
                let kind = Clone::clone(kind)?;
                Ok(Informational::Other(kind))
            }
        }
    }
}

impl ExactClone for Informational {
    ghost exact = { λ x y e. e };
}

impl ExactEq for Informational {
    ghost use Rattle.std.proofs.Common.{rules};
    ghost use Rattle.std.specs.Cmp.Lexicographic.{bytes_decides};

    ghost decides = { λ x y. Prim.search (rules, bytes_decides) };
}

impl fmt::Display for Informational {
    ghost use Rattle.std.specs.Prelude.{Some};
    ghost use Rattle.rustsec_texts.specs.Informational.{informational_name};

    ghost output = { λ k. Some (informational_name k) };

    fn fmt<W: fmt::Write>(&self, f: &mut fmt::Formatter<W>) -> fmt::Result {
        f.write_str(self.as_str())
    }
}

impl StatedOrder for Informational {
    ghost use Rattle.std.specs.Cmp.Rules.{comparing};
    ghost use Rattle.std.proofs.Common.{rules};

    ghost order = { informational_cmp };

    ghost agrees = { λ x y. Prim.search (comparing, rules) };
}
