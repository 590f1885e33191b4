//! Remarks on one file of a database.

ghost use Rattle.std.specs.Prelude.{◌≡◌, ◌++◌, ◌∷◌, [], IfOk, OnOk, string_bytes};
ghost use Rattle.rustsec_lint_database.specs.Remarks.{is_fault, kind_name, remark};

use rustsec_values::{ExactClone, ExactEq, Items, Text};
use std::alloc::{AllocError, Global};

/// The kind of a remark.
#[derive(Clone, Copy, PartialEq, Eq, Debug)]
pub enum RemarkKind {
    /// The file cannot be read, or its text is not an advisory.
    Refused,
    /// A lint error.
    Lint,
    /// The file is not where its advisory belongs.
    Misplaced,
    /// The Rust crate refuses the advisory.
    Upstream,
}

impl RemarkKind {
    /// Returns the name in JSON.
    pub fn name(self) -> &'static str
        ensures { result.now ≡ kind_name self }
    {
        match self {
            RemarkKind::Refused => "refused",
            RemarkKind::Lint => "lint",
            RemarkKind::Misplaced => "misplaced",
            RemarkKind::Upstream => "upstream",
        }
    }

    /// Returns whether a remark of this kind is a fault. What the Rust crate refuses is a fault only if `upstream` is
    /// set.
    pub fn is_fault(self, upstream: bool) -> bool
        ensures { result ≡ is_fault upstream self }
    {
        match self {
            RemarkKind::Refused | RemarkKind::Lint | RemarkKind::Misplaced => true,
            RemarkKind::Upstream => upstream,
        }
    }
}

/// A file with its remarks.
#[derive(Debug, Drop)]
pub struct Remark {
    /// Its kind.
    pub kind: RemarkKind,
    /// Its words.
    pub text: Text,
}

/// Appends a remark of a kind with these words.
pub(crate) fn push_remark(
    remarks: &mut Items<Remark>,
    kind: RemarkKind,
    text: String,
) -> Result<(), AllocError>
    ensures { OnOk result (remarks.new ≡ remarks.old ++ remark kind (string_bytes text) ∷ []) }
{
    let text = Text::from(text);
    remarks.push(Remark { kind, text })
}
