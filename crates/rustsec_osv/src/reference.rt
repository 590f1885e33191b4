//! References of a document (OSV schema, `references`).

ghost use Rattle.std.proofs.Common.{rules};
ghost use Rattle.std.specs.Prelude.{◌≡◌, IfErr, IfOk, None, Some};
ghost use Rattle.rustsec_osv.specs.DocumentKinds.{reference_kind_name, reference_kind_of};
ghost use Rattle.rustsec_values.specs.Failure.{IsMemory, IsRefusal};

use rustsec_texts::Address;
use rustsec_values::{ClosedEnum, ErrorKind, ExactClone, ExactEq, Result, from_name, text_error};
use std::alloc::Global;

/// The kind of the page that a reference leads to.
#[derive(Clone, Copy, PartialEq, Eq, Debug)]
pub enum OsvReferenceKind {
    /// An advisory.
    ADVISORY,
    /// An article.
    ARTICLE,
    /// A report of the vulnerability.
    REPORT,
    /// A change that fixes the vulnerability.
    FIX,
    /// The page of the package.
    PACKAGE,
    /// Any page.
    WEB,
}

impl OsvReferenceKind {
    /// Returns the word of the kind.
    pub fn as_str(&self) -> &'static str
        ensures { result.now ≡ reference_kind_name self.now }
    {
        match self {
            OsvReferenceKind::ADVISORY => "ADVISORY",
            OsvReferenceKind::ARTICLE => "ARTICLE",
            OsvReferenceKind::REPORT => "REPORT",
            OsvReferenceKind::FIX => "FIX",
            OsvReferenceKind::PACKAGE => "PACKAGE",
            OsvReferenceKind::WEB => "WEB",
        }
    }

    /// Parses the word of a kind.
    ///
    /// # Errors
    ///
    /// `Parse` if no kind has the word; `OutOfMemory` instead if there is no memory for the message.
    pub fn from_str(alloc: Global, text: &str) -> Result<OsvReferenceKind>
        ensures ok { IfOk result (λ k. reference_kind_of text.now ≡ Some k) }
        ensures err { IfErr result (IsRefusal ErrorKind.Parse (reference_kind_of text.now ≡ None)) }

        // Success takes no memory, so any error means that the text is not one of the words.
        ensures none { IfErr result (λ e. reference_kind_of text.now ≡ None) }
    {
        match from_name(text) {
            Some(value) => Ok(value),
            None => Err(text_error(
                alloc,
                "no kind of references has the name",
                text,
                "`ADVISORY`, `ARTICLE`, `REPORT`, `FIX`, `PACKAGE` or `WEB`",
            )),
        }
    }
}

impl ClosedEnum for OsvReferenceKind {
    ghost use Rattle.rustsec_osv.specs.DocumentKinds.{reference_kind_name, reference_kinds};

    ghost name_of = { reference_kind_name };

    ghost values = { reference_kinds };

    fn all() -> &'static [OsvReferenceKind] {
        &[
            OsvReferenceKind::ADVISORY,
            OsvReferenceKind::ARTICLE,
            OsvReferenceKind::REPORT,
            OsvReferenceKind::FIX,
            OsvReferenceKind::PACKAGE,
            OsvReferenceKind::WEB,
        ]
    }

    fn name(&self) -> &'static str {
        self.as_str()
    }
}

impl ExactClone for OsvReferenceKind {
    ghost exact = { λ x y e. e };
}

impl ExactEq for OsvReferenceKind {
    ghost use denote.Enum.Bare.{same_true, true_same};
    ghost use Rattle.rustsec_osv.specs.contracts.reference.OsvReferenceKind.{the_type};

    ghost decides = { λ x y. (same_true the_type tt x y, true_same the_type x y) };
}

/// A reference.
#[derive(Clone, Debug)]
pub struct OsvReference {
    /// The kind of its page; the key is `type`.
    pub kind: OsvReferenceKind,
    /// Its address.
    pub url: Address,
}

/// Hand-written: a derived `Drop` is proved again, field by field, at every exit of every owner.
impl Drop for OsvReference {
    fn drop(self) {
        let OsvReference { kind: _, url: _ } = self;
    }
}

impl OsvReference {
    /// Returns an equal reference.
    ///
    /// # Errors
    ///
    /// `OutOfMemory` alone.
    pub fn clone(&self, _alloc: Global) -> Result<OsvReference>
        ensures ok { IfOk result (λ x. x ≡ self.now) }
        ensures err { IfErr result IsMemory }
    {
        Ok(Clone::clone(self)?)
    }
}

impl ExactClone for OsvReference {
    ghost exact = { λ x y e. Prim.search rules };
}
