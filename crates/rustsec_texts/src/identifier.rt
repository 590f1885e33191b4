//! The identifiers of function paths.

ghost use Rattle.std.specs.Prelude.{◌≡◌, IfErr, IfOk, None, Some};
ghost use Rattle.std.specs.List.{list_all};
ghost use Rattle.rustsec_values.specs.Failure.{IsMemory, IsRefusal};
ghost use Rattle.rustsec_texts.specs.Paths.{identifier_of, is_first, is_identifier, is_later};

use rustsec_values::{
    ErrorKind, ExactClone, ExactEq, FromText, Result, StatedOrder, Text, text_error,
};
use std::alloc::Global;
use std::convert::AsStr;
use std::fmt;
use std::marker::Model;

/// An identifier of a function path: a letter, `_` or `<`, and then letters, digits, `_`, `<`, `>` or `,`,
/// all of ASCII.
#[derive(Clone, PartialEq, Eq, PartialOrd, Ord, Hash, Debug, Drop)]
pub struct Identifier {
    text: Text,
}

impl Model for Identifier {
    ghost use Rattle.std.specs.Prelude.{◌≡◌, ℕ, List, true};
    ghost use Rattle.rustsec_texts.specs.Paths.{is_identifier};

    ghost Value = { List ℕ };

    ghost view = { λ i. i.text };

    ghost invariant = { λ i. is_identifier i.text ≡ true };

    ghost inverse = { λ t. record { text = t } };
}

/// Returns whether an identifier may begin with this character.
fn is_first(b: u8) -> bool
    ensures { result ≡ is_first b }
{
    b.is_ascii_alphabetic() || b == b'_' || b == b'<'
}

/// Returns whether an identifier may have this character after its first one.
fn is_later(b: u8) -> bool
    ensures { result ≡ is_later b }
{
    is_first(b) || b.is_ascii_digit() || b == b'>' || b == b','
}

/// Returns whether an identifier may have each character after its first one.
fn are_later(bytes: &[u8]) -> bool
    ensures { result ≡ list_all is_later bytes.now }
{
    bytes.iter().all(|b| is_later(*b))
}

/// Returns whether a text is an identifier. A character that is not ASCII is refused by its first byte.
fn is_identifier(text: &str) -> bool
    ensures { result ≡ is_identifier text.now }
{
    match text.as_bytes() {
        [first, later @ ..] => is_first(*first) && are_later(later),
        [] => false,
    }
}

impl Identifier {
    /// Parses an identifier.
    ///
    /// # Errors
    ///
    /// `Parse` if the text is not an identifier; else `OutOfMemory`.
    pub fn from_str(alloc: Global, text: &str) -> Result<Identifier>
        ensures ok { IfOk result (λ i. identifier_of text.now ≡ Some i) }
        ensures text { IfOk result (λ i. i ≡ text.now) }
        ensures err { IfErr result (IsRefusal ErrorKind.Parse (identifier_of text.now ≡ None)) }
    {
        if !is_identifier(text) {
            return Err(text_error(
                alloc,
                "malformed identifier",
                text,
                "a letter, `_` or `<`, then letters, digits, `_`, `<`, `>` or `,`",
            ));
        }
        let text = Text::from_str(alloc, text)?;
        Ok(Identifier { text })
    }

    /// Returns the text.
    pub fn as_str(&self) -> &str
        ensures value { result.now ≡ self.now }

        // Parsing the text gives the same identifier.
        ensures read_again { identifier_of self.now ≡ Some self.now }
    {
        self.text.as_str()
    }

    /// Returns an equal identifier.
    ///
    /// # Errors
    ///
    /// `OutOfMemory` alone.
    pub fn clone(&self, _alloc: Global) -> Result<Identifier>
        ensures ok { IfOk result (λ i. i ≡ self.now) }
        ensures err { IfErr result IsMemory }
    {
        let copy = Clone::clone(self)?;
        Ok(copy)
    }
}

impl FromText for Identifier {
    ghost use Rattle.rustsec_texts.specs.Paths.{identifier_of};

    ghost reads = { identifier_of };

    fn from_text(alloc: Global, text: &str) -> Result<Identifier> {
        Identifier::from_str(alloc, text)
    }
}

impl ExactClone for Identifier {
    ghost use Rattle.std.proofs.Common.{rules};

    ghost exact = { λ x y e. Prim.search rules };
}

impl ExactEq for Identifier {
    ghost use Rattle.std.specs.Cmp.Lexicographic.{bytes_decides};

    ghost decides = { bytes_decides };
}

impl StatedOrder for Identifier {
    ghost use Rattle.std.specs.Cmp.Lexicographic.{slice_cmp};
    ghost use Rattle.std.specs.Cmp.Rules.{comparing};
    ghost use Rattle.std.specs.Ordering.{nat_cmp};
    ghost use Rattle.std.proofs.Common.{rules};

    ghost order = { slice_cmp nat_cmp };

    ghost agrees = { λ x y. Prim.search (comparing, rules) };
}

impl fmt::Display for Identifier {
    ghost output = { λ i. Some i };

    fn fmt<W: fmt::Write>(&self, f: &mut fmt::Formatter<W>) -> fmt::Result {
        f.write_str(self.as_str())
    }
}

impl AsStr for Identifier {
    ghost text = { λ i. i };

    fn as_str(&self) -> &str {
        Identifier::as_str(self)
    }
}
