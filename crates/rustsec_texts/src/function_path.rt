//! The paths of functions.

ghost use Rattle.std.specs.Prelude.{◌≡◌, ◌∷◌, ◌<◌, ◌^◌, [], IfErr, IfOk, List, ℕ, None, Some, false, length, refl, true};
ghost use Rattle.std.specs.Cmp.{partial_equiv_from_equiv, po};
ghost use Rattle.std.specs.Cmp.Lexicographic.{bytes_decides, pointwise_decides};
ghost use Rattle.std.specs.Hash as fed;
ghost use Rattle.std.specs.Iterator.Adapters.{IterYieldsInOrder};
ghost use Rattle.std.specs.List.{list_all};
ghost use Rattle.std.specs.Slice.Iter.{iter_rest};
ghost use Rattle.rustsec_values.specs.Failure.{IsMemory, IsRefusal};
ghost use Rattle.rustsec_texts.specs.Paths.{IsPathOf, between_colons, is_identifier, is_path, path_eq, path_equiv, path_of, path_order, path_text, path_ties, path_total};

use crate::identifier::Identifier;
use rustsec_values::{ErrorKind, ExactClone, ExactEq, FromText, Items, Result, text_error};
use std::alloc::Global;
use std::cmp::Ordering;
use std::hash::{Hash, Hasher};
use std::marker::Model;
use std::{fmt, slice};

/// The path of a function or a type: the crate's name and one or more further identifiers, joined by `::`.
#[derive(Clone, Debug, Drop)]
pub struct FunctionPath {
    segments: Items<Identifier>,
}

impl Model for FunctionPath {
    ghost use Rattle.std.specs.Prelude.{◌≡◌, ℕ, List, true};
    ghost use Rattle.rustsec_texts.specs.Paths.{is_path};

    ghost Value = { List (List ℕ) };

    ghost view = { λ p. p.segments };

    ghost invariant = { λ p. is_path p.segments ≡ true };
}

/// Splits a text at each `::` into identifiers.
fn segments_of(alloc: Global, text: &str) -> Result<Items<Identifier>>
    ensures ok { IfOk result (λ ids. ids ≡ between_colons text.now) }
    ensures each { IfOk result (λ ids. list_all is_identifier ids ≡ true) }
    ensures err { IfErr result (IsRefusal ErrorKind.Parse (list_all is_identifier (between_colons text.now) ≡ false)) }
{
    let mut segments = Items::new(alloc);
    let mut rest = text;
    while let Some((segment, after)) = rest.split_once("::") {
        segments.push(Identifier::from_str(alloc, segment)?)?;
        rest = after;
    }
    segments.push(Identifier::from_str(alloc, rest)?)?;
    Ok(segments)
}

impl FunctionPath {
    /// Parses a path.
    ///
    /// # Errors
    ///
    /// `Parse` if the text is not two or more identifiers joined by `::`; else `OutOfMemory`.
    pub fn from_str(alloc: Global, text: &str) -> Result<FunctionPath>
        ensures ok { IfOk result (λ p. path_of text.now ≡ Some p) }
        ensures err { IfErr result (IsRefusal ErrorKind.Parse (path_of text.now ≡ None)) }

        // The identifiers joined by `::` are the text, so no other text gives the same path.
        ensures joined { IfOk result (λ p. IsPathOf text.now p) }

        // The text is not made of identifiers joined by `::`.
        ensures none { IfErr result (IsRefusal ErrorKind.Parse ((ids : List (List ℕ)) → IsPathOf text.now ids → ⊥)) }
    {
        let segments = segments_of(alloc, text)?;
        if segments.len() < 2 {
            return Err(text_error(
                alloc,
                "malformed function path",
                text,
                "two or more identifiers joined by `::`",
            ));
        }
        Ok(FunctionPath { segments })
    }

    /// Returns the first identifier, the crate's name.
    pub fn crate_name(&self) -> &str
        ensures { (rest : List (List ℕ)) × (self.now ≡ result.now ∷ rest) }
    {
        match self.segments() {
            [name, ..] => name.as_str(),
            [] => unreachable!(),
        }
    }

    /// Returns the identifiers, without a copy.
    pub fn into_vec(self) -> Vec<Identifier>
        ensures { result.items ≡ self }
    {
        let FunctionPath { segments } = self;
        Vec::from(segments)
    }

    /// Returns an iterator over the identifiers, in order.
    pub fn iter(&self) -> slice::Iter<'_, Identifier>
        ensures rest { iter_rest result ≡ self.now }
        ensures bound { length (iter_rest result) < 2 ^ 64 }
        ensures runs { IterYieldsInOrder Identifier }
    {
        self.segments().iter()
    }

    /// Returns the identifiers.
    pub fn segments(&self) -> &[Identifier]
        ensures value { result.now ≡ self.now }
        ensures path { is_path self.now ≡ true }

        // Parsing what is printed gives the same path.
        ensures read_again { path_of (path_text self.now) ≡ Some self.now }
    {
        self.segments.as_slice()
    }

    /// Returns an equal path.
    ///
    /// # Errors
    ///
    /// `OutOfMemory` alone.
    pub fn clone(&self, _alloc: Global) -> Result<FunctionPath>
        ensures ok { IfOk result (λ p. p ≡ self.now) }
        ensures err { IfErr result IsMemory }
    {
        let copy = Clone::clone(self)?;
        Ok(copy)
    }
}

impl FromText for FunctionPath {
    ghost use Rattle.rustsec_texts.specs.Paths.{path_of};

    ghost reads = { path_of };

    fn from_text(alloc: Global, text: &str) -> Result<FunctionPath> {
        FunctionPath::from_str(alloc, text)
    }
}

impl ExactClone for FunctionPath {
    ghost use Rattle.std.proofs.Common.{rules};

    ghost exact = { λ x y e. Prim.search rules };
}

impl PartialEq for FunctionPath {
    ghost eq = { path_eq };

    ghost laws = { partial_equiv_from_equiv path_equiv };

    fn eq(&self, other: &FunctionPath) -> bool {
        self.segments == other.segments
    }
}

impl Eq for FunctionPath {
    ghost laws = { path_equiv };
}

impl ExactEq for FunctionPath {
    ghost decides = { pointwise_decides bytes_decides };
}

impl PartialOrd for FunctionPath {
    ghost partial_cmp = { λ a b. Some (path_order a b) };

    ghost laws = { po path_total path_ties };

    fn partial_cmp(&self, other: &FunctionPath) -> Option<Ordering> {
        Some(self.cmp(other))
    }
}

impl Ord for FunctionPath {
    ghost cmp = { path_order };

    ghost total = { path_total };

    ghost matches_partial_cmp = { λ a b. refl };

    ghost matches_eq = { path_ties };

    /// Compares paths identifier by identifier; a path is below its longer continuations.
    fn cmp(&self, other: &FunctionPath) -> Ordering {
        self.segments.cmp(&other.segments)
    }
}

impl Hash for FunctionPath {
    ghost use Rattle.std.proofs.Common.{ap};

    ghost hash_input = { λ p. fed.slice fed.str p };

    ghost respects_eq = { λ x y h. ap (fed.slice fed.str) ((pointwise_decides bytes_decides x y).0 h) };

    fn hash<H: Hasher>(&self, state: &mut H) {
        self.segments.hash(state);
    }
}

impl fmt::Display for FunctionPath {
    ghost output = { λ p. Some (path_text p) };

    fn fmt<W: fmt::Write>(&self, f: &mut fmt::Formatter<W>) -> fmt::Result {
        if let [name, rest @ ..] = self.segments() {
            f.write_str(name.as_str())?;
            for segment in rest {
                f.write_str("::")?;
                f.write_str(segment.as_str())?;
            }
        }
        Ok(())
    }
}
