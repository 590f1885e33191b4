//! The IDs of advisories.

ghost use Rattle.std.specs.Prelude.{◌≡◌, ◌≢◌, IfErr, IfOk, None, OnErr, Some, option_map, refl, string_bytes};
ghost use Rattle.std.specs.Cmp.{partial_equiv_from_equiv, po};
ghost use Rattle.std.specs.Hash as fed;
ghost use Rattle.rustsec_values.specs.Failure.{IsMemory, IsOfKind, IsRefusal};
ghost use Rattle.rustsec_texts.specs.IdOrder.{id_decides, id_eq, id_equiv, id_fed, id_order, id_ties, id_total, kind_eq};
ghost use Rattle.rustsec_texts.specs.Ids.{IdValue, id_of, id_with, id_year, is_placeholder, numerical_part, page_of, page_of_kind, placeholder};
ghost use Rattle.rustsec_texts.specs.declared.id_kind.IdKind.TheVariants as variant;

use crate::id_kind::IdKind;
use crate::numbers::{number, three_parts};
use rustsec_values::{Error, ErrorKind, ExactClone, ExactEq, FromText, Result, Text, text_error};
use std::alloc::Global;
use std::cmp::Ordering;
use std::convert::AsStr;
use std::fmt;
use std::hash::{Hash, Hasher};
use std::marker::Model;

/// The ID of an advisory: `RUSTSEC-YEAR-NUMBER`, `CVE-YEAR-NUMBER`, `TALOS-YEAR-NUMBER`, or any other text, which is
/// kept unchanged. Two IDs are equal exactly if their texts are.
#[derive(Clone, Debug, Drop)]
pub struct Id {
    kind: IdKind,
    year: Option<u32>,
    text: Text,
}

impl Model for Id {
    ghost use Rattle.std.specs.Prelude.{◌≡◌, Some};
    ghost use Rattle.rustsec_texts.specs.Ids.{IdValue, id_of};

    ghost Value = { IdValue };

    ghost view = { λ i. record { kind = i.kind; year = i.year; text = i.text } };

    ghost invariant = { λ i. id_of i.text ≡ Some (record { kind = i.kind; year = i.year; text = i.text }) };
}

/// Returns the year in the text of an ID, if any.
fn year_of(text: &str) -> Option<u32>
    ensures { result ≡ id_year text.now }
{
    let (_, year, last) = three_parts(text)?;
    let year = number(year)?;
    let _number = number(last)?;
    if !(2000..=2100).contains(&year) {
        return None;
    }
    Some(year)
}

/// Returns the address under which the IDs of a kind have their pages, if any.
fn page_of_kind(kind: IdKind) -> Option<&'static str>
    ensures { option_map (λ t. t.now) result ≡ page_of_kind kind }
{
    match kind {
        IdKind::RustSec => Some("https://rustsec.org/advisories/"),
        IdKind::Cve => Some("https://cve.mitre.org/cgi-bin/cvename.cgi?name="),
        IdKind::Ghsa => Some("https://github.com/advisories/"),
        IdKind::Talos => Some("https://www.talosintelligence.com/reports/"),
        IdKind::Other => None,
    }
}

/// Returns the error for a text that is not an ID.
fn malformed_error(alloc: Global, text: &str) -> Error
    ensures { IsOfKind ErrorKind.Parse result }
{
    text_error(
        alloc,
        "malformed advisory ID",
        text,
        "three parts at `-`: a prefix, a year from 2000 to 2100 and a number",
    )
}

impl Id {
    /// The text of the placeholder: the ID of an advisory that has none yet.
    pub const PLACEHOLDER: &'static str = "RUSTSEC-0000-0000";

    /// Parses an ID.
    ///
    /// # Errors
    ///
    /// `Parse` if the text has the prefix `RUSTSEC-`, `CVE-` or `TALOS-`, is not the placeholder, and
    /// is not three parts at `-` with a year from 2000 to 2100 and a number; else `OutOfMemory`.
    pub fn from_str(alloc: Global, text: &str) -> Result<Id>
        ensures ok { IfOk result (λ i. id_of text.now ≡ Some i) }
        ensures text { IfOk result (λ i. i.text ≡ text.now) }
        ensures err { IfErr result (IsRefusal ErrorKind.Parse (id_of text.now ≡ None)) }
    {
        if text == Id::PLACEHOLDER {
            return Id::default(alloc);
        }
        let kind = IdKind::detect(text);
        let year = match kind {
            IdKind::RustSec | IdKind::Cve | IdKind::Talos => match year_of(text) {
                Some(year) => Some(year),
                None => return Err(malformed_error(alloc, text)),
            },
            IdKind::Ghsa | IdKind::Other => None,
        };
        let text = Text::from_str(alloc, text)?;
        Ok(Id { kind, year, text })
    }

    /// Returns the placeholder, an ID of RustSec without year, number or page.
    ///
    /// # Errors
    ///
    /// `OutOfMemory` alone.
    pub fn default(alloc: Global) -> Result<Id>
        ensures ok { IfOk result (λ i. i ≡ id_with placeholder None) }
        ensures read { IfOk result (λ i. id_of placeholder ≡ Some i) }
        ensures err { IfErr result IsMemory }
    {
        let text = Text::from_str(alloc, Id::PLACEHOLDER)?;
        Ok(Id {
            kind: IdKind::RustSec,
            year: None,
            text,
        })
    }

    /// Returns the text.
    pub fn as_str(&self) -> &str
        ensures value { result.now ≡ self.now.text }

        // Parsing the text gives the same ID.
        ensures read_again { id_of self.now.text ≡ Some self.now }

        // Every ID with the same text is this one.
        ensures alone { (other : IdValue) → id_of other.text ≡ Some other → other.text ≡ self.now.text → other ≡ self.now }
    {
        self.text.as_str()
    }

    /// Returns the kind.
    pub fn kind(&self) -> IdKind
        ensures { result ≡ self.now.kind }
    {
        self.kind
    }

    /// Returns whether this is the placeholder.
    pub fn is_placeholder(&self) -> bool
        ensures { result ≡ is_placeholder self.now.text }
    {
        self.as_str() == Id::PLACEHOLDER
    }

    /// Returns whether this is an ID of RustSec.
    pub fn is_rustsec(&self) -> bool
        ensures { result ≡ kind_eq self.now.kind variant.RustSec }
    {
        self.kind == IdKind::RustSec
    }

    /// Returns whether this is a CVE.
    pub fn is_cve(&self) -> bool
        ensures { result ≡ kind_eq self.now.kind variant.Cve }
    {
        self.kind == IdKind::Cve
    }

    /// Returns whether this is an ID of GitHub.
    pub fn is_ghsa(&self) -> bool
        ensures { result ≡ kind_eq self.now.kind variant.Ghsa }
    {
        self.kind == IdKind::Ghsa
    }

    /// Returns whether this is an ID of Talos.
    pub fn is_talos(&self) -> bool
        ensures { result ≡ kind_eq self.now.kind variant.Talos }
    {
        self.kind == IdKind::Talos
    }

    /// Returns whether this is an ID of any other kind.
    pub fn is_other(&self) -> bool
        ensures { result ≡ kind_eq self.now.kind variant.Other }
    {
        self.kind == IdKind::Other
    }

    /// Returns the year, if the ID names one.
    pub fn year(&self) -> Option<u32>
        ensures { result ≡ self.now.year }
    {
        self.year
    }

    /// Returns the number at the end: the last part at `-`, if it is a number and the ID is not the placeholder.
    pub fn numerical_part(&self) -> Option<u32>
        ensures { result ≡ numerical_part self.now.text }
    {
        if self.is_placeholder() {
            return None;
        }
        match self.as_str().rsplit_once('-') {
            Some((_, last)) => number(last),
            None => number(self.as_str()),
        }
    }

    /// Returns the address of the ID's page, if its kind has pages and it is not the placeholder.
    ///
    /// # Errors
    ///
    /// `OutOfMemory` alone.
    pub fn url(&self, alloc: Global) -> Result<Option<String>>
        ensures ok { IfOk result (λ url. option_map string_bytes url ≡ page_of self.now) }
        ensures err { IfErr result IsMemory }

        // The answer that there is no page takes no memory.
        ensures refused { OnErr result (page_of self.now ≢ None) }
    {
        if self.is_placeholder() {
            return Ok(None);
        }
        match page_of_kind(self.kind) {
            Some(page) => {
                let text = self.as_str();
                let url = format!(in alloc; "{page}{text}")?;
                Ok(Some(url))
            }
            None => Ok(None),
        }
    }

    /// Returns an equal ID.
    ///
    /// # Errors
    ///
    /// `OutOfMemory` alone.
    pub fn clone(&self, _alloc: Global) -> Result<Id>
        ensures ok { IfOk result (λ i. i ≡ self.now) }
        ensures err { IfErr result IsMemory }
    {
        let copy = Clone::clone(self)?;
        Ok(copy)
    }
}

impl FromText for Id {
    ghost use Rattle.rustsec_texts.specs.Ids.{id_of};

    ghost reads = { id_of };

    fn from_text(alloc: Global, text: &str) -> Result<Id> {
        Id::from_str(alloc, text)
    }
}

impl ExactClone for Id {
    ghost use Rattle.std.proofs.Common.{rules};

    ghost exact = { λ x y e. Prim.search rules };
}

impl PartialEq for Id {
    ghost eq = { id_eq };

    ghost laws = { partial_equiv_from_equiv id_equiv };

    fn eq(&self, other: &Id) -> bool {
        self.kind == other.kind && self.year == other.year && self.text == other.text
    }
}

impl Eq for Id {
    ghost laws = { id_equiv };
}

impl ExactEq for Id {
    ghost decides = { id_decides };
}

impl PartialOrd for Id {
    ghost partial_cmp = { λ a b. Some (id_order a b) };

    ghost laws = { po id_total id_ties };

    fn partial_cmp(&self, other: &Id) -> Option<Ordering> {
        Some(self.cmp(other))
    }
}

impl Ord for Id {
    ghost cmp = { id_order };

    ghost total = { id_total };

    ghost matches_partial_cmp = { λ a b. refl };

    ghost matches_eq = { id_ties };

    /// Compares IDs by kind, then by year, a missing year first, then by text.
    fn cmp(&self, other: &Id) -> Ordering {
        self.kind
            .cmp(&other.kind)
            .then(self.year.cmp(&other.year))
            .then(self.text.cmp(&other.text))
    }
}

impl Hash for Id {
    ghost hash_input = { λ i. fed.str i.text };

    ghost respects_eq = { id_fed };

    fn hash<H: Hasher>(&self, state: &mut H) {
        self.text.hash(state);
    }
}

impl fmt::Display for Id {
    ghost output = { λ i. Some i.text };

    fn fmt<W: fmt::Write>(&self, f: &mut fmt::Formatter<W>) -> fmt::Result {
        f.write_str(self.as_str())
    }
}

impl AsStr for Id {
    ghost text = { λ i. i.text };

    fn as_str(&self) -> &str {
        Id::as_str(self)
    }
}
