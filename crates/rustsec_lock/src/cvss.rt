//! CVSS vectors: CVSS 3.1, section 6, and version 4 as a text.

ghost use Rattle.std.specs.Prelude.{◌≡◌, ◌==◌, ℕ, List, OnErr, Some, None, IfErr, IfOk, IfSome, length, map, option_map};
ghost use Rattle.std.specs.Fmt.{DisplaysOnOk};
ghost use Rattle.rustsec_values.specs.Failure.{IsMemory, IsRefusal};
ghost use Rattle.rustsec_lock.specs.declared.cvss.Cvss.TheVariants as cvss;
ghost use Rattle.rustsec_lock.specs.Cvss.{base_of, base_text, after_prefix, cvss_of, cvss_severity, cvss_text, metric_letter, parse_metric, metrics_of, parts_of};

use crate::metrics::Base;
use crate::severity::Severity;
use rustsec_values::{
    ClosedEnum, ErrorKind, ExactClone, ExactEq, FromText, Result, Text, from_name, text_error,
};
use std::alloc::{AllocError, Global};
use std::fmt;

/// A CVSS vector. After parsing, `CvssV30` has the minor version 0 and `CvssV31` has 1.
#[derive(Debug, PartialEq, Eq, Drop)]
pub enum Cvss {
    /// A vector of version 3.0.
    CvssV30(Base),
    /// A vector of version 3.1.
    CvssV31(Base),
    /// A text that begins with `CVSS:4.0/`; it is neither checked nor rated.
    CvssV40(Text),
}

/// Returns the text after a prefix, if it begins with the prefix.
fn after_prefix<'a>(beginning: &str, text: &'a str) -> Option<&'a str>
    ensures { option_map (λ t. t.now) result ≡ after_prefix beginning.now text.now }
{
    text.strip_prefix(beginning)
}

/// Returns the text after a metric's name in the only part that begins with it.
fn metric_letter<'a>(name: &str, parts: &[&'a str]) -> Option<&'a str>
    ensures { option_map (λ t. t.now) result ≡ metric_letter name.now (map (λ p. p.now) parts.now) }
{
    let mut found = None;
    for part in parts {
        if let Some(value) = after_prefix(name, part) {
            if found.is_some() {
                return None;
            }
            found = Some(value);
        }
    }
    found
}

/// Returns the value whose letter follows a metric's name in the only part that begins with it.
fn parse_metric<T: ClosedEnum>(name: &str, parts: &[&str]) -> Option<T>
    ensures { result ≡ parse_metric T.name_of T.values name.now (map (λ p. p.now) parts.now) }
{
    from_name(metric_letter(name, parts)?)
}

/// Returns the metrics of the parts of a vector.
fn metrics(minor_version: usize, parts: &[&str]) -> Option<Base>
    ensures value { result ≡ metrics_of minor_version (map (λ p. p.now) parts.now) }
    ensures minor { IfSome result (λ b. b.minor_version ≡ minor_version) }
{
    Some(Base {
        minor_version,
        av: parse_metric("AV:", parts)?,
        ac: parse_metric("AC:", parts)?,
        pr: parse_metric("PR:", parts)?,
        ui: parse_metric("UI:", parts)?,
        s: parse_metric("S:", parts)?,
        c: parse_metric("C:", parts)?,
        i: parse_metric("I:", parts)?,
        a: parse_metric("A:", parts)?,
    })
}

/// Returns whether a text has a part for each of the eight base metrics, and no other part. It reads nine parts at most.
fn has_eight_parts(text: &str) -> bool
    ensures { result ≡ (length (parts_of text.now) == 8) }
{
    text.split('/').take(9).count() == 8
}

/// Parses the text after a vector's version: eight parts between slashes.
fn base(alloc: Global, minor_version: usize, text: &str) -> Result<Base>
    ensures ok { IfOk result (λ b. base_of minor_version text.now ≡ Some b) }
    ensures minor { IfOk result (λ b. b.minor_version ≡ minor_version) }
    ensures err { IfErr result (IsRefusal ErrorKind.Parse (base_of minor_version text.now ≡ None)) }
{
    if has_eight_parts(text) {
        let parts: Vec<&str> = text.split('/').collect(alloc)?;
        if let Some(base) = metrics(minor_version, &parts) {
            return Ok(base);
        }
    }
    Err(text_error(
        alloc,
        "malformed CVSS vector",
        text,
        "each of AV, AC, PR, UI, S, C, I and A once, with one of its letters",
    ))
}

impl Cvss {
    /// Parses a vector (CVSS 3.1, section 6): `CVSS:3.0` or `CVSS:3.1` with each of the eight base metrics once, in
    /// any order, or `CVSS:4.0/` and any text, which is kept.
    ///
    /// # Errors
    ///
    /// `Parse` if the text is not such a vector; else `OutOfMemory`.
    pub fn from_str(alloc: Global, text: &str) -> Result<Cvss>
        ensures ok { IfOk result (λ v. cvss_of text.now ≡ Some v) }
        ensures again { IfOk result (λ v. cvss_of (cvss_text v) ≡ Some v) }
        ensures err { IfErr result (IsRefusal ErrorKind.Parse (cvss_of text.now ≡ None)) }
    {
        if let Some(rest) = after_prefix("CVSS:3.0/", text) {
            let base = base(alloc, 0, rest)?;
            return Ok(Cvss::CvssV30(base));
        }
        if let Some(rest) = after_prefix("CVSS:3.1/", text) {
            let base = base(alloc, 1, rest)?;
            return Ok(Cvss::CvssV31(base));
        }
        if after_prefix("CVSS:4.0/", text).is_some() {
            let text = Text::from_str(alloc, text)?;
            return Ok(Cvss::CvssV40(text));
        }
        Err(text_error(
            alloc,
            "malformed CVSS vector",
            text,
            "`CVSS:3.0/`, `CVSS:3.1/` or `CVSS:4.0/` at its beginning",
        ))
    }

    /// Returns the rating of the vector's score (CVSS 3.1, section 5); none for version 4.
    pub fn severity(&self) -> Option<Severity>
        ensures { result ≡ cvss_severity self.now }
    {
        match self {
            Cvss::CvssV30(base) => Some(Severity::of_tenths(base.score_tenths())),
            Cvss::CvssV31(base) => Some(Severity::of_tenths(base.score_tenths())),
            Cvss::CvssV40(_) => None,
        }
    }

    /// Returns an equal vector.
    ///
    /// # Errors
    ///
    /// `OutOfMemory` alone.
    pub fn clone(&self, _alloc: Global) -> Result<Cvss>
        ensures ok { IfOk result (λ v. v ≡ self.now) }
        ensures err { IfErr result IsMemory }

        // A vector of version 3 takes no memory.
        ensures none { OnErr result ((text : List ℕ) × (self.now ≡ cvss.CvssV40 text)) }
    {
        let copy = Clone::clone(self)?;
        Ok(copy)
    }
}

impl FromText for Cvss {
    ghost use Rattle.rustsec_lock.specs.Cvss.{cvss_of};

    ghost reads = { cvss_of };

    fn from_text(alloc: Global, text: &str) -> Result<Cvss> {
        Cvss::from_str(alloc, text)
    }
}

impl Clone for Cvss {
    ghost is_clone = { λ a b. b ≡ a };

    // A vector of version 3 takes no memory.
    fn clone(&self) -> std::result::Result<Cvss, AllocError>
        ensures ok { IfOk result (λ c. c ≡ self.now) }
        ensures none { OnErr result ((text : List ℕ) × (self.now ≡ cvss.CvssV40 text)) }
    {
        match self {
            Cvss::CvssV30(base) => Ok(Cvss::CvssV30(*base)),
            Cvss::CvssV31(base) => Ok(Cvss::CvssV31(*base)),
            Cvss::CvssV40(text) => {
                let text = text.clone()?;
                Ok(Cvss::CvssV40(text))
            }
        }
    }
}

impl ExactClone for Cvss {
    ghost exact = { λ x y e. e };
}

impl ExactEq for Cvss {
    ghost use Rattle.rustsec_lock.specs.CvssEquality.{cvss_decides};

    ghost decides = { cvss_decides };
}

impl fmt::Display for Base {
    ghost use Rattle.std.specs.Prelude.{Some};
    ghost use Rattle.rustsec_lock.specs.Cvss.{base_text};

    ghost output = { λ b. Some (base_text b) };

    fn fmt<W: fmt::Write>(&self, f: &mut fmt::Formatter<W>) -> fmt::Result {
        let minor_version = self.minor_version;
        let av = self.av.name();
        let ac = self.ac.name();
        let pr = self.pr.name();
        let ui = self.ui.name();
        let s = self.s.name();
        let c = self.c.name();
        let i = self.i.name();
        let a = self.a.name();
        write!(
            f,
            "CVSS:3.{minor_version}/AV:{av}/AC:{ac}/PR:{pr}/UI:{ui}/S:{s}/C:{c}/I:{i}/A:{a}"
        )
    }
}

impl fmt::Display for Cvss {
    ghost use Rattle.std.specs.Prelude.{Some};
    ghost use Rattle.rustsec_lock.specs.Cvss.{cvss_text};

    ghost output = { λ v. Some (cvss_text v) };

    fn fmt<W: fmt::Write>(&self, f: &mut fmt::Formatter<W>) -> fmt::Result {
        match self {
            Cvss::CvssV30(base) => fmt::Display::fmt(base, f),
            Cvss::CvssV31(base) => fmt::Display::fmt(base, f),
            Cvss::CvssV40(text) => f.write_str(text.as_str()),
        }
    }
}
