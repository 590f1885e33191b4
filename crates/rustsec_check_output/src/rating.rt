//! Returns what a pair is, and how severe its advisory is by its vector.

ghost use Rattle.std.specs.Prelude.{◌≡◌, IfOk, option_map, string_bytes};
ghost use Rattle.rustsec_check_output.specs.CheckTree.{base_of, kind_text, score_text, severity_of, tenths_of};

use rustsec_advisory::Metadata;
use rustsec_lock::{Base, Cvss, Severity};
use rustsec_texts::WarningKind;
use std::alloc::{AllocError, Global};

/// Returns the base metrics of a vector, which one of version 4 does not have.
fn base_of(cvss: &Cvss) -> Option<&Base>
    ensures { option_map (λ b. b.now) result ≡ base_of cvss.now }
{
    match cvss {
        Cvss::CvssV30(base) => Some(base),
        Cvss::CvssV31(base) => Some(base),
        Cvss::CvssV40(_) => None,
    }
}

/// Returns a score in tenths as a number with one decimal.
pub fn score_text(alloc: Global, tenths: u8) -> Result<String, AllocError>
    ensures { IfOk result (λ t. string_bytes t ≡ score_text tenths) }
{
    let whole = tenths / 10;
    let tenth = tenths % 10;
    format!(in alloc; "{whole}.{tenth}")
}

/// Returns the score of an advisory's vector in tenths, if the vector has a score.
pub fn tenths_of(metadata: &Metadata) -> Option<u8>
    ensures { result ≡ tenths_of metadata.now }
{
    let Some(cvss) = &metadata.cvss else {
        return None;
    };
    match base_of(cvss) {
        Some(base) => Some(base.score_tenths()),
        None => None,
    }
}

/// Returns the rating of an advisory's vector, if the vector has a rating.
pub fn severity_of(metadata: &Metadata) -> Option<Severity>
    ensures { result ≡ severity_of metadata.now }
{
    match &metadata.cvss {
        Some(cvss) => cvss.severity(),
        None => None,
    }
}

/// Returns what a pair is: a vulnerability, or the kind of its warning.
pub fn kind_text(kind: Option<WarningKind>) -> &'static str
    ensures { result.now ≡ kind_text kind }
{
    match kind {
        Some(kind) => kind.as_str(),
        None => "vulnerability",
    }
}
