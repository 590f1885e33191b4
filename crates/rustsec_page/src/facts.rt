//! Writes the title of a finding, and the facts about it.

ghost use Rattle.std.specs.Prelude.{◌≡◌, ◌++◌, OnOk, string_bytes};
ghost use Rattle.rustsec_page.specs.Findings.{denied, facts, kind_words, rating, title};
ghost use Rattle.rustsec_page.specs.Pieces.{text_of};

use crate::card::Card;
use crate::links::{push_denied_tag, push_id, push_old_tag, push_package};
use crate::pieces::{push_card, push_content};
use rustsec_advisory::Metadata;
use rustsec_check::Finding;
use rustsec_check_output::rating::{kind_text, score_text, severity_of, tenths_of};
use rustsec_lock::Severity;
use rustsec_texts::WarningKind;
use std::alloc::{AllocError, Global};

/// Appends the ID of an advisory and its title.
#[tactic(auto, unfolding(crate::specs::Findings::title))]
pub(crate) fn push_title(
    alloc: Global,
    text: &mut String,
    metadata: &Metadata,
) -> Result<(), AllocError>
    ensures { OnOk result (string_bytes text.new ≡ string_bytes text.old ++ text_of (title metadata.now)) }
{
    push_card(text, Card::Start)?;
    push_id(alloc, text, &metadata.id)?;
    push_card(text, Card::TitleStart)?;
    push_content(text, metadata.title.as_str())?;
    push_card(text, Card::TitleEnd)
}

/// Appends a rating and its score, if present.
fn push_rating(
    alloc: Global,
    text: &mut String,
    severity: Option<Severity>,
    tenths: Option<u8>,
) -> Result<(), AllocError>
    ensures { OnOk result (string_bytes text.new ≡ string_bytes text.old ++ text_of (rating severity tenths)) }
{
    let Some(severity) = severity else {
        return Ok(());
    };
    let Some(tenths) = tenths else {
        return Ok(());
    };
    let score = score_text(alloc, tenths)?;
    push_card(text, Card::RatingStart)?;
    push_content(text, severity.as_str())?;
    push_card(text, Card::ScoreStart)?;
    push_content(text, &score)
}

/// Appends that a warning is denied, if it is.
fn push_denied(
    text: &mut String,
    kind: Option<WarningKind>,
    is_denied: bool,
) -> Result<(), AllocError>
    ensures { OnOk result (string_bytes text.new ≡ string_bytes text.old ++ text_of (denied kind is_denied)) }
{
    match kind {
        Some(_) => push_denied_tag(text, is_denied),
        None => Ok(()),
    }
}

/// Appends what a finding is, and its rating.
#[tactic(auto, unfolding(crate::specs::Findings::kind_words))]
fn push_kind(alloc: Global, text: &mut String, finding: &Finding<'_>) -> Result<(), AllocError>
    ensures { OnOk result (string_bytes text.new ≡ string_bytes text.old ++ text_of (kind_words finding.now)) }
{
    let metadata = &finding.advisory.metadata;
    push_card(text, Card::KindStart)?;
    push_content(text, kind_text(finding.kind))?;
    push_rating(alloc, text, severity_of(metadata), tenths_of(metadata))?;
    push_card(text, Card::KindEnd)
}

/// Appends the package, what the finding is, whether it is denied and whether it is old.
#[tactic(auto, unfolding(crate::specs::Findings::facts))]
pub(crate) fn push_facts(
    alloc: Global,
    text: &mut String,
    finding: &Finding<'_>,
) -> Result<(), AllocError>
    ensures { OnOk result (string_bytes text.new ≡ string_bytes text.old ++ text_of (facts finding.now)) }
{
    push_package(alloc, text, finding.package)?;
    push_kind(alloc, text, finding)?;
    push_denied(text, finding.kind, finding.is_denied)?;
    push_old_tag(text, finding.is_old)?;
    push_card(text, Card::FactsEnd)
}
