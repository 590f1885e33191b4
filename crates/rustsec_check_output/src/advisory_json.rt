//! Writes advisories as JSON, as a finding shows them.

ghost use Rattle.std.specs.Prelude.{◌≡◌, ◌++◌, OnOk, string_bytes};
ghost use Rattle.rustsec_check_output.specs.CheckTree.{severity_of, tenths_of};
ghost use Rattle.rustsec_check_output.specs.CheckJson.{named_rating_json, dated_json, advisory_json, cvss_json, optional_json, quoted, rating_json, score_json, severity_json, subject_json};

use crate::list_json::push_ids;
use crate::part::{First, Key, push_first, push_key};
use crate::quoted::push_quoted;
use crate::rating::{score_text, severity_of, tenths_of};
use rustsec_advisory::Metadata;
use rustsec_lock::Cvss;
use rustsec_texts::Address;
use std::alloc::{AllocError, Global};

/// Appends the text of a vector, null without a vector.
fn push_cvss(alloc: Global, json: &mut String, cvss: &Option<Cvss>) -> Result<(), AllocError>
    ensures { OnOk result (string_bytes json.new ≡ string_bytes json.old ++ cvss_json cvss.now) }
{
    match cvss {
        Some(cvss) => {
            let text = cvss.to_string(alloc)?;
            push_quoted(alloc, json, &text)
        }
        None => {
            json.push_str("null")?;
            Ok(())
        }
    }
}

/// Appends the score of an advisory's vector, null without a score.
fn push_score(alloc: Global, json: &mut String, metadata: &Metadata) -> Result<(), AllocError>
    ensures { OnOk result (string_bytes json.new ≡ string_bytes json.old ++ score_json (tenths_of metadata.now)) }
{
    match tenths_of(metadata) {
        Some(tenths) => {
            let text = score_text(alloc, tenths)?;
            push_quoted(alloc, json, &text)
        }
        None => {
            json.push_str("null")?;
            Ok(())
        }
    }
}

/// Appends the rating of an advisory's vector, null without a rating.
fn push_severity(alloc: Global, json: &mut String, metadata: &Metadata) -> Result<(), AllocError>
    ensures { OnOk result (string_bytes json.new ≡ string_bytes json.old ++ severity_json (severity_of metadata.now)) }
{
    match severity_of(metadata) {
        Some(severity) => push_quoted(alloc, json, severity.as_str()),
        None => {
            json.push_str("null")?;
            Ok(())
        }
    }
}

/// Appends an address, null without an address.
fn push_address(alloc: Global, json: &mut String, url: &Option<Address>) -> Result<(), AllocError>
    ensures { OnOk result (string_bytes json.new ≡ string_bytes json.old ++ optional_json quoted url.now) }
{
    match url {
        Some(url) => push_quoted(alloc, json, url.as_str()),
        None => {
            json.push_str("null")?;
            Ok(())
        }
    }
}

/// Appends the date and the ID of an advisory.
#[tactic(auto, unfolding(crate::specs::CheckJson::dated_json))]
fn push_dated(alloc: Global, json: &mut String, metadata: &Metadata) -> Result<(), AllocError>
    ensures { OnOk result (string_bytes json.new ≡ string_bytes json.old ++ dated_json metadata.now) }
{
    push_key(json, Key::Date)?;
    push_quoted(alloc, json, metadata.date.as_str())?;
    push_key(json, Key::Id)?;
    push_quoted(alloc, json, metadata.id.as_str())?;
    Ok(())
}

/// Appends the beginning of an advisory, up to the ID.
#[tactic(auto, unfolding(crate::specs::CheckJson::subject_json))]
fn push_subject(alloc: Global, json: &mut String, metadata: &Metadata) -> Result<(), AllocError>
    ensures { OnOk result (string_bytes json.new ≡ string_bytes json.old ++ subject_json metadata.now) }
{
    push_first(json, First::Aliases)?;
    push_ids(alloc, json, metadata.aliases.as_slice())?;
    push_key(json, Key::Cvss)?;
    push_cvss(alloc, json, &metadata.cvss)?;
    push_dated(alloc, json, metadata)
}

/// Appends the title and the address of an advisory.
#[tactic(auto, unfolding(crate::specs::CheckJson::named_rating_json))]
fn push_named_rating(
    alloc: Global,
    json: &mut String,
    metadata: &Metadata,
) -> Result<(), AllocError>
    ensures { OnOk result (string_bytes json.new ≡ string_bytes json.old ++ named_rating_json metadata.now) }
{
    push_key(json, Key::Title)?;
    push_quoted(alloc, json, metadata.title.as_str())?;
    push_key(json, Key::Url)?;
    push_address(alloc, json, &metadata.url)?;
    json.push_str("}")?;
    Ok(())
}

/// Appends the rest of an advisory.
#[tactic(auto, unfolding(crate::specs::CheckJson::rating_json))]
fn push_rating(alloc: Global, json: &mut String, metadata: &Metadata) -> Result<(), AllocError>
    ensures { OnOk result (string_bytes json.new ≡ string_bytes json.old ++ rating_json metadata.now) }
{
    push_key(json, Key::Score)?;
    push_score(alloc, json, metadata)?;
    push_key(json, Key::Severity)?;
    push_severity(alloc, json, metadata)?;
    push_named_rating(alloc, json, metadata)
}

/// Appends an advisory.
#[tactic(auto, unfolding(crate::specs::CheckJson::advisory_json))]
pub(crate) fn push_advisory(
    alloc: Global,
    json: &mut String,
    metadata: &Metadata,
) -> Result<(), AllocError>
    ensures { OnOk result (string_bytes json.new ≡ string_bytes json.old ++ advisory_json metadata.now) }
{
    push_subject(alloc, json, metadata)?;
    push_rating(alloc, json, metadata)
}
