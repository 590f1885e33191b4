//! Writes pairs that are ignored as JSON.

ghost use Rattle.std.specs.Prelude.{◌≡◌, ◌++◌, OnOk, string_bytes};
ghost use Rattle.std.specs.Option.{option_copied};
ghost use Rattle.rustsec_check_output.specs.CheckTree.{reason_of, until_of};
ghost use Rattle.rustsec_check_output.specs.CheckJson.{reasons_json, entry_json, ignored_json, list_json, optional_json, quoted};

use crate::list_json::{Push, push_list};
use crate::package_json::push_sourced;
use crate::part::{First, Key, push_first, push_key};
use crate::quoted::push_quoted;
use crate::rating::kind_text;
use rustsec_check::IgnoredPair;
use rustsec_policy::{Ignored, entry_with};
use std::alloc::{AllocError, Global};

/// Appends the reason of an entry, null without a reason.
fn push_reason(alloc: Global, json: &mut String, entry: Option<&Ignored>) -> Result<(), AllocError>
    ensures { OnOk result (string_bytes json.new ≡ string_bytes json.old ++ optional_json quoted (reason_of (option_copied entry.entry))) }
{
    let Some(entry) = entry else {
        json.push_str("null")?;
        return Ok(());
    };
    match &entry.reason {
        Some(reason) => push_quoted(alloc, json, reason.as_str()),
        None => {
            json.push_str("null")?;
            Ok(())
        }
    }
}

/// Appends the last day of an entry, null without a last day.
fn push_until(alloc: Global, json: &mut String, entry: Option<&Ignored>) -> Result<(), AllocError>
    ensures { OnOk result (string_bytes json.new ≡ string_bytes json.old ++ optional_json quoted (until_of (option_copied entry.entry))) }
{
    let Some(entry) = entry else {
        json.push_str("null")?;
        return Ok(());
    };
    match &entry.until {
        Some(until) => push_quoted(alloc, json, until.as_str()),
        None => {
            json.push_str("null")?;
            Ok(())
        }
    }
}

/// Appends the package of an ignored pair, and why it is ignored.
#[tactic(auto, unfolding(crate::specs::CheckJson::reasons_json))]
fn push_reasons(
    alloc: Global,
    json: &mut String,
    entry: Option<&Ignored>,
    pair: &IgnoredPair<'_>,
) -> Result<(), AllocError>
    ensures { OnOk result (string_bytes json.new ≡ string_bytes json.old ++ reasons_json (option_copied entry.entry) pair.now) }
{
    push_key(json, Key::Package)?;
    push_sourced(alloc, json, pair.package)?;
    push_key(json, Key::Reason)?;
    push_reason(alloc, json, entry)?;
    push_key(json, Key::Until)?;
    push_until(alloc, json, entry)?;
    json.push_str("}")?;
    Ok(())
}

/// Appends an ignored pair, whose advisory this entry ignores.
#[tactic(auto, unfolding(crate::specs::CheckJson::entry_json))]
fn push_entry(
    alloc: Global,
    json: &mut String,
    entry: Option<&Ignored>,
    pair: &IgnoredPair<'_>,
) -> Result<(), AllocError>
    ensures { OnOk result (string_bytes json.new ≡ string_bytes json.old ++ entry_json (option_copied entry.entry) pair.now) }
{
    push_first(json, First::Advisory)?;
    push_quoted(alloc, json, pair.advisory.metadata.id.as_str())?;
    push_key(json, Key::Kind)?;
    push_quoted(alloc, json, kind_text(pair.kind))?;
    push_reasons(alloc, json, entry, pair)
}

/// Appends an ignored pair.
#[tactic(auto, unfolding(crate::specs::CheckJson::ignored_json))]
fn push_ignored(
    alloc: Global,
    json: &mut String,
    entries: &[Ignored],
    pair: &IgnoredPair<'_>,
) -> Result<(), AllocError>
    ensures { OnOk result (string_bytes json.new ≡ string_bytes json.old ++ ignored_json entries.now pair.now) }
{
    let entry = entry_with(entries, &pair.advisory.metadata.id);
    push_entry(alloc, json, entry, pair)
}

/// Writes ignored pairs by the entries of a policy.
#[derive(Drop)]
struct ByEntries<'a> {
    entries: &'a [Ignored],
}

impl<'a, 'b> Push<IgnoredPair<'b>> for ByEntries<'a> {
    ghost use Rattle.rustsec_check_output.specs.CheckJson.{ignored_json};

    ghost written = { λ way pair. ignored_json way.entries.now pair };

    fn push(
        &self,
        alloc: Global,
        json: &mut String,
        pair: &IgnoredPair<'b>,
    ) -> Result<(), AllocError> {
        push_ignored(alloc, json, self.entries, pair)
    }
}

/// Appends a list of ignored pairs.
pub(crate) fn push_all_ignored(
    alloc: Global,
    json: &mut String,
    entries: &[Ignored],
    pairs: &[IgnoredPair<'_>],
) -> Result<(), AllocError>
    ensures { OnOk result (string_bytes json.new ≡ string_bytes json.old ++ list_json (ignored_json entries.now) pairs.now) }
{
    push_list(alloc, json, &ByEntries { entries }, pairs)
}
