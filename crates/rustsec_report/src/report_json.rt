//! Writes reports as JSON text, one vulnerability or warning after another, so that no tree of the whole report is made.

ghost use Rattle.std.specs.Prelude.{◌≡◌, ◌++◌, ◌∷◌, IfErr, IfOk, List, None, OnOk, codes, false, option_map, string_bytes};
ghost use Rattle.serde_json.specs.View.{view};
ghost use Rattle.serde_json.specs.Written.{comma_if, compact_text, has_float};
ghost use Rattle.rustsec_values.specs.Failure.{IsMemory};
ghost use Rattle.rustsec_texts.specs.declared.warning_kind.WarningKind.{WarningKind};
ghost use Rattle.rustsec_report.specs.ReportText.{beginning_text, ending_text, key_text, kinds_text, last_list, later_texts, list_text, vulnerabilities_text};
ghost use Rattle.rustsec_report.specs.Trees.{kinds_of_warnings, object_of, report_tree};

use crate::part::Part;
use crate::report_ref::ReportRef;
use crate::warning_ref::{WarningRef, WarningsOfKind};
use rustsec_texts::WarningKind;
use rustsec_values::{ClosedEnum, Result};
use serde_json::Value;
use std::alloc::{AllocError, Global};

/// Appends the text of a tree.
fn push_tree(alloc: Global, json: &mut String, tree: &Value) -> std::result::Result<(), AllocError>
    ensures { OnOk result (has_float (view tree.now) ≡ false → string_bytes json.new ≡ string_bytes json.old ++ compact_text (view tree.now)) }
{
    json.push_str(&tree.to_string(alloc)?)?;
    Ok(())
}

/// Appends the text of a part.
fn push_part<T: Part>(
    alloc: Global,
    json: &mut String,
    part: &T,
) -> std::result::Result<(), AllocError>
    ensures { OnOk result (string_bytes json.new ≡ string_bytes json.old ++ compact_text (T.tree part.now)) }
{
    let tree = part.build_tree(alloc)?;
    push_tree(alloc, json, &tree)?;
    Ok(())
}

/// Appends the texts of parts, each after a comma.
fn push_later<T: Part>(
    alloc: Global,
    json: &mut String,
    parts: &[T],
) -> std::result::Result<(), AllocError>
    ensures { OnOk result (string_bytes json.new ≡ string_bytes json.old ++ later_texts T.tree parts.now) }
{
    for part in parts {
        json.push_str(",")?;
        push_part(alloc, json, part)?;
    }
    Ok(())
}

/// Appends the text of a list of parts.
fn push_list<T: Part>(
    alloc: Global,
    json: &mut String,
    parts: &[T],
) -> std::result::Result<(), AllocError>
    ensures { OnOk result (string_bytes json.new ≡ string_bytes json.old ++ list_text T.tree parts.now) }
{
    let Some((first, later)) = parts.split_first() else {
        json.push_str("[]")?;
        return Ok(());
    };
    json.push_str("[")?;
    push_part(alloc, json, first)?;
    push_later(alloc, json, later)?;
    json.push_str("]")?;
    Ok(())
}

/// Appends the text of the vulnerabilities of a report.
#[tactic(auto, unfolding(crate::specs::ReportText::vulnerabilities_text))]
fn push_vulnerabilities(
    alloc: Global,
    json: &mut String,
    report: &ReportRef<'_>,
) -> std::result::Result<(), AllocError>
    ensures { OnOk result (string_bytes json.new ≡ string_bytes json.old ++ vulnerabilities_text report.now.vulnerabilities) }
{
    json.push_str("{\"count\":")?;
    push_tree(alloc, json, &Value::from(report.count))?;
    json.push_str(",\"found\":")?;
    push_tree(alloc, json, &Value::from(report.found))?;
    json.push_str(",\"list\":")?;
    push_list(alloc, json, report.vulnerabilities.as_slice())?;
    json.push_str("}")?;
    Ok(())
}

/// A key of a report, with what is before it.
#[derive(Clone, Copy)]
pub(crate) enum Key {
    /// Begins the report with the key `lockfile`.
    Lockfile,
    /// Continues it with the key `settings`.
    Settings,
    /// Continues it with the key `vulnerabilities`.
    Vulnerabilities,
    /// Continues it with the key `warnings`.
    Warnings,
}

impl Key {
    /// Returns the text up to the key's value.
    #[tactic(auto, unfolding(crate::specs::ReportText::key_text))]
    fn text(self) -> &'static str
        ensures { result.now ≡ key_text self }
    {
        match self {
            Key::Lockfile => "{\"lockfile\":",
            Key::Settings => ",\"settings\":",
            Key::Vulnerabilities => ",\"vulnerabilities\":",
            Key::Warnings => ",\"warnings\":",
        }
    }
}

/// Appends a key of a report.
fn push_key(json: &mut String, key: Key) -> std::result::Result<(), AllocError>
    ensures { OnOk result (string_bytes json.new ≡ string_bytes json.old ++ key_text key) }
{
    json.push_str(key.text())?;
    Ok(())
}

/// Returns the last list of a kind, if any: an object has one value for a key.
fn last_list<'a, 'b>(
    warnings: &'a [WarningsOfKind<'b>],
    kind: WarningKind,
) -> Option<&'a [WarningRef<'b>]>
    ensures { option_map (λ list. list.now) result ≡ last_list kind None warnings.now }
{
    let mut last = None;
    for of_kind in warnings {
        if of_kind.kind == kind {
            last = Some(of_kind.list.as_slice());
        }
    }
    last
}

/// Appends a comma if there is something before it.
fn push_comma(json: &mut String, later: bool) -> std::result::Result<(), AllocError>
    ensures { OnOk result (string_bytes json.new ≡ string_bytes json.old ++ comma_if later) }
{
    if later {
        json.push_str(",")?;
    }
    Ok(())
}

/// Appends the key and the list of a kind, unless it has none. Returns whether there is something before the next kind.
fn push_kind(
    alloc: Global,
    json: &mut String,
    warnings: &[WarningsOfKind<'_>],
    kind: WarningKind,
    later: bool,
) -> std::result::Result<bool, AllocError>
    ensures { IfOk result (λ next. (kinds : List WarningKind) → string_bytes json.new ++ kinds_text next warnings.now kinds
        ≡ string_bytes json.old ++ kinds_text later warnings.now (kind ∷ kinds)) }
{
    let Some(list) = last_list(warnings, kind) else {
        return Ok(later);
    };
    push_comma(json, later)?;
    json.push_str("\"")?;
    json.push_str(kind.as_str())?;
    json.push_str("\":")?;
    push_list(alloc, json, list)?;
    Ok(true)
}

/// Appends the text of warnings: an object from each kind to its list.
fn push_warnings(
    alloc: Global,
    json: &mut String,
    warnings: &[WarningsOfKind<'_>],
) -> std::result::Result<(), AllocError>
    ensures { OnOk result (string_bytes json.new ≡ string_bytes json.old ++ compact_text (object_of (kinds_of_warnings warnings.now))) }
{
    json.push_str("{")?;
    let mut later = false;
    for kind in WarningKind::all() {
        later = push_kind(alloc, json, warnings, *kind, later)?;
    }
    json.push_str("}")?;
    Ok(())
}

/// Appends what a report begins with: its lockfile and its settings.
#[tactic(auto, unfolding(crate::specs::ReportText::beginning_text))]
fn push_beginning(
    alloc: Global,
    json: &mut String,
    report: &ReportRef<'_>,
) -> std::result::Result<(), AllocError>
    ensures { OnOk result (string_bytes json.new ≡ string_bytes json.old ++ beginning_text report.now) }
{
    push_key(json, Key::Lockfile)?;
    push_part(alloc, json, &report.lockfile)?;
    push_key(json, Key::Settings)?;
    push_part(alloc, json, report.settings)?;
    Ok(())
}

/// Appends what a report ends with: its vulnerabilities and its warnings.
#[tactic(auto, unfolding(crate::specs::ReportText::ending_text))]
fn push_ending(
    alloc: Global,
    json: &mut String,
    report: &ReportRef<'_>,
) -> std::result::Result<(), AllocError>
    ensures { OnOk result (string_bytes json.new ≡ string_bytes json.old ++ ending_text report.now) }
{
    push_key(json, Key::Vulnerabilities)?;
    push_vulnerabilities(alloc, json, report)?;
    push_key(json, Key::Warnings)?;
    push_warnings(alloc, json, report.warnings.as_slice())?;
    json.push_str("}")?;
    Ok(())
}

impl<'a> ReportRef<'a> {
    /// Returns the report as JSON text without spaces: the text of the tree that `Report::to_value` builds.
    ///
    /// # Errors
    ///
    /// `OutOfMemory` alone.
    pub fn to_json(&self, alloc: Global) -> Result<String>
        ensures ok { IfOk result (λ t. string_bytes t ≡ compact_text (report_tree self.now)) }
        ensures err { IfErr result IsMemory }
    {
        let mut json = String::new(alloc);
        push_beginning(alloc, &mut json, self)?;
        push_ending(alloc, &mut json, self)?;
        Ok(json)
    }
}
