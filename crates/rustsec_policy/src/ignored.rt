//! The entries of `ignore`: advisories that do not count.

ghost use Rattle.std.specs.Prelude.{◌≡◌, ◌++◌, ◌<◌, ◌∷◌, [], IfErr, IfOk, None, OnErr, OnOk, Some, codes, length, option_map};
ghost use Rattle.std.specs.List.{filter_map};
ghost use Rattle.toml.specs.Data.{as_str};
ghost use Rattle.toml.specs.View.{array_view, table_view, view};
ghost use Rattle.rustsec_toml.specs.Fields.{list_of, optional, required, text};
ghost use Rattle.rustsec_values.specs.Reading.{read_all};
ghost use Rattle.rustsec_values.specs.Failure.{IsOfKind, IsRefusal};
ghost use Rattle.rustsec_policy.specs.Policies.{counts_until, id_on, ids_on, ignored_in, ignored_of, known_id};

use crate::keys::{IgnoredKeys, expect_keys};
use crate::nearest::{with_nearest, with_question};
use crate::refused::{Read, at_key};
use rustsec_texts::{Date, Id};
use rustsec_toml::{Section, TablePlace};
use rustsec_values::{Error, ErrorKind, Items, Result, Text, exact_copy, text_error};
use std::alloc::Global;
use toml::value::Array;
use toml::{Table, Value};

/// An entry of `ignore`: an advisory that does not count. An ID alone is the form of cargo-audit, a table with `id` and
/// `reason` that of cargo-deny; `until` is of this program alone.
#[derive(Debug, Drop)]
pub struct Ignored {
    /// The ID of the advisory.
    pub id: Id,
    /// Why it does not count.
    pub reason: Option<Text>,
    /// The last day on which it does not count; `None` for ever.
    pub until: Option<Date>,
}

/// The beginnings of known IDs.
const BEGINNINGS: [&str; 4] = ["RUSTSEC-", "CVE-", "GHSA-", "TALOS-"];

/// Returns the beginning of an ID up to the first hyphen, with it.
fn beginning(text: &str) -> &str {
    match text.split_once('-') {
        Some((word, _)) => text.get(..word.len().saturating_add(1)).unwrap_or(word),
        None => text,
    }
}

/// Returns the known beginning of an ID that differs from a text in the case of letters alone, if any.
fn other_case(beginning: &str) -> Option<&'static str> {
    for known in &BEGINNINGS {
        if known.eq_ignore_ascii_case(beginning) {
            return Some(known);
        }
    }
    None
}

/// Returns the error for an ID in an unknown form. It names the nearest known beginning, if one is near.
fn unknown_form_error(alloc: Global, text: &str) -> Error
    ensures { IsOfKind ErrorKind.Parse result }
{
    let expected = "`RUSTSEC-`, `CVE-`, `GHSA-` or `TALOS-` at its beginning";
    let error = text_error(alloc, "unknown form of ID", text, expected);
    let beginning = beginning(text);
    match other_case(beginning) {
        Some(known) => with_question(alloc, &error, known),
        None => with_nearest(alloc, error, &BEGINNINGS, beginning),
    }
}

/// Reads the ID of an advisory, whose beginning says who assigns it.
fn known_id(alloc: Global, text: &str) -> Result<Id>
    ensures ok { IfOk result (λ id. known_id text.now ≡ Some id) }
    ensures err { IfErr result (IsRefusal ErrorKind.Parse (known_id text.now ≡ None)) }
{
    let id = Id::from_str(alloc, text)?;
    if id.is_other() {
        return Err(unknown_form_error(alloc, text));
    }
    Ok(id)
}

/// Reads the ID in an entry that is a table.
fn id_in(alloc: Global, section: Section<'_>) -> Result<Id>
    ensures ok { IfOk result (λ id. required (text known_id) (codes "id") (table_view section.entry.table.now) ≡ Some id) }
    ensures err { IfErr result (IsRefusal ErrorKind.Parse (required (text known_id) (codes "id") (table_view section.entry.table.now) ≡ None)) }
{
    let text = section.string_at(alloc, "id")?;
    match known_id(alloc, text) {
        Ok(id) => Ok(id),
        Err(e) => Err(section.with_key(alloc, "id", &e)),
    }
}

/// Reads the reason in an entry that is a table.
fn reason_in(alloc: Global, section: Section<'_>) -> Result<Option<Text>>
    ensures ok { IfOk result (λ r. optional as_str (codes "reason") (table_view section.entry.table.now) ≡ Some r) }
    ensures err { IfErr result (IsRefusal ErrorKind.Parse (optional as_str (codes "reason") (table_view section.entry.table.now) ≡ None)) }
{
    let reason = section.optional_string_at(alloc, "reason")?;
    Ok(Text::from_option(alloc, reason)?)
}

/// A refusal of an entry.
#[derive(Drop)]
pub(crate) struct RefusedEntry<'a> {
    pub(crate) error: Error,
    /// The index of the entry, from 0 on.
    pub(crate) index: usize,
    /// The key of the entry that is at fault, if the entry is a table.
    pub(crate) key: Option<&'a str>,
}

/// Reads an entry that is a table: `id`, and perhaps `reason` and `until`.
fn ignored_in(alloc: Global, table: &Table) -> Read<'_, Ignored>
    ensures ok { IfOk result (λ i. ignored_in (table_view table.now) ≡ Some i) }
    ensures err { IfErr result (λ r. IsRefusal ErrorKind.Parse (ignored_in (table_view table.now) ≡ None) r.error) }
{
    let section = Section {
        table,
        name: "an entry of `ignore`",
        place: TablePlace::unknown(),
    };
    expect_keys::<IgnoredKeys>(alloc, section)?;
    let id = at_key(section, "id", id_in(alloc, section))?;
    let reason = at_key(section, "reason", reason_in(alloc, section))?;
    let until = at_key(section, "until", section.optional(alloc, "until"))?;
    Ok(Ignored { id, reason, until })
}

/// Returns the error for an entry of another kind.
fn entry_kind_error(alloc: Global, value: &Value) -> Error
    ensures { IsOfKind ErrorKind.Parse result }
{
    let expected = "an ID, or a table with `id`";
    text_error(
        alloc,
        "an entry of `ignore` is of the kind",
        value.type_str(),
        expected,
    )
}

/// Reads an entry at an index: an ID, or a table.
fn ignored_of(
    alloc: Global,
    index: usize,
    value: &Value,
) -> std::result::Result<Ignored, RefusedEntry<'_>>
    ensures ok { IfOk result (λ i. ignored_of (view value.now) ≡ Some i) }
    ensures err { IfErr result (λ r. IsRefusal ErrorKind.Parse (ignored_of (view value.now) ≡ None) r.error) }
{
    if let Some(text) = value.as_str() {
        return match known_id(alloc, text) {
            Ok(id) => Ok(Ignored {
                id,
                reason: None,
                until: None,
            }),
            Err(error) => Err(RefusedEntry {
                error,
                index,
                key: None,
            }),
        };
    }
    let Some(table) = value.as_table() else {
        let error = entry_kind_error(alloc, value);
        return Err(RefusedEntry {
            error,
            index,
            key: None,
        });
    };
    match ignored_in(alloc, table) {
        Ok(ignored) => Ok(ignored),
        Err(refused) => Err(RefusedEntry {
            error: refused.error,
            index,
            key: Some(refused.key),
        }),
    }
}

/// Appends the entry of a value.
fn add_ignored<'a>(
    alloc: Global,
    ignored: &mut Items<Ignored>,
    value: &'a Value,
) -> std::result::Result<(), RefusedEntry<'a>>
    ensures ok { OnOk result (option_map (λ i. ignored.old ++ i ∷ []) (ignored_of (view value.now)) ≡ Some ignored.new) }
    ensures err { IfErr result (λ r. IsRefusal ErrorKind.Parse (ignored_of (view value.now) ≡ None) r.error) }
{
    let index = ignored.len();
    let entry = ignored_of(alloc, index, value)?;
    match ignored.push(entry) {
        Ok(()) => Ok(()),
        Err(refused) => Err(RefusedEntry {
            error: Error::from(refused),
            index,
            key: None,
        }),
    }
}

/// Reads the entries of an array, in order.
pub(crate) fn all_ignored(
    alloc: Global,
    array: &Array,
) -> std::result::Result<Items<Ignored>, RefusedEntry<'_>>
    ensures ok { IfOk result (λ is. read_all ignored_of (list_of (array_view array.now)) ≡ Some is) }
    ensures err { IfErr result (λ r. IsRefusal ErrorKind.Parse (read_all ignored_of (list_of (array_view array.now)) ≡ None) r.error) }
{
    let mut ignored = Items::new(alloc);
    for value in array {
        add_ignored(alloc, &mut ignored, value)?;
    }
    Ok(ignored)
}

/// Returns the error for an entry with a last day if no day is given.
fn no_day_error(alloc: Global, entry: &Ignored, until: &Date) -> Error
    ensures { IsOfKind ErrorKind.BadParam result }
{
    let (id, until) = (entry.id.as_str(), until.as_str());
    match format!(in alloc;
        "`{id}` is ignored until {until}, and no day is given to compare with: no clock is read"
    ) {
        Ok(message) => Error::new(alloc, ErrorKind::BadParam, &message),
        Err(refused) => Error::from(refused),
    }
}

/// Returns whether an entry counts on a day.
fn counts_on(alloc: Global, today: Option<&Date>, entry: &Ignored) -> Result<bool>
    ensures ok { IfOk result (λ b. counts_until entry.now.until (option_map (λ d. d.now) today.entry) ≡ Some b) }
    ensures err { IfErr result (IsRefusal ErrorKind.BadParam (counts_until entry.now.until (option_map (λ d. d.now) today.entry) ≡ None)) }
{
    let Some(until) = &entry.until else {
        return Ok(true);
    };
    match today {
        Some(today) => Ok(today <= until),
        None => Err(no_day_error(alloc, entry, until)),
    }
}

/// Appends the ID of an entry that counts on a day.
fn add_id(alloc: Global, ids: &mut Items<Id>, today: Option<&Date>, entry: &Ignored) -> Result<()>
    ensures ok { OnOk result (option_map (λ id. ids.old ++ filter_map (λ x. x) (id ∷ [])) (id_on (option_map (λ d. d.now) today.entry) entry.now) ≡ Some ids.new) }
    ensures err { IfErr result (IsRefusal ErrorKind.BadParam (id_on (option_map (λ d. d.now) today.entry) entry.now ≡ None)) }
{
    if counts_on(alloc, today, entry)? {
        let id = exact_copy(&entry.id)?;
        ids.push(id)?;
    }
    Ok(())
}

/// Returns the IDs of the entries that count on a day, in order.
pub(crate) fn ids_on(alloc: Global, today: Option<&Date>, entries: &[Ignored]) -> Result<Items<Id>>
    ensures ok { IfOk result (λ ids. ids_on (option_map (λ d. d.now) today.entry) entries.now ≡ Some ids) }
    ensures err { IfErr result (IsRefusal ErrorKind.BadParam (ids_on (option_map (λ d. d.now) today.entry) entries.now ≡ None)) }

    // An empty slice takes no memory.
    ensures none { OnErr result (0 < length entries.now) }
{
    let mut ids = Items::new(alloc);
    for entry in entries {
        add_id(alloc, &mut ids, today, entry)?;
    }
    Ok(ids)
}
