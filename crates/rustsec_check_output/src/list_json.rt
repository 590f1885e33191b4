//! Writes lists as JSON.

ghost use Rattle.std.specs.Prelude.{◌≡◌, ◌++◌, ℕ, List, OnOk, map, string_bytes};
ghost use Rattle.rustsec_check_output.specs.CheckJson.{ids_json, later_json, list_json, quoted, requirements_json};
ghost use Rattle.rustsec_versions.specs.requirement.RequirementText.{requirement_text};
ghost use Rattle.rustsec_versions.specs.Views.{comparators_of};

use crate::quoted::push_quoted;
use rustsec_texts::Id;
use rustsec_values::Text;
use rustsec_versions::requirement_text;
use semver::VersionReq;
use std::alloc::{AllocError, Global};

/// A way to write elements of a type as JSON, whose text for each one a contract knows.
pub(crate) trait Push<T> {
    ghost written: { Self → T → List ℕ };

    /// Appends the JSON of an element.
    ///
    /// # Errors
    ///
    /// Out of memory.
    fn push(&self, alloc: Global, json: &mut String, element: &T) -> Result<(), AllocError>
        ensures { OnOk result (string_bytes json.new ≡ string_bytes json.old ++ Self.written self.now element.now) };
}

/// Appends elements, each after a comma.
fn push_later<T, P: Push<T>>(
    alloc: Global,
    json: &mut String,
    way: &P,
    elements: &[T],
) -> Result<(), AllocError>
    ensures { OnOk result (string_bytes json.new ≡ string_bytes json.old ++ later_json (P.written way.now) elements.now) }
{
    for element in elements {
        json.push_str(",")?;
        way.push(alloc, json, element)?;
    }
    Ok(())
}

/// Appends a list of elements.
pub(crate) fn push_list<T, P: Push<T>>(
    alloc: Global,
    json: &mut String,
    way: &P,
    elements: &[T],
) -> Result<(), AllocError>
    ensures { OnOk result (string_bytes json.new ≡ string_bytes json.old ++ list_json (P.written way.now) elements.now) }
{
    let Some((first, later)) = elements.split_first() else {
        json.push_str("[]")?;
        return Ok(());
    };
    json.push_str("[")?;
    way.push(alloc, json, first)?;
    push_later(alloc, json, way, later)?;
    json.push_str("]")?;
    Ok(())
}

/// Writes elements that have a text as strings.
struct Strings;

impl Push<Text> for Strings {
    ghost use Rattle.rustsec_check_output.specs.CheckJson.{quoted};

    ghost written = { λ way text. quoted text };

    fn push(&self, alloc: Global, json: &mut String, text: &Text) -> Result<(), AllocError> {
        push_quoted(alloc, json, text.as_str())
    }
}

impl Push<Id> for Strings {
    ghost use Rattle.rustsec_check_output.specs.CheckJson.{quoted};

    ghost written = { λ way id. quoted id.text };

    fn push(&self, alloc: Global, json: &mut String, id: &Id) -> Result<(), AllocError> {
        push_quoted(alloc, json, id.as_str())
    }
}

impl<'a> Push<&'a Id> for Strings {
    ghost use Rattle.rustsec_check_output.specs.CheckJson.{quoted};

    ghost written = { λ way id. quoted id.now.text };

    fn push(&self, alloc: Global, json: &mut String, id: &&'a Id) -> Result<(), AllocError> {
        push_quoted(alloc, json, id.as_str())
    }
}

/// Appends the text of a requirement as a string.
fn push_requirement(alloc: Global, json: &mut String, req: &VersionReq) -> Result<(), AllocError>
    ensures { OnOk result (string_bytes json.new ≡ string_bytes json.old ++ quoted (requirement_text (comparators_of req.now))) }
{
    match requirement_text(alloc, req) {
        Ok(text) => push_quoted(alloc, json, &text),
        Err(_) => Err(AllocError),
    }
}

impl Push<VersionReq> for Strings {
    ghost use Rattle.rustsec_check_output.specs.CheckJson.{quoted};
    ghost use Rattle.rustsec_versions.specs.Views.{comparators_of};
    ghost use Rattle.rustsec_versions.specs.requirement.RequirementText.{requirement_text};

    ghost written = { λ way req. quoted (requirement_text (comparators_of req)) };

    fn push(&self, alloc: Global, json: &mut String, req: &VersionReq) -> Result<(), AllocError> {
        push_requirement(alloc, json, req)
    }
}

/// Appends a list of texts.
pub(crate) fn push_texts(alloc: Global, json: &mut String, texts: &[Text]) -> Result<(), AllocError>
    ensures { OnOk result (string_bytes json.new ≡ string_bytes json.old ++ list_json quoted texts.now) }
{
    push_list(alloc, json, &Strings, texts)
}

/// Appends a list of the texts of IDs.
pub(crate) fn push_ids(alloc: Global, json: &mut String, ids: &[Id]) -> Result<(), AllocError>
    ensures { OnOk result (string_bytes json.new ≡ string_bytes json.old ++ ids_json ids.now) }
{
    push_list(alloc, json, &Strings, ids)
}

/// Appends a list of the texts of IDs that are referred to.
pub(crate) fn push_id_refs(alloc: Global, json: &mut String, ids: &[&Id]) -> Result<(), AllocError>
    ensures { OnOk result (string_bytes json.new ≡ string_bytes json.old ++ ids_json (map (λ i. i.now) ids.now)) }
{
    push_list(alloc, json, &Strings, ids)?;
    Ok(())
}

/// Appends a list of the texts of requirements.
pub(crate) fn push_requirements(
    alloc: Global,
    json: &mut String,
    reqs: &[VersionReq],
) -> Result<(), AllocError>
    ensures { OnOk result (string_bytes json.new ≡ string_bytes json.old ++ requirements_json (map comparators_of reqs.now)) }
{
    push_list(alloc, json, &Strings, reqs)?;
    Ok(())
}
