//! Writes the texts of rules and results.

ghost use Rattle.std.specs.Prelude.{◌≡◌, ◌++◌, IfOk, OnOk, Some, map, option_map, string_bytes};
ghost use Rattle.std.specs.Str.{encode_utf8_all};
ghost use Rattle.semver.specs.Identifiers.{parts_of, parts_text};
ghost use Rattle.rustsec_versions.specs.requirement.RequirementText.{requirement_text};
ghost use Rattle.rustsec_versions.specs.Views.{comparators_of};
ghost use Rattle.rustsec_sarif.specs.SarifTree.{help_words};
ghost use Rattle.rustsec_sarif.specs.SarifWords.{address_words, command_words, doubled, doubled_char, finding_words, fingerprint, further_words, incompatible_words, level, locked_words, long_words, or_else, package_words, patched_words, short_words, subject_words, update_words, yanked_words};

use rustsec_advisory::{Advisory, Metadata};
use rustsec_check::{Finding, Yanked};
use rustsec_lock::package::Package;
use rustsec_texts::Address;
use rustsec_versions::requirement_text;
use semver::{Version, VersionReq};
use std::alloc::{AllocError, Global};
use std::fmt::Write as _;

/// Returns the level of a result: a note if a baseline has it, else an error if it fails, else a warning.
pub(crate) fn level(is_denied: bool, is_old: bool) -> &'static str
    ensures { result.now ≡ level is_denied is_old }
{
    if is_old {
        return "note";
    }
    if is_denied { "error" } else { "warning" }
}

/// Returns a text, or another one if it is empty.
fn or_else<'a>(text: &'a str, other: &'a str) -> &'a str
    ensures { result.now ≡ or_else text.now other.now }
{
    if text.is_empty() { other } else { text }
}

/// Returns the short text of an advisory: its title, or its ID without one.
pub(crate) fn short_words(metadata: &Metadata) -> &str
    ensures { result.now ≡ short_words metadata.now }
{
    or_else(metadata.title.as_str(), metadata.id.as_str())
}

/// Returns the long text of an advisory: its description, or the short text without one.
pub(crate) fn long_words(metadata: &Metadata) -> &str
    ensures { result.now ≡ long_words metadata.now }
{
    or_else(metadata.description.as_str(), short_words(metadata))
}

/// Appends a character of a message, twice if it is a brace.
#[tactic(auto, unfolding(crate::specs::SarifWords::doubled_char))]
fn push_char(text: &mut String, c: char) -> Result<(), AllocError>
    ensures { OnOk result (string_bytes text.new ≡ string_bytes text.old ++ encode_utf8_all (doubled_char c)) }
{
    text.push(c)?;
    if c == '{' || c == '}' {
        text.push(c)?;
    }
    Ok(())
}

/// Appends a text of a message, with each brace doubled.
fn push_doubled(note: &mut String, text: &str) -> Result<(), AllocError>
    ensures { OnOk result (string_bytes note.new ≡ string_bytes note.old ++ doubled text.now) }
{
    for c in text.chars() {
        push_char(note, c)?;
    }
    Ok(())
}

/// Appends the name and the version of a package.
fn push_package(text: &mut String, package: &Package) -> Result<(), AllocError>
    ensures { OnOk result (string_bytes text.new ≡ string_bytes text.old ++ package_words «package».now) }
{
    let version = &package.version;
    text.push_str(package.name.as_str())?;
    write!(text, " {version}")?;
    Ok(())
}

/// Appends the version of a package.
fn push_locked_version(text: &mut String, package: &Package) -> Result<(), AllocError>
    ensures { OnOk result (string_bytes text.new ≡ string_bytes text.old ++ parts_text «package».now.version) }
{
    let version = &package.version;
    write!(text, "{version}")?;
    Ok(())
}

/// Appends the name and the version of a package, as Cargo takes them.
fn push_locked(text: &mut String, package: &Package) -> Result<(), AllocError>
    ensures { OnOk result (string_bytes text.new ≡ string_bytes text.old ++ locked_words «package».now) }
{
    let version = &package.version;
    text.push_str(package.name.as_str())?;
    write!(text, "@{version}")?;
    Ok(())
}

/// Appends the command that updates a package.
fn push_command(text: &mut String, package: &Package) -> Result<(), AllocError>
    ensures { OnOk result (string_bytes text.new ≡ string_bytes text.old ++ command_words «package».now) }
{
    text.push_str(": cargo update ")?;
    push_locked(text, package)?;
    Ok(())
}

/// Appends which requirement keeps Cargo from the version.
fn push_incompatible(text: &mut String, package: &Package) -> Result<(), AllocError>
    ensures { OnOk result (string_bytes text.new ≡ string_bytes text.old ++ incompatible_words «package».now) }
{
    text.push_str(", which is incompatible with ^")?;
    push_locked_version(text, package)?;
    Ok(())
}

/// Appends the version to update a package to, and how.
pub fn push_version(
    text: &mut String,
    package: &Package,
    version: &Version,
    is_compatible: bool,
) -> Result<(), AllocError>
    ensures { OnOk result (string_bytes text.new ≡ string_bytes text.old
        ++ update_words «package».now (Some (parts_of version.now)) is_compatible) }
{
    write!(text, "Update to {version}")?;
    if is_compatible {
        push_command(text, package)?;
        return Ok(());
    }
    push_incompatible(text, package)?;
    Ok(())
}

/// Appends how to mend a package.
fn push_update(
    text: &mut String,
    package: &Package,
    version: &Option<Version>,
    is_compatible: bool,
) -> Result<(), AllocError>
    ensures { OnOk result (string_bytes text.new ≡ string_bytes text.old
        ++ update_words «package».now (option_map parts_of version.now) is_compatible) }
{
    match version {
        Some(version) => push_version(text, package, version, is_compatible),
        None => {
            text.push_str("No fixed version")?;
            Ok(())
        }
    }
}

/// Appends the package of a finding and the advisory's title.
#[tactic(auto, unfolding(crate::specs::SarifWords::subject_words))]
fn push_subject(text: &mut String, finding: &Finding<'_>) -> Result<(), AllocError>
    ensures { OnOk result (string_bytes text.new ≡ string_bytes text.old ++ subject_words finding.now) }
{
    push_package(text, finding.package)?;
    text.push_str(": ")?;
    push_doubled(text, finding.advisory.metadata.title.as_str())?;
    text.push_str(". ")?;
    Ok(())
}

/// Returns the message of a finding: the package, the advisory's title, and how to mend it.
#[tactic(auto, unfolding(crate::specs::SarifWords::finding_words))]
pub(crate) fn finding_words(alloc: Global, finding: &Finding<'_>) -> Result<String, AllocError>
    ensures { IfOk result (λ t. string_bytes t ≡ finding_words finding.now) }
{
    let update = &finding.update;
    let mut text = String::new(alloc);
    push_subject(&mut text, finding)?;
    push_update(
        &mut text,
        finding.package,
        &update.least_free,
        update.is_compatible,
    )?;
    Ok(text)
}

/// Returns the message of a yanked package.
#[tactic(auto, unfolding(crate::specs::SarifWords::yanked_words))]
pub(crate) fn yanked_words(alloc: Global, yanked: &Yanked<'_>) -> Result<String, AllocError>
    ensures { IfOk result (λ t. string_bytes t ≡ yanked_words yanked.now) }
{
    let mut text = String::new(alloc);
    push_package(&mut text, yanked.package)?;
    text.push_str(": yanked from its registry. Choose another version")?;
    Ok(text)
}

/// Returns the part of a result that does not change while the lockfile changes elsewhere.
pub(crate) fn fingerprint(
    alloc: Global,
    rule: &str,
    package: &Package,
) -> Result<String, AllocError>
    ensures { IfOk result (λ t. string_bytes t ≡ fingerprint rule.now «package».now) }
{
    let name = &package.name;
    let version = &package.version;
    format!(in alloc; "{rule}:{name}:{version}")
}

/// Appends a requirement.
fn push_requirement(alloc: Global, text: &mut String, req: &VersionReq) -> Result<(), AllocError>
    ensures { OnOk result (string_bytes text.new ≡ string_bytes text.old ++ requirement_text (comparators_of req.now)) }
{
    match requirement_text(alloc, req) {
        Ok(words) => text.push_str(words.as_str()),
        Err(_) => Err(AllocError),
    }
}

/// Appends requirements, each after ` or `.
fn push_further(alloc: Global, text: &mut String, reqs: &[VersionReq]) -> Result<(), AllocError>
    ensures { OnOk result (string_bytes text.new ≡ string_bytes text.old ++ further_words (map comparators_of reqs.now)) }
{
    for req in reqs {
        text.push_str(" or ")?;
        push_requirement(alloc, text, req)?;
    }
    Ok(())
}

/// Appends the patched versions.
fn push_patched(alloc: Global, text: &mut String, reqs: &[VersionReq]) -> Result<(), AllocError>
    ensures { OnOk result (string_bytes text.new ≡ string_bytes text.old ++ patched_words (map comparators_of reqs.now)) }
{
    let [req, rest @ ..] = reqs else {
        return text.push_str("No patched version.");
    };
    text.push_str("Patched: ")?;
    push_requirement(alloc, text, req)?;
    push_further(alloc, text, rest)
}

/// Appends an address on a line of its own, if any.
fn push_address(text: &mut String, address: &Option<Address>) -> Result<(), AllocError>
    ensures { OnOk result (string_bytes text.new ≡ string_bytes text.old ++ address_words address.now) }
{
    if let Some(address) = address {
        text.push_str("\n")?;
        text.push_str(address.as_str())?;
    }
    Ok(())
}

/// Returns how to mend what an advisory is about: the patched versions, and the advisory's address.
#[tactic(auto, unfolding(crate::specs::SarifTree::help_words))]
pub(crate) fn help_words(alloc: Global, advisory: &Advisory) -> Result<String, AllocError>
    ensures { IfOk result (λ t. string_bytes t ≡ help_words advisory.now) }
{
    let mut text = String::new(alloc);
    push_patched(alloc, &mut text, advisory.versions.patched())?;
    push_address(&mut text, &advisory.metadata.url)?;
    Ok(text)
}
