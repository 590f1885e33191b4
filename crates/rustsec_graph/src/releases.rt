//! The name and the version of a package at the beginning of an entry. No text is built for the comparison.

ghost use Rattle.std.specs.Prelude.{◌≡◌, ◌∷◌, [], decimal, nat_eq, option_map, ℕ};
ghost use Rattle.std.specs.Cmp.Lexicographic.{pointwise};
ghost use Rattle.semver.specs.Identifiers.{marked, parts_of, parts_text};
ghost use Rattle.rustsec_lock.specs.Cvss.{after_prefix};
ghost use Rattle.rustsec_graph.specs.Candidates.{with_version};

use itoa::Buffer;
use rustsec_lock::package::Package;
use semver::Version;

/// Returns what comes after a prefix, if a text begins with it.
fn after<'t>(prefix: &str, text: &'t str) -> Option<&'t str>
    ensures { option_map (λ t. t.now) result ≡ after_prefix prefix.now text.now }
{
    text.strip_prefix(prefix)
}

/// Returns what comes after a number.
fn after_number<'t>(number: u64, text: &'t str) -> Option<&'t str>
    ensures { option_map (λ t. t.now) result ≡ after_prefix (decimal number) text.now }
{
    let mut buffer = Buffer::new();
    after(buffer.format(number), text)
}

/// Returns what comes after a point and a number.
fn after_point<'t>(number: u64, text: &'t str) -> Option<&'t str>
    ensures { option_map (λ t. t.now) result ≡ after_prefix (46 ∷ decimal number) text.now }
{
    let rest = after(".", text)?;
    after_number(number, rest)
}

/// Returns what comes after a mark and an identifier, or after nothing where the identifier is empty.
fn after_marked<'t>(mark: &str, identifier: &str, text: &'t str) -> Option<&'t str>
    ensures { (m : ℕ) → mark.now ≡ m ∷ [] → option_map (λ t. t.now) result ≡ after_prefix (marked m identifier.now) text.now }
{
    if identifier.is_empty() {
        return Some(text);
    }
    let rest = after(mark, text)?;
    after(identifier, rest)
}

/// Returns what comes after a version.
fn after_version<'t>(version: &Version, text: &'t str) -> Option<&'t str>
    ensures { option_map (λ t. t.now) result ≡ after_prefix (parts_text (parts_of version.now)) text.now }
{
    let after_major = after_number(version.major, text)?;
    let after_minor = after_point(version.minor, after_major)?;
    let after_patch = after_point(version.patch, after_minor)?;
    let after_pre = after_marked("-", version.pre.as_str(), after_patch)?;
    after_marked("+", version.build.as_str(), after_pre)
}

/// Returns what comes after a package's name and version.
fn after_release<'t>(package: &Package, text: &'t str) -> Option<&'t str>
    ensures { option_map (λ t. t.now) result ≡ after_prefix (with_version «package».now) text.now }
{
    let after_name = after(package.name.as_str(), text)?;
    let after_space = after(" ", after_name)?;
    after_version(&package.version, after_space)
}

/// Returns whether an entry is a package's name and version.
pub(crate) fn is_release(package: &Package, entry: &str) -> bool
    ensures { result ≡ pointwise nat_eq (with_version «package».now) entry.now }
{
    match after_release(package, entry) {
        Some(rest) => rest.is_empty(),
        None => false,
    }
}
