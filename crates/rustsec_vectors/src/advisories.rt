//! Advisory files: the parts of their texts, what is read of them, and which versions they leave affected. Cases of `lint`
//! have the texts that are refused.

use crate::rows::{exact_field, is_copied, refuses};
use rustsec_advisory::{Advisory, Affected, Metadata};
use rustsec_fixtures::{VALID, acceptance, acceptance_with, changed, version};
use rustsec_lock::platforms::{Arch, OS};
use rustsec_lock::{Cvss, Severity};
use rustsec_texts::{FunctionPath, License, Parts};
use rustsec_versions::Requirements;
use semver::VersionReq;
use std::alloc::Global;
use std::fmt::Display;
use std::rt::Files;
use std::test::Fail;
use std::{fs, str};

/// Examples with a text and its parts: front matter, Markdown, title and description. Those of `parts_of_other_texts`
/// are the answers of the Rust crate. White space is that of Unicode; the zero width space is none.
const PARTS: &[&str] = &[
    "parts | ```toml\na = 1\n```\n\n# T \n\nD\n | a = 1 | # T \n\nD\n | T | D",
    "parts_with_crlf | ```toml\r\na = 1\r\n```\r\n# T\r\nD | a = 1 | # T\r\nD | T | D",
    "parts_all_empty | ```toml\n```\n# \n |  | # \n |  | ",
    "parts_of_other_texts | ```toml\na = 1\n```# T\nD | a = 1 | # T\nD | T | D",
    "parts_of_other_texts | ```toml a = 1\n```\n# T\n | a = 1 | # T\n | T | ",
    "parts_of_other_texts | ```toml\n```\n#  T\nD |  | #  T\nD |  T | D",
    "parts_of_other_texts | ```toml\n```\n# T\n# U\n |  | # T\n# U\n | T | # U",
    "parts_of_other_texts | ```toml\n\n\n```\n\n\n# T\n\n\n |  | # T\n\n\n | T | ",
    "parts_of_other_texts | ```toml\nx\n```\n# \t\u{b}\u{c}\r\n | x | # \t\u{b}\u{c}\r\n |  | ",
    "parts_of_other_texts | ```toml\na\n```\n# T\nD\n```\nE\n```\n | a | # T\nD\n```\nE\n```\n | T | D\n```\nE\n```",
    "parts_between_unicode_white_space | ```toml\u{a0}a\u{2003}\n```\u{3000}# T\u{2029}\u{85}\n\u{a0}D\u{2028}e\u{1680} | a | # T\u{2029}\u{85}\n\u{a0}D\u{2028}e\u{1680} | T | D\u{2028}e",
    "parts_between_unicode_white_space | ```toml\u{200b}a\n```\n# \u{200b}T\u{200b}\n\u{180e} | \u{200b}a | # \u{200b}T\u{200b}\n\u{180e} | \u{200b}T\u{200b} | \u{180e}",
];

fn has_parts(alloc: Global, row: &str) -> Result<bool, Fail> {
    let parts = Parts::parse(alloc, exact_field(row, 1))?;
    Ok(
        parts.front_matter == exact_field(row, 2)
            && parts.markdown == exact_field(row, 3)
            && parts.title == exact_field(row, 4)
            && parts.description == exact_field(row, 5),
    )
}

#[test]
fn parts(rt: HostRuntime) -> Result<(), Fail> {
    for row in PARTS {
        assert!(rt; has_parts(rt.alloc(), row)?, "{row:?}");
    }
    Ok(())
}

/// Returns whether a text is refused with a message that shows this beginning.
fn is_refused_with(alloc: Global, text: &str, shown: &str) -> Result<bool, Fail> {
    let message = format!(in alloc;
        "not the start of an advisory: found `{shown}`, expected a first line of three backticks and `toml`"
    )?;
    Ok(refuses(Parts::parse(alloc, text), &message, false))
}

// The message shows at most 20 bytes, and no part of a character.
#[test]
fn the_message_of_a_wrong_start(rt: HostRuntime) -> Result<(), Fail> {
    for (text, shown) in &[
        ("", ""),
        ("aaaaaaaaaaaaaaaaaaaé", "aaaaaaaaaaaaaaaaaaa"),
        ("aaaaaaaaaaaaaaaaaaé", "aaaaaaaaaaaaaaaaaaé"),
        ("aaaaaaaaaaaaaaaaaaaaaaaaa", "aaaaaaaaaaaaaaaaaaaa"),
    ] {
        assert!(rt; is_refused_with(rt.alloc(), text, shown)?, "of {text}");
    }
    Ok(())
}

/// Returns whether the valid advisory stays the same with its first place of a text changed.
fn stays(alloc: Global, old: &str, new: &str) -> Result<bool, Fail> {
    let text = changed(alloc, VALID, old, new)?;
    let advisory = Advisory::from_str(alloc, &text)?;
    let valid = Advisory::from_str(alloc, VALID)?;
    Ok(advisory == valid)
}

#[test]
fn advisory_table_line(rt: HostRuntime) -> Result<(), Fail> {
    assert!(rt; stays(rt.alloc(), "[advisory]\n", "")?);
    assert!(rt; !stays(rt.alloc(), "2001-02-03", "2001-02-04")?);
    Ok(())
}

/// Returns whether values print as words with a space after each.
fn print_as<T: Display>(alloc: Global, values: &[T], words: &str) -> Result<bool, Fail> {
    let mut printed = String::new(alloc);
    for value in values {
        let word = value.to_string(alloc)?;
        printed.push_str(&word)?;
        printed.push_str(" ")?;
    }
    Ok(printed.as_str() == words)
}

fn has_texts(advisory: &Advisory) -> bool {
    let url = advisory.metadata.url.as_ref().map(|url| url.as_str());
    advisory.id().as_str() == "RUSTSEC-2001-2101"
        && advisory.metadata.package.as_str() == "base"
        && advisory.title() == "All your base are belong to us"
        && advisory.description() == "You have no chance to survive. Make your time."
        && advisory.date().as_str() == "2001-02-03"
        && url == Some("https://www.youtube.com/watch?v=jQE66WA2s-A")
}

/// Returns whether an advisory's lists are those of the valid one. Its alias is a CVE of the year 2001.
fn has_lists(alloc: Global, metadata: &Metadata) -> Result<bool, Fail> {
    let first = metadata.aliases.get(0).ok_or("no alias")?;
    let keywords = "how are you gentlemen ";
    let categories = "code-execution privilege-escalation ";
    Ok(
        first.is_cve()
            && first.year() == Some(2001)
            && print_as(alloc, metadata.aliases.as_slice(), "CVE-2001-2101 ")?
            && print_as(alloc, metadata.categories.as_slice(), categories)?
            && print_as(alloc, metadata.keywords.as_slice(), keywords)?,
    )
}

/// Returns whether an advisory has the default license and the severity of the valid one, and no other fields.
fn has_nothing_more(advisory: &Advisory) -> bool {
    let metadata = &advisory.metadata;
    let score = match &metadata.cvss {
        Some(Cvss::CvssV31(base)) => base.score_tenths(),
        _ => 0,
    };
    score == 100
        && advisory.severity() == Some(Severity::Critical)
        && metadata.license == License::CcZero10
        && metadata.related.is_empty()
        && metadata.collection.is_none()
        && metadata.informational.is_none()
        && metadata.references.is_empty()
        && metadata.source.is_none()
        && metadata.withdrawn.is_none()
        && !advisory.withdrawn()
        && !metadata.expect_deleted
}

/// Versions, and whether they are patched in the valid advisory.
const VERSIONS: &[(&str, bool)] = &[("1.2.2", false), ("1.2.3", true), ("1.2.4", true)];

fn has_versions(alloc: Global, advisory: &Advisory) -> Result<bool, Fail> {
    let [requirement] = advisory.versions.patched() else {
        return Ok(false);
    };
    for (text, patched) in VERSIONS {
        let version = version(alloc, text)?;
        let is_vulnerable = advisory.versions.is_vulnerable(&version);
        if requirement.matches(&version) != *patched || is_vulnerable == *patched {
            return Ok(false);
        }
    }
    Ok(advisory.versions.unaffected().is_empty())
}

fn matches(alloc: Global, req: &VersionReq, text: &str) -> Result<bool, Fail> {
    let version = version(alloc, text)?;
    Ok(req.matches(&version))
}

fn has_affected(alloc: Global, affected: &Affected) -> Result<bool, Fail> {
    let path = FunctionPath::from_str(alloc, "base::belongs::All")?;
    let reqs = affected.functions.get(&path).ok_or("no function")?;
    let [req] = reqs.as_slice() else {
        return Ok(false);
    };
    Ok(
        affected.arch.as_slice() == &[Arch::X86][..]
            && affected.os.as_slice() == &[OS::Windows][..]
            && affected.functions.len() == 1
            && matches(alloc, req, "1.2.2")?
            && !matches(alloc, req, "1.2.3")?,
    )
}

fn has_all(alloc: Global, advisory: &Advisory) -> Result<bool, Fail> {
    let affected = advisory.affected.as_ref().ok_or("nothing affected")?;
    Ok(
        has_texts(advisory)
            && has_nothing_more(advisory)
            && has_lists(alloc, &advisory.metadata)?
            && has_affected(alloc, affected)?
            && has_versions(alloc, advisory)?,
    )
}

/// Returns the advisory in a file with this text. The file is removed again.
fn loaded<T: Files + AllocGlobal>(rt: &T, path: &str, text: &str) -> Result<Advisory, Fail> {
    fs::write(rt, path, text)?;
    let advisory = Advisory::load_file(rt, rt.alloc(), path)?;
    fs::remove_file(rt, path)?;
    Ok(advisory)
}

fn loads_all<T: Files + AllocGlobal>(rt: &T, old: &str) -> Result<bool, Fail> {
    let text = changed(rt.alloc(), VALID, old, "")?;
    let advisory = loaded(rt, "advisory-fields.md", &text)?;
    has_all(rt.alloc(), &advisory)
}

#[test]
fn advisory_fields(rt: HostRuntime) -> Result<(), Fail> {
    assert!(rt; loads_all(&rt, "")?);
    assert!(rt; loads_all(&rt, "[advisory]\n")?);
    Ok(())
}

/// Returns whether a license is this one: known by a variant of its own, or another one with its identifier.
fn is_license(license: &License, name: &str) -> bool {
    match license {
        License::CcZero10 => name == "CC0-1.0",
        License::CcBy40 => name == "CC-BY-4.0",
        License::Other(identifier) => name == "other" && identifier.as_str() == "MPL-2.0",
    }
}

fn loads_license<T: Files + AllocGlobal>(rt: &T, key: &str, name: &str) -> Result<bool, Fail> {
    let line = format!(in rt.alloc(); "{key}\ndate = ")?;
    let text = changed(rt.alloc(), VALID, "date = ", &line)?;
    let advisory = loaded(rt, "advisory-licenses.md", &text)?;
    Ok(is_license(&advisory.metadata.license, name))
}

#[test]
fn advisory_fields_of_each_license(rt: HostRuntime) -> Result<(), Fail> {
    for (key, name) in &[
        ("", "CC0-1.0"),
        ("license = \"CC0-1.0\"", "CC0-1.0"),
        ("license = \"CC-BY-4.0\"", "CC-BY-4.0"),
        ("license = \"MPL-2.0\"", "other"),
    ] {
        assert!(rt; loads_license(&rt, key, name)?, "of `{key}`");
    }
    Ok(())
}

fn parts_are_copied(alloc: Global, advisory: &Advisory) -> Result<bool, Fail> {
    let affected = advisory.affected.as_ref().ok_or("nothing affected")?;
    let affected_is_copied = is_copied(affected)? && Affected::default(alloc) != *affected;
    Ok(affected_is_copied && is_copied(&advisory.metadata)? && is_copied(advisory)?)
}

#[test]
fn advisories_with_ample_memory(rt: HostRuntime) -> Result<(), Fail> {
    let advisory = Advisory::from_str(rt.alloc(), VALID)?;
    assert!(rt; parts_are_copied(rt.alloc(), &advisory)?);
    Ok(())
}

fn acceptance_of_prefix(alloc: Global, end: usize) -> Result<Option<bool>, Fail> {
    let bytes = VALID.as_bytes().get(..end).ok_or("too long")?;
    Ok(acceptance(alloc, str::from_utf8(bytes)?))
}

// Each beginning of an advisory up to some byte is not an advisory, and each longer one is.
#[test]
fn advisory_prefixes(rt: HostRuntime) -> Result<(), Fail> {
    let (front, _) = VALID.split_once("to us\n").ok_or("no title")?;
    let title = front.len() + 6;
    for end in 0..VALID.len() + 1 {
        let found = acceptance_of_prefix(rt.alloc(), end)?;
        assert!(rt; found == Some(end >= title), "at {end}");
    }
    Ok(())
}

/// Two functions, not in the order of their paths.
const FUNCTIONS: &str =
    "[affected.functions]\n\"base::b\" = [\"< 2.0.0\"]\n\"base::a\" = [\"< 1.0.0\", \">= 3.0.0\"]";

fn count_at(alloc: Global, affected: &Affected, path: &str) -> Result<usize, Fail> {
    let path = FunctionPath::from_str(alloc, path)?;
    match affected.functions.get(&path) {
        Some(reqs) => Ok(reqs.as_slice().len()),
        None => Ok(0),
    }
}

/// Returns how many requirements the function with a path has among the two functions; 0 without such a function.
fn count_of_two(alloc: Global, path: &str) -> Result<usize, Fail> {
    let own = "functions = { \"base::belongs::All\" = [\"< 1.2.3\"] }";
    let text = changed(alloc, VALID, own, FUNCTIONS)?;
    let advisory = Advisory::from_str(alloc, &text)?;
    match &advisory.affected {
        Some(affected) if affected.functions.len() == 2 => count_at(alloc, affected, path),
        _ => Err(Fail::from("other functions")),
    }
}

#[test]
fn functions_by_path(rt: HostRuntime) -> Result<(), Fail> {
    assert!(rt; count_of_two(rt.alloc(), "base::a")? == 2);
    assert!(rt; count_of_two(rt.alloc(), "base::b")? == 1);
    assert!(rt; count_of_two(rt.alloc(), "base::c")? == 0);
    assert!(rt; count_of_two(rt.alloc(), "base::a::b")? == 0);
    Ok(())
}

/// Returns the paths of functions that were inserted one after another, with a space after each.
fn inserted(alloc: Global, texts: &[&str]) -> Result<String, Fail> {
    let mut affected = Affected::default(alloc);
    for text in texts {
        let path = FunctionPath::from_str(alloc, text)?;
        affected.functions.insert(path, Requirements::new(alloc))?;
    }
    let mut printed = String::new(alloc);
    for (path, _) in &affected.functions {
        let path = path.to_string(alloc)?;
        printed.push_str(&path)?;
        printed.push_str(" ")?;
    }
    Ok(printed)
}

// Paths are compared identifier by identifier, so `base0::b` is not among those of `base`.
#[test]
fn functions_inserted(rt: HostRuntime) -> Result<(), Fail> {
    let texts = &["base::b", "base0::b", "base::a", "base::b"][..];
    let printed = inserted(rt.alloc(), texts)?;
    assert!(rt; printed.as_str() == "base::a base::b base0::b ");
    Ok(())
}

fn is_withdrawn(alloc: Global, text: &str) -> Result<bool, Fail> {
    let advisory = Advisory::from_str(alloc, text)?;
    Ok(advisory.withdrawn() && advisory.severity().is_none())
}

#[test]
fn advisory_withdrawn(rt: HostRuntime) -> Result<(), Fail> {
    let line = "withdrawn = \"2001-02-04\"\ndate = ";
    let text = changed(rt.alloc(), VALID, "date = ", line)?;
    let text = changed(rt.alloc(), &text, "CVSS:3.1/", "CVSS:4.0/")?;
    assert!(rt; is_withdrawn(rt.alloc(), &text)?);
    Ok(())
}

fn acceptance_of_nested(alloc: Global, depth: usize) -> Result<Option<bool>, Fail> {
    let open = "[".repeat(alloc, depth)?;
    let close = "]".repeat(alloc, depth)?;
    let line = format!(in alloc; "deep = {open}{close}\ndate = ")?;
    acceptance_with(alloc, "date = ", &line)
}

// The crate `toml` reads 80 arrays in one another.
#[test]
fn advisory_front_matter_nested_to_the_limit(rt: HostRuntime) -> Result<(), Fail> {
    for (depth, accepted) in &[(80, true), (81, false), (100000, false)] {
        let found = acceptance_of_nested(rt.alloc(), *depth)?;
        assert!(rt; found == Some(*accepted), "at {depth}");
    }
    Ok(())
}

#[test]
fn backquotes_alone(rt: HostRuntime) -> Result<(), Fail> {
    let text = "`".repeat(rt.alloc(), 10000000)?;
    assert!(rt; acceptance(rt.alloc(), &text) == Some(false));
    Ok(())
}

fn finds(alloc: Global, patched: &str, text: &str) -> Result<bool, Fail> {
    let file = changed(alloc, VALID, "[\">= 1.2.3\"]", patched)?;
    let advisory = Advisory::from_str(alloc, &file)?;
    let asked = version(alloc, text)?;
    Ok(advisory.versions.is_vulnerable(&asked))
}

#[test]
fn clash_between_lists(rt: HostRuntime) -> Result<(), Fail> {
    let patched = "[\">= 1.2.3\", \"> 1.2.3\"]";
    for (text, affected) in [("1.2.3", false), ("1.2.2", true)] {
        assert!(rt; finds(rt.alloc(), patched, text)? == affected, "{text}");
    }
    Ok(())
}
