//! Policy files that are accepted, with all that is read of each, and the nearest known words, by the distances that
//! are worked by hand.

use rustsec_policy::{Ignored, Policy, nearest_word};
use rustsec_values::Items;
use std::alloc::Global;
use std::fmt;
use std::process::Abort;
use std::test::Fail;

/// A file on each line, with `\n` and `\r` for line ends, and after `=>` what is read of it.
const ACCEPTED: &str = r#" =>
# nothing\n\n =>
[advisories]\n[output]\n[target]\n[database]\n[packages]\n[yanked]\n =>
[advisories]\nignore = ["RUSTSEC-2020-0001", "CVE-2019-1234", "GHSA-abcd-efgh-ijkl", "TALOS-2020-1"]\n => ignore: RUSTSEC-2020-0001 None None; ignore: CVE-2019-1234 None None; ignore: GHSA-abcd-efgh-ijkl None None; ignore: TALOS-2020-1 None None;
[advisories]\nignore = [{ id = "RUSTSEC-2020-0001" }]\n => ignore: RUSTSEC-2020-0001 None None;
[advisories]\nignore = [{ reason = "not called", id = "RUSTSEC-2020-0001" }]\n => ignore: RUSTSEC-2020-0001 Some("not called") None;
[advisories]\nignore = [\n  "RUSTSEC-2020-0002", # a comment\n  { id = "RUSTSEC-2020-0001", until = "2026-02-28" },\n]\n => ignore: RUSTSEC-2020-0002 None None; ignore: RUSTSEC-2020-0001 None Some("2026-02-28");
[[advisories.ignore]]\nid = "RUSTSEC-2020-0001"\nreason = ""\nuntil = "2100-12-31"\n => ignore: RUSTSEC-2020-0001 Some("") Some("2100-12-31");
[advisories]\nignore = ["RUSTSEC-2020-0001", "RUSTSEC-2020-0001"]\n => ignore: RUSTSEC-2020-0001 None None; ignore: RUSTSEC-2020-0001 None None;
advisories = { informational_warnings = [] }\n => informational_warnings: [];
advisories.informational_warnings = ["unsound", "notice", "other", "unmaintained"]\n => informational_warnings: [Unsound, Notice, Other("other"), Unmaintained];
[advisories]\r\nseverity_threshold = "none"\r\n => severity_threshold: None;
['advisories']\n"severity_threshold" = 'critical'\n => severity_threshold: Critical;
[output]\ndeny = ["yanked", "warnings", "unsound", "unmaintained"]\n => deny: [Yanked, Warnings, Unsound, Unmaintained];
[output]\nformat = "terminal"\nquiet = false\nshow_tree = true\n => format: Terminal; quiet: false; show_tree: true;
output = { format = "json", quiet = true, deny = [] }\n => format: Json; quiet: true;
[output]\nformat = "sarif"\n => format: Sarif;
[target]\narch = "x86_64"\nos = ["linux", "windows"]\n => arch: [X86_64]; os: [Linux, Windows];
[target]\nos = "macos"\narch = ["aarch64", "arm", "arm"]\n => arch: [AArch64, Arm, Arm]; os: [MacOS];
[database]\npath = "~/.cargo/advisory-db"\nurl = "https://github.com/RustSec/advisory-db.git"\nfetch = true\nstale = false\n => path: "~/.cargo/advisory-db"; url: "https://github.com/RustSec/advisory-db.git"; fetch: true; stale: false;
[yanked]\nenabled = true\nupdate_index = false\n[database]\nstale = true\n => stale: true; enabled: true; update_index: false;
database.fetch = false\nyanked = { enabled = false }\noutput.show_tree = false\n => show_tree: false; fetch: false; enabled: false;
yanked.update_index = true\n[packages]\nsource = "public"\n => source: Public; update_index: true;
yanked.enabled = true => enabled: true;
yanked.index = "an index" => index: "an index";
yanked = { index = "a", enabled = true } => enabled: true; index: "a";
yanked = { index = "a", enabled = false } => enabled: false;"#;

/// The answer of a helper that appends.
type Done = Result<(), Fail>;

/// Appends a name and a value, or values; nothing where there is none.
fn push<T: fmt::Debug>(alloc: Global, text: &mut String, name: &str, value: &Option<T>) -> Done {
    if let Some(value) = value {
        text.push_str(&format!(in alloc; " {name}: {value:?};")?)?;
    }
    Ok(())
}

fn push_all<T: fmt::Debug>(alloc: Global, text: &mut String, name: &str, list: &Items<T>) -> Done {
    if !list.is_empty() {
        text.push_str(&format!(in alloc; " {name}: {list:?};")?)?;
    }
    Ok(())
}

/// Appends the ID, the reason and the last day of each entry of `ignore`.
fn push_entries(alloc: Global, text: &mut String, entries: &[Ignored]) -> Done {
    for entry in entries {
        let reason = entry.reason.as_ref().map(|reason| reason.as_str());
        let until = entry.until.as_ref().map(|day| day.as_str());
        let id = entry.id.as_str();
        text.push_str(&format!(in alloc; " ignore: {id} {reason:?} {until:?};")?)?;
    }
    Ok(())
}

fn push_first(alloc: Global, text: &mut String, policy: &Policy) -> Done {
    let (advisories, output) = (&policy.advisories, &policy.output);
    push_entries(alloc, text, advisories.ignore.as_slice())?;
    let kinds = &advisories.informational_warnings;
    push(alloc, text, "informational_warnings", kinds)?;
    let threshold = &advisories.severity_threshold;
    push(alloc, text, "severity_threshold", threshold)?;
    push_all(alloc, text, "deny", &output.deny)?;
    push(alloc, text, "format", &output.format)?;
    push(alloc, text, "quiet", &output.quiet)?;
    push(alloc, text, "show_tree", &output.show_tree)
}

fn push_others(alloc: Global, text: &mut String, policy: &Policy) -> Done {
    push_all(alloc, text, "arch", &policy.target.arch)?;
    push_all(alloc, text, "os", &policy.target.os)?;
    push(alloc, text, "source", &policy.packages.source)?;
    push(alloc, text, "path", &policy.database.path)?;
    push(alloc, text, "url", &policy.database.url)?;
    push(alloc, text, "fetch", &policy.database.fetch)?;
    push(alloc, text, "stale", &policy.database.stale)?;
    push(alloc, text, "enabled", &policy.yanked.enabled)?;
    push(alloc, text, "index", &policy.yanked.index())?;
    push(alloc, text, "update_index", &policy.yanked.update_index)
}

/// Returns whether this is read of a policy.
fn says(alloc: Global, policy: &Policy, wanted: &str) -> Result<bool, Fail> {
    let mut text = String::new(alloc);
    push_first(alloc, &mut text, policy)?;
    push_others(alloc, &mut text, policy)?;
    Ok(text.as_str() == wanted)
}

/// Returns whether the file of a line is read as the line says.
fn is_read(alloc: Global, line: &str) -> Result<bool, Fail> {
    let (file, wanted) = line.split_once(" =>").ok_or("a line says nothing")?;
    let file = file
        .replace(alloc, "\\n", "\n")?
        .replace(alloc, "\\r", "\r")?;
    let policy = Policy::from_str(alloc, &file)?;
    says(alloc, &policy, wanted)
}

#[test]
fn accepted_policies(rt: HostRuntime) -> Result<(), Fail> {
    for line in ACCEPTED.lines() {
        assert!(rt; is_read(rt.alloc(), line)?, "of {line}");
    }
    Ok(())
}

/// A text, the known words, and the nearest one.
const NEAREST: &[(&str, &[&str], Option<&str>)] = &[
    ("", &[], None),
    ("abc", &[], None),
    // One character is added, taken away or exchanged, or two neighbours change places.
    ("abxc", &["abc"], Some("abc")),
    ("ac", &["abc"], Some("abc")),
    ("axc", &["abc"], Some("abc")),
    ("acb", &["abc"], Some("abc")),
    // Two edits, and three.
    ("bacd", &["abdc"], Some("abdc")),
    ("a", &["abc"], Some("abc")),
    ("abcdef", &["abc"], None),
    // A text between two that change places is edited twice.
    ("ca", &["abc"], None),
    // The first of the nearest words.
    ("audi", &["audits", "audit", "audie"], Some("audit")),
    ("xbc", &["abd", "abc", "ybc"], Some("abc")),
    ("abxy", &["ab", "abcd"], Some("ab")),
    // A character of several bytes is one.
    ("é", &["ab", "e"], Some("e")),
    ("日本", &["日", "本"], Some("日")),
    // A word is not near to itself.
    ("abc", &["abc"], None),
    ("abc", &["abc", "abd"], Some("abd")),
];

#[test]
fn nearest_words(rt: HostRuntime) -> Result<(), Fail> {
    for (text, words, wanted) in NEAREST {
        let found = nearest_word(rt.alloc(), words, text)?;
        assert!(rt; found == *wanted, "of {text}");
    }
    Ok(())
}
