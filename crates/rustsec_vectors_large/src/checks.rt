//! Checks and explanations of 300 packages by 300 advisories, on the disk. Inputs and expected answers are both made
//! from the numbers of the packages.

use crate::folders::package;
use crate::numbers::{filled, numbered_by, occurrences};
use rustsec_program::run_with_notes;
use std::alloc::Global;
use std::process::Abort;
use std::rt::Files;
use std::test::Fail;
use std::{fs, io};

/// The number of the first package, and of the last. All have four digits, so that the order of names is that of
/// numbers.
const FIRST: u32 = 1001;

const LAST: u32 = 1300;

/// The advisory with a number. All have one alias.
const ADVISORY: &str =
    "```toml\n[advisory]\nid = \"RUSTSEC-2001-$\"\npackage = \"package-$\"\ndate = \"2001-02-03\"\naliases = [\"CVE-2001-1000\"]\n\n[versions]\npatched = [\">= 1.0.0\"]\n```\n\n# T\n\nD\n";

/// The entry of a policy that ignores the advisory with a number.
const ENTRY: &str = "{ id = \"RUSTSEC-2001-$\", reason = \"reason $\" },\n";

/// Returns a policy that ignores all advisories, one with an unknown kind of 20,000 bytes and a short one, the lockfile
/// without dependencies, and that where each package depends on the next one, so the path to the last one has all of
/// them.
fn policy(alloc: Global) -> Result<String, Fail> {
    let entries = numbered_by(alloc, (FIRST, 1, 300), ENTRY)?;
    Ok(format!(in alloc; "[advisories]\nignore = [\n{entries}]\n")?)
}

fn kinds(alloc: Global) -> Result<String, Fail> {
    let long = "x".repeat(alloc, 20_000)?;
    Ok(format!(in alloc; "[advisories]\ninformational_warnings = [\"{long}\", \"short\"]\n")?)
}

fn flat(alloc: Global) -> Result<String, Fail> {
    let package = package(alloc, "package-$", "0.0.$")?;
    numbered_by(alloc, (FIRST, 1, 300), &package)
}

fn chain(alloc: Global) -> Result<String, Fail> {
    let last = package(alloc, "package-$", "0.0.$")?;
    let template = format!(in alloc; "{last}dependencies = [\"package-$+\"]\n")?;
    let mut text = numbered_by(alloc, (FIRST, 1, 299), &template)?;
    text.push_str(&filled(alloc, &last, LAST)?)?;
    Ok(text)
}

/// Writes the advisory with a number, in the folder of its package; then the lockfiles and policies; and a root with
/// all.
fn put_advisory<T: Files + AllocGlobal>(rt: &T, number: u32) -> Result<(), Fail> {
    let folder = filled(rt.alloc(), "large/crates/package-$", number)?;
    fs::create_dir_all(rt, folder.as_str())?;
    let path = format!(in rt.alloc(); "{folder}/RUSTSEC-2001-{number}.md")?;
    let text = filled(rt.alloc(), ADVISORY, number)?;
    fs::write(rt, path.as_str(), text.as_str())?;
    Ok(())
}

fn put_texts<T: Files + AllocGlobal>(rt: &T) -> Result<(), Fail> {
    fs::write(rt, "large/lock", chain(rt.alloc())?.as_str())?;
    fs::write(rt, "large/flat", flat(rt.alloc())?.as_str())?;
    fs::write(rt, "large/policy", policy(rt.alloc())?.as_str())?;
    fs::write(rt, "large/kinds", kinds(rt.alloc())?.as_str())?;
    Ok(())
}

fn make<T: Files + AllocGlobal>(rt: &T) -> Result<(), Fail> {
    for number in FIRST..=LAST {
        put_advisory(rt, number)?;
    }
    put_texts(rt)
}

/// Returns the status of words, separated by blanks, for an input, and what is written.
fn output<T: Files + AllocGlobal>(rt: &T, words: &str, input: &str) -> Result<(u8, String), Fail> {
    let words: Vec<&str> = words.split(' ').collect(rt.alloc())?;
    let mut input = input.as_bytes();
    let mut written = Vec::new(rt.alloc());
    let mut notes = io::sink();
    let status = run_with_notes(rt, &words, &mut input, &mut written, &mut notes)?;
    Ok((status, String::from_utf8(written)?))
}

/// Appends the block of the finding with a number, and to the path its package.
fn push(alloc: Global, text: &mut String, path: &mut String, number: u32) -> Result<(), Fail> {
    let block = format!(in alloc;
        "RUSTSEC-2001-$ package-$ 0.0.$: T\n  vulnerability\n  {}package-$ 0.0.$\n  update to 1.0.0 (incompatible with ^0.0.$)\n",
        path.as_str()
    )?;
    text.push_str(&filled(alloc, &block, number)?)?;
    path.push_str(&filled(alloc, "package-$ 0.0.$ → ", number)?)?;
    Ok(())
}

/// Returns the text of a check without a policy.
fn found(alloc: Global) -> Result<String, Fail> {
    let mut text = String::new(alloc);
    let mut path = String::new(alloc);
    for number in FIRST..=LAST {
        push(alloc, &mut text, &mut path, number)?;
    }
    text.push_str(
        "300 vulnerabilities, 0 warnings, 0 ignored; looked at 300 advisories and 300 packages\n",
    )?;
    Ok(text)
}

/// What is written before the rows of a table in Markdown, and after those that fit.
const TABLE: &str = "## 300 findings: 300 denied, 0 not denied

Looked at 300 packages and 300 advisories.

| package | advisory | title | kind | path | update to |
| --- | --- | --- | --- | --- | --- |
";

const LEFT_OUT: &str = "
88 findings are left out, for lack of space.

- note: <code>&#96;short&#96; at &#96;informational&#95;warnings&#96; is not a kind that gives warnings</code>

1 line is left out, for lack of space.
";

/// Words, the status, the number of packages that are shown, and what is written: a text, a template for each of these,
/// and a text. In Markdown a row has 226 bytes, and all rows together have at most 48,000.
type Row<'a> = (&'a str, (u8, u32), &'a str, &'a str, &'a str);

const ROWS: &[Row<'_>] = &[
    (
        "check large large/lock --policy large/policy",
        (0, 300),
        "",
        "ignored RUSTSEC-2001-$ package-$ 0.0.$: reason $\n",
        "0 vulnerabilities, 0 warnings, 300 ignored; looked at 300 advisories and 300 packages\n",
    ),
    (
        "check large large/flat --policy large/kinds --format markdown",
        (1, 212),
        TABLE,
        "| <code>package&#45;$ 0&#46;0&#46;$</code> | <code>RUSTSEC&#45;2001&#45;$</code> | <code>T</code> | vulnerability, denied | <code>package&#45;$ 0&#46;0&#46;$</code> | <code>1&#46;0&#46;0</code> (incompatible) |\n",
        LEFT_OUT,
    ),
    (
        "explain large large/lock CVE-2001-1000",
        (0, 300),
        "",
        "package-$ 0.0.$ RUSTSEC-2001-$: affected\n",
        "",
    ),
    (
        "explain large large/lock CVE-2001-1000 --policy large/policy",
        (0, 300),
        "",
        "package-$ 0.0.$ RUSTSEC-2001-$: the ID `RUSTSEC-2001-$` is ignored by the policy: reason $\n",
        "",
    ),
];

/// Returns whether words write a text for an input, with this status; and whether a row holds.
fn writes<T: Files + AllocGlobal>(
    rt: &T,
    words: &str,
    input: &str,
    status: u8,
    text: &str,
) -> Result<bool, Fail> {
    let (found, written) = output(rt, words, input)?;
    Ok(found == status && written.as_str() == text)
}

fn holds<T: Files + AllocGlobal>(rt: &T, row: &Row<'_>) -> Result<bool, Fail> {
    let (words, (status, count), start, template, end) = row;
    let lines = numbered_by(rt.alloc(), (FIRST, 1, *count), template)?;
    let text = format!(in rt.alloc(); "{start}{lines}{end}")?;
    writes(rt, words, "", *status, &text)
}

/// Returns whether the check without a policy finds each package, by the path to it.
fn finds_all<T: Files + AllocGlobal>(rt: &T) -> Result<bool, Fail> {
    let text = found(rt.alloc())?;
    writes(rt, "check large large/lock", "", 1, &text)
}

/// A form of a check, a text, and how often the check of all packages in this form contains it.
const FORMS: &[(&str, &str, usize)] = &[
    ("json", "\"dependents\":[", 300),
    ("sarif", "\"ruleIndex\":", 300),
    ("html", "<article>\n", 300),
    ("markdown", "## 300 findings: 300 denied, 0 not denied\n", 1),
];

fn contains<T: Files + AllocGlobal>(rt: &T, row: &(&str, &str, usize)) -> Result<bool, Fail> {
    let (form, part, count) = row;
    let words = format!(in rt.alloc(); "check large large/lock --format {form}")?;
    let (status, text) = output(rt, &words, "")?;
    Ok(status == 1 && occurrences(&text, part) == *count)
}

/// The words that check a list of lockfiles by the policy.
const MANY: &str = "check-many large --policy large/policy";

/// Returns whether a list of one lockfile five times has a line five times; and whether the line of the lockfile alone
/// has all ignored pairs, and is repeated.
fn is_repeated<T: Files + AllocGlobal>(rt: &T, line: &str) -> Result<bool, Fail> {
    let list = "large/lock\n".repeat(rt.alloc(), 5)?;
    let lines = line.repeat(rt.alloc(), 5)?;
    writes(rt, MANY, &list, 0, &lines)
}

fn repeats<T: Files + AllocGlobal>(rt: &T) -> Result<bool, Fail> {
    let (status, line) = output(rt, MANY, "large/lock\n")?;
    let pairs = occurrences(&line, "{\"advisory\":\"RUSTSEC-2001-");
    Ok(status == 0 && pairs == 300 && is_repeated(rt, &line)?)
}

/// Checks each row, and each form.
fn expect_rows<T: Files + AllocGlobal + Abort>(rt: &T) -> Result<(), Fail> {
    for row in ROWS {
        assert!(rt; holds(rt, row)?, "of {row:?}");
    }
    Ok(())
}

fn expect_forms<T: Files + AllocGlobal + Abort>(rt: &T) -> Result<(), Fail> {
    for row in FORMS {
        assert!(rt; contains(rt, row)?, "of {row:?}");
    }
    Ok(())
}

#[test]
fn large_checks(rt: HostRuntime) -> Result<(), Fail> {
    make(&rt)?;
    expect_rows(&rt)?;
    expect_forms(&rt)?;
    assert!(rt; finds_all(&rt)?, "each by its path");
    assert!(rt; repeats(&rt)?, "one line again and again");
    fs::remove_dir_all(&rt, "large")?;
    Ok(())
}
