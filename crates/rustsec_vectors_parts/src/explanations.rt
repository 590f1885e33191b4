//! Reasons that no command shows, and their words: an advisory in no collection, one about another package, an ignored
//! ID, and requirements that an advisory does not have. The words are those that the doc comment of `Reason::text`
//! states.

use rustsec_advisory::Advisory;
use rustsec_explain::{Explained, Reason, reasons};
use rustsec_explain_output::{Rules, explain_text, explain_tree};
use rustsec_fixtures::exact_field;
use rustsec_lock::SourceId;
use rustsec_lock::package::{Name, Package};
use rustsec_report::Settings;
use rustsec_texts::Id;
use rustsec_values::Items;
use semver::Version;
use std::alloc::Global;
use std::test::Fail;

/// The answer of a helper; and an advisory and a package.
type Answer = Result<bool, Fail>;

type Pair<'a> = (&'a Advisory, &'a Package);

/// Returns an advisory about `base` with these keys. It is patched from 1.2.3 on, and does not affect versions below
/// 0.5.0.
fn advisory(alloc: Global, keys: &str) -> Result<Advisory, Fail> {
    let text = format!(in alloc;
        "```toml\n[advisory]\nid = \"RUSTSEC-2020-0001\"\npackage = \"base\"\ndate = \"2020-01-02\"\n{keys}\n\n[versions]\npatched = [\">= 1.2.3\"]\nunaffected = [\"< 0.5.0\"]\n```\n\n# A title\n\nA text.\n"
    )?;
    Ok(Advisory::from_str(alloc, &text)?)
}

fn package(alloc: Global, name: &str, version: &str, source: &str) -> Result<Package, Fail> {
    let source = SourceId::from_url(alloc, source)?;
    let version = Version::parse(alloc, version)?;
    let name = Name::from_str(alloc, name)?;
    Ok(Package {
        name,
        version,
        source: Some(source),
        checksum: None,
    })
}

/// Keys of the advisory, the name and version of a package of the default registry, ignored IDs, and each reason with
/// its words.
const REASONS: &[&str] = &[
    " | base | 1.0.0 |  | OtherCollection: the advisory is in no collection\n",
    "collection = \"crates\" | other | 1.0.0 |  | OtherPackage: the advisory is about `base` and not about `other`\n",
    "collection = \"crates\" | base | 1.0.0 | CVE-2020-0001 RUSTSEC-2020-0001 | Ignored: the ID `RUSTSEC-2020-0001` is ignored\n",
    "withdrawn = \"2021-03-04\"\ninformational = \"hint\"\nsource = \"git+https://example.com/base\" | other | 1.2.3 | RUSTSEC-2020-0001 | OtherCollection: the advisory is in no collection\nOtherPackage: the advisory is about `base` and not about `other`\nHeldByPatched(0): patched `>=1.2.3` holds 1.2.3\nOtherSource: the advisory is about `git+https://example.com/base` and not about `registry+https://github.com/rust-lang/crates.io-index`\nWithdrawn: withdrawn on 2021-03-04\nKindNotWanted: the kind `hint` is not asked for\nKindWithoutWarnings: the kind `hint` gives no warnings\nIgnored: the ID `RUSTSEC-2020-0001` is ignored\n",
];

/// Returns the reasons of a pair with their words, a line each.
fn told(alloc: Global, settings: &Settings, pair: Pair<'_>) -> Result<String, Fail> {
    let (advisory, package) = pair;
    let mut text = String::new(alloc);
    for reason in &reasons(alloc, settings, advisory, package)? {
        let words = reason.text(alloc, settings, advisory, package)?;
        text.push_str(&format!(in alloc; "{reason:?}: {words}\n")?)?;
    }
    Ok(text)
}

/// Returns whether a row holds for settings.
fn holds_with(alloc: Global, settings: &Settings, row: &str) -> Result<bool, Fail> {
    let source = "registry+https://github.com/rust-lang/crates.io-index";
    let advisory = advisory(alloc, exact_field(row, 0))?;
    let package = package(alloc, exact_field(row, 1), exact_field(row, 2), source)?;
    let told = told(alloc, settings, (&advisory, &package))?;
    Ok(told.as_str() == exact_field(row, 4))
}

fn holds(alloc: Global, row: &str) -> Result<bool, Fail> {
    let mut settings = Settings::new(alloc);
    for id in exact_field(row, 3).split_whitespace() {
        settings.ignore.push(Id::from_str(alloc, id)?)?;
    }
    holds_with(alloc, &settings, row)
}

#[test]
fn reasons_of_pairs(rt: HostRuntime) -> Result<(), Fail> {
    for row in REASONS {
        assert!(rt; holds(rt.alloc(), row)?, "of {row}");
    }
    Ok(())
}

/// Reasons; and the name and version of a package of the sparse index, and how its pair is written as JSON and as text.
type Row<'a> = (&'a [Reason], &'a str);

/// A name with hidden characters, a requirement that the advisory does not have, and all reasons that compare no
/// requirement.
const WRITTEN: &[Row<'static>] = &[
    (
        &[Reason::HeldByUnaffected(0), Reason::Ignored],
        "ba\nse\u{202e}é | 0.1.0 | [{\"advisory\":\"RUSTSEC-2020-0001\",\"finding\":false,\"package\":{\"name\":\"ba\\nse\u{202e}é\",\"source\":\"sparse+https://index.crates.io/\",\"version\":\"0.1.0\"},\"reasons\":[{\"reason\":\"held-by-unaffected\",\"requirement\":\"<0.5.0\",\"text\":\"unaffected `<0.5.0` holds 0.1.0\"},{\"entry\":null,\"reason\":\"ignored\",\"text\":\"the ID `RUSTSEC-2020-0001` is ignored by the command line\"}]}] | ba\\u{a}se\\u{202e}é 0.1.0 RUSTSEC-2020-0001: unaffected `<0.5.0` holds 0.1.0; the ID `RUSTSEC-2020-0001` is ignored by the command line\n",
    ),
    (
        &[Reason::HeldByPatched(1)],
        "base | 1.4.0-rc.1 | [{\"advisory\":\"RUSTSEC-2020-0001\",\"finding\":false,\"package\":{\"name\":\"base\",\"source\":\"sparse+https://index.crates.io/\",\"version\":\"1.4.0-rc.1\"},\"reasons\":[{\"reason\":\"held-by-patched\",\"requirement\":null,\"text\":\"patched requirement 1 holds 1.4.0-rc.1\"}]}] | base 1.4.0-rc.1 RUSTSEC-2020-0001: patched requirement 1 holds 1.4.0-rc.1\n",
    ),
    (
        &[
            Reason::WithoutSource,
            Reason::NotAudited,
            Reason::OtherCollection,
            Reason::OtherPackage,
            Reason::OtherSource,
            Reason::BelowThreshold,
            Reason::OtherArchitecture,
            Reason::OtherSystem,
            Reason::Withdrawn,
            Reason::KindNotWanted,
            Reason::KindWithoutWarnings,
            Reason::Ignored,
        ],
        "base | 1.4.0 | [{\"advisory\":\"RUSTSEC-2020-0001\",\"finding\":false,\"package\":{\"name\":\"base\",\"source\":\"sparse+https://index.crates.io/\",\"version\":\"1.4.0\"},\"reasons\":[{\"reason\":\"without-source\",\"text\":\"the package has no source\"},{\"reason\":\"not-audited\",\"text\":\"the source `sparse+https://index.crates.io/` is not the default registry\"},{\"reason\":\"other-collection\",\"text\":\"the advisory is in no collection\"},{\"reason\":\"other-package\",\"text\":\"the advisory is about `base` and not about `base`\"},{\"reason\":\"other-source\",\"text\":\"the advisory is about the default registry's index in git and not about `sparse+https://index.crates.io/`\"},{\"reason\":\"below-threshold\",\"text\":\"the severity is below the least one\"},{\"reason\":\"other-architecture\",\"text\":\"no affected architecture is asked for\"},{\"reason\":\"other-system\",\"text\":\"no affected system is asked for\"},{\"reason\":\"withdrawn\",\"text\":\"withdrawn\"},{\"reason\":\"kind-not-wanted\",\"text\":\"the kind is not asked for\"},{\"reason\":\"kind-without-warnings\",\"text\":\"the kind gives no warnings\"},{\"entry\":null,\"reason\":\"ignored\",\"text\":\"the ID `RUSTSEC-2020-0001` is ignored by the command line\"}]}] | base 1.4.0 RUSTSEC-2020-0001: the package has no source; the source `sparse+https://index.crates.io/` is not the default registry; the advisory is in no collection; the advisory is about `base` and not about `base`; the advisory is about the default registry's index in git and not about `sparse+https://index.crates.io/`; the severity is below the least one; no affected architecture is asked for; no affected system is asked for; withdrawn; the kind is not asked for; the kind gives no warnings; the ID `RUSTSEC-2020-0001` is ignored by the command line\n",
    ),
];

/// Returns whether the JSON of pairs, or the text, is that of a row.
fn has_json(alloc: Global, rules: &Rules<'_>, pairs: &[Explained<'_>], row: &str) -> Answer {
    let tree = explain_tree(alloc, rules, pairs)?;
    let found = tree.to_string(alloc)?;
    Ok(found.as_str() == exact_field(row, 2))
}

fn has_text(alloc: Global, rules: &Rules<'_>, pairs: &[Explained<'_>], row: &str) -> Answer {
    let found = explain_text(alloc, rules, pairs)?;
    Ok(found.as_str() == exact_field(row, 3))
}

/// Returns whether pairs are written as a row says, without a policy.
fn are_written(alloc: Global, pairs: &[Explained<'_>], row: &str) -> Answer {
    let settings = Settings::new(alloc);
    let rules = Rules {
        settings: &settings,
        entries: &[],
    };
    Ok(has_json(alloc, &rules, pairs, row)? && has_text(alloc, &rules, pairs, row)?)
}

/// Returns whether a pair with a row's reasons is written as the row says.
fn is_written(alloc: Global, pair: Pair<'_>, row: &Row<'_>) -> Answer {
    let mut reasons = Items::new(alloc);
    for reason in row.0 {
        reasons.push(*reason)?;
    }
    let explained = Explained {
        advisory: pair.0,
        package: pair.1,
        reasons,
    };
    are_written(alloc, &[explained], row.1)
}

fn row_is_written(alloc: Global, advisory: &Advisory, row: &Row<'_>) -> Answer {
    let (name, version) = (exact_field(row.1, 0), exact_field(row.1, 1));
    let package = package(alloc, name, version, "sparse+https://index.crates.io/")?;
    is_written(alloc, (advisory, &package), row)
}

#[test]
fn one_pair(rt: HostRuntime) -> Result<(), Fail> {
    let advisory = advisory(rt.alloc(), "")?;
    for row in WRITTEN {
        assert!(rt; row_is_written(rt.alloc(), &advisory, row)?, "of {row:?}");
    }
    Ok(())
}
