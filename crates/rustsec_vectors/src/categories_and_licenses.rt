//! Categories, kinds of warnings, licenses and keywords by their texts.

use crate::rows::{compare, is_copied, prints, refuses};
use rustsec_fixtures::kind_of;
use rustsec_texts::{Category, Keyword, License, WarningKind};
use rustsec_values::ErrorKind;
use std::alloc::Global;
use std::cmp::Ordering;
use std::test::Fail;

/// The categories that have a name.
const CATEGORIES: [(&str, Category); 10] = [
    ("code-execution", Category::CodeExecution),
    ("crypto-failure", Category::CryptoFailure),
    ("denial-of-service", Category::DenialOfService),
    ("file-disclosure", Category::FileDisclosure),
    ("format-injection", Category::FormatInjection),
    ("malicious", Category::Malicious),
    ("memory-corruption", Category::MemoryCorruption),
    ("memory-exposure", Category::MemoryExposure),
    ("privilege-escalation", Category::PrivilegeEscalation),
    ("thread-safety", Category::ThreadSafety),
];

/// Returns whether a category has a text as its name, prints as it, and is copied.
fn has_name(alloc: Global, category: &Category, text: &str) -> Result<bool, Fail> {
    Ok(category.name() == text && prints(alloc, category, text)? && is_copied(category)?)
}

fn is_category(alloc: Global, text: &str, expected: &Category) -> Result<bool, Fail> {
    let category = Category::from_str(alloc, text)?;
    Ok(category == *expected && has_name(alloc, &category, text)?)
}

/// Returns whether a text is read as a category of its own, printed and copied.
fn is_other_category(alloc: Global, text: &str) -> Result<bool, Fail> {
    let category = Category::from_str(alloc, text)?;
    Ok(matches!(category, Category::Other(_)) && has_name(alloc, &category, text)?)
}

#[test]
fn categories(rt: HostRuntime) -> Result<(), Fail> {
    for (text, category) in CATEGORIES {
        assert!(rt; is_category(rt.alloc(), text, &category)?, "of {text}");
    }
    Ok(())
}

#[test]
fn categories_of_other_texts(rt: HostRuntime) -> Result<(), Fail> {
    for text in &["", "Malicious", "malicious "] {
        assert!(rt; is_other_category(rt.alloc(), text)?, "of {text}");
    }
    Ok(())
}

/// Categories, rising: those that have a name, and then others. The fifth is empty.
const RISING: &str = "code-execution,crypto-failure,malicious,thread-safety,,a,b";

#[test]
fn categories_in_order(rt: HostRuntime) -> Result<(), Fail> {
    for (low, high) in RISING.split(',').zip(RISING.split(',').skip(1)) {
        let is_below = compare::<Category>(rt.alloc(), low, high, Ordering::Less)?;
        assert!(rt; is_below, "{low} below {high}");
    }
    Ok(())
}

/// The kinds of warnings, rising.
const WARNING_KINDS: &[(&str, WarningKind)] = &[
    ("notice", WarningKind::Notice),
    ("unmaintained", WarningKind::Unmaintained),
    ("unsound", WarningKind::Unsound),
    ("yanked", WarningKind::Yanked),
];

fn is_warning_kind(alloc: Global, text: &str, kind: WarningKind) -> Result<bool, Fail> {
    let is_read = WarningKind::from_str(alloc, text)? == kind;
    Ok(is_read && kind.as_str() == text && prints(alloc, &kind, text)?)
}

#[test]
fn warning_kinds(rt: HostRuntime) -> Result<(), Fail> {
    for (text, kind) in WARNING_KINDS {
        assert!(rt; is_warning_kind(rt.alloc(), text, *kind)?, "of {text}");
    }
    for ((text, low), (_, high)) in WARNING_KINDS.iter().zip(WARNING_KINDS.iter().skip(1)) {
        assert!(rt; low.cmp(high).is_lt(), "{text} below the next");
    }
    Ok(())
}

/// The refusal of a long text, which is cut after 59 bytes, since the sixtieth is in the middle of a character.
const CUT: (&str, &str) = (
    "aaaaaaaaaaaaaaaaaaaaaaaaaaaaaaaaaaaaaaaaaaaaaaaaaaaaaaaaaaaé",
    "no kind of warnings has the name `aaaaaaaaaaaaaaaaaaaaaaaaaaaaaaaaaaaaaaaaaaaaaaaaaaaaaaaaaaa`, expected `notice`, `unmaintained`, `unsound` or `yanked`",
);

#[test]
fn warning_kinds_refused(rt: HostRuntime) {
    for text in &["", "Yanked", "malicious"] {
        let answer = WarningKind::from_str(rt.alloc(), text);
        assert!(rt; kind_of(answer) == Some(ErrorKind::Parse), "of {text}");
    }
    let answer = WarningKind::from_str(rt.alloc(), CUT.0);
    assert!(rt; refuses(answer, CUT.1, false));
}

fn is_license(alloc: Global, text: &str) -> Result<bool, Fail> {
    let license = License::from_str(alloc, text)?;
    Ok(license.spdx() == text && prints(alloc, &license, text)? && is_copied(&license)?)
}

fn is_this_license(alloc: Global, text: &str, expected: &License) -> Result<bool, Fail> {
    let license = License::from_str(alloc, text)?;
    Ok(license == *expected)
}

#[test]
fn licenses(rt: HostRuntime) -> Result<(), Fail> {
    for text in &["CC0-1.0", "CC-BY-4.0", "MPL-2.0", "cc0-1.0", ""] {
        assert!(rt; is_license(rt.alloc(), text)?, "of {text}");
    }
    assert!(rt; is_this_license(rt.alloc(), "CC0-1.0", &License::CcZero10)?);
    assert!(rt; is_this_license(rt.alloc(), "CC-BY-4.0", &License::CcBy40)?);
    assert!(rt; !is_this_license(rt.alloc(), "MPL-2.0", &License::CcBy40)?);
    assert!(rt; License::default() == License::CcZero10);
    Ok(())
}

fn is_keyword(alloc: Global, text: &str) -> Result<bool, Fail> {
    let keyword = Keyword::from_str(alloc, text)?;
    Ok(keyword.as_str() == text && prints(alloc, &keyword, text)? && is_copied(&keyword)?)
}

#[test]
fn keywords(rt: HostRuntime) -> Result<(), Fail> {
    for text in &["", "ssl", "Ünïcode keyword\n"] {
        assert!(rt; is_keyword(rt.alloc(), text)?, "of {text}");
    }
    assert!(rt; compare::<Keyword>(rt.alloc(), "a", "b", Ordering::Less)?);
    Ok(())
}
