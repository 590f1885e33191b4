//! Addresses that no advisory has, and long texts.

use rustsec_fixtures::exact_field;
use rustsec_markdown::markdown_escaped;
use rustsec_page::push_linked;
use std::alloc::Global;
use std::test::Fail;

/// Addresses that an advisory's reader writes in another way or refuses, and how the text `T` is written with each.
const LINKS: &[&str] = &[
    "https://example.com/\"onclick='x'> | <a href=\"https://example.com/&quot;onclick=&#39;x&#39;&gt;\" rel=\"noreferrer\">T</a>",
    " https://example.com/ | T",
    "HTTPS://example.com/ | T",
    "https:/example.com/ | T",
    " | T",
];

/// Returns whether the text `T` is written with an address as its row says.
fn is_linked(alloc: Global, row: &str) -> Result<bool, Fail> {
    let mut text = String::new(alloc);
    push_linked(&mut text, exact_field(row, 0), "T")?;
    Ok(text.as_str() == exact_field(row, 1))
}

#[test]
fn html_links(rt: HostRuntime) -> Result<(), Fail> {
    for row in LINKS {
        assert!(rt; is_linked(rt.alloc(), row)?, "of {row}");
    }
    Ok(())
}

/// How many characters a long text has.
const LONG: usize = 65536;

/// Returns whether a long text of one character, with a line at its end, is written as the character is written.
fn long_is_escaped(alloc: Global, character: &str, written: &str) -> Result<bool, Fail> {
    let text = character.repeat(alloc, LONG)?;
    let text = format!(in alloc; "{text}|")?;
    let wanted = written.repeat(alloc, LONG)?;
    let found = markdown_escaped(alloc, &text)?;
    Ok(found.strip_suffix("&#124;") == Some(wanted.as_str()))
}

/// Characters, and how each is written in Markdown.
const ESCAPED: &[(&str, &str)] = &[("a", "a"), ("<", "&#60;"), ("@", "&#8288;&#64;&#8288;")];

#[test]
fn markdown_escapes_of_long_texts(rt: HostRuntime) -> Result<(), Fail> {
    for (character, written) in ESCAPED {
        assert!(rt; long_is_escaped(rt.alloc(), character, written)?);
    }
    Ok(())
}
