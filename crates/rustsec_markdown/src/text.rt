//! Writes the text of a check for a comment on a pull request.

ghost use Rattle.std.specs.Prelude.{◌≡◌, ◌++◌, ◌+◌, ◌≤◌, not, IfErr, IfOk, OnOk, length, map, string_bytes};
ghost use Rattle.std.specs.List.{filter};
ghost use Rattle.rustsec_values.specs.Failure.{IsMemory};
ghost use Rattle.rustsec_markdown.specs.MarkdownText.{found_words, further_lines, head, list, looked_at_words, markdown_text, row, table};

use crate::fitting::{push_counted, push_list, push_number, push_table};
use crate::lines::further_lines;
use crate::row::rows;
use rustsec_check::Finding;
use rustsec_check_output::Written;
use rustsec_values::Result;
use std::alloc::{AllocError, Global};

/// Returns how many findings are denied.
fn denied_in(findings: &[Finding<'_>]) -> usize
    ensures { result ≡ length (filter (λ f. f.is_denied) findings.now) }
{
    findings.iter().filter(|finding| finding.is_denied).count()
}

/// Returns how many findings are not denied.
fn allowed_in(findings: &[Finding<'_>]) -> usize
    ensures { result ≡ length (filter (λ f. not f.is_denied) findings.now) }
{
    findings.iter().filter(|finding| !finding.is_denied).count()
}

/// Appends how many findings there are, how many are denied and how many are not.
#[tactic(auto, unfolding(crate::specs::MarkdownText::found_words))]
fn push_found(text: &mut String, findings: &[Finding<'_>]) -> std::result::Result<(), AllocError>
    ensures ok { OnOk result (string_bytes text.new ≡ string_bytes text.old ++ found_words findings.now) }
    ensures short { OnOk result (length (string_bytes text.new) ≤ length (string_bytes text.old) + 150) }
{
    let (denied, allowed) = (denied_in(findings), allowed_in(findings));
    text.push_str("## ")?;
    push_counted(text, findings.len(), " finding: ", " findings: ")?;
    push_number(text, denied)?;
    text.push_str(" denied, ")?;
    push_number(text, allowed)?;
    text.push_str(" not denied\n")?;
    Ok(())
}

/// Appends how many packages and advisories were looked at.
#[tactic(auto, unfolding(crate::specs::MarkdownText::looked_at_words))]
fn push_looked_at(
    text: &mut String,
    packages: usize,
    advisories: usize,
) -> std::result::Result<(), AllocError>
    ensures ok { OnOk result (string_bytes text.new ≡ string_bytes text.old ++ looked_at_words packages advisories) }
    ensures short { OnOk result (length (string_bytes text.new) ≤ length (string_bytes text.old) + 150) }
{
    text.push_str("\nLooked at ")?;
    push_counted(text, packages, " package and ", " packages and ")?;
    push_counted(text, advisories, " advisory.\n", " advisories.\n")?;
    Ok(())
}

/// Appends how many packages and advisories a check looked at.
fn push_sizes(text: &mut String, written: &Written<'_, '_>) -> std::result::Result<(), AllocError>
    ensures ok { OnOk result (string_bytes text.new ≡ string_bytes text.old ++ looked_at_words (length written.now.packages) written.now.database.count) }
    ensures short { OnOk result (length (string_bytes text.new) ≤ length (string_bytes text.old) + 150) }
{
    let advisories = written.database.count();
    push_looked_at(text, written.lockfile.packages.len(), advisories)
}

/// Appends the heading, and how much was looked at.
#[tactic(auto, unfolding(crate::specs::MarkdownText::head))]
fn push_head(text: &mut String, written: &Written<'_, '_>) -> std::result::Result<(), AllocError>
    ensures ok { OnOk result (string_bytes text.new ≡ string_bytes text.old ++ head written.now) }
    ensures short { OnOk result (length (string_bytes text.new) ≤ length (string_bytes text.old) + 300) }
{
    let check = written.check;
    push_found(text, check.findings.as_slice())?;
    push_sizes(text, written)?;
    Ok(())
}

/// Appends the table of the findings.
fn push_findings(
    alloc: Global,
    text: &mut String,
    written: &Written<'_, '_>,
) -> std::result::Result<(), AllocError>
    ensures ok { OnOk result (string_bytes text.new ≡ string_bytes text.old ++ table (map (row written.now.packages) written.now.check.findings)) }
    ensures short { OnOk result (length (string_bytes text.new) ≤ length (string_bytes text.old) + 48_300) }
{
    let lockfile = written.lockfile;
    let check = written.check;
    let rows = rows(
        alloc,
        lockfile.packages.as_slice(),
        check.findings.as_slice(),
    )?;
    push_table(text, rows.as_slice())
}

/// Appends the list of the rest.
fn push_rest(
    alloc: Global,
    text: &mut String,
    written: &Written<'_, '_>,
) -> std::result::Result<(), AllocError>
    ensures ok { OnOk result (string_bytes text.new ≡ string_bytes text.old ++ list (further_lines written.now)) }
    ensures short { OnOk result (length (string_bytes text.new) ≤ length (string_bytes text.old) + 16_200) }
{
    let lines = further_lines(alloc, written)?;
    push_list(text, lines.as_slice())
}

/// Returns the text of a check for a comment on a pull request, in GitHub Flavored Markdown: a heading that counts the
/// findings, a table with a row for each finding in the check's order, and a list of the yanked packages, the ignored
/// pairs, the ignored IDs without effect, the pairs below the least severity and the notes. The text has at most 65,000
/// bytes: a row or a line that does not fit is left out, and a line says how many are. Texts from files are escaped, so
/// that none of them adds a line, a cell, a link, a mention or any other markup.
///
/// # Errors
///
/// `OutOfMemory` alone.
#[tactic(auto, unfolding(crate::specs::MarkdownText::markdown_text))]
pub fn markdown_text(alloc: Global, written: &Written<'_, '_>) -> Result<String>
    ensures ok { IfOk result (λ t. string_bytes t ≡ markdown_text written.now) }
    ensures bounded { IfOk result (λ t. length (string_bytes t) ≤ 65_000) }
    ensures err { IfErr result IsMemory }
{
    let mut text = String::new(alloc);
    push_head(&mut text, written)?;
    push_findings(alloc, &mut text, written)?;
    push_rest(alloc, &mut text, written)?;
    Ok(text)
}
