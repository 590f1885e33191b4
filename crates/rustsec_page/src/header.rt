//! Writes the beginning of the page: its style sheet, and its summary.

ghost use Rattle.std.specs.Prelude.{◌≡◌, ◌++◌, OnOk, length, not, string_bytes};
ghost use Rattle.std.specs.List.{filter};
ghost use Rattle.rustsec_check_output.specs.CheckText.{is_vulnerability};
ghost use Rattle.rustsec_page.specs.Page.{below, below_words, counted, found, head, header, looked_at, page_styles, part_styles, styles};
ghost use Rattle.rustsec_page.specs.Pieces.{text_of};

use crate::frame::Frame;
use crate::pieces::{push_frame, push_number, push_style};
use crate::style::Style;
use rustsec_check::Finding;
use rustsec_check_output::Written;
use std::alloc::{AllocError, Global};

/// Appends the style of the page as a whole.
#[tactic(auto, unfolding(crate::specs::Page::page_styles))]
fn push_page_styles(text: &mut String) -> Result<(), AllocError>
    ensures { OnOk result (string_bytes text.new ≡ string_bytes text.old ++ text_of page_styles) }
{
    push_style(text, Style::Light)?;
    push_style(text, Style::Dark)?;
    push_style(text, Style::Layout)?;
    push_style(text, Style::Words)?;
    Ok(())
}

/// Appends the style of the parts of the page.
#[tactic(auto, unfolding(crate::specs::Page::part_styles))]
fn push_part_styles(text: &mut String) -> Result<(), AllocError>
    ensures { OnOk result (string_bytes text.new ≡ string_bytes text.old ++ text_of part_styles) }
{
    push_style(text, Style::Cards)?;
    push_style(text, Style::Lines)?;
    push_style(text, Style::Trees)?;
    push_style(text, Style::Media)?;
    Ok(())
}

/// Appends the style sheet.
#[tactic(auto, unfolding(crate::specs::Page::styles))]
fn push_styles(text: &mut String) -> Result<(), AllocError>
    ensures { OnOk result (string_bytes text.new ≡ string_bytes text.old ++ text_of styles) }
{
    push_page_styles(text)?;
    push_part_styles(text)?;
    Ok(())
}

/// Appends a number of things, in the singular or in the plural.
#[tactic(auto, unfolding(crate::specs::Page::counted))]
fn push_counted(
    alloc: Global,
    text: &mut String,
    n: usize,
    one: Frame,
    many: Frame,
) -> Result<(), AllocError>
    ensures { OnOk result (string_bytes text.new ≡ string_bytes text.old ++ text_of (counted n one many)) }
{
    push_number(alloc, text, n as u128)?;
    push_frame(text, if n == 1 { one } else { many })
}

/// Returns how many findings are vulnerabilities.
fn vulnerabilities_in(findings: &[Finding<'_>]) -> usize
    ensures { result ≡ length (filter is_vulnerability findings.now) }
{
    findings
        .iter()
        .filter(|finding| finding.kind.is_none())
        .count()
}

/// Returns how many findings are warnings.
fn warnings_in(findings: &[Finding<'_>]) -> usize
    ensures { result ≡ length (filter (λ f. not (is_vulnerability f)) findings.now) }
{
    findings
        .iter()
        .filter(|finding| finding.kind.is_some())
        .count()
}

/// Appends how many vulnerabilities, warnings and ignored pairs there are.
#[tactic(auto, unfolding(crate::specs::Page::found))]
fn push_found(
    alloc: Global,
    text: &mut String,
    findings: &[Finding<'_>],
    ignored: usize,
) -> Result<(), AllocError>
    ensures { OnOk result (string_bytes text.new ≡ string_bytes text.old ++ text_of (found findings.now ignored)) }
{
    let (vulnerabilities, warnings) = (vulnerabilities_in(findings), warnings_in(findings));
    push_counted(
        alloc,
        text,
        vulnerabilities,
        Frame::OneVulnerability,
        Frame::Vulnerabilities,
    )?;
    push_counted(alloc, text, warnings, Frame::OneWarning, Frame::Warnings)?;
    push_number(alloc, text, ignored as u128)?;
    push_frame(text, Frame::SummaryEnd)
}

/// Appends how many advisories and packages were looked at.
#[tactic(auto, unfolding(crate::specs::Page::looked_at))]
fn push_looked_at(
    alloc: Global,
    text: &mut String,
    advisories: usize,
    packages: usize,
) -> Result<(), AllocError>
    ensures { OnOk result (string_bytes text.new ≡ string_bytes text.old ++ text_of (looked_at advisories packages)) }
{
    push_counted(
        alloc,
        text,
        advisories,
        Frame::OneAdvisory,
        Frame::Advisories,
    )?;
    push_counted(alloc, text, packages, Frame::OnePackage, Frame::Packages)
}

/// Appends how many pairs the least severity alone leaves out.
#[tactic(auto, unfolding(crate::specs::Page::below_words))]
fn push_below_words(alloc: Global, text: &mut String, count: usize) -> Result<(), AllocError>
    ensures { OnOk result (string_bytes text.new ≡ string_bytes text.old ++ text_of (below_words count)) }
{
    push_frame(text, Frame::BelowStart)?;
    push_number(alloc, text, count as u128)?;
    push_frame(text, Frame::ParagraphEnd)
}

/// Appends how many pairs the least severity alone leaves out, if any.
fn push_below(alloc: Global, text: &mut String, count: usize) -> Result<(), AllocError>
    ensures { OnOk result (string_bytes text.new ≡ string_bytes text.old ++ text_of (below count)) }
{
    if count > 0 {
        push_below_words(alloc, text, count)?;
    }
    Ok(())
}

/// Appends the summary of the page.
#[tactic(auto, unfolding(crate::specs::Page::header))]
fn push_header(
    alloc: Global,
    text: &mut String,
    written: &Written<'_, '_>,
) -> Result<(), AllocError>
    ensures { OnOk result (string_bytes text.new ≡ string_bytes text.old ++ text_of (header written.now)) }
{
    let check = written.check;
    push_found(alloc, text, check.findings.as_slice(), check.ignored.len())?;
    let advisories = written.database.count();
    push_looked_at(alloc, text, advisories, written.lockfile.packages.len())?;
    push_below(alloc, text, check.below_threshold)?;
    push_frame(text, Frame::MainStart)
}

/// Appends the page up to the findings.
#[tactic(auto, unfolding(crate::specs::Page::head))]
pub(crate) fn push_head(
    alloc: Global,
    text: &mut String,
    written: &Written<'_, '_>,
) -> Result<(), AllocError>
    ensures { OnOk result (string_bytes text.new ≡ string_bytes text.old ++ text_of (head written.now)) }
{
    push_frame(text, Frame::PageStart)?;
    push_styles(text)?;
    push_frame(text, Frame::BodyStart)?;
    push_header(alloc, text, written)
}
