//! Writes the page of a check.

ghost use Rattle.std.specs.Prelude.{◌≡◌, ◌++◌, List, ℕ, IfErr, IfOk, OnOk, string_bytes};
ghost use Rattle.std.specs.List.{filter};
ghost use Rattle.rustsec_values.specs.Failure.{IsMemory};
ghost use Rattle.rustsec_page.specs.Escaped.{HasNoMarks, escaped, is_mark};
ghost use Rattle.rustsec_page.specs.Page.{HasOwnMarks, IsPage, findings, page};
ghost use Rattle.rustsec_page.specs.Pieces.{Piece, marks, text_of};

use crate::drawn::{Drawn, all_drawn};
use crate::frame::Frame;
use crate::header::push_head;
use crate::lists::push_lists;
use crate::pieces::push_frame;
use crate::ranked::{Found, push_by_rank};
use rustsec_check_output::Written;
use rustsec_values::Result;
use std::alloc::{AllocError, Global};

/// Appends the findings, or that there is none.
fn push_findings(
    alloc: Global,
    text: &mut String,
    found: &Found<'_>,
) -> std::result::Result<(), AllocError>
    ensures { OnOk result (string_bytes text.new ≡ string_bytes text.old
        ++ text_of (findings found.now.packages.now found.now.drawn.now)) }
{
    if found.drawn.is_empty() {
        push_frame(text, Frame::NoFindings)
    } else {
        push_by_rank(alloc, text, found)
    }
}

/// Appends the page over findings with their ranges.
#[tactic(auto, unfolding(crate::specs::Page::page))]
fn push_page(
    alloc: Global,
    text: &mut String,
    written: &Written<'_, '_>,
    drawn: &[Drawn<'_>],
) -> std::result::Result<(), AllocError>
    ensures { OnOk result (string_bytes text.new ≡ string_bytes text.old ++ text_of (page written.now drawn.now)) }
{
    let found = Found {
        packages: written.lockfile.packages.as_slice(),
        drawn,
    };
    push_head(alloc, text, written)?;
    push_findings(alloc, text, &found)?;
    push_lists(alloc, text, written)?;
    push_frame(text, Frame::PageEnd)
}

/// Returns a check as a page for a browser: one document, which loads nothing and runs nothing. It shows how many findings
/// there are, each finding by severity with its line of versions, yanked packages, ignored pairs, ignored IDs without
/// effect, and notes.
///
/// # Errors
///
/// `OutOfMemory` alone.
#[tactic(auto, using(crate::proofs::NoMarks::no_marks, crate::proofs::NoMarks::marks_of_markup))]
pub fn page_text(alloc: Global, written: &Written<'_, '_>) -> Result<String>
    ensures ok { IfOk result (λ t. IsPage written.now (string_bytes t)) }

    // A text of a file is written without `<`, `>`, `"` and `'`.
    ensures escaped { (t : List ℕ) → HasNoMarks (escaped t) }

    // So these bytes of any pieces are those of their markup, in their order.
    ensures marks { (ps : List Piece) → filter is_mark (text_of ps) ≡ marks ps }

    // And these bytes of this page are those of its own markup.
    ensures own { IfOk result (λ t. HasOwnMarks written.now (string_bytes t)) }
    ensures err { IfErr result IsMemory }
{
    let check = written.check;
    let drawn = all_drawn(alloc, check.findings.as_slice())?;
    let mut text = String::new(alloc);
    push_page(alloc, &mut text, written, drawn.as_slice())?;
    Ok(text)
}
