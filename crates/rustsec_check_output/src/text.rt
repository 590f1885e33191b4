//! Writes the text of a check for people.

ghost use Rattle.std.specs.Prelude.{◌≡◌, ◌++◌, IfErr, IfOk, OnOk, string_bytes};
ghost use Rattle.rustsec_values.specs.Failure.{IsMemory};
ghost use Rattle.rustsec_check_output.specs.CheckText.{blocks, check_text};

use crate::blocks::{Page, push_blocks};
use crate::lines::{push_further, push_last};
use crate::rank::with_ranks;
use crate::written::Written;
use crate::yanked_block::push_yanked;
use rustsec_values::Result;
use std::alloc::{AllocError, Global};

/// Appends the blocks of all findings of a check.
#[tactic(auto, unfolding(crate::specs::CheckText::blocks))]
fn push_findings(
    alloc: Global,
    text: &mut String,
    colored: bool,
    written: &Written<'_, '_>,
) -> std::result::Result<(), AllocError>
    ensures { OnOk result (string_bytes text.new ≡ string_bytes text.old ++ blocks colored written.now) }
{
    let lockfile = written.lockfile;
    let check = written.check;
    let ranked = with_ranks(alloc, check.findings.as_slice())?;
    let page = Page {
        packages: lockfile.packages.as_slice(),
        findings: ranked.as_slice(),
        colored,
    };
    push_blocks(alloc, text, &page)?;
    Ok(())
}

/// Returns the text of a check for people: a block of lines for each finding, the package with the most severe finding
/// first, a block for each yanked package, a line for each ignored pair, for each ignored ID without effect, for the
/// pairs below the least severity and for each note, and a line that counts them. With `colored` the IDs are bold and
/// the ratings red, by codes of ECMA-48. Texts from files are escaped, so that none of them adds a line.
///
/// # Errors
///
/// `OutOfMemory` alone.
#[tactic(auto, unfolding(crate::specs::CheckText::check_text))]
pub fn check_text(alloc: Global, written: &Written<'_, '_>, colored: bool) -> Result<String>
    ensures ok { IfOk result (λ t. string_bytes t ≡ check_text colored written.now) }
    ensures err { IfErr result IsMemory }
{
    let mut text = String::new(alloc);
    push_findings(alloc, &mut text, colored, written)?;
    let packages = written.lockfile.packages.as_slice();
    push_yanked(&mut text, colored, packages, written.yanked)?;
    push_further(&mut text, written)?;
    push_last(&mut text, written)?;
    Ok(text)
}
