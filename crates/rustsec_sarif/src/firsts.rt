//! The advisories of findings, each once.

ghost use Rattle.std.specs.Prelude.{◌≡◌, ◌++◌, [], IfOk, OnOk, map, not};
ghost use Rattle.std.specs.List.{list_any, prefix_len};
ghost use Rattle.rustsec_sarif.specs.SarifTree.{firsts, if_first, is_same};

use rustsec_check::Finding;
use std::alloc::{AllocError, Global};

/// Returns whether two findings are about advisories with the same ID.
fn is_same(finding: &Finding<'_>, other: &Finding<'_>) -> bool
    ensures { result ≡ is_same finding.now other.now }
{
    finding.advisory.metadata.id.as_str() == other.advisory.metadata.id.as_str()
}

/// Returns whether one of some findings is about the advisory of a finding.
fn has_same(findings: &[&Finding<'_>], finding: &Finding<'_>) -> bool
    ensures { result ≡ list_any (λ f. is_same finding.now f.now) findings.now }
{
    findings.iter().any(|other| is_same(finding, other))
}

/// Appends a finding unless one of those before it is about its advisory.
fn push_first<'a, 'b>(
    first: &mut Vec<&'a Finding<'b>>,
    finding: &'a Finding<'b>,
) -> Result<(), AllocError>
    ensures { OnOk result (map (λ f. f.now) first.new.items
        ≡ map (λ f. f.now) first.old.items ++ if_first (map (λ f. f.now) first.old.items) finding.now) }
{
    if !has_same(first.as_slice(), finding) {
        first.push(finding)?;
    }
    Ok(())
}

/// Returns the first finding about each advisory, in order.
pub(crate) fn firsts<'a, 'b>(
    alloc: Global,
    findings: &'a [Finding<'b>],
) -> Result<Vec<&'a Finding<'b>>, AllocError>
    ensures { IfOk result (λ v. map (λ f. f.now) v.items ≡ firsts [] findings.now) }
{
    let mut first = Vec::new(alloc);
    for finding in findings {
        push_first(&mut first, finding)?;
    }
    Ok(first)
}

/// Returns the place of a finding's advisory among those of some findings, or their number if it has none.
pub(crate) fn rule_index(rules: &[&Finding<'_>], finding: &Finding<'_>) -> usize
    ensures { result ≡ prefix_len (λ r. not (is_same finding.now r.now)) rules.now }
{
    rules
        .iter()
        .take_while(|rule| !is_same(finding, rule))
        .count()
}
