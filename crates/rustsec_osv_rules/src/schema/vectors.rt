//! The scores of severities: vectors of CVSS 2, 3 and 4, and the priorities of Ubuntu.

ghost use Rattle.std.specs.Prelude.{◌≡◌, map, option_map};
ghost use Rattle.std.specs.List.{list_all};
ghost use Rattle.rustsec_osv_rules.specs.schema.Rows.{row_of};
ghost use Rattle.rustsec_osv_rules.specs.schema.VectorScan.{after_prefix, are_metrics_3, base_rows_3, base_rows_4, is_end_4, is_metric_2, is_metric_3, is_score, is_vector_2, is_vector_3, is_vector_4, is_version_3, other_rows_3, other_rows_4, parts_of, rows_2, threat_rows_4, urgencies_4, words_2};

use crate::schema::metrics::{Row, after_each, after_optionals, after_prefix, is_metric_of};
use crate::schema::names::{is_one_of, priorities};

/// Returns the metrics of CVSS 2 with letters.
#[tactic(auto, unfolding(crate::specs::schema::VectorScan::rows_2))]
fn rows_2() -> &'static [Row]
    ensures { map row_of result.now ≡ rows_2 }
{
    &[
        ("AV:", "NAL"),
        ("AC:", "LMH"),
        ("Au:", "MSN"),
        ("C:", "NPC"),
        ("I:", "NPC"),
        ("A:", "NPC"),
        ("E:", "UFH"),
        ("RL:", "WU"),
        ("RC:", "C"),
        ("CDP:", "NLH"),
        ("TD:", "NLMH"),
        ("CR:", "LMH"),
        ("IR:", "LMH"),
        ("AR:", "LMH"),
    ]
}

/// Returns the metrics of CVSS 2 whose values have more letters.
#[tactic(auto, unfolding(crate::specs::schema::VectorScan::words_2))]
fn words_2() -> &'static [&'static str]
    ensures { map (λ n. n.now) result.now ≡ words_2 }
{
    &[
        "E:POC", "E:ND", "RL:OF", "RL:TF", "RL:ND", "RC:UC", "RC:UR", "RC:ND", "CDP:LM", "CDP:MH",
        "CDP:ND", "TD:ND", "CR:ND", "IR:ND", "AR:ND",
    ]
}

/// Returns the base metrics of CVSS 3.
#[tactic(auto, unfolding(crate::specs::schema::VectorScan::base_rows_3))]
fn base_rows_3() -> &'static [Row]
    ensures { map row_of result.now ≡ base_rows_3 }
{
    &[
        ("AV:", "NALP"),
        ("AC:", "LH"),
        ("PR:", "NLH"),
        ("UI:", "NR"),
        ("S:", "UC"),
        ("C:", "NLH"),
        ("I:", "NLH"),
        ("A:", "NLH"),
    ]
}

/// Returns the other metrics of CVSS 3.
#[tactic(auto, unfolding(crate::specs::schema::VectorScan::other_rows_3))]
fn other_rows_3() -> &'static [Row]
    ensures { map row_of result.now ≡ other_rows_3 }
{
    &[
        ("E:", "XUPFH"),
        ("RL:", "XOTWU"),
        ("RC:", "XURC"),
        ("CR:", "XLMH"),
        ("IR:", "XLMH"),
        ("AR:", "XLMH"),
        ("MAV:", "XNALP"),
        ("MAC:", "XLH"),
        ("MPR:", "XNLH"),
        ("MUI:", "XNR"),
        ("MS:", "XUC"),
        ("MC:", "XNLH"),
        ("MI:", "XNLH"),
        ("MA:", "XNLH"),
    ]
}

/// Returns the base metrics of CVSS 4.
#[tactic(auto, unfolding(crate::specs::schema::VectorScan::base_rows_4))]
fn base_rows_4() -> &'static [Row]
    ensures { map row_of result.now ≡ base_rows_4 }
{
    &[
        ("/AV:", "NALP"),
        ("/AC:", "LH"),
        ("/AT:", "NP"),
        ("/PR:", "NLH"),
        ("/UI:", "NPA"),
        ("/VC:", "HLN"),
        ("/VI:", "HLN"),
        ("/VA:", "HLN"),
        ("/SC:", "HLN"),
        ("/SI:", "HLN"),
        ("/SA:", "HLN"),
    ]
}

/// Returns the first optional metrics of CVSS 4.
#[tactic(auto, unfolding(crate::specs::schema::VectorScan::threat_rows_4))]
fn threat_rows_4() -> &'static [Row]
    ensures { map row_of result.now ≡ threat_rows_4 }
{
    &[
        ("/E:", "XAPU"),
        ("/CR:", "XHML"),
        ("/IR:", "XHML"),
        ("/AR:", "XHML"),
        ("/MAV:", "XNALP"),
        ("/MAC:", "XLH"),
        ("/MAT:", "XNP"),
        ("/MPR:", "XNLH"),
        ("/MUI:", "XNPA"),
    ]
}

/// Returns the other optional metrics of CVSS 4, without the last.
#[tactic(auto, unfolding(crate::specs::schema::VectorScan::other_rows_4))]
fn other_rows_4() -> &'static [Row]
    ensures { map row_of result.now ≡ other_rows_4 }
{
    &[
        ("/MVC:", "XNLH"),
        ("/MVI:", "XNLH"),
        ("/MVA:", "XNLH"),
        ("/MSC:", "XNLH"),
        ("/MSI:", "XNLHS"),
        ("/MSA:", "XNLHS"),
        ("/S:", "XNP"),
        ("/AU:", "XNY"),
        ("/R:", "XAUI"),
        ("/V:", "XDC"),
        ("/RE:", "XLMH"),
    ]
}

/// Returns what may end a vector of CVSS 4: the urgency of the provider.
#[tactic(auto, unfolding(crate::specs::schema::VectorScan::urgencies_4))]
fn urgencies_4() -> &'static [&'static str]
    ensures { map (λ n. n.now) result.now ≡ urgencies_4 }
{
    &["", "/U:X", "/U:Clear", "/U:Green", "/U:Amber", "/U:Red"]
}

/// Returns whether a text is a metric of CVSS 2.
fn is_metric_2(text: &str) -> bool
    ensures { result ≡ is_metric_2 text.now }
{
    let text = text.as_bytes();
    is_metric_of(rows_2(), text) || is_one_of(words_2(), text)
}

/// Returns whether a text is a vector of CVSS 2.
#[tactic(auto, using(crate::proofs::schema::Parts::all_more, crate::proofs::schema::Parts::all_stop))]
fn is_vector_2(text: &str) -> bool
    ensures { result ≡ is_vector_2 text.now }
{
    let mut all = true;
    for part in text.split('/') {
        if !is_metric_2(part) {
            all = false;
        }
    }
    all
}

/// Returns whether a text is a metric of CVSS 3.
fn is_metric_3(text: &str) -> bool
    ensures { result ≡ is_metric_3 text.now }
{
    let text = text.as_bytes();
    is_metric_of(base_rows_3(), text) || is_metric_of(other_rows_3(), text)
}

/// Returns whether each part of a text between slashes is a metric of CVSS 3.
#[tactic(auto, using(crate::proofs::schema::Parts::all_more, crate::proofs::schema::Parts::all_stop))]
fn are_metrics_3(text: &str) -> bool
    ensures { result ≡ are_metrics_3 text.now }
{
    let mut all = true;
    for part in text.split('/') {
        if !is_metric_3(part) {
            all = false;
        }
    }
    all
}

/// Returns the text after a prefix, if it begins with the prefix.
fn text_after<'a>(prefix: &str, text: &'a str) -> Option<&'a str>
    ensures { option_map (λ t. t.now) result ≡ after_prefix prefix.now text.now }
{
    text.strip_prefix(prefix)
}

/// Returns whether metrics of CVSS 3 follow a version.
fn is_version_3(version: &str, text: &str) -> bool
    ensures { result ≡ is_version_3 version.now text.now }
{
    match text_after(version, text) {
        Some(rest) => are_metrics_3(rest),
        None => false,
    }
}

/// Returns whether a text is a vector of CVSS 3.0 or 3.1.
fn is_vector_3(text: &str) -> bool
    ensures { result ≡ is_vector_3 text.now }
{
    is_version_3("CVSS:3.0/", text) || is_version_3("CVSS:3.1/", text)
}

/// Returns whether a text may follow the base metrics of CVSS 4.
fn is_end_4(text: &[u8]) -> bool
    ensures { result ≡ is_end_4 text.now }
{
    let text = after_optionals(threat_rows_4(), text);
    is_one_of(urgencies_4(), after_optionals(other_rows_4(), text))
}

/// Returns whether a text is a vector of CVSS 4.
fn is_vector_4(text: &str) -> bool
    ensures { result ≡ is_vector_4 text.now }
{
    let version: &str = "CVSS:4.0";
    let Some(rest) = after_prefix(version.as_bytes(), text.as_bytes()) else {
        return false;
    };
    match after_each(base_rows_4(), rest) {
        Some(rest) => is_end_4(rest),
        None => false,
    }
}

/// Returns whether a text is a score of a type of severities.
pub(crate) fn is_score(kind: &str, score: &str) -> bool
    ensures { result ≡ is_score kind.now score.now }
{
    (kind == "CVSS_V2" && is_vector_2(score))
        || (kind == "CVSS_V3" && is_vector_3(score))
        || (kind == "CVSS_V4" && is_vector_4(score))
        || (kind == "Ubuntu" && is_one_of(priorities(), score.as_bytes()))
}
