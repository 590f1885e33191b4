//! The names that the OSV schema lists, and texts that are one of them or begin with one.

ghost use Rattle.std.specs.Prelude.{◌≡◌, map};
ghost use Rattle.rustsec_osv_rules.specs.schema.Names.{credit_types, ecosystems_a, ecosystems_b, ecosystems_c, id_prefixes_a, id_prefixes_b, id_prefixes_c, id_prefixes_d, priorities, range_types, reference_types};
ghost use Rattle.rustsec_osv_rules.specs.schema.Texts.{begins_with_one_of, has_suffix_of, is_one_of, is_suffix, is_suffixed};

use crate::schema::rule::Form;

/// Returns whether a text is one of some names.
#[tactic(auto, using(crate::proofs::schema::Folds::any_more, crate::proofs::schema::Folds::any_stop, crate::proofs::schema::Folds::any_end))]
pub(crate) fn is_one_of(names: &[&str], text: &[u8]) -> bool
    ensures { result ≡ is_one_of (map (λ n. n.now) names.now) text.now }
{
    for name in names {
        if text == name.as_bytes() {
            return true;
        }
    }
    false
}

/// Returns whether a text begins with one of some prefixes.
#[tactic(auto, using(crate::proofs::schema::Folds::any_more, crate::proofs::schema::Folds::any_stop, crate::proofs::schema::Folds::any_end))]
fn begins_with_one_of(prefixes: &[&str], text: &[u8]) -> bool
    ensures { result ≡ begins_with_one_of (map (λ p. p.now) prefixes.now) text.now }
{
    for prefix in prefixes {
        if text.starts_with(prefix.as_bytes()) {
            return true;
        }
    }
    false
}

/// Returns whether a text is empty, or a colon and more.
fn is_suffix(rest: &[u8]) -> bool
    ensures { result ≡ is_suffix rest.now }
{
    rest.is_empty() || (rest.len() > 1 && rest[0] == b':')
}

/// Returns whether a text is a name, which a suffix may follow.
fn is_suffixed(text: &[u8], name: &[u8]) -> bool
    ensures { result ≡ is_suffixed text.now name.now }
{
    if text.starts_with(name) {
        is_suffix(&text[name.len()..])
    } else {
        false
    }
}

/// Returns whether a text is one of some names, which a suffix may follow.
#[tactic(auto, using(crate::proofs::schema::Folds::any_more, crate::proofs::schema::Folds::any_stop, crate::proofs::schema::Folds::any_end))]
fn has_suffix_of(names: &[&str], text: &[u8]) -> bool
    ensures { result ≡ has_suffix_of (map (λ n. n.now) names.now) text.now }
{
    for name in names {
        if is_suffixed(text, name.as_bytes()) {
            return true;
        }
    }
    false
}

/// Returns the beginnings of IDs, the first of four parts.
#[tactic(auto, unfolding(crate::specs::schema::Names::id_prefixes_a))]
fn id_prefixes_a() -> &'static [&'static str]
    ensures { map (λ n. n.now) result.now ≡ id_prefixes_a }
{
    &[
        "ASB-A-", "PUB-A-", "ALSA-", "ALBA-", "ALEA-", "BIT-", "CGA-", "CURL-", "CVE-", "DSA-",
        "DLA-", "ELA-", "DTSA-",
    ]
}

/// Returns the second part of the beginnings of IDs.
#[tactic(auto, unfolding(crate::specs::schema::Names::id_prefixes_b))]
fn id_prefixes_b() -> &'static [&'static str]
    ensures { map (λ n. n.now) result.now ≡ id_prefixes_b }
{
    &[
        "GHSA-", "GO-", "GSD-", "HSEC-", "KUBE-", "LBSEC-", "MAL-", "MINI-", "MGASA-", "OESA-",
        "OSV-",
    ]
}

/// Returns the third part of the beginnings of IDs.
#[tactic(auto, unfolding(crate::specs::schema::Names::id_prefixes_c))]
fn id_prefixes_c() -> &'static [&'static str]
    ensures { map (λ n. n.now) result.now ≡ id_prefixes_c }
{
    &[
        "PHSA-", "PSF-", "PYSEC-", "RHBA-", "RHEA-", "RHSA-", "RLSA-", "RXSA-", "RSEC-",
        "RUSTSEC-", "UBUNTU-", "USN-", "V8-",
    ]
}

/// Returns the fourth part of the beginnings of IDs.
#[tactic(auto, unfolding(crate::specs::schema::Names::id_prefixes_d))]
fn id_prefixes_d() -> &'static [&'static str]
    ensures { map (λ n. n.now) result.now ≡ id_prefixes_d }
{
    &[
        "SUSE-SU-",
        "SUSE-RU-",
        "SUSE-FU-",
        "SUSE-OU-",
        "openSUSE-SU-",
        "openSUSE-RU-",
        "openSUSE-FU-",
        "openSUSE-OU-",
    ]
}

/// Returns the ecosystems, the first of three parts.
#[tactic(auto, unfolding(crate::specs::schema::Names::ecosystems_a))]
fn ecosystems_a() -> &'static [&'static str]
    ensures { map (λ n. n.now) result.now ≡ ecosystems_a }
{
    &[
        "AlmaLinux",
        "Alpine",
        "Android",
        "Bioconductor",
        "Bitnami",
        "Chainguard",
        "ConanCenter",
        "CRAN",
        "crates.io",
        "Debian",
        "GHC",
        "GitHub Actions",
    ]
}

/// Returns the second part of the ecosystems.
#[tactic(auto, unfolding(crate::specs::schema::Names::ecosystems_b))]
fn ecosystems_b() -> &'static [&'static str]
    ensures { map (λ n. n.now) result.now ≡ ecosystems_b }
{
    &[
        "Go",
        "Hackage",
        "Hex",
        "Kubernetes",
        "Linux",
        "Mageia",
        "Maven",
        "MinimOS",
        "npm",
        "NuGet",
        "openEuler",
        "openSUSE",
        "OSS-Fuzz",
    ]
}

/// Returns the third part of the ecosystems.
#[tactic(auto, unfolding(crate::specs::schema::Names::ecosystems_c))]
fn ecosystems_c() -> &'static [&'static str]
    ensures { map (λ n. n.now) result.now ≡ ecosystems_c }
{
    &[
        "Packagist",
        "Photon OS",
        "Pub",
        "PyPI",
        "Red Hat",
        "Rocky Linux",
        "RubyGems",
        "SUSE",
        "SwiftURL",
        "Ubuntu",
        "Wolfi",
        "GIT",
    ]
}

/// Returns the types of ranges.
#[tactic(auto, unfolding(crate::specs::schema::Names::range_types))]
pub(crate) fn range_types() -> &'static [&'static str]
    ensures { map (λ n. n.now) result.now ≡ range_types }
{
    &["GIT", "SEMVER", "ECOSYSTEM"]
}

/// Returns the types of references.
#[tactic(auto, unfolding(crate::specs::schema::Names::reference_types))]
pub(crate) fn reference_types() -> &'static [&'static str]
    ensures { map (λ n. n.now) result.now ≡ reference_types }
{
    &[
        "ADVISORY",
        "ARTICLE",
        "DETECTION",
        "DISCUSSION",
        "REPORT",
        "FIX",
        "INTRODUCED",
        "GIT",
        "PACKAGE",
        "EVIDENCE",
        "WEB",
    ]
}

/// Returns the types of credits.
#[tactic(auto, unfolding(crate::specs::schema::Names::credit_types))]
pub(crate) fn credit_types() -> &'static [&'static str]
    ensures { map (λ n. n.now) result.now ≡ credit_types }
{
    &[
        "FINDER",
        "REPORTER",
        "ANALYST",
        "COORDINATOR",
        "REMEDIATION_DEVELOPER",
        "REMEDIATION_REVIEWER",
        "REMEDIATION_VERIFIER",
        "TOOL",
        "SPONSOR",
        "OTHER",
    ]
}

/// Returns the priorities of Ubuntu.
#[tactic(auto, unfolding(crate::specs::schema::Names::priorities))]
pub(crate) fn priorities() -> &'static [&'static str]
    ensures { map (λ n. n.now) result.now ≡ priorities }
{
    &["negligible", "low", "medium", "high", "critical"]
}

/// An ID.
pub(crate) struct IdForm;

impl Form for IdForm {
    ghost use Rattle.rustsec_osv_rules.specs.schema.Texts.{is_id};

    ghost form = { is_id };

    fn fits(text: &str) -> bool {
        let text = text.as_bytes();
        begins_with_one_of(id_prefixes_a(), text)
            || begins_with_one_of(id_prefixes_b(), text)
            || begins_with_one_of(id_prefixes_c(), text)
            || begins_with_one_of(id_prefixes_d(), text)
    }
}

/// An ecosystem, with or without a suffix.
pub(crate) struct EcosystemForm;

impl Form for EcosystemForm {
    ghost use Rattle.rustsec_osv_rules.specs.schema.Texts.{is_ecosystem};

    ghost form = { is_ecosystem };

    fn fits(text: &str) -> bool {
        let text = text.as_bytes();
        if has_suffix_of(ecosystems_a(), text) || has_suffix_of(ecosystems_b(), text) {
            return true;
        }
        has_suffix_of(ecosystems_c(), text)
    }
}
