//! Severity: ratings of CVSS scores.

ghost use Rattle.std.specs.Prelude.{◌≡◌, Some};
ghost use Rattle.rustsec_lock.specs.Score.{severity_cmp, severity_of, severity_text};

use rustsec_values::{ExactClone, ExactEq, StatedOrder};
use std::fmt;

/// The qualitative rating of a score (CVSS 3.1, section 5).
#[derive(Clone, Copy, Debug, PartialEq, Eq, PartialOrd, Ord)]
pub enum Severity {
    /// 0.0.
    None,
    /// 0.1 to 3.9.
    Low,
    /// 4.0 to 6.9.
    Medium,
    /// 7.0 to 8.9.
    High,
    /// 9.0 to 10.0.
    Critical,
}

impl Severity {
    /// Returns the rating of a score in tenths.
    pub(crate) fn of_tenths(tenths: u8) -> Severity
        ensures { result ≡ severity_of tenths }
    {
        if tenths == 0 {
            Severity::None
        } else if tenths < 40 {
            Severity::Low
        } else if tenths < 70 {
            Severity::Medium
        } else if tenths < 90 {
            Severity::High
        } else {
            Severity::Critical
        }
    }

    /// Returns the rating's name, as `Display` prints it.
    pub fn as_str(&self) -> &'static str
        ensures { result.now ≡ severity_text self.now }
    {
        match self {
            Severity::None => "none",
            Severity::Low => "low",
            Severity::Medium => "medium",
            Severity::High => "high",
            Severity::Critical => "critical",
        }
    }
}

impl fmt::Display for Severity {
    ghost use Rattle.std.specs.Prelude.{Some};
    ghost use Rattle.rustsec_lock.specs.Score.{severity_text};

    ghost output = { λ s. Some (severity_text s) };

    fn fmt<W: fmt::Write>(&self, f: &mut fmt::Formatter<W>) -> fmt::Result {
        f.write_str(self.as_str())
    }
}

impl ExactClone for Severity {
    ghost exact = { λ x y e. e };
}

impl ExactEq for Severity {
    ghost use denote.Enum.Bare.{same_true, true_same};
    ghost use Rattle.rustsec_lock.specs.contracts.severity.Severity.{the_type};

    ghost decides = { λ x y. (same_true the_type tt x y, true_same the_type x y) };
}

impl StatedOrder for Severity {
    ghost use Rattle.std.specs.Cmp.Rules.{comparing};
    ghost use Rattle.std.proofs.Common.{rules};

    ghost order = { severity_cmp };

    ghost agrees = { λ x y. Prim.search (comparing, rules) };
}
