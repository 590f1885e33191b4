//! The rows of the table of severities.

use crate::rows::Row;
use rustsec_advisory::Advisory;
use rustsec_lock::Severity;
use rustsec_values::ClosedEnum;

/// A row of the table of severities: the ratings of CVSS vectors of version 3.
#[derive(Clone, Copy, PartialEq, Eq, Debug)]
pub enum SeverityRow {
    /// A score of 0.0.
    None,
    /// 0.1 to 3.9.
    Low,
    /// 4.0 to 6.9.
    Medium,
    /// 7.0 to 8.9.
    High,
    /// 9.0 to 10.0.
    Critical,
    /// Advisories without a vector, or with one of another version.
    NoScore,
}

impl ClosedEnum for SeverityRow {
    ghost use Rattle.rustsec_stats.specs.Rows.{severity_row_name, severity_rows};

    ghost name_of = { severity_row_name };

    ghost values = { severity_rows };

    fn all() -> &'static [SeverityRow] {
        &[
            SeverityRow::None,
            SeverityRow::Low,
            SeverityRow::Medium,
            SeverityRow::High,
            SeverityRow::Critical,
            SeverityRow::NoScore,
        ]
    }

    fn name(&self) -> &'static str {
        match self {
            SeverityRow::None => "none",
            SeverityRow::Low => "low",
            SeverityRow::Medium => "medium",
            SeverityRow::High => "high",
            SeverityRow::Critical => "critical",
            SeverityRow::NoScore => "no-score",
        }
    }
}

impl Row for SeverityRow {
    ghost use Rattle.rustsec_stats.specs.Rows.{has_severity};

    ghost counts = { has_severity };

    fn counts(&self, advisory: &Advisory) -> bool {
        let severity = advisory.severity();
        match self {
            SeverityRow::None => Some(Severity::None) == severity,
            SeverityRow::Low => Some(Severity::Low) == severity,
            SeverityRow::Medium => Some(Severity::Medium) == severity,
            SeverityRow::High => Some(Severity::High) == severity,
            SeverityRow::Critical => Some(Severity::Critical) == severity,
            SeverityRow::NoScore => severity.is_none(),
        }
    }
}
