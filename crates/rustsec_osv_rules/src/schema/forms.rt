//! The forms of texts in the OSV schema, as rules.

ghost use Rattle.std.specs.Prelude.{◌≡◌};
ghost use Rattle.std.specs.List.{list_any};
ghost use Rattle.rustsec_osv_rules.specs.schema.Texts.{is_line_end};

use crate::schema::names::{credit_types, is_one_of, range_types, reference_types};
use crate::schema::rule::Form;
use crate::schema::time::is_time;

/// Returns whether a byte ends a line.
fn is_line_end(b: u8) -> bool
    ensures { result ≡ is_line_end b }
{
    b == b'\n' || b == b'\r'
}

/// Returns whether a line ends in a text.
fn has_line_end(text: &[u8]) -> bool
    ensures { result ≡ list_any is_line_end text.now }
{
    text.iter().any(|b| is_line_end(*b))
}

/// A time in UTC.
pub(crate) struct TimeForm;

impl Form for TimeForm {
    ghost use Rattle.rustsec_osv_rules.specs.schema.TimeScan.{is_time};

    ghost form = { is_time };

    fn fits(text: &str) -> bool {
        is_time(text)
    }
}

/// One line.
pub(crate) struct LineForm;

impl Form for LineForm {
    ghost use Rattle.rustsec_osv_rules.specs.schema.Texts.{is_one_line};

    ghost form = { is_one_line };

    fn fits(text: &str) -> bool {
        !has_line_end(text.as_bytes())
    }
}

/// A type of ranges.
pub(crate) struct RangeType;

impl Form for RangeType {
    ghost use Rattle.rustsec_osv_rules.specs.schema.Names.{range_types};
    ghost use Rattle.rustsec_osv_rules.specs.schema.Texts.{is_one_of};

    ghost form = { is_one_of range_types };

    fn fits(text: &str) -> bool {
        is_one_of(range_types(), text.as_bytes())
    }
}

/// The type of ranges of commits.
pub(crate) struct CommitType;

impl Form for CommitType {
    ghost use Rattle.std.specs.Prelude.{codes};
    ghost use Rattle.std.specs.Str.{bytes_eq};

    ghost form = { bytes_eq (codes "GIT") };

    fn fits(text: &str) -> bool {
        "GIT" == text
    }
}

/// A type of references.
pub(crate) struct ReferenceType;

impl Form for ReferenceType {
    ghost use Rattle.rustsec_osv_rules.specs.schema.Names.{reference_types};
    ghost use Rattle.rustsec_osv_rules.specs.schema.Texts.{is_one_of};

    ghost form = { is_one_of reference_types };

    fn fits(text: &str) -> bool {
        is_one_of(reference_types(), text.as_bytes())
    }
}

/// A type of credits.
pub(crate) struct CreditType;

impl Form for CreditType {
    ghost use Rattle.rustsec_osv_rules.specs.schema.Names.{credit_types};
    ghost use Rattle.rustsec_osv_rules.specs.schema.Texts.{is_one_of};

    ghost form = { is_one_of credit_types };

    fn fits(text: &str) -> bool {
        is_one_of(credit_types(), text.as_bytes())
    }
}
