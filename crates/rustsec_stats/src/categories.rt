//! The rows of the table of categories.

ghost use Rattle.std.specs.Prelude.{◌≡◌};
ghost use Rattle.rustsec_stats.specs.CategoryRows.{category_row, is_in_row};

use crate::rows::Row;
use rustsec_advisory::Advisory;
use rustsec_texts::Category;
use rustsec_values::ClosedEnum;

/// A row of the table of categories. An advisory may have several, and is counted for each.
#[derive(Clone, Copy, PartialEq, Eq, Debug)]
pub enum CategoryRow {
    /// Execution of code that an attacker chooses.
    CodeExecution,
    /// A faulty use of cryptography.
    CryptoFailure,
    /// A crash, or an exhaustion of resources.
    DenialOfService,
    /// Disclosure of files to those who may not see them.
    FileDisclosure,
    /// Output with faulty escaping.
    FormatInjection,
    /// Code that is meant to do harm.
    Malicious,
    /// A write to memory where it is not allowed.
    MemoryCorruption,
    /// Disclosure of memory to those who may not see it.
    MemoryExposure,
    /// Rights that an attacker gains.
    PrivilegeEscalation,
    /// A fault in the use of several threads.
    ThreadSafety,
    /// Any other category.
    Other,
}

impl ClosedEnum for CategoryRow {
    ghost use Rattle.rustsec_stats.specs.CategoryRows.{category_row_name, category_rows};

    ghost name_of = { category_row_name };

    ghost values = { category_rows };

    fn all() -> &'static [CategoryRow] {
        &[
            CategoryRow::CodeExecution,
            CategoryRow::CryptoFailure,
            CategoryRow::DenialOfService,
            CategoryRow::FileDisclosure,
            CategoryRow::FormatInjection,
            CategoryRow::Malicious,
            CategoryRow::MemoryCorruption,
            CategoryRow::MemoryExposure,
            CategoryRow::PrivilegeEscalation,
            CategoryRow::ThreadSafety,
            CategoryRow::Other,
        ]
    }

    fn name(&self) -> &'static str {
        match self {
            CategoryRow::CodeExecution => "code-execution",
            CategoryRow::CryptoFailure => "crypto-failure",
            CategoryRow::DenialOfService => "denial-of-service",
            CategoryRow::FileDisclosure => "file-disclosure",
            CategoryRow::FormatInjection => "format-injection",
            CategoryRow::Malicious => "malicious",
            CategoryRow::MemoryCorruption => "memory-corruption",
            CategoryRow::MemoryExposure => "memory-exposure",
            CategoryRow::PrivilegeEscalation => "privilege-escalation",
            CategoryRow::ThreadSafety => "thread-safety",
            CategoryRow::Other => "other",
        }
    }
}

/// Returns the row of a category.
fn row_of(category: &Category) -> CategoryRow
    ensures { result ≡ category_row category.now }
{
    match category {
        Category::CodeExecution => CategoryRow::CodeExecution,
        Category::CryptoFailure => CategoryRow::CryptoFailure,
        Category::DenialOfService => CategoryRow::DenialOfService,
        Category::FileDisclosure => CategoryRow::FileDisclosure,
        Category::FormatInjection => CategoryRow::FormatInjection,
        Category::Malicious => CategoryRow::Malicious,
        Category::MemoryCorruption => CategoryRow::MemoryCorruption,
        Category::MemoryExposure => CategoryRow::MemoryExposure,
        Category::PrivilegeEscalation => CategoryRow::PrivilegeEscalation,
        Category::ThreadSafety => CategoryRow::ThreadSafety,
        Category::Other(_) => CategoryRow::Other,
    }
}

/// Returns whether a category is in a row.
fn is_in_row(row: CategoryRow, category: &Category) -> bool
    ensures { result ≡ is_in_row row category.now }
{
    row == row_of(category)
}

impl Row for CategoryRow {
    ghost use Rattle.rustsec_stats.specs.CategoryRows.{has_category};

    ghost counts = { has_category };

    fn counts(&self, advisory: &Advisory) -> bool {
        let categories = advisory.metadata.categories.as_slice();
        categories.iter().any(|category| is_in_row(*self, category))
    }
}
