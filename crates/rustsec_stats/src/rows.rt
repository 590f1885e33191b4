//! The rows of the tables: closed types, each value with a name and a test of advisories.

ghost use Rattle.std.specs.Prelude.{◌≡◌, Bool};
ghost use Rattle.rustsec_advisory.specs.declared.advisory.Advisory as given;
ghost use Rattle.rustsec_stats.specs.Rows.{has_other_kind, warning_kind};

use rustsec_advisory::Advisory;
use rustsec_texts::{Collection, WarningKind};
use rustsec_values::ClosedEnum;

/// A type of the rows of a table. A row counts the advisories that pass its test.
pub trait Row {
    ghost counts: { Self → given.Advisory → Bool };

    /// Returns whether the row counts an advisory.
    fn counts(&self, advisory: &Advisory) -> bool
        ensures { result ≡ Self.counts self.now advisory.now };
}

/// A row of the table of collections.
#[derive(Clone, Copy, PartialEq, Eq, Debug)]
pub enum CollectionRow {
    /// Advisories about packages of crates.io.
    Crates,
    /// Advisories about the standard library and tools of Rust itself.
    Rust,
    /// Advisories that name no collection.
    Missing,
}

impl ClosedEnum for CollectionRow {
    ghost use Rattle.rustsec_stats.specs.Rows.{collection_row_name, collection_rows};

    ghost name_of = { collection_row_name };

    ghost values = { collection_rows };

    fn all() -> &'static [CollectionRow] {
        &[
            CollectionRow::Crates,
            CollectionRow::Rust,
            CollectionRow::Missing,
        ]
    }

    fn name(&self) -> &'static str {
        match self {
            CollectionRow::Crates => "crates",
            CollectionRow::Rust => "rust",
            CollectionRow::Missing => "no-collection",
        }
    }
}

impl Row for CollectionRow {
    ghost use Rattle.rustsec_stats.specs.Rows.{is_counted_in};

    ghost counts = { is_counted_in };

    fn counts(&self, advisory: &Advisory) -> bool {
        let collection = advisory.metadata.collection;
        match self {
            CollectionRow::Crates => Some(Collection::Crates) == collection,
            CollectionRow::Rust => Some(Collection::Rust) == collection,
            CollectionRow::Missing => collection.is_none(),
        }
    }
}

/// A row of the table of kinds.
#[derive(Clone, Copy, PartialEq, Eq, Debug)]
pub enum KindRow {
    /// Vulnerabilities: advisories that are not informational.
    Vulnerability,
    /// Notices.
    Notice,
    /// Packages that nobody maintains.
    Unmaintained,
    /// Packages that are not sound.
    Unsound,
    /// Informational advisories of any other kind.
    Other,
}

impl ClosedEnum for KindRow {
    ghost use Rattle.rustsec_stats.specs.Rows.{kind_row_name, kind_rows};

    ghost name_of = { kind_row_name };

    ghost values = { kind_rows };

    fn all() -> &'static [KindRow] {
        &[
            KindRow::Vulnerability,
            KindRow::Notice,
            KindRow::Unmaintained,
            KindRow::Unsound,
            KindRow::Other,
        ]
    }

    fn name(&self) -> &'static str {
        match self {
            KindRow::Vulnerability => "vulnerability",
            KindRow::Notice => "notice",
            KindRow::Unmaintained => "unmaintained",
            KindRow::Unsound => "unsound",
            KindRow::Other => "other",
        }
    }
}

/// Returns the kind of the warnings that an advisory gives, if any.
fn warning_kind(advisory: &Advisory) -> Option<WarningKind>
    ensures { result ≡ warning_kind advisory.now }
{
    match &advisory.metadata.informational {
        Some(kind) => kind.warning_kind(),
        None => None,
    }
}

/// Returns whether an advisory is informational, of another kind than those with a name.
fn has_other_kind(advisory: &Advisory) -> bool
    ensures { result ≡ has_other_kind advisory.now }
{
    match &advisory.metadata.informational {
        Some(kind) => kind.is_other(),
        None => false,
    }
}

impl Row for KindRow {
    ghost use Rattle.rustsec_stats.specs.Rows.{is_of_kind};

    ghost counts = { is_of_kind };

    fn counts(&self, advisory: &Advisory) -> bool {
        match self {
            KindRow::Vulnerability => advisory.metadata.informational.is_none(),
            KindRow::Notice => Some(WarningKind::Notice) == warning_kind(advisory),
            KindRow::Unmaintained => Some(WarningKind::Unmaintained) == warning_kind(advisory),
            KindRow::Unsound => Some(WarningKind::Unsound) == warning_kind(advisory),
            KindRow::Other => has_other_kind(advisory),
        }
    }
}

/// A row of the table of withdrawals.
#[derive(Clone, Copy, PartialEq, Eq, Debug)]
pub enum WithdrawalRow {
    /// Advisories that were withdrawn.
    Withdrawn,
    /// The other advisories.
    Current,
}

impl ClosedEnum for WithdrawalRow {
    ghost use Rattle.rustsec_stats.specs.Rows.{withdrawal_row_name, withdrawal_rows};

    ghost name_of = { withdrawal_row_name };

    ghost values = { withdrawal_rows };

    fn all() -> &'static [WithdrawalRow] {
        &[WithdrawalRow::Withdrawn, WithdrawalRow::Current]
    }

    fn name(&self) -> &'static str {
        match self {
            WithdrawalRow::Withdrawn => "withdrawn",
            WithdrawalRow::Current => "current",
        }
    }
}

impl Row for WithdrawalRow {
    ghost use Rattle.rustsec_stats.specs.Rows.{is_withdrawal};

    ghost counts = { is_withdrawal };

    fn counts(&self, advisory: &Advisory) -> bool {
        match self {
            WithdrawalRow::Withdrawn => advisory.withdrawn(),
            WithdrawalRow::Current => !advisory.withdrawn(),
        }
    }
}
