//! What an explanation goes by.

ghost use Rattle.std.specs.Prelude.{◌≡◌};
ghost use Rattle.std.specs.Option.{option_copied};
ghost use Rattle.rustsec_explain_output.specs.Rules.{entry_of};

use rustsec_explain::Explained;
use rustsec_policy::{Ignored, entry_with};
use rustsec_report::Settings;
use std::marker::Model;

/// What an explanation goes by.
#[derive(Drop)]
pub struct Rules<'a> {
    /// The settings of the audit.
    pub settings: &'a Settings,
    /// The entries of its policy that ignore advisories. The first that has the ID of an ignored advisory is named; if
    /// none has it, the command line ignores it.
    pub entries: &'a [Ignored],
}

impl<'a> Model for Rules<'a> {
    ghost use Rattle.rustsec_explain_output.specs.Rules.{RulesValue};

    ghost Value = { RulesValue };

    ghost view = { λ r. record { settings = r.settings.now; entries = r.entries.now } };
}

/// Returns the entry that ignores the advisory of a pair: the first that has its ID.
pub(crate) fn entry_of<'a>(rules: &'a Rules<'a>, pair: &Explained<'_>) -> Option<&'a Ignored>
    ensures { option_copied result ≡ entry_of rules.now pair.now }
{
    entry_with(rules.entries, &pair.advisory.metadata.id)
}
