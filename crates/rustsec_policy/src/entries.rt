//! The entries of `ignore` by their IDs.

ghost use Rattle.std.specs.Prelude.{◌≡◌};
ghost use Rattle.std.specs.Option.{option_copied};
ghost use Rattle.rustsec_policy.specs.Entries.{entry_with};

use crate::ignored::Ignored;
use rustsec_texts::Id;

/// Returns the first entry that has an ID.
pub fn entry_with<'a>(entries: &'a [Ignored], id: &Id) -> Option<&'a Ignored>
    ensures { option_copied result ≡ entry_with entries.now id.now }
{
    entries.iter().find(|entry| entry.id == *id)
}
