//! The fixed parts of the JSON of a check: how objects begin, and their further keys.

ghost use Rattle.std.specs.Prelude.{◌≡◌, ◌++◌, OnOk, string_bytes};
ghost use Rattle.rustsec_check_output.specs.JsonParts.{first_json, key_json};

use std::alloc::AllocError;

/// The beginning of an object, up to its first value, or of the command that updates a package.
#[derive(Clone, Copy)]
pub(crate) enum First {
    /// Begins an object with the key `advisory`.
    Advisory,
    /// Begins an object with the key `advisory-count`.
    AdvisoryCount,
    /// Begins an object with the key `aliases`.
    Aliases,
    /// Begins an object with the key `below-threshold`.
    BelowThreshold,
    /// Begins an object with the key `check`.
    Check,
    /// Begins an object with the key `command`.
    Command,
    /// Begins an object with the key `denied`.
    Denied,
    /// Begins an object with the key `dependency-count`.
    DependencyCount,
    /// Begins an object with the key `lockfile`.
    Lockfile,
    /// Begins an object with the key `name`.
    Name,
    /// Begins an object with the key `patched`.
    Patched,
    /// Begins the command.
    UpdateCommand,
}

impl First {
    /// Returns the text.
    #[tactic(auto, unfolding(crate::specs::JsonParts::first_json))]
    fn text(self) -> &'static str
        ensures { result.now ≡ first_json self }
    {
        match self {
            First::Advisory => "{\"advisory\":",
            First::AdvisoryCount => "{\"advisory-count\":",
            First::Aliases => "{\"aliases\":",
            First::BelowThreshold => "{\"below-threshold\":",
            First::Check => "{\"check\":",
            First::Command => "{\"command\":",
            First::Denied => "{\"denied\":",
            First::DependencyCount => "{\"dependency-count\":",
            First::Lockfile => "{\"lockfile\":",
            First::Name => "{\"name\":",
            First::Patched => "{\"patched\":",
            First::UpdateCommand => "[\"cargo\",\"update\",",
        }
    }
}

/// A further key of an object, up to its value.
#[derive(Clone, Copy)]
pub(crate) enum Key {
    /// The key `compatible`.
    Compatible,
    /// The key `cvss`.
    Cvss,
    /// The key `database`.
    Database,
    /// The key `date`.
    Date,
    /// The key `denied`.
    Denied,
    /// The key `dependents`.
    Dependents,
    /// The key `findings`.
    Findings,
    /// The key `id`.
    Id,
    /// The key `ignored`.
    Ignored,
    /// The key `kind`.
    Kind,
    /// The key `last-date`.
    LastDate,
    /// The key `least-free`.
    LeastFree,
    /// The key `lockfile`.
    Lockfile,
    /// The key `notes`.
    Notes,
    /// The key `old`.
    Old,
    /// The key `package`.
    Package,
    /// The key `path`.
    Path,
    /// The key `reason`.
    Reason,
    /// The key `refused`.
    Refused,
    /// The key `score`.
    Score,
    /// The key `severity`.
    Severity,
    /// The key `source`.
    Source,
    /// The key `title`.
    Title,
    /// The key `unaffected`.
    Unaffected,
    /// The key `unknown-ignores`.
    UnknownIgnores,
    /// The key `until`.
    Until,
    /// The key `unused-ignores`.
    UnusedIgnores,
    /// The key `update`.
    Update,
    /// The key `url`.
    Url,
    /// The key `version`.
    Version,
    /// The key `versions`.
    Versions,
    /// The key `yanked`.
    Yanked,
}

impl Key {
    /// Returns the text.
    #[tactic(auto, unfolding(crate::specs::JsonParts::key_json))]
    fn text(self) -> &'static str
        ensures { result.now ≡ key_json self }
    {
        match self {
            Key::Compatible => ",\"compatible\":",
            Key::Cvss => ",\"cvss\":",
            Key::Database => ",\"database\":",
            Key::Date => ",\"date\":",
            Key::Denied => ",\"denied\":",
            Key::Dependents => ",\"dependents\":",
            Key::Findings => ",\"findings\":",
            Key::Id => ",\"id\":",
            Key::Ignored => ",\"ignored\":",
            Key::Kind => ",\"kind\":",
            Key::LastDate => ",\"last-date\":",
            Key::LeastFree => ",\"least-free\":",
            Key::Lockfile => ",\"lockfile\":",
            Key::Notes => ",\"notes\":",
            Key::Old => ",\"old\":",
            Key::Package => ",\"package\":",
            Key::Path => ",\"path\":",
            Key::Reason => ",\"reason\":",
            Key::Refused => ",\"refused\":",
            Key::Score => ",\"score\":",
            Key::Severity => ",\"severity\":",
            Key::Source => ",\"source\":",
            Key::Title => ",\"title\":",
            Key::Unaffected => ",\"unaffected\":",
            Key::UnknownIgnores => ",\"unknown-ignores\":",
            Key::Until => ",\"until\":",
            Key::UnusedIgnores => ",\"unused-ignores\":",
            Key::Update => ",\"update\":",
            Key::Url => ",\"url\":",
            Key::Version => ",\"version\":",
            Key::Versions => ",\"versions\":",
            Key::Yanked => ",\"yanked\":",
        }
    }
}

/// Appends the beginning of an object or of a command.
pub(crate) fn push_first(json: &mut String, first: First) -> Result<(), AllocError>
    ensures { OnOk result (string_bytes json.new ≡ string_bytes json.old ++ first_json first) }
{
    json.push_str(first.text())?;
    Ok(())
}

/// Appends a further key of an object.
pub(crate) fn push_key(json: &mut String, key: Key) -> Result<(), AllocError>
    ensures { OnOk result (string_bytes json.new ≡ string_bytes json.old ++ key_json key) }
{
    json.push_str(key.text())?;
    Ok(())
}
