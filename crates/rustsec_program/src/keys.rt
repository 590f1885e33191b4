//! The words of the options.

use rustsec_values::ClosedEnum;

/// An option that has a value: the word after it.
#[derive(Clone, Copy, PartialEq, Eq, Debug)]
pub enum Key {
    /// The file of the policy.
    Policy,
    /// The day of the check.
    Today,
    /// The lockfile whose findings are old.
    Baseline,
    /// The folder of a registry's index.
    Index,
    /// The ID of an advisory that does not count.
    Ignore,
    /// Which warnings fail.
    Deny,
    /// The least severity.
    Severity,
    /// An architecture.
    Arch,
    /// A system.
    Os,
    /// How findings are written.
    Format,
    /// Whether texts have colors.
    Color,
}

/// An option without a value.
#[derive(Clone, Copy, PartialEq, Eq, Debug)]
pub enum Flag {
    /// An empty database or lockfile is not refused.
    AllowEmpty,
    /// Paths end with NUL, not with a line feed.
    Null,
    /// A line on the error output after each lockfile.
    Progress,
}

/// All keys, in their order.
const KEYS: &[Key] = &[
    Key::Policy,
    Key::Today,
    Key::Baseline,
    Key::Index,
    Key::Ignore,
    Key::Deny,
    Key::Severity,
    Key::Arch,
    Key::Os,
    Key::Format,
    Key::Color,
];

/// All flags, in their order.
const FLAGS: &[Flag] = &[Flag::AllowEmpty, Flag::Null, Flag::Progress];

impl ClosedEnum for Key {
    ghost use Rattle.rustsec_program.specs.CheckOptions.{key_name, keys};

    ghost name_of = { key_name };

    ghost values = { keys };

    fn all() -> &'static [Key] {
        KEYS
    }

    fn name(&self) -> &'static str {
        match self {
            Key::Policy => "--policy",
            Key::Today => "--today",
            Key::Baseline => "--baseline",
            Key::Index => "--index",
            Key::Ignore => "--ignore",
            Key::Deny => "--deny",
            Key::Severity => "--severity",
            Key::Arch => "--arch",
            Key::Os => "--os",
            Key::Format => "--format",
            Key::Color => "--color",
        }
    }
}

impl ClosedEnum for Flag {
    ghost use Rattle.rustsec_program.specs.CheckOptions.{flag_name, flags};

    ghost name_of = { flag_name };

    ghost values = { flags };

    fn all() -> &'static [Flag] {
        FLAGS
    }

    fn name(&self) -> &'static str {
        match self {
            Flag::AllowEmpty => "--allow-empty",
            Flag::Null => "--null",
            Flag::Progress => "--progress",
        }
    }
}
