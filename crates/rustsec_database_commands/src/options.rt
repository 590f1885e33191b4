//! The options after the root of `lint-database`.

ghost use Rattle.std.specs.Prelude.{◌≡◌, map, option_map};
ghost use Rattle.rustsec_database_commands.specs.Options.{asked_of};
ghost use Rattle.rustsec_database_commands.specs.Steps.{asked_after, asked_view, with_flag, with_format};

use rustsec_values::{ClosedEnum, from_name};

/// An option without a value.
#[derive(Clone, Copy, PartialEq, Eq, Debug)]
pub enum Flag {
    /// What the Rust crate refuses is a fault.
    Upstream,
    /// A line on the error output after each thousand files.
    Progress,
}

impl ClosedEnum for Flag {
    ghost use Rattle.rustsec_database_commands.specs.Options.{flag_name, flags};

    ghost name_of = { flag_name };

    ghost values = { flags };

    fn all() -> &'static [Flag] {
        &[Flag::Upstream, Flag::Progress]
    }

    fn name(&self) -> &'static str {
        match self {
            Flag::Upstream => "--upstream",
            Flag::Progress => "--progress",
        }
    }
}

/// What options ask for.
#[derive(Clone, Copy, Debug)]
pub struct LintInput<'a> {
    /// The name of the form, if any.
    pub format: Option<&'a str>,
    /// Whether what the Rust crate refuses is a fault.
    pub upstream: bool,
    /// Whether progress is shown.
    pub progress: bool,
}

/// Returns what is asked for with one flag more.
fn with_flag(asked: LintInput<'_>, flag: Flag) -> LintInput<'_>
    ensures { asked_view result ≡ with_flag (asked_view asked.entry) flag }
{
    let LintInput {
        format,
        upstream,
        progress,
    } = asked;
    match flag {
        Flag::Upstream => LintInput {
            format,
            upstream: true,
            progress,
        },
        Flag::Progress => LintInput {
            format,
            upstream,
            progress: true,
        },
    }
}

/// Returns what is asked for with the name of a form.
fn with_format<'a>(asked: LintInput<'a>, name: &'a str) -> LintInput<'a>
    ensures { asked_view result ≡ with_format (asked_view asked.entry) name.now }
{
    LintInput {
        format: Some(name),
        upstream: asked.upstream,
        progress: asked.progress,
    }
}

/// Returns what is asked for after one more word, and whether `--format` still awaits its value. A word that is not an
/// option gives `None`.
fn step<'a>(asked: LintInput<'a>, awaits: bool, word: &'a str) -> Option<(LintInput<'a>, bool)>
    ensures { option_map (λ s. (asked_view s.0, s.1)) result ≡ asked_after (asked_view asked.entry) awaits word.now }
{
    if awaits {
        return Some((with_format(asked, word), false));
    }
    if let Some(flag) = from_name::<Flag>(word) {
        return Some((with_flag(asked, flag), false));
    }
    if word == "--format" {
        return Some((asked, true));
    }
    None
}

/// Returns what words ask for. A word that is not an option, or `--format` without its value at the end, gives `None`.
pub fn asked_of<'a>(words: &[&'a str]) -> Option<LintInput<'a>>
    ensures { option_map asked_view result ≡ asked_of (map (λ w. w.now) words.now) }
{
    let mut asked = LintInput {
        format: None,
        upstream: false,
        progress: false,
    };
    let mut awaits = false;
    for word in words {
        let Some((next, waits)) = step(asked, awaits, *word) else {
            return None;
        };
        asked = next;
        awaits = waits;
    }
    if awaits {
        return None;
    }
    Some(asked)
}
