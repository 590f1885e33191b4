//! Parses the words that name a command.

ghost use Rattle.std.specs.Prelude.{◌≡◌, map};
ghost use Rattle.rustsec_commands.specs.Commands.{command_view};
ghost use Rattle.rustsec_commands.specs.args.Words.{command_of};

pub(crate) mod options;

/// A command, with the words after its name.
#[derive(Clone, Copy)]
pub enum Command<'a> {
    /// Verdicts on the versions of the input.
    Affected,
    /// The ranges that the requirements of the input leave.
    Ranges,
    /// The lint errors of the advisory at a path.
    Lint(&'a str),
    /// The document of the advisory at a path, and the time of its last change.
    Osv(&'a str, &'a str),
    /// The report of the database under a root and the lockfile at a path.
    Report(&'a str, &'a str),
    /// The same report as lines, with options.
    Audit(&'a str, &'a str, &'a [&'a str]),
    /// Words that do not name a command.
    Unknown(&'a [&'a str]),
}

/// Returns the command that words name, or `Unknown`.
pub fn command_of<'a>(words: &'a [&'a str]) -> Command<'a>
    ensures { command_view result ≡ command_of (map (λ w. w.now) words.now) }
{
    match words {
        ["affected"] => Command::Affected,
        ["ranges"] => Command::Ranges,
        ["lint", path] => Command::Lint(path),
        ["osv", path, modified] => Command::Osv(path, modified),
        ["report", root, lock] => Command::Report(root, lock),
        ["audit", root, lock, options @ ..] => Command::Audit(root, lock, options),
        _ => Command::Unknown(words),
    }
}
