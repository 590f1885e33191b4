//! Parses the words that name a command.

ghost use Rattle.std.specs.Prelude.{◌≡◌, map, option_map};
ghost use Rattle.rustsec_database_commands.specs.Commands.{command_view};
ghost use Rattle.rustsec_database_commands.specs.Words.{command_of, lint_of, osv_of, query_of, stats_of};

use crate::osv_query::QueryInput;

/// A command, with the words after its name.
#[derive(Clone, Copy)]
pub enum Command<'a> {
    /// What is wrong in the database under a root, with options.
    LintDatabase(&'a str, &'a [&'a str]),
    /// How many advisories the database under a root has, with options.
    Stats(&'a str, &'a [&'a str]),
    /// The documents of the database under a root, with the time of the last change and options.
    OsvDatabase(&'a str, &'a str, &'a [&'a str]),
    /// The documents of the advisories that affect a version of a package.
    QueryOsv(QueryInput<'a>),
    /// The name of a command with too few words after it.
    Short,
}

impl<'a> Command<'a> {
    /// Returns the root of the database that the command reads, if any.
    pub(crate) fn root(self) -> Option<&'a str> {
        match self {
            Command::LintDatabase(root, _)
            | Command::Stats(root, _)
            | Command::OsvDatabase(root, _, _) => Some(root),
            Command::QueryOsv(question) => Some(question.root),
            Command::Short => None,
        }
    }
}

/// Returns the command of the words after `lint-database`.
fn lint_of<'a>(words: &'a [&'a str]) -> Command<'a>
    ensures { command_view result ≡ lint_of (map (λ w. w.now) words.now) }
{
    match words {
        [root, options @ ..] => Command::LintDatabase(root, options),
        _ => Command::Short,
    }
}

/// Returns the command of the words after `stats`.
fn stats_of<'a>(words: &'a [&'a str]) -> Command<'a>
    ensures { command_view result ≡ stats_of (map (λ w. w.now) words.now) }
{
    match words {
        [root, options @ ..] => Command::Stats(root, options),
        _ => Command::Short,
    }
}

/// Returns the command of the words after `osv-database`.
fn osv_of<'a>(words: &'a [&'a str]) -> Command<'a>
    ensures { command_view result ≡ osv_of (map (λ w. w.now) words.now) }
{
    match words {
        [root, modified, options @ ..] => Command::OsvDatabase(root, modified, options),
        _ => Command::Short,
    }
}

/// Returns the command of the words after `query-osv`.
fn query_of<'a>(words: &'a [&'a str]) -> Command<'a>
    ensures { command_view result ≡ query_of (map (λ w. w.now) words.now) }
{
    match words {
        [root, name, version] => Command::QueryOsv(QueryInput {
            root,
            name,
            version,
        }),
        _ => Command::Short,
    }
}

/// Returns the command that words name; `None` for words that do not name a command of this crate.
pub fn command_of<'a>(words: &'a [&'a str]) -> Option<Command<'a>>
    ensures { option_map command_view result ≡ command_of (map (λ w. w.now) words.now) }
{
    let [name, rest @ ..] = words else {
        return None;
    };
    match *name {
        "lint-database" => Some(lint_of(rest)),
        "stats" => Some(stats_of(rest)),
        "osv-database" => Some(osv_of(rest)),
        "query-osv" => Some(query_of(rest)),
        _ => None,
    }
}
