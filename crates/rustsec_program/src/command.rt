//! Parses the words that name a command.

ghost use Rattle.std.specs.Prelude.{◌≡◌, IfNone, IfSome, false, map, option_map};
ghost use Rattle.rustsec_program.specs.Commands.{command_view, reads_input};
ghost use Rattle.rustsec_program.specs.Words.{check_of, command_of, explain_of, many, many_of};

use rustsec_commands::Paths;

/// A command, with the words after its name.
#[derive(Clone, Copy)]
pub enum Command<'a> {
    /// The check of a lockfile by a database, with options.
    Check(Paths<'a>, &'a [&'a str]),
    /// The checks of the lockfiles of the input by the database under a root, with options.
    CheckMany(&'a str, &'a [&'a str]),
    /// Why the packages that an ID or a name means are affected or not, with options.
    Explain(Paths<'a>, &'a str, &'a [&'a str]),
    /// The name of a command with too few words after it.
    Short,
}

/// The words of `check-many`.
#[derive(Clone, Copy)]
pub struct ListWords<'a> {
    /// The root of the database.
    pub root: &'a str,
    /// The options.
    pub options: &'a [&'a str],
}

impl<'a> Command<'a> {
    /// Returns the words of `check-many`; `None` for a command that does not read the input.
    pub fn list(self) -> Option<ListWords<'a>>
        ensures none { IfNone result (reads_input (command_view self.entry) ≡ false) }
        ensures some { IfSome result (λ l. command_view self.entry ≡ many l.root.now (map (λ w. w.now) l.options.now)) }
    {
        match self {
            Command::CheckMany(root, options) => Some(ListWords { root, options }),
            _ => None,
        }
    }
}

/// Returns the command of the words after `check`.
fn check_of<'a>(words: &'a [&'a str]) -> Command<'a>
    ensures { command_view result ≡ check_of (map (λ w. w.now) words.now) }
{
    match words {
        [root, lock, options @ ..] => Command::Check(Paths { root, lock }, options),
        _ => Command::Short,
    }
}

/// Returns the command of the words after `check-many`.
fn many_of<'a>(words: &'a [&'a str]) -> Command<'a>
    ensures { command_view result ≡ many_of (map (λ w. w.now) words.now) }
{
    match words {
        [root, options @ ..] => Command::CheckMany(root, options),
        _ => Command::Short,
    }
}

/// Returns the command of the words after `explain`.
fn explain_of<'a>(words: &'a [&'a str]) -> Command<'a>
    ensures { command_view result ≡ explain_of (map (λ w. w.now) words.now) }
{
    match words {
        [root, lock, text, options @ ..] => Command::Explain(Paths { root, lock }, text, options),
        _ => Command::Short,
    }
}

/// Returns the command that words name; `None` for words that do not name a command of this crate.
pub fn command_of<'a>(words: &'a [&'a str]) -> Option<Command<'a>>
    ensures { option_map command_view result ≡ command_of (map (λ w. w.now) words.now) }
{
    let [word, rest @ ..] = words else {
        return None;
    };
    if *word == "check" {
        return Some(check_of(rest));
    }
    if *word == "check-many" {
        return Some(many_of(rest));
    }
    if *word == "explain" {
        return Some(explain_of(rest));
    }
    None
}
