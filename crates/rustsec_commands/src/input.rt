//! Parses the input of the commands `affected` and `ranges`.

ghost use Rattle.std.specs.Prelude.{◌≡◌, ◌≤◌, IfOk, MatchResult, None, OnOk, Some, [], length, option_map};
ghost use Rattle.rustsec_commands.specs.input.Input.{first_malformed, input_of, says};
ghost use Rattle.rustsec_commands.specs.input.Line.{line_says, said_for};
ghost use Rattle.rustsec_commands.specs.input.Views.{line_view, with_line};

use crate::input::line::Line;
use crate::input::version::InputVersion;
use semver::VersionReq;
use std::alloc::{AllocError, Global};
use std::marker::Model;

pub(crate) mod line;
pub(crate) mod read;
pub(crate) mod version;

/// The kind of an input: what the command that reads it answers.
#[derive(Clone, Copy)]
pub enum InputKind {
    /// Which of the versions that the lines name are affected.
    Verdicts,
    /// Which ranges the requirements leave. A line that names a version is malformed.
    Ranges,
}

/// The requirements and the versions of some lines, each in order.
#[derive(Drop)]
pub struct Input {
    pub patched: Vec<VersionReq>,
    pub unaffected: Vec<VersionReq>,
    pub versions: Vec<InputVersion>,
}

impl Model for Input {
    ghost use Rattle.std.specs.Prelude.{map};
    ghost use Rattle.rustsec_versions.specs.Views.{lists_of};
    ghost use Rattle.rustsec_commands.specs.input.Input.{Input};
    ghost use Rattle.rustsec_commands.specs.input.Views.{version_view};

    ghost Value = { Input };

    ghost view = { λ a. record { lists = lists_of a.patched.items a.unaffected.items; versions = map version_view a.versions.items } };
}

impl Input {
    /// Returns the requirements and versions of no line.
    fn new(alloc: Global) -> Input
        ensures { result ≡ input_of [] }
    {
        Input {
            patched: Vec::new(alloc),
            unaffected: Vec::new(alloc),
            versions: Vec::new(alloc),
        }
    }

    /// Appends the requirement or the version of one more line.
    fn add(&mut self, alloc: Global, line: Line) -> Result<(), AllocError>
        ensures { OnOk result (self.new ≡ with_line self.old (line_view line)) }
    {
        match line {
            Line::Blank => {}
            Line::Patched(req) => self.patched.push(req)?,
            Line::Unaffected(req) => self.unaffected.push(req)?,
            Line::Version(version) => self.versions.push(InputVersion::new(alloc, version)?)?,
        }
        Ok(())
    }
}

/// Returns a line of an input of a kind, or `None` if it is malformed, by what it says in any input.
fn said_for(kind: InputKind, said: Option<Line>) -> Option<Line>
    ensures { option_map line_view result ≡ said_for kind (option_map line_view said) }
{
    match (kind, said) {
        (InputKind::Ranges, Some(Line::Version(_))) => None,
        (_, said) => said,
    }
}

/// The first malformed line of an input.
#[derive(Clone, Copy)]
pub struct Malformed<'a> {
    /// Its place, counted from 0.
    pub place: usize,
    /// Its bytes. No contract mentions them.
    pub line: &'a [u8],
}

/// Parses the lines of an input, or returns the first malformed line.
pub fn parse(
    alloc: Global,
    kind: InputKind,
    input: &[u8],
) -> Result<Result<Input, Malformed<'_>>, AllocError>
    ensures { IfOk result (λ r. MatchResult r
        (λ a. (first_malformed (says kind input.now) ≡ None) × (a ≡ input_of (says kind input.now)))
        (λ m. (first_malformed (says kind input.now) ≡ Some m.place) × (m.place ≤ length input.now))) }
{
    let mut all = Input::new(alloc);
    for (place, line) in input.split(|b| *b == b'\n').enumerate() {
        match said_for(kind, line::line_says(alloc, line)?) {
            Some(said) => all.add(alloc, said)?,
            None => return Ok(Err(Malformed { place, line })),
        }
    }
    Ok(Ok(all))
}
