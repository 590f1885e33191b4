//! The values of `--format`, `--color` and `--severity`.

use rustsec_lock::Severity;
use rustsec_policy::read_severity;
use rustsec_values::{ClosedEnum, FromText, Result, from_name, text_error};
use std::alloc::Global;
use std::marker::Model;

/// How findings are written.
#[derive(Clone, Copy, PartialEq, Eq, Debug)]
pub enum Shape {
    /// As text for people.
    Text,
    /// As JSON.
    Json,
    /// As a log of SARIF.
    Sarif,
    /// As a web page.
    Html,
    /// As Markdown.
    Markdown,
}

/// Whether the text for people has colors.
#[derive(Clone, Copy, PartialEq, Eq, Debug)]
pub enum Coloring {
    /// It has.
    Always,
    /// It has not.
    Never,
}

impl ClosedEnum for Shape {
    ghost use Rattle.rustsec_program.specs.Wanted.{shape_name, shapes};

    ghost name_of = { shape_name };

    ghost values = { shapes };

    fn all() -> &'static [Shape] {
        &[
            Shape::Text,
            Shape::Json,
            Shape::Sarif,
            Shape::Html,
            Shape::Markdown,
        ]
    }

    fn name(&self) -> &'static str {
        match self {
            Shape::Text => "text",
            Shape::Json => "json",
            Shape::Sarif => "sarif",
            Shape::Html => "html",
            Shape::Markdown => "markdown",
        }
    }
}

impl ClosedEnum for Coloring {
    ghost use Rattle.rustsec_program.specs.Wanted.{coloring_name, colorings};

    ghost name_of = { coloring_name };

    ghost values = { colorings };

    fn all() -> &'static [Coloring] {
        &[Coloring::Always, Coloring::Never]
    }

    fn name(&self) -> &'static str {
        match self {
            Coloring::Always => "always",
            Coloring::Never => "never",
        }
    }
}

impl FromText for Shape {
    ghost use Rattle.rustsec_program.specs.Wanted.{shape_of};

    ghost reads = { shape_of };

    fn from_text(alloc: Global, text: &str) -> Result<Shape> {
        match from_name(text) {
            Some(shape) => Ok(shape),
            None => Err(text_error(
                alloc,
                "unknown word",
                text,
                "`text`, `json`, `sarif`, `html` or `markdown`",
            )),
        }
    }
}

impl FromText for Coloring {
    ghost use Rattle.rustsec_program.specs.Wanted.{coloring_of};

    ghost reads = { coloring_of };

    fn from_text(alloc: Global, text: &str) -> Result<Coloring> {
        match from_name(text) {
            Some(coloring) => Ok(coloring),
            None => Err(text_error(alloc, "unknown word", text, "`always` or `never`")),
        }
    }
}

/// A severity that is read from its name.
#[derive(Drop)]
pub struct LeastSeverity {
    /// The severity.
    pub severity: Severity,
}

impl Model for LeastSeverity {
    ghost use Rattle.rustsec_lock.specs.declared.severity.Severity.{Severity};

    ghost Value = { Severity };

    ghost view = { λ s. s.severity };
}

impl FromText for LeastSeverity {
    ghost use Rattle.rustsec_policy.specs.Choices.{severity_named};

    ghost reads = { severity_named };

    fn from_text(alloc: Global, text: &str) -> Result<LeastSeverity> {
        let severity = read_severity(alloc, text)?;
        Ok(LeastSeverity { severity })
    }
}
