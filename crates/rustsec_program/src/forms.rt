//! The forms of an answer.

ghost use Rattle.std.specs.Prelude.{◌≡◌};
ghost use Rattle.rustsec_program.specs.Checked.{form_of};
ghost use Rattle.rustsec_program.specs.Forms.{form_view};

use crate::plan::Plan;
use crate::shapes::Shape;

/// The form of an answer.
#[derive(Clone, Copy, Debug)]
pub enum Form<'a> {
    /// Text for people, with or without colors.
    Text(bool),
    /// JSON.
    Json,
    /// A log of SARIF about the lockfile at this path.
    Sarif(&'a str),
    /// A web page.
    Html,
    /// Markdown.
    Markdown,
    /// A line of JSON for the lockfile at this path among many.
    Line(&'a str),
}

/// Returns the form that a plan asks for, for the lockfile at a path.
pub fn form_of<'a>(plan: &Plan<'_>, path: &'a str) -> Form<'a>
    ensures { form_view result ≡ form_of plan.now path.now }
{
    match plan.wanted.shape {
        Shape::Text => Form::Text(plan.wanted.colored),
        Shape::Json => Form::Json,
        Shape::Sarif => Form::Sarif(path),
        Shape::Html => Form::Html,
        Shape::Markdown => Form::Markdown,
    }
}
