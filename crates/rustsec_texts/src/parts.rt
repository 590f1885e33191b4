//! The parts of an advisory file.

ghost use Rattle.std.specs.Prelude.{◌≡◌, ◌↔◌, IfErr, IfOk, IfSome, MatchOption, Some, None};
ghost use Rattle.rustsec_values.specs.Failure.{IsRefusal};
ghost use Rattle.rustsec_texts.specs.PatternCuts.{IsSliceOf, after_prefix, cut_at};
ghost use Rattle.rustsec_texts.specs.Parts.{AreParts, FileParts, ShowsBeginning, closing, opening, parts_of};

use rustsec_values::{Error, ErrorKind, Result, beginning_of, text_error};
use std::alloc::Global;

/// The parts of an advisory file, each a slice of its text.
#[derive(Clone, Copy, Debug)]
pub struct Parts<'a> {
    /// The front matter, which is TOML.
    pub front_matter: &'a str,
    /// The Markdown after the front matter, from the title on.
    pub markdown: &'a str,
    /// The title.
    pub title: &'a str,
    /// The Markdown after the title.
    pub description: &'a str,
}

/// The number of bytes of a text with a wrong beginning that its message shows.
const SHOWN: usize = 20;

impl<'a> Parts<'a> {
    /// Returns the parts of a text: slices of it, so they take no memory. `alloc` is for messages alone.
    ///
    /// # Errors
    ///
    /// `Parse` for a text without these parts; `OutOfMemory` instead if there is no memory for the message.
    pub fn parse(alloc: Global, text: &'a str) -> Result<Parts<'a>>
        ensures ok { IfOk result (λ p. parts_of text.now ≡ Some (record {
          front_matter = p.front_matter.now;
          markdown = p.markdown.now;
          title = p.title.now;
          description = p.description.now;
        })) }
        ensures err { IfErr result (IsRefusal ErrorKind.Parse (parts_of text.now ≡ None)) }

        // Success takes no memory, so any error means that the text does not have these parts.
        ensures none { IfErr result (λ e. parts_of text.now ≡ None) }
        ensures wrong_start { IfErr result (λ e. after_prefix opening text.now ≡ None → IsRefusal ErrorKind.Parse (ShowsBeginning text.now e) e) }
        ensures slices { IfOk result (λ p. IsSliceOf p.front_matter.now text.now × IsSliceOf p.markdown.now text.now
            × IsSliceOf p.title.now text.now × IsSliceOf p.description.now text.now) }
        ensures meaning { (p : FileParts) → (parts_of text.now ≡ Some p) ↔ AreParts text.now p }
    {
        let Some(body) = after_prefix(text, "```toml") else {
            return Err(start_error(alloc, text));
        };
        let Some((front, rest)) = cut_at_end(body) else {
            return Err(text_error(
                alloc,
                "the front matter has no end",
                first_line(body.trim_start()),
                "a line that begins with three backquotes",
            ));
        };
        let markdown = rest.trim_start();
        let Some(lines) = after_prefix(markdown, "# ") else {
            return Err(text_error(
                alloc,
                "no title below the front matter",
                first_line(markdown),
                "`# ` and the title",
            ));
        };
        let Some((title, description)) = cut_at(lines, "\n") else {
            return Err(text_error(
                alloc,
                "no line below the title",
                lines,
                "a line feed after it",
            ));
        };
        Ok(Parts {
            front_matter: front.trim(),
            markdown,
            title: title.trim_end(),
            description: description.trim(),
        })
    }
}

/// Returns the text after a pattern, if the text begins with it.
fn after_prefix<'a>(text: &'a str, pattern: &'static str) -> Option<&'a str>
    ensures { MatchOption result (after_prefix pattern.now text.now ≡ None) (λ rest. after_prefix pattern.now text.now ≡ Some rest.now) }
{
    text.strip_prefix(pattern)
}

/// Returns the text before the first place of a pattern, and the text after it.
fn cut_at<'a>(text: &'a str, pattern: &'static str) -> Option<(&'a str, &'a str)>
    ensures { MatchOption result (cut_at pattern.now text.now ≡ None) (λ c. cut_at pattern.now text.now ≡ Some (c.0.now, c.1.now)) }
{
    text.split_once(pattern)
}

/// Returns the text before the line that ends the front matter, and the text after its backquotes, if no other backquote is
/// before them.
fn cut_at_backquote(body: &str) -> Option<(&str, &str)>
    ensures { IfSome result (λ c. cut_at closing body.now ≡ Some (c.0.now, c.1.now)) }
{
    let (before, after) = body.split_once('`')?;
    let front = before.strip_suffix('\n')?;
    let rest = after_prefix(after, "``")?;
    Some((front, rest))
}

/// Returns the text before the line that ends the front matter, and the text after its backquotes. A front matter seldom has
/// a backquote, and a character is found faster than a text.
fn cut_at_end(body: &str) -> Option<(&str, &str)>
    ensures { MatchOption result (cut_at closing body.now ≡ None) (λ c. cut_at closing body.now ≡ Some (c.0.now, c.1.now)) }
{
    if let Some(cut) = cut_at_backquote(body) {
        return Some(cut);
    }
    cut_at(body, "\n```")
}

/// Returns the first line of a text.
fn first_line(text: &str) -> &str {
    match cut_at(text, "\n") {
        Some((line, _)) => line,
        None => text,
    }
}

/// Returns the error for a text that does not begin as an advisory file; it shows the beginning.
fn start_error(alloc: Global, text: &str) -> Error
    ensures { IsRefusal ErrorKind.Parse (ShowsBeginning text.now result) result }
{
    let beginning = beginning_of(text, SHOWN);
    match format!(in alloc;
        "not the start of an advisory: found `{beginning}`, expected a first line of three backticks and `toml`"
    ) {
        Ok(message) => Error::new(alloc, ErrorKind::Parse, &message),
        Err(refused) => Error::from(refused),
    }
}
