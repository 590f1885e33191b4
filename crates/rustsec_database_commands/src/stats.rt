//! The command `stats`.

ghost use Rattle.std.specs.Prelude.{◌≡◌, ◌≢◌, IfErr, IfOk, List, Some, map, option_map, string_bytes};
ghost use Rattle.serde_json.specs.View.{view};
ghost use Rattle.rustsec_files.specs.Allowed.{AllowSame};
ghost use Rattle.rustsec_advisory.specs.declared.advisory.Advisory as given;
ghost use Rattle.rustsec_database.specs.Opened.{AreOpened, IsOpenRefusal};
ghost use Rattle.rustsec_values.specs.Failure.{IsMemory};
ghost use Rattle.rustsec_values.specs.declared.error.ErrorKind.TheVariants as failure;
ghost use Rattle.rustsec_commands.specs.Output.{refused_as};
ghost use Rattle.rustsec_json.specs.Lines.{tree_line};
ghost use Rattle.rustsec_stats.specs.Stats.{stats_of};
ghost use Rattle.rustsec_stats.specs.StatsTree.{stats_tree};
ghost use Rattle.rustsec_database_commands.specs.Stats.{IsCountedBy, IsStatsOutput, asked_form, stats_output, stats_text_in};

use crate::form::{Form, form_named};
use crate::misuse;
use rustsec_advisory::Advisory;
use rustsec_commands::error_output::refusal_output;
use rustsec_commands::output::{Output, usage_output};
use rustsec_database::Database;
use rustsec_files::Folders;
use rustsec_json::tree_line;
use rustsec_stats::{Stats, stats_of, stats_text, stats_tree};
use rustsec_values::Result;
use std::alloc::{AllocError, Global};

/// Returns the name of the form that the words ask for, if any; `None` for words that are not `--format` and a name.
fn asked_form<'a>(words: &[&'a str]) -> Option<Option<&'a str>>
    ensures { option_map (λ n. option_map (λ t. t.now) n) result ≡ asked_form (map (λ w. w.now) words.now) }
{
    match words {
        [] => Some(None),
        [word, name] if *word == "--format" => Some(Some(*name)),
        _ => None,
    }
}

/// Returns stats as one line of JSON.
fn stats_line(alloc: Global, stats: &Stats) -> Result<String>
    ensures ok { IfOk result (λ t. string_bytes t ≡ tree_line (stats_tree stats.now)) }
    ensures err { IfErr result IsMemory }
{
    let tree = stats_tree(alloc, stats)?;
    let line = tree_line(alloc, &tree)?;
    Ok(line)
}

/// Returns the text about advisories, in a form.
fn text_of(alloc: Global, form: Form, advisories: &[Advisory]) -> Result<String>
    ensures ok { IfOk result (λ t. string_bytes t ≡ stats_text_in form advisories.now) }
    ensures err { IfErr result IsMemory }
{
    let stats = stats_of(alloc, advisories)?;
    match form {
        Form::Text => stats_text(alloc, &stats),
        Form::Json => stats_line(alloc, &stats),
    }
}

/// Makes the output for the database under a root, in a form.
fn root_output<F: Folders>(alloc: Global, folders: &mut F, root: &str, form: Form) -> Result<Output>
    ensures ok { IfOk result (λ o. (advisories : List given.Advisory) × (AreOpened (F.allowed folders.old) root.now advisories
        × (o ≡ stats_output form advisories))) }
    ensures err { IfErr result (IsOpenRefusal (F.allowed folders.old) root.now) }
    ensures same { AllowSame (F.allowed folders.old) (F.allowed folders.new) }
{
    let database = Database::open_with(alloc, folders, root)?;
    let text = text_of(alloc, form, database.iter().as_slice())?;
    Ok(Output::new(text, 0))
}

/// Makes the output for the database under a root, in the form of a name.
fn named_output<F: Folders>(
    alloc: Global,
    folders: &mut F,
    root: &str,
    name: Option<&str>,
) -> Result<Output>
    ensures ok { IfOk result (IsCountedBy (F.allowed folders.old) root.now (Some (option_map (λ t. t.now) name.entry))) }
    ensures err { IfErr result (λ e. e.kind ≢ failure.OutOfMemory
        → IsCountedBy (F.allowed folders.old) root.now (Some (option_map (λ t. t.now) name.entry)) (refused_as e.kind)) }
    ensures same { AllowSame (F.allowed folders.old) (F.allowed folders.new) }
{
    match form_named(alloc, name) {
        Ok(form) => root_output(alloc, folders, root, form),
        Err(error) => Err(error),
    }
}

/// Makes the output of `stats` for a root and the words after it.
pub fn stats<F: Folders>(
    alloc: Global,
    folders: &mut F,
    root: &str,
    words: &[&str],
) -> std::result::Result<Output, AllocError>
    ensures ok { IfOk result (IsStatsOutput (F.allowed folders.old) root.now (map (λ w. w.now) words.now)) }
    ensures same { AllowSame (F.allowed folders.old) (F.allowed folders.new) }
{
    let Some(name) = asked_form(words) else {
        return usage_output(alloc, misuse::of_unknown(alloc, words, &["--format"]).ok());
    };
    match named_output(alloc, folders, root, name) {
        Ok(output) => Ok(output),
        Err(error) => refusal_output(alloc, &error),
    }
}
