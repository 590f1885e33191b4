//! The command `osv`: the document of an advisory, as one line of JSON.

ghost use Rattle.std.specs.Prelude.{◌≡◌, IfErr, IfOk, string_bytes};
ghost use Rattle.rustsec_files.specs.Allowed.{AllowSame};
ghost use Rattle.rustsec_osv.specs.DocumentCodec.{document_tree};
ghost use Rattle.rustsec_commands.specs.command.Osv.{IsDocumentOf, IsOsvOutput, IsOsvRefusal, document_output};
ghost use Rattle.rustsec_json.specs.Lines.{tree_line};

use crate::error_output::refusal_output;
use crate::output::Output;
use rustsec_advisory::Advisory;
use rustsec_files::Folders;
use rustsec_json::tree_line;
use rustsec_osv::OsvAdvisory;
use std::alloc::{AllocError, Global};

/// Returns the text of a document's tree on one line.
fn document_line(alloc: Global, document: &OsvAdvisory) -> Result<String, AllocError>
    ensures { IfOk result (λ t. string_bytes t ≡ tree_line (document_tree document.now)) }
{
    match document.to_value(alloc) {
        Ok(tree) => tree_line(alloc, &tree),
        Err(_) => Err(AllocError),
    }
}

/// Makes the output of `osv` for a document.
fn document_output(alloc: Global, document: &OsvAdvisory) -> Result<Output, AllocError>
    ensures { IfOk result (λ o. o ≡ document_output document.now) }
{
    let text = document_line(alloc, document)?;
    Ok(Output::new(text, 0))
}

/// Exports the advisory in the file at a path, with `modified` as the time of its last change.
fn exported_document<F: Folders>(
    alloc: Global,
    folders: &mut F,
    path: &str,
    modified: &str,
) -> rustsec_values::Result<OsvAdvisory>
    ensures ok { IfOk result (IsDocumentOf (F.allowed folders.old) path.now modified.now) }
    ensures err { IfErr result (IsOsvRefusal (F.allowed folders.old) path.now) }
    ensures same { AllowSame (F.allowed folders.old) (F.allowed folders.new) }
{
    let advisory = Advisory::load_file_with(alloc, folders, path)?;
    OsvAdvisory::from_rustsec(alloc, advisory, modified)
}

/// Makes the output of `osv` for the file at a path, with `modified` as the time of its last change.
pub fn osv_output<F: Folders>(
    alloc: Global,
    folders: &mut F,
    path: &str,
    modified: &str,
) -> Result<Output, AllocError>
    ensures ok { IfOk result (IsOsvOutput (F.allowed folders.old) path.now modified.now) }
    ensures same { AllowSame (F.allowed folders.old) (F.allowed folders.new) }
{
    match exported_document(alloc, folders, path, modified) {
        Ok(document) => document_output(alloc, &document),
        Err(error) => refusal_output(alloc, &error),
    }
}
