//! Writes the lines that fit into a number of bytes, and how many do not.

ghost use Rattle.std.specs.Prelude.{◌≡◌, ◌++◌, ◌+◌, ◌≤◌, IfOk, OnOk, length, string_bytes};
ghost use Rattle.std.specs.Fmt.{decimal};
ghost use Rattle.std.specs.List.{concat};
ghost use Rattle.rustsec_check_output.specs.CheckText.{counted};
ghost use Rattle.rustsec_markdown.specs.MarkdownText.{fitting, left_out, left_words, list, list_of, table, table_head, table_of};

use rustsec_values::Text;
use std::alloc::AllocError;
use std::fmt::Write as _;

/// Appends a number.
pub(crate) fn push_number(text: &mut String, n: usize) -> Result<(), AllocError>
    ensures ok { OnOk result (string_bytes text.new ≡ string_bytes text.old ++ decimal n) }
    ensures short { OnOk result (length (string_bytes text.new) ≤ length (string_bytes text.old) + 20) }
{
    write!(text, "{n}")?;
    Ok(())
}

/// Appends a number of things, in the singular or in the plural.
#[tactic(auto, unfolding(rustsec_check_output::specs::CheckText::counted))]
pub(crate) fn push_counted(
    text: &mut String,
    n: usize,
    one: &str,
    many: &str,
) -> Result<(), AllocError>
    ensures ok { OnOk result (string_bytes text.new ≡ string_bytes text.old ++ counted n one.now many.now) }
    ensures short { OnOk result (length (string_bytes text.new) ≤ length (string_bytes text.old) + 20 + length one.now + length many.now) }
{
    push_number(text, n)?;
    text.push_str(if n == 1 { one } else { many })?;
    Ok(())
}

/// Appends the lines that fit into a number of bytes, in order, and returns how many do not fit.
fn push_fitting(text: &mut String, lines: &[Text], budget: usize) -> Result<usize, AllocError>
    ensures ok { OnOk result (string_bytes text.new ≡ string_bytes text.old ++ concat (fitting budget lines.now)) }
    ensures left { IfOk result (λ n. n ≡ left_out budget lines.now) }
    ensures short { OnOk result (length (string_bytes text.new) ≤ length (string_bytes text.old) + budget) }
{
    let mut room = budget;
    let mut kept = 0;
    for line in lines {
        let size = line.len();
        if size <= room {
            text.push_str(line.as_str())?;
            room -= size;
            kept += 1;
        }
    }
    Ok(lines.len() - kept)
}

/// Appends a line that says how many lines are left out, if any.
fn push_left(text: &mut String, n: usize, one: &str, many: &str) -> Result<(), AllocError>
    ensures ok { OnOk result (string_bytes text.new ≡ string_bytes text.old ++ left_words n one.now many.now) }
    ensures short { OnOk result (length (string_bytes text.new) ≤ length (string_bytes text.old) + 21 + length one.now + length many.now) }
{
    if n > 0 {
        text.push_str("\n")?;
        push_counted(text, n, one, many)?;
    }
    Ok(())
}

/// Appends the row that names the columns, and the row between it and the others.
#[tactic(auto, unfolding(crate::specs::MarkdownText::table_head))]
fn push_table_head(text: &mut String) -> Result<(), AllocError>
    ensures ok { OnOk result (string_bytes text.new ≡ string_bytes text.old ++ table_head) }
    ensures short { OnOk result (length (string_bytes text.new) ≤ length (string_bytes text.old) + 100) }
{
    text.push_str("\n| package | advisory | title | kind | path | update to |\n")?;
    text.push_str("| --- | --- | --- | --- | --- | --- |\n")?;
    Ok(())
}

/// Appends the table with the rows that fit.
#[tactic(auto, unfolding(crate::specs::MarkdownText::table_of))]
fn push_table_of(text: &mut String, rows: &[Text]) -> Result<(), AllocError>
    ensures ok { OnOk result (string_bytes text.new ≡ string_bytes text.old ++ table_of rows.now) }
    ensures short { OnOk result (length (string_bytes text.new) ≤ length (string_bytes text.old) + 48_300) }
{
    push_table_head(text)?;
    let left = push_fitting(text, rows, 48_000)?;
    push_left(
        text,
        left,
        " finding is left out, for lack of space.\n",
        " findings are left out, for lack of space.\n",
    )?;
    Ok(())
}

/// Appends the table with the rows that fit, if there are rows.
pub(crate) fn push_table(text: &mut String, rows: &[Text]) -> Result<(), AllocError>
    ensures ok { OnOk result (string_bytes text.new ≡ string_bytes text.old ++ table rows.now) }
    ensures short { OnOk result (length (string_bytes text.new) ≤ length (string_bytes text.old) + 48_300) }
{
    if rows.is_empty() {
        return Ok(());
    }
    push_table_of(text, rows)
}

/// Appends the list with the lines that fit.
#[tactic(auto, unfolding(crate::specs::MarkdownText::list_of))]
fn push_list_of(text: &mut String, lines: &[Text]) -> Result<(), AllocError>
    ensures ok { OnOk result (string_bytes text.new ≡ string_bytes text.old ++ list_of lines.now) }
    ensures short { OnOk result (length (string_bytes text.new) ≤ length (string_bytes text.old) + 16_200) }
{
    text.push_str("\n")?;
    let left = push_fitting(text, lines, 16_000)?;
    push_left(
        text,
        left,
        " line is left out, for lack of space.\n",
        " lines are left out, for lack of space.\n",
    )?;
    Ok(())
}

/// Appends the list with the lines that fit, if there are lines.
pub(crate) fn push_list(text: &mut String, lines: &[Text]) -> Result<(), AllocError>
    ensures ok { OnOk result (string_bytes text.new ≡ string_bytes text.old ++ list lines.now) }
    ensures short { OnOk result (length (string_bytes text.new) ≤ length (string_bytes text.old) + 16_200) }
{
    if lines.is_empty() {
        return Ok(());
    }
    push_list_of(text, lines)
}
