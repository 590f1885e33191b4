//! The commands over readers and writers that take one byte a call, that fail, and that hold much.

use rustsec_commands::{Fault, answer, answer_ranges, read_all, run, run_with_notes, write_audit};
use rustsec_fixtures::{ByteReader, ByteWriter, exact_field};
use rustsec_lock::Lockfile;
use rustsec_report::{LockfileInfo, Report, Settings, VulnerabilityInfo, Warning, WarningInfo};
use rustsec_texts::WarningKind;
use rustsec_values::Items;
use std::alloc::Global;
use std::io::ErrorKind;
use std::test::Fail;

/// A call of the library, or the word of a command, with its input.
type Call<'a> = (&'a str, &'a str);

/// What a call answers, and what is written then.
type Answer<'a> = (Result<u8, Fault>, &'a [u8]);

/// Returns whether a call has this answer if a read and a write fail. They count from 1, so none fails at 0.
fn gives(rt: &HostRuntime, call: Call<'_>, fails_at: (u64, u64), wanted: Answer<'_>) -> bool {
    let mut input = ByteReader::new(call.1.as_bytes(), fails_at.0);
    let mut output = ByteWriter::new(Vec::new(rt.alloc()), fails_at.1);
    let found = match call.0 {
        "answer" => answer(rt.alloc(), &mut input, &mut output),
        "answer_ranges" => answer_ranges(rt.alloc(), &mut input, &mut output),
        "lint" => run(rt, &["lint", "absent.md"], &mut input, &mut output),
        "nothing" => run(rt, &[], &mut input, &mut output),
        word => run(rt, &[word], &mut input, &mut output),
    };
    found == wanted.0 && output.held() == wanted.1
}

/// A call, its input, the status that it gives, and what is written. `lint` and no word leave their input unread.
const ROWS: &[&str] = &[
    "answer | patched >= 1\nversion 0.9.0\r\nversion 1.0.0 | 0 | 0.9.0 affected\n1.0.0 not affected\n",
    "answer | patched >= 1\nunaffected 2\n | 2 | refused: bad parameter\n",
    "answer | \nversions 1.0.0\n | 2 | line 2: malformed\n",
    "answer |  | 0 | ",
    "answer_ranges | patched 1\nunaffected < 0.9\n | 0 | 0.9.0 1.0.0\n2.0.0-0 -\n",
    "answer_ranges | version 1.0.0 | 2 | line 1: malformed\n",
    "answer_ranges |  | 0 | - -\n",
    "affected | patched >= 1\nversion 0.9.0 | 0 | 0.9.0 affected\n",
    "ranges | patched >= 1.2.3\r\n | 0 | - 1.2.3\n",
    "lint | version 0.9.0 | 2 | refused: I/O operation failed\n",
    "nothing | version 0.9.0 | 2 | usage: rustsec_audit COMMAND\n",
];

fn call_after(calls: usize) -> u64 {
    (calls as u64).saturating_add(1)
}

/// Returns whether a call is broken off by a read that fails, at each in turn, and nothing is written. The read that
/// finds the end is one of them, and none comes after it.
fn breaks_off_at_reads(rt: &HostRuntime, call: Call<'_>, wanted: Answer<'_>) -> bool {
    let is_unread = call.0 == "lint" || call.0 == "nothing";
    let reads = if is_unread { 0 } else { call.1.len() + 1 };
    for calls in 0..reads {
        let broken_off = (Err(Fault::Read), b"".as_slice());
        if !gives(rt, call, (call_after(calls), 0), broken_off) {
            return false;
        }
    }
    gives(rt, call, (call_after(reads), 0), wanted)
}

/// Returns whether a call is broken off by a write that fails, at each in turn, and what comes before is written.
fn breaks_off_at_writes(rt: &HostRuntime, call: Call<'_>, wanted: Answer<'_>) -> bool {
    for (taken, _) in wanted.1.iter().enumerate() {
        let broken_off = (Err(Fault::Write), &wanted.1[..taken]);
        if !gives(rt, call, (0, call_after(taken)), broken_off) {
            return false;
        }
    }
    gives(rt, call, (0, call_after(wanted.1.len())), wanted)
}

#[test]
fn readers_and_writers_that_fail(rt: HostRuntime) {
    for row in ROWS {
        let call = (exact_field(row, 0), exact_field(row, 1));
        let status = if exact_field(row, 2) == "0" { 0 } else { 2 };
        let wanted = (Ok(status), exact_field(row, 3).as_bytes());
        assert!(rt; breaks_off_at_reads(&rt, call, wanted), "{row}");
        assert!(rt; breaks_off_at_writes(&rt, call, wanted), "{row}");
    }
}

/// Returns whether `read_all` and `answer` answer this fault if a read fails so, at each of the 15 reads in turn, and
/// whether `answer` writes nothing then.
fn faults_so(alloc: Global, failure: ErrorKind, fault: Fault) -> bool {
    let text = b"version 1.0.0\n".as_slice();
    for fails_at in 1..16u64 {
        let read = read_all(alloc, &mut ByteReader::failing(text, fails_at, failure));
        let mut output = Vec::new(alloc);
        let mut input = ByteReader::failing(text, fails_at, failure);
        let found = answer(alloc, &mut input, &mut output);
        if read.err() != Some(fault) || found != Err(fault) || !output.is_empty() {
            return false;
        }
    }
    true
}

#[test]
fn faults_of_readers(rt: HostRuntime) {
    for (failure, fault) in [
        (ErrorKind::OutOfMemory, Fault::Memory),
        (ErrorKind::Other, Fault::Read),
        (ErrorKind::UnexpectedEof, Fault::Read),
    ] {
        assert!(rt; faults_so(rt.alloc(), failure, fault), "{failure:?}");
    }
}

/// A call, a text, a filler, a text after much of it, which decides; the status, and what is written.
const LONG: &[&str] = &[
    "affected | version 1.0.0\nversion 2.0.0\npatched  |   | >= 2 | 0 | 1.0.0 affected\n2.0.0 not affected\n",
    "affected | version 1.0.0 | \r\n | version | 2 | line 600001: malformed\n",
    "ranges | unaffected < 1\npatched  |   | 2 | 0 | 1.0.0 2.0.0\n3.0.0-0 -\n",
    "answer | version 1.0.0\npatched  |   | >= 1 | 0 | 1.0.0 not affected\n",
];

/// Returns whether the call of a row gives what the row says, and fails if a late read fails.
fn long_is_answered(rt: &HostRuntime, row: &str) -> Result<bool, Fail> {
    let is_blank = exact_field(row, 2) == " ";
    let count = if is_blank { 1200000 } else { 600000 };
    let filler = exact_field(row, 2).repeat(rt.alloc(), count)?;
    let input = format!(in rt.alloc(); "{}{filler}{}", exact_field(row, 1), exact_field(row, 3))?;
    let call = (exact_field(row, 0), input.as_str());
    let status = if exact_field(row, 4) == "0" { 0 } else { 2 };
    let wanted = (Ok(status), exact_field(row, 5).as_bytes());
    let broken_off = (Err(Fault::Read), b"".as_slice());
    Ok(gives(rt, call, (0, 0), wanted) && gives(rt, call, (1000000, 0), broken_off))
}

#[test]
fn inputs_and_outputs_above_a_megabyte(rt: HostRuntime) -> Result<(), Fail> {
    for row in LONG {
        assert!(rt; long_is_answered(&rt, row)?, "{row}");
    }
    let input = "version 1.0.0\n".repeat(rt.alloc(), 80000)?;
    let output = "1.0.0 affected\n".repeat(rt.alloc(), 80000)?;
    let call = ("affected", input.as_str());
    assert!(rt; gives(&rt, call, (0, 0), (Ok(0), output.as_bytes())));
    Ok(())
}

/// Returns whether `affected` fails with this answer and this note, if a read or a write fails at a call.
fn is_noted(rt: &HostRuntime, fails_at: (u64, u64), fault: Fault, text: &[u8]) -> bool {
    let mut input = ByteReader::new(b"version 1.0.0\n", fails_at.0);
    let mut output = ByteWriter::new(Vec::new(rt.alloc()), fails_at.1);
    let mut note = Vec::new(rt.alloc());
    let found = run_with_notes(rt, &["affected"], &mut input, &mut output, &mut note);
    found == Err(fault) && note.as_slice() == text
}

/// Returns whether `lint` writes the same refusal if its note fails at a write.
fn refuses_without_note(rt: &HostRuntime, fails_at: u64) -> Result<bool, Fail> {
    let mut input: &[u8] = b"";
    let mut output = Vec::new(rt.alloc());
    let mut note = ByteWriter::new(Vec::new(rt.alloc()), fails_at);
    let words = &["lint", "absent.md"];
    let found = run_with_notes(rt, words, &mut input, &mut output, &mut note)?;
    let refusal = b"refused: I/O operation failed\n".as_slice();
    let is_cut = Some(note.held().len() as u64) == fails_at.checked_sub(1);
    Ok(is_cut && found == 2 && output.as_slice() == refusal)
}

#[test]
fn notes_of_failures(rt: HostRuntime) -> Result<(), Fail> {
    let read = b"rustsec_audit: the input cannot be read\n";
    assert!(rt; is_noted(&rt, (3, 0), Fault::Read, read));
    let write = b"rustsec_audit: the output cannot be written\n";
    assert!(rt; is_noted(&rt, (0, 3), Fault::Write, write));
    for fails_at in 1..40u64 {
        assert!(rt; refuses_without_note(&rt, fails_at)?, "{fails_at}");
    }
    Ok(())
}

/// Returns a report without a vulnerability, and with one warning that no advisory gives.
fn report_of_a_notice(alloc: Global) -> Result<Report, Fail> {
    let text = "[[package]]\nname = \"base\"\nversion = \"1.0.0\"\n";
    let lockfile = Lockfile::from_str(alloc, text)?;
    let mut notices = Items::new(alloc);
    for package in &lockfile.packages {
        notices.push(Warning::new(alloc, WarningKind::Notice, package, None, None, None)?)?;
    }
    let mut warnings = WarningInfo::new(alloc);
    warnings.insert(WarningKind::Notice, notices)?;
    Ok(Report {
        lockfile: LockfileInfo::new(&lockfile),
        settings: Settings::new(alloc),
        vulnerabilities: VulnerabilityInfo::default(alloc),
        warnings,
    })
}

/// Returns whether `write_audit` has this answer for that report if a write fails.
fn audits(alloc: Global, denies: bool, fails_at: u64, wanted: Answer<'_>) -> Result<bool, Fail> {
    let report = report_of_a_notice(alloc)?;
    let mut output = ByteWriter::new(Vec::new(alloc), fails_at);
    let found = write_audit(alloc, &report, denies, &mut output);
    Ok(found == wanted.0 && output.held() == wanted.1)
}

#[test]
fn a_warning_without_an_advisory(rt: HostRuntime) -> Result<(), Fail> {
    let text = b"warning notice - base 1.0.0\n0 vulnerabilities, 1 warnings\n".as_slice();
    assert!(rt; audits(rt.alloc(), false, 0, (Ok(0), text))?);
    assert!(rt; audits(rt.alloc(), true, 0, (Ok(1), text))?);
    for (taken, _) in text.iter().enumerate() {
        let cut = (Err(Fault::Write), &text[..taken]);
        assert!(rt; audits(rt.alloc(), true, call_after(taken), cut)?);
    }
    Ok(())
}
