//! Commands over folders in memory that fail at each call in turn, and that change; and checks that memory breaks off.

use rustsec_commands::{Fault, run_over};
use rustsec_fixtures::{
    FOUR_PACKAGES, Failing, Holds, MemoryFolders, Paths, SHORT, SHORT_DOCUMENT, UNMAINTAINED,
    VULNERABLE, WITHDRAWN,
};
use rustsec_values::ErrorKind;
use std::alloc::Global;
use std::io;
use std::test::Fail;

const FIRST: &str = "db/crates/base/RUSTSEC-2001-0001.md";

const SECOND: &str = "db/crates/base/RUSTSEC-2001-0002.md";

const THIRD: &str = "db/crates/base/RUSTSEC-2001-0003.md";

/// The entries of the folder of a package, and what they are later.
const ENTRIES: &[(&str, bool)] = &[
    ("RUSTSEC-2001-0003.md", false),
    ("RUSTSEC-2001-0001.md", false),
    ("RUSTSEC-2001-0002.md", false),
];

const LATER_ENTRIES: &[(&str, bool)] = &[("RUSTSEC-2001-0003.md", false)];

/// Older lockfiles.
const OLD: &str =
    "[[package]]\nname = \"base\"\nversion = \"0.2.0\"\nsource = \"registry+https://github.com/rust-lang/crates.io-index\"\n";

const OLDER: &str =
    "[[package]]\nname = \"base\"\nversion = \"0.1.0\"\nsource = \"registry+https://github.com/rust-lang/crates.io-index\"\n";

/// A root with three advisories about `base`, three lockfiles, and a short advisory.
const FILES: Paths<'_> = &[
    ("db/crates", Holds::Entries(&[("base", true)])),
    ("db/crates/base", Holds::Entries(ENTRIES)),
    (FIRST, Holds::Text(VULNERABLE)),
    (SECOND, Holds::Text(WITHDRAWN)),
    (THIRD, Holds::Text(UNMAINTAINED)),
    ("lock", Holds::Text(FOUR_PACKAGES)),
    ("old", Holds::Text(OLD)),
    ("older", Holds::Text(OLDER)),
    ("short.md", Holds::Text(SHORT)),
];

/// What `audit` writes of them.
const BOTH: &str = "vulnerability RUSTSEC-2001-0001 base 1.0.0\n\
    warning unmaintained RUSTSEC-2001-0003 base 1.0.0\n1 vulnerabilities, 1 warnings\n";

/// What `report` writes of them, as in the case `commands-over-folders-report`.
const REPORT: &str =
    "{\"lockfile\":{\"dependency-count\":4},\"settings\":{\"ignore\":[],\"informational_warnings\":[\"notice\",\"unmaintained\",\"unsound\"],\"severity\":null,\"target_arch\":[],\"target_os\":[]},\"vulnerabilities\":{\"count\":1,\"found\":true,\"list\":[{\"advisory\":{\"aliases\":[],\"categories\":[],\"collection\":\"crates\",\"cvss\":null,\"date\":\"2001-02-03\",\"description\":\"D\",\"expect-deleted\":false,\"id\":\"RUSTSEC-2001-0001\",\"informational\":null,\"keywords\":[],\"license\":\"CC0-1.0\",\"package\":\"base\",\"references\":[],\"related\":[],\"source\":null,\"title\":\"T\",\"url\":null,\"withdrawn\":null},\"affected\":null,\"package\":{\"checksum\":null,\"name\":\"base\",\"source\":\"registry+https://github.com/rust-lang/crates.io-index\",\"version\":\"1.0.0\"},\"versions\":{\"patched\":[\">=2.0.0\"],\"unaffected\":[]}}]},\"warnings\":{\"unmaintained\":[{\"advisory\":{\"aliases\":[],\"categories\":[],\"collection\":\"crates\",\"cvss\":null,\"date\":\"2001-02-03\",\"description\":\"D\",\"expect-deleted\":false,\"id\":\"RUSTSEC-2001-0003\",\"informational\":\"unmaintained\",\"keywords\":[],\"license\":\"CC0-1.0\",\"package\":\"base\",\"references\":[],\"related\":[],\"source\":null,\"title\":\"T\",\"url\":null,\"withdrawn\":null},\"affected\":null,\"kind\":\"unmaintained\",\"package\":{\"checksum\":null,\"name\":\"base\",\"source\":\"registry+https://github.com/rust-lang/crates.io-index\",\"version\":\"1.0.0\"},\"versions\":{\"patched\":[\">=2.0.0\"],\"unaffected\":[]}}]}}\n";

/// Words, a status or a fault, and what is written.
type Row<'a> = (&'a [&'a str], Result<u8, Fault>, &'a str);

/// Returns whether words give what their row says, over folders in memory.
fn gives(alloc: Global, mut paths: MemoryFolders<'_>, row: &Row<'_>) -> bool {
    let (words, answer, written) = row;
    let mut input: &[u8] = b"";
    let (mut text, mut notes) = (Vec::new(alloc), io::sink());
    let found = run_over(&mut paths, alloc, words, &mut input, &mut text, &mut notes);
    found == *answer && text.as_slice() == written.as_bytes()
}

/// A row, after how many askings its output is settled, and which asking may fail with an I/O error.
type Asked<'a> = (Row<'a>, u64, u64);

/// Returns whether words give their whole answer where an asking fails, or else the refusal of that kind.
fn gives_there(alloc: Global, whole: &Row<'_>, failing: Failing, is_whole: bool) -> bool {
    let (words, _, _) = whole;
    let folders = MemoryFolders::new(FILES, failing);
    if is_whole {
        return gives(alloc, folders, whole);
    }
    if failing.kind == ErrorKind::Io {
        let refused = (*words, Ok(2), "refused: I/O operation failed\n");
        return gives(alloc, folders, &refused);
    }
    gives(alloc, folders, &(*words, Err(Fault::Memory), ""))
}

/// Returns whether words have this answer where one asking fails: the refusal of a kind, or the whole answer where the
/// asking may fail or comes after all that the output is made of.
fn fails_at_each(alloc: Global, kind: ErrorKind, asked: &Asked<'_>) -> bool {
    let (whole, settled, may_fail) = asked;
    for at in 1..=settled.saturating_add(1) {
        let is_whole = at > *settled || kind == ErrorKind::Io && at == *may_fail;
        if !gives_there(alloc, whole, Failing { at, kind }, is_whole) {
            return false;
        }
    }
    true
}

// An audit reads the lockfile, lists `crates`, `base` and `rust`, and reads three advisories. The listing of `rust` may
// fail. An error at any other asking is a refusal, and never another output. Nothing is written after memory was
// refused.
#[test]
fn an_error_at_each_asking(rt: HostRuntime) -> Result<(), Fail> {
    let document = format!(in rt.alloc(); "{SHORT_DOCUMENT}\n")?;
    let osv: &[&str] = &["osv", "short.md", "2020-01-01T00:00:00Z"];
    let asked: &[Asked<'_>] = &[
        ((&["audit", "db", "lock"], Ok(1), BOTH), 7, 4),
        ((&["report", "db", "lock"], Ok(1), REPORT), 7, 4),
        ((&["lint", "short.md"], Ok(0), ""), 1, 0),
        ((osv, Ok(0), document.as_str()), 1, 0),
    ];
    for row in asked {
        assert!(rt; fails_at_each(rt.alloc(), ErrorKind::Io, row));
        assert!(rt; fails_at_each(rt.alloc(), ErrorKind::OutOfMemory, row));
    }
    Ok(())
}

const PATCHED: &str =
    "```toml\n[advisory]\nid = \"RUSTSEC-2001-0001\"\npackage = \"base\"\ndate = \"2001-02-03\"\n\n[versions]\npatched = [\">= 1.0.0\"]\n```\n\n# T\n\nD\n";

const UNSOUND: &str =
    "```toml\n[advisory]\nid = \"RUSTSEC-2001-0003\"\npackage = \"base\"\ndate = \"2001-02-03\"\ninformational = \"unsound\"\n\n[versions]\npatched = [\">= 2.0.0\"]\n```\n\n# T\n\nD\n";

const TWO_PACKAGES: &str =
    "[[package]]\nname = \"base\"\nversion = \"1.0.0\"\nsource = \"registry+https://github.com/rust-lang/crates.io-index\"\n\n[[package]]\nname = \"base\"\nversion = \"1.5.0\"\nsource = \"registry+https://github.com/rust-lang/crates.io-index\"\n";

/// Other contents of the same paths: two advisories are not listed, one no longer affects 1.0.0, another is of another
/// kind, and the lockfile has the package twice.
const LATER: Paths<'_> = &[
    ("db/crates", Holds::Entries(&[("base", true)])),
    ("db/crates/base", Holds::Entries(LATER_ENTRIES)),
    (FIRST, Holds::Text(PATCHED)),
    (SECOND, Holds::Text(WITHDRAWN)),
    (THIRD, Holds::Text(UNSOUND)),
    ("lock", Holds::Text(TWO_PACKAGES)),
];

/// What `audit` writes of the later lockfile, of the later advisories alone, and of the last advisory alone.
const TWICE: &str = "warning unsound RUSTSEC-2001-0003 base 1.0.0\n\
    warning unsound RUSTSEC-2001-0003 base 1.5.0\n0 vulnerabilities, 2 warnings\n";

const ONCE: &str = "warning unsound RUSTSEC-2001-0003 base 1.0.0\n0 vulnerabilities, 1 warnings\n";

const LAST: &str = "vulnerability RUSTSEC-2001-0001 base 1.0.0\n\
    warning unsound RUSTSEC-2001-0003 base 1.0.0\n1 vulnerabilities, 1 warnings\n";

// Each path is asked once, the lockfile's first, and the output is that of the answers that were given.
#[test]
fn folders_that_change(rt: HostRuntime) {
    let texts = [TWICE, ONCE, ONCE, ONCE, ONCE, LAST, LAST, BOTH];
    for (i, text) in texts.iter().enumerate() {
        let folders = MemoryFolders::turning(FILES, LATER, i as u64 + 1);
        let is_vulnerable = text.starts_with("vulnerability");
        let status = if is_vulnerable { 1 } else { 0 };
        let words: &[&str] = &["audit", "db", "lock"];
        let row = (words, Ok(status), *text);
        assert!(rt; gives(rt.alloc(), folders, &row), "{i}");
    }
}

/// The words of a check, and of checks of a list. An empty list is not refused.
const ONE: &[&str] = &["check", "db", "lock"];

const MANY: &[&str] = &["check-many", "db", "--allow-empty"];

/// Words, and the call of the folders at which memory runs out, or 0 if it does not.
type Call<'a> = (&'a [&'a str], u64);

/// Words, the call of the folders at which memory runs out, and the lockfiles whose lines were written before. A check
/// reads the lockfile first, and writes nothing before all is read. For a list, three folders are listed and three
/// advisories are read before the first lockfile; lines that were written are whole, and stay.
const CALLS: &[(Call<'static>, &str)] = &[
    ((ONE, 1), ""),
    ((ONE, 2), ""),
    ((ONE, 7), ""),
    ((MANY, 1), ""),
    ((MANY, 6), ""),
    ((MANY, 7), ""),
    ((MANY, 8), "lock\n"),
    ((MANY, 9), "lock\nold\n"),
];

/// Appends what a call writes for a list of lockfiles.
fn append(alloc: Global, call: Call<'_>, list: &str, text: &mut Vec<u8>) -> Result<u8, Fault> {
    let (at, kind) = (call.1, ErrorKind::OutOfMemory);
    let mut folders = MemoryFolders::new(FILES, Failing { at, kind });
    let mut input: &[u8] = list.as_bytes();
    let mut notes = Vec::new(alloc);
    rustsec_program::run_over(&mut folders, alloc, call.0, &mut input, text, &mut notes)
}

/// Returns whether a call breaks off, with this written and nothing else.
fn breaks_off_with(alloc: Global, call: Call<'_>, wanted: &[u8]) -> Result<bool, Fault> {
    let mut written = Vec::new(alloc);
    let answer = append(alloc, call, "lock\nold\nolder\n", &mut written);
    Ok(matches!(answer, Err(Fault::Memory)) && written.as_slice() == wanted)
}

/// Returns whether a call breaks off with the lines of the first lockfiles written.
fn breaks_off(alloc: Global, call: Call<'_>, first: &str) -> Result<bool, Fault> {
    let mut wanted = Vec::new(alloc);
    append(alloc, (MANY, 0), first, &mut wanted)?;
    breaks_off_with(alloc, call, wanted.as_slice())
}

#[test]
fn breaks_off_at_each_call(rt: HostRuntime) -> Result<(), Fail> {
    for (call, first) in CALLS {
        assert!(rt; breaks_off(rt.alloc(), *call, first)?, "{call:?}");
    }
    Ok(())
}
