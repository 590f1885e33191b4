//! Files on the disk: audits with links, a device and an unreadable file, files above a megabyte. What an audit reports
//! shows which files were read. `bench/roots` has pipes, sockets and large folders too.

use crate::report_calls::BASE;
use rustsec_advisory::Advisory;
use rustsec_commands::run;
use rustsec_fixtures::{VALID, VULNERABLE, changed, exact_field, make_root};
use std::alloc::Global;
use std::fmt::Write as _;
use std::fs;
use std::fs::Permissions;
use std::os::unix::fs::{PermissionsExt, symlink};
use std::test::Fail;

/// Returns whether words write a text, with this status.
fn writes(rt: &HostRuntime, words: &[&str], status: u8, text: &str) -> Result<bool, Fail> {
    let mut input: &[u8] = b"";
    let mut written = Vec::new(rt.alloc());
    let found = run(rt, words, &mut input, &mut written)?;
    Ok(found == status && written.as_slice() == text.as_bytes())
}

/// The place of the advisory under a root.
const PLACE: &str = "crates/base/RUSTSEC-2001-0001.md";

/// What an audit writes of the package that the advisory hits.
const FOUND: &str = "vulnerability RUSTSEC-2001-0001 base 1.0.0\n1 vulnerabilities, 0 warnings\n";

/// Returns whether an audit finds the vulnerability, or else is refused.
fn audits(rt: &HostRuntime, root: &str, lock: &str, found: bool) -> Result<bool, Fail> {
    let refused = "refused: I/O operation failed\n";
    let (status, text) = if found { (1, FOUND) } else { (2, refused) };
    writes(rt, &["audit", root, lock], status, text)
}

/// The example; what a link holds and its path in a root; whether it is beside what is read, or takes the place of what
/// was moved; whether the vulnerability is found. A link to a folder is not a folder of the collection: one that was
/// followed would hold a misplaced advisory.
const LINKS: &[&str] = &[
    "link_to_a_folder | base | crates/linked | beside | found",
    "links_to_nothing | absent | crates/gone | beside | found",
    "links_to_nothing | absent | crates/base/gone.md | beside | refused",
    "loops_of_links | loop | crates/loop | beside | found",
    "loops_of_links | x.md | crates/base/x.md | beside | refused",
    "link_to_a_device | /dev/null | crates/base/x.md | beside | refused",
    "link_as_crates | moved | crates | in place | found",
    "links_to_files | ../../moved | crates/base/RUSTSEC-2001-0001.md | in place | found",
    "links_to_files | moved | Cargo.lock | in place | found",
];

/// Returns whether an audit of a root with the link of a row is as the row says.
fn holds(rt: &HostRuntime, row: &str) -> Result<bool, Fail> {
    make_root(rt, "links", &[(PLACE, VULNERABLE)], BASE)?;
    let path = format!(in rt.alloc(); "links/{}", exact_field(row, 2))?;
    if exact_field(row, 3) == "in place" {
        fs::rename(rt, path.as_str(), "links/moved")?;
    }
    symlink(rt, exact_field(row, 1), path.as_str())?;
    let is_found = exact_field(row, 4) == "found";
    let holds = audits(rt, "links", "links/Cargo.lock", is_found)?;
    fs::remove_dir_all(rt, "links")?;
    Ok(holds)
}

#[test]
fn links(rt: HostRuntime) -> Result<(), Fail> {
    for row in LINKS {
        assert!(rt; holds(&rt, row)?, "{row}");
    }
    Ok(())
}

// An empty lockfile has no vulnerability, so to read a device as one would be the worst answer. A privileged user opens
// a file whatever its permissions are.
#[test]
fn lockfiles_that_are_not_read(rt: HostRuntime) -> Result<(), Fail> {
    let (root, lock) = ("not-read", "not-read/Cargo.lock");
    make_root(&rt, root, &[(PLACE, VULNERABLE)], BASE)?;
    assert!(rt; audits(&rt, root, "/dev/null", false)?);
    fs::set_permissions(&rt, lock, Permissions::from_mode(0))?;
    let opens = fs::File::open(&rt, lock).is_ok();
    assert!(rt; audits(&rt, root, lock, opens)?);
    fs::remove_dir_all(&rt, root)?;
    Ok(())
}

/// Returns whether an advisory's file has the valid advisory's title and this description.
fn describes(rt: &HostRuntime, path: &str, text: &str) -> Result<bool, Fail> {
    let advisory = Advisory::load_file(rt, rt.alloc(), path)?;
    Ok(advisory.title() == "All your base are belong to us" && advisory.description() == text)
}

#[test]
fn an_advisory_above_a_megabyte(rt: HostRuntime) -> Result<(), Fail> {
    let words = "chance ".repeat(rt.alloc(), 200000)?;
    let text = changed(rt.alloc(), VALID, "chance ", &words)?;
    let description = format!(in rt.alloc(); "You have no {words}to survive. Make your time.")?;
    fs::write(&rt, "long.md", &text)?;
    assert!(rt; describes(&rt, "long.md", &description)?);
    fs::remove_file(&rt, "long.md")?;
    Ok(())
}

/// Returns lines of a number each, between two texts, from 10000 up to 14999.
fn keys(alloc: Global, before: &str, after: &str) -> Result<String, Fail> {
    let mut lines = String::new(alloc);
    for number in 10000..15000u32 {
        writeln!(lines, "{before}{number}{after}")?;
    }
    Ok(lines)
}

#[test]
fn thousands_of_lint_errors(rt: HostRuntime) -> Result<(), Fail> {
    let unknown = keys(rt.alloc(), "key-", " = 1")?;
    let lines = format!(in rt.alloc(); "[affected]\n{unknown}")?;
    let text = changed(rt.alloc(), VALID, "[affected]\n", &lines)?;
    let output = keys(rt.alloc(), "invalid key `key-", "` in [affected]")?;
    fs::write(&rt, "thousands.md", &text)?;
    assert!(rt; writes(&rt, &["lint", "thousands.md"], 1, &output)?);
    fs::remove_file(&rt, "thousands.md")?;
    Ok(())
}
