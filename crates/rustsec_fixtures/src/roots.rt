//! Roots of databases with a lockfile, written to the disk.

use std::fs;
use std::rt::Files;
use std::test::Fail;

/// An advisory for `base` with a vulnerability.
pub const VULNERABLE: &str =
    "```toml\n[advisory]\nid = \"RUSTSEC-2001-0001\"\npackage = \"base\"\ndate = \"2001-02-03\"\n\n[versions]\npatched = [\">= 2.0.0\"]\n```\n\n# T\n\nD\n";

/// An advisory for `base` that was withdrawn.
pub const WITHDRAWN: &str =
    "```toml\n[advisory]\nid = \"RUSTSEC-2001-0002\"\npackage = \"base\"\ndate = \"2001-02-03\"\nwithdrawn = \"2001-02-04\"\n\n[versions]\npatched = [\">= 2.0.0\"]\n```\n\n# T\n\nD\n";

/// An advisory that nobody maintains `base`.
pub const UNMAINTAINED: &str =
    "```toml\n[advisory]\nid = \"RUSTSEC-2001-0003\"\npackage = \"base\"\ndate = \"2001-02-03\"\ninformational = \"unmaintained\"\n\n[versions]\npatched = [\">= 2.0.0\"]\n```\n\n# T\n\nD\n";

/// The three advisories, by their paths under a root.
pub const ADVISORIES: &[(&str, &str)] = &[
    ("crates/base/RUSTSEC-2001-0001.md", VULNERABLE),
    ("crates/base/RUSTSEC-2001-0002.md", WITHDRAWN),
    ("crates/base/RUSTSEC-2001-0003.md", UNMAINTAINED),
];

/// A lockfile of four packages: one of the default source, one without a source, one of a repository, and one of
/// the other default registry.
pub const FOUR_PACKAGES: &str = "version = 3

[[package]]
name = \"base\"
version = \"1.0.0\"
source = \"registry+https://github.com/rust-lang/crates.io-index\"

[[package]]
name = \"base\"
version = \"1.0.0\"

[[package]]
name = \"base\"
version = \"1.0.0\"
source = \"git+https://example.com/base?branch=x#abc\"

[[package]]
name = \"base\"
version = \"1.0.0\"
source = \"sparse+https://index.crates.io/\"
";

/// Writes a file below a root.
fn put_file<T: Files + AllocGlobal>(
    rt: &T,
    root: &str,
    path: &str,
    text: &str,
) -> Result<(), Fail> {
    let path = format!(in rt.alloc(); "{root}/{path}")?;
    fs::write(rt, path.as_str(), text)?;
    Ok(())
}

/// Makes a root with these advisories and this lockfile.
pub fn make_root<T: Files + AllocGlobal>(
    rt: &T,
    root: &str,
    advisories: &[(&str, &str)],
    lockfile: &str,
) -> Result<(), Fail> {
    let folder = format!(in rt.alloc(); "{root}/crates/base")?;
    fs::create_dir_all(rt, folder.as_str())?;
    for (path, text) in advisories {
        put_file(rt, root, path, text)?;
    }
    put_file(rt, root, "Cargo.lock", lockfile)
}
