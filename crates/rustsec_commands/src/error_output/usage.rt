//! The page that explains how the program is used.

/// Each command with its words, what it writes, its statuses and an example.
pub const PAGE: &str = "
rustsec_audit tells which packages of a Cargo.lock have known vulnerabilities, by the files of the RustSec
advisory database. It reads files and its input alone: fetch the database first, as by `git clone`.

  audit ROOT LOCK [--ignore ID].. [--deny-warnings]
      for the lockfile LOCK and the database under the folder ROOT: a line for each vulnerability and each
      warning, and one that counts them; what to do about each is on the error output
      status 0: no vulnerability and, with --deny-warnings, no warning; 1: some
      example: rustsec_audit audit advisory-db Cargo.lock --ignore RUSTSEC-2020-0001

  report ROOT LOCK
      the same as one line of JSON
      status 0: no vulnerability; 1: some
      example: rustsec_audit report advisory-db Cargo.lock

  lint FILE
      a line for each error in the advisory in FILE, whose name ends in `.md`
      status 0: no error; 1: some
      example: rustsec_audit lint advisory-db/crates/base/RUSTSEC-2001-2101.md

  osv FILE MODIFIED
      the OSV document of the advisory in FILE, last changed at the time MODIFIED, as one line of JSON
      status 0
      example: rustsec_audit osv RUSTSEC-2001-2101.md 2001-02-03T12:00:00Z

  affected
      for the lines `patched REQ`, `unaffected REQ` and `version V` of the input: a line for each version
      status 0
      example: rustsec_audit affected < lists.txt

  ranges
      for the lines `patched REQ` and `unaffected REQ` of the input: a line for each range of affected
      versions, from its first version to the first after it, with `-` where there is none
      status 0
      example: rustsec_audit ranges < lists.txt

Further commands: check, check-many, explain, lint-database, stats, osv-database and query-osv. Each one shows
its page if no word comes after it.

Status 2: the words name no command, or something is refused; the error output says why. Status 3: memory,
reading or writing failed.
";
