//! The part of the page on usage that is about the commands of this crate.

/// Each command with its words, what it writes, its statuses and an example.
pub const PAGE: &str = "
  check ROOT LOCK [OPTION]..
      for the lockfile LOCK and the database under the folder ROOT: what is found, why each package is there, which
      version mends it, and what was ignored
      status 0: nothing that fails; 1: a vulnerability or a denied warning that is not old
      example: rustsec_audit check advisory-db Cargo.lock --policy audit.toml --today 2026-01-31

  check-many ROOT [OPTION].. [--null] [--progress]
      for each path of a lockfile in the input: a line of JSON
      --null: the paths end at NUL bytes; --progress: a line on the error output after each lockfile
      status: the worst one
      example: find . -name Cargo.lock -print0 | rustsec_audit check-many advisory-db --null

  explain ROOT LOCK ID|NAME [OPTION]..
      for each package of LOCK and each advisory with that ID or alias, or of a package with that name: whether the
      package is affected, or every reason why it is not
      status 0
      example: rustsec_audit explain advisory-db Cargo.lock RUSTSEC-2020-0001

  Options; of an option that counts once the last one counts:
      --policy FILE       a policy, as cargo-audit's `audit.toml`
      --today DATE        the day, for entries of the policy with a last day
      --ignore ID         an advisory that does not count
      --severity LEVEL    the least severity: `none`, `low`, `medium`, `high` or `critical`
      --arch NAME, --os NAME      a platform
      --format text|json  for check also `sarif`, `html` or `markdown`

  Options of check and check-many, without effect for explain:
      --baseline FILE     an older lockfile: what it has too is old and does not fail
      --index FOLDER      a registry's index, which is asked for yanked packages: a checkout, or Cargo's own folder
      --deny KIND         warnings that fail: `warnings`, `unmaintained`, `unsound` or `yanked`
      --color always|never
      --allow-empty       an empty database, lockfile or list of lockfiles is not refused
";
