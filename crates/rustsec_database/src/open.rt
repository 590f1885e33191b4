//! Opens the database of the files under a root.

ghost use Rattle.std.specs.Prelude.{IfErr, IfOk, MatchResult};
ghost use Rattle.rustsec_files.specs.Allowed.{AllowSame, real_folders};
ghost use Rattle.rustsec_files.specs.Seen.{seen_by, seen_on_disk};
ghost use Rattle.rustsec_database.specs.Opened.{AreOpened, IsOpenRefusal};

use crate::database::Database;
use crate::kept::KeptDatabase;
use rustsec_advisory::Advisory;
use rustsec_files::{Folders, RealFolders};
use rustsec_values::{Predicate, Result};
use std::alloc::Global;
use std::rt::Files;

/// The test that each advisory passes.
#[derive(Drop)]
struct Every;

impl Predicate<Advisory> for Every {
    ghost use Rattle.std.specs.Prelude.{true};

    ghost holds = { λ _ _. true };

    fn holds(&self, _: &Advisory) -> bool {
        true
    }
}

impl Database {
    /// Opens the database of the files under a root, read through `folders`: the files of `crates` and
    /// after them those of `rust`, in the order of their folders' names and then of their own. All folders
    /// are listed first. Then each file is read and loaded, and its text is dropped. The advisories are indexed last.
    ///
    /// # Errors
    ///
    /// `Io` if `crates`, a package's folder or a file in one cannot be listed or read, also if a file
    /// before it is at fault; then as `load`.
    pub fn open_with<F: Folders>(alloc: Global, folders: &mut F, root: &str) -> Result<Database>
        ensures ok { IfOk result (AreOpened (F.allowed folders.old) root.now) }
        ensures err { IfErr result (IsOpenRefusal (F.allowed folders.old) root.now) }
        ensures same { AllowSame (F.allowed folders.old) (F.allowed folders.new) }
        ensures opened { MatchResult result
            (AreOpened (seen_by F.listed F.opened (F.allowed folders.old)) root.now)
            (IsOpenRefusal (seen_by F.listed F.opened (F.allowed folders.old)) root.now) }
    {
        let kept = KeptDatabase::open_with(alloc, folders, root, &Every)?;
        Ok(kept.into_database())
    }

    /// Opens the database of the files under a root of the disk. A pipe, a device or a socket where a file
    /// is expected is refused, and not opened, unless another program puts it there after the path was
    /// looked at.
    ///
    /// # Errors
    ///
    /// As `open_with`. The message of `Io` names the path that cannot be listed or read, and its cause
    /// says why.
    pub fn open<R: Files>(rt: &R, alloc: Global, root: &str) -> Result<Database>
        ensures ok { IfOk result (AreOpened real_folders root.now) }
        ensures err { IfErr result (IsOpenRefusal real_folders root.now) }
        ensures opened { MatchResult result
            (AreOpened (seen_on_disk R.Dir.remaining R.File.remaining) root.now)
            (IsOpenRefusal (seen_on_disk R.Dir.remaining R.File.remaining) root.now) }
    {
        let mut folders = RealFolders::new(rt);
        Database::open_with(alloc, &mut folders, root)
    }
}
