//! Paths of files: segments between slashes. The last segment names the file. Empty segments and `.` are
//! dropped; `..` is a segment as any other.

ghost use Rattle.std.specs.Prelude.{◌≡◌, MatchOption, codes, false};
ghost use Rattle.std.specs.Option.{option_copied};
ghost use Rattle.std.specs.Str.{bytes_eq};
ghost use Rattle.rustsec_files.specs.Paths as paths;
ghost use Rattle.rustsec_files.specs.Paths.{has_markdown_extension, is_draft, is_draft_name, is_markdown, is_markdown_file_of, is_markdown_name, is_segment};

/// Returns whether a text between two slashes is a segment.
fn is_segment(text: &str) -> bool
    ensures { result ≡ is_segment text.now }
{
    !text.is_empty() && text != "."
}

/// Returns whether a byte and `.md` end a file's name.
fn has_markdown_extension(name: &str) -> bool
    ensures { result ≡ has_markdown_extension name.now }
{
    name.len() > 3 && name.ends_with(".md")
}

/// Returns what comes in a file's name after its beginning: `.md`, if the name is the beginning with `.md`
/// after it.
fn after_stem<'a>(name: &'a str, stem: &'a str) -> Option<&'a str>
    ensures { MatchOption result (is_markdown_name stem.now name.now ≡ false)
        (λ rest. is_markdown_name stem.now name.now ≡ bytes_eq rest.now (codes ".md")) }
{
    name.strip_prefix(stem)
}

/// Returns whether a file's name is this one with `.md` after it.
fn is_markdown_name(stem: &str, name: &str) -> bool
    ensures { result ≡ is_markdown_name stem.now name.now }
{
    match after_stem(name, stem) {
        Some(rest) => rest == ".md",
        None => false,
    }
}

/// Returns whether a file's name begins with `RUSTSEC-0000-0000.`.
fn is_draft_name(name: &str) -> bool
    ensures { result ≡ is_draft_name name.now }
{
    name.starts_with("RUSTSEC-0000-0000.")
}

/// The path of a file, with its last three segments, or as many of them as there are.
#[derive(Clone, Copy)]
pub struct FilePath<'a> {
    /// The path.
    pub path: &'a str,
    file: Option<&'a str>,
    folder: Option<&'a str>,
    parent: Option<&'a str>,
    ghost file_is: { option_copied file ≡ paths.file_name path.now },
    ghost folder_is: { option_copied folder ≡ paths.folder path.now },
    ghost parent_is: { option_copied parent ≡ paths.folder_parent path.now },
}

impl<'a> FilePath<'a> {
    /// Returns a path with its last segments.
    pub fn of(path: &'a str) -> FilePath<'a>
        ensures { result.path.now ≡ path.now }
    {
        let (mut file, mut folder, mut parent) = (None, None, None);
        for text in path.split('/') {
            if is_segment(text) {
                parent = folder;
                folder = file;
                file = Some(text);
            }
        }
        FilePath {
            path,
            file,
            folder,
            parent,
        }
    }

    /// Returns the name of the file: the last segment of its path.
    pub fn file_name(&self) -> Option<&'a str>
        ensures { option_copied result ≡ paths.file_name self.now.path.now }
    {
        self.file
    }

    /// Returns the name of the folder that holds the file: the segment before the file's name.
    pub fn folder(&self) -> Option<&'a str>
        ensures { option_copied result ≡ paths.folder self.now.path.now }
    {
        self.folder
    }

    /// Returns the name of that folder's parent: the segment before the folder's name.
    pub fn folder_parent(&self) -> Option<&'a str>
        ensures { option_copied result ≡ paths.folder_parent self.now.path.now }
    {
        self.parent
    }

    /// Returns whether the path is a Markdown file's: whether `md` is the extension of its file's name.
    pub fn is_markdown(&self) -> bool
        ensures { result ≡ is_markdown self.now.path.now }
    {
        match self.file {
            Some(name) => has_markdown_extension(name),
            None => false,
        }
    }

    /// Returns whether the path is that of the Markdown file of a name: whether `STEM.md` is its file's name.
    pub fn is_markdown_file_of(&self, stem: &str) -> bool
        ensures { result ≡ is_markdown_file_of stem.now self.now.path.now }
    {
        match self.file {
            Some(name) => is_markdown_name(stem, name),
            None => false,
        }
    }

    /// Returns whether the path is a draft's: whether its file's name begins with `RUSTSEC-0000-0000.`.
    pub fn is_draft(&self) -> bool
        ensures { result ≡ is_draft self.now.path.now }
    {
        match self.file {
            Some(name) => is_draft_name(name),
            None => false,
        }
    }
}
