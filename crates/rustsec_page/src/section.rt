//! The markup of the sections of the page (HTML Living Standard).

ghost use Rattle.std.specs.Prelude.{◌≡◌};
ghost use Rattle.rustsec_page.specs.Templates.{section_text};

/// Starts the critical findings.
const CRITICAL: &str = r#"<section class="critical">
<h2>Critical</h2>
"#;

/// Starts the findings that are rated high.
const HIGH: &str = r#"<section class="high">
<h2>High</h2>
"#;

/// Starts the findings that are rated medium.
const MEDIUM: &str = r#"<section class="medium">
<h2>Medium</h2>
"#;

/// Starts the findings that are rated low.
const LOW: &str = r#"<section class="low">
<h2>Low</h2>
"#;

/// Starts the findings with the score 0.0.
const HARMLESS: &str = r#"<section class="harmless">
<h2>Score 0.0</h2>
"#;

/// Starts the vulnerabilities without a rating.
const UNRATED: &str = r#"<section class="unrated">
<h2>Not rated</h2>
"#;

/// Starts the warnings.
const WARNING: &str = r#"<section class="warning">
<h2>Warnings</h2>
"#;

/// Starts the yanked packages.
const YANKED: &str = r#"<section>
<h2>Yanked packages</h2>
<ul class="box">
"#;

/// Starts the ignored pairs.
const IGNORED: &str = r#"<section>
<h2>Ignored</h2>
<ul class="box">
"#;

/// Starts the ignored IDs that ignore no pair.
const UNUSED: &str = r#"<section>
<h2>Unused ignores</h2>
<ul class="box">
"#;

/// Starts the ignored IDs that no advisory has.
const UNKNOWN: &str = r#"<section>
<h2>Unknown ignores</h2>
<ul class="box">
"#;

/// Starts the notes.
const NOTES: &str = r#"<section>
<h2>Notes</h2>
<ul class="box">
"#;

/// Ends a list and its section.
const LIST_END: &str = r#"</ul>
</section>
"#;

/// A part of the page around a list: the findings of a rank, or another list.
#[derive(Clone, Copy)]
pub(crate) enum Section {
    /// Starts the critical findings.
    Critical,
    /// Starts the findings that are rated high.
    High,
    /// Starts the findings that are rated medium.
    Medium,
    /// Starts the findings that are rated low.
    Low,
    /// Starts the findings with the score 0.0.
    Harmless,
    /// Starts the vulnerabilities without a rating.
    Unrated,
    /// Starts the warnings.
    Warning,
    /// Starts the yanked packages.
    Yanked,
    /// Starts the ignored pairs.
    Ignored,
    /// Starts the ignored IDs that ignore no pair.
    Unused,
    /// Starts the ignored IDs that no advisory has.
    Unknown,
    /// Starts the notes.
    Notes,
    /// Ends a list and its section.
    ListEnd,
    /// Ends the findings of a rank.
    SectionEnd,
}

impl Section {
    /// Returns the text of the part.
    #[tactic(auto, unfolding(crate::specs::Templates::section_text))]
    pub(crate) fn text(self) -> &'static str
        ensures { result.now ≡ section_text self }
    {
        match self {
            Section::Critical => CRITICAL,
            Section::High => HIGH,
            Section::Medium => MEDIUM,
            Section::Low => LOW,
            Section::Harmless => HARMLESS,
            Section::Unrated => UNRATED,
            Section::Warning => WARNING,
            Section::Yanked => YANKED,
            Section::Ignored => IGNORED,
            Section::Unused => UNUSED,
            Section::Unknown => UNKNOWN,
            Section::Notes => NOTES,
            Section::ListEnd => LIST_END,
            Section::SectionEnd => "</section>\n",
        }
    }
}
