//! The markup of the page around findings (HTML Living Standard).

ghost use Rattle.std.specs.Prelude.{◌≡◌};
ghost use Rattle.rustsec_page.specs.Templates.{frame_text};

/// Starts the page, up to its style sheet.
const PAGE_START: &str = r#"<!DOCTYPE html>
<html lang="en">
<head>
<meta charset="utf-8">
<meta http-equiv="Content-Security-Policy" content="default-src 'none'; style-src 'unsafe-inline'">
<meta name="viewport" content="width=device-width, initial-scale=1">
<title>Dependency check</title>
<style>
"#;

/// Ends the style sheet, and starts the summary.
const BODY_START: &str = r#"</style>
</head>
<body>
<header>
<h1>Dependency check</h1>
<p class="summary">"#;

/// Ends the summary's part, and starts the findings.
const MAIN_START: &str = r#"</header>
<main>
"#;

/// Ends the page.
const PAGE_END: &str = r#"</main>
</body>
</html>
"#;

/// A part of the page around findings.
#[derive(Clone, Copy)]
pub(crate) enum Frame {
    /// Starts the page, up to its style sheet.
    PageStart,
    /// Ends the style sheet, and starts the summary.
    BodyStart,
    /// Names one vulnerability.
    OneVulnerability,
    /// Names a number of vulnerabilities.
    Vulnerabilities,
    /// Names one warning.
    OneWarning,
    /// Names a number of warnings.
    Warnings,
    /// Ends the summary, and starts what was looked at.
    SummaryEnd,
    /// Names one advisory.
    OneAdvisory,
    /// Names a number of advisories.
    Advisories,
    /// Names one package.
    OnePackage,
    /// Names a number of packages.
    Packages,
    /// Starts the number of pairs that the least severity leaves out.
    BelowStart,
    /// Ends a paragraph.
    ParagraphEnd,
    /// Ends the summary's part, and starts the findings.
    MainStart,
    /// Says that nothing was found.
    NoFindings,
    /// Ends the page.
    PageEnd,
}

impl Frame {
    /// Returns the text of the part.
    #[tactic(auto, unfolding(crate::specs::Templates::frame_text))]
    pub(crate) fn text(self) -> &'static str
        ensures { result.now ≡ frame_text self }
    {
        match self {
            Frame::PageStart => PAGE_START,
            Frame::BodyStart => BODY_START,
            Frame::OneVulnerability => " vulnerability, ",
            Frame::Vulnerabilities => " vulnerabilities, ",
            Frame::OneWarning => " warning, ",
            Frame::Warnings => " warnings, ",
            Frame::SummaryEnd => " ignored</p>\n<p class=\"soft\">Looked at ",
            Frame::OneAdvisory => " advisory and ",
            Frame::Advisories => " advisories and ",
            Frame::OnePackage => " package</p>\n",
            Frame::Packages => " packages</p>\n",
            Frame::BelowStart => "<p class=\"soft\">Left out below the least severity: ",
            Frame::ParagraphEnd => "</p>\n",
            Frame::MainStart => MAIN_START,
            Frame::NoFindings => "<p class=\"box\">No finding.</p>\n",
            Frame::PageEnd => PAGE_END,
        }
    }
}
