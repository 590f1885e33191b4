//! The markup of lists and paths (HTML Living Standard).

ghost use Rattle.std.specs.Prelude.{◌≡◌};
ghost use Rattle.rustsec_page.specs.Templates.{item_text};

/// A part of a list or of a path.
#[derive(Clone, Copy)]
pub(crate) enum Item {
    /// Starts an item.
    Start,
    /// Ends an item.
    End,
    /// Starts a package.
    CodeStart,
    /// Ends a package.
    CodeEnd,
    /// Starts a version, after a name.
    VersionStart,
    /// Says that a warning is denied.
    Denied,
    /// Says that a finding is old.
    Old,
    /// Comes between an ID and a package.
    Space,
    /// Starts the last day of an ignored pair.
    Until,
    /// Starts the reason for an ignored pair.
    Reason,
    /// Starts a path.
    PathStart,
    /// Ends a path.
    PathEnd,
    /// Says that no path leads from a root to the package.
    NoPath,
    /// Takes the place of a missing package.
    Unknown,
    /// Starts a link to an address.
    LinkStart,
    /// Ends the address of a link, and starts its text.
    LinkText,
    /// Ends a link.
    LinkEnd,
}

impl Item {
    /// Returns the text of the part.
    #[tactic(auto, unfolding(crate::specs::Templates::item_text))]
    pub(crate) fn text(self) -> &'static str
        ensures { result.now ≡ item_text self }
    {
        match self {
            Item::Start => "<li>",
            Item::End => "</li>\n",
            Item::CodeStart => "<code>",
            Item::CodeEnd => "</code>",
            Item::VersionStart => " ",
            Item::Denied => " <span class=\"tag\">denied</span>",
            Item::Old => " <span class=\"tag\">old</span>",
            Item::Space => " ",
            Item::Until => " until ",
            Item::Reason => ": ",
            Item::PathStart => "<ol class=\"path\">\n",
            Item::PathEnd => "</ol>\n",
            Item::NoPath => "<p class=\"soft\">No path from a root</p>\n",
            Item::Unknown => "?",
            Item::LinkStart => "<a href=\"",
            Item::LinkText => "\" rel=\"noreferrer\">",
            Item::LinkEnd => "</a>",
        }
    }
}
