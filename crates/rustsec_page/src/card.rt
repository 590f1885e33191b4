//! The markup of a finding (HTML Living Standard).

ghost use Rattle.std.specs.Prelude.{◌≡◌};
ghost use Rattle.rustsec_page.specs.Templates.{card_text};

/// Starts the ignored IDs that move the version to update to.
const MOVED_START: &str =
    "<p class=\"update\">Ignoring does not help, these count for the update too:";

/// Starts a description.
const DESCRIPTION_START: &str = r#"<details>
<summary>Description</summary>
<div class="description">"#;

/// Ends a description.
const DESCRIPTION_END: &str = r#"</div>
</details>
"#;

/// A part of a finding.
#[derive(Clone, Copy)]
pub(crate) enum Card {
    /// Starts a finding.
    Start,
    /// Starts the title, after the ID.
    TitleStart,
    /// Ends the title, and starts the package.
    TitleEnd,
    /// Ends the package, and starts what the finding is.
    KindStart,
    /// Starts a rating.
    RatingStart,
    /// Starts a score, after its rating.
    ScoreStart,
    /// Ends what the finding is.
    KindEnd,
    /// Ends the facts about a finding.
    FactsEnd,
    /// Says that no version is fixed.
    NoUpdate,
    /// Starts the version to update to.
    UpdateStart,
    /// Starts the command that updates a package.
    CommandStart,
    /// Comes between the name and the version of a command.
    CommandAt,
    /// Ends a command.
    CommandEnd,
    /// Starts the version that keeps Cargo from the update.
    Incompatible,
    /// Ends that version.
    IncompatibleEnd,
    /// Starts the ignored IDs that move the version to update to.
    MovedStart,
    /// Starts one of these IDs.
    MovedId,
    /// Ends these IDs.
    MovedEnd,
    /// Starts a description.
    DescriptionStart,
    /// Ends a description.
    DescriptionEnd,
    /// Starts addresses.
    LinksStart,
    /// Ends addresses.
    LinksEnd,
    /// Ends a finding.
    End,
}

impl Card {
    /// Returns the text of the part.
    #[tactic(auto, unfolding(crate::specs::Templates::card_text))]
    pub(crate) fn text(self) -> &'static str
        ensures { result.now ≡ card_text self }
    {
        match self {
            Card::Start => "<article>\n<h3>",
            Card::TitleStart => " ",
            Card::TitleEnd => "</h3>\n<p class=\"facts\"><code>",
            Card::KindStart => "</code> <span class=\"tag\">",
            Card::RatingStart => ", ",
            Card::ScoreStart => " ",
            Card::KindEnd => "</span>",
            Card::FactsEnd => "</p>\n",
            Card::NoUpdate => "<p class=\"update\">No fixed version</p>\n",
            Card::UpdateStart => "<p class=\"update\">Update to <strong>",
            Card::CommandStart => "</strong> (compatible): <code>cargo update ",
            Card::CommandAt => "@",
            Card::CommandEnd => "</code></p>\n",
            Card::Incompatible => "</strong> (incompatible with ^",
            Card::IncompatibleEnd => ")</p>\n",
            Card::MovedStart => MOVED_START,
            Card::MovedId => " ",
            Card::MovedEnd => "</p>\n",
            Card::DescriptionStart => DESCRIPTION_START,
            Card::DescriptionEnd => DESCRIPTION_END,
            Card::LinksStart => "<ul class=\"links\">\n",
            Card::LinksEnd => "</ul>\n",
            Card::End => "</article>\n",
        }
    }
}
