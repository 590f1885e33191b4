//! The markup of a line of versions (SVG 2).

ghost use Rattle.std.specs.Prelude.{◌≡◌};
ghost use Rattle.rustsec_page.specs.Templates.{drawing_text};

/// Starts the line.
const AXIS_START: &str =
    " 64\" role=\"img\" aria-label=\"Versions\">\n<path class=\"axis\" d=\"M0 32H";

/// Ends a drawing.
const END: &str = r#"</figcaption>
</figure>
"#;

/// A part of the line of versions (SVG 2).
#[derive(Clone, Copy)]
pub(crate) enum Drawing {
    /// Starts a drawing, up to its width.
    Start,
    /// Starts the width of the drawing's box.
    Box,
    /// Starts the line.
    AxisStart,
    /// Ends a shape.
    ShapeEnd,
    /// Starts an affected stretch.
    StretchStart,
    /// Starts the end of a stretch.
    StretchTo,
    /// Starts the tick of a version.
    TickStart,
    /// Starts the label of a tick.
    LabelStart,
    /// Starts the text of a label.
    LabelText,
    /// Ends a label.
    LabelEnd,
    /// Starts the marker of the locked version.
    LockedStart,
    /// Starts its label.
    LockedLabel,
    /// Ends its label.
    LockedEnd,
    /// Starts the marker of the least free version.
    FreeStart,
    /// Starts its label.
    FreeLabel,
    /// Ends its label.
    FreeEnd,
    /// Ends the lines, and starts their words.
    CaptionStart,
    /// Says that every version is affected.
    Every,
    /// Says that those below a version are affected.
    Below,
    /// Says that those from a version on are affected.
    From,
    /// Says that those below a second version are affected.
    To,
    /// Says that all later ones are.
    On,
    /// Starts the words of a range.
    RangeStart,
    /// Ends the words of a range.
    RangeEnd,
    /// Ends a drawing.
    End,
}

impl Drawing {
    /// Returns the text of the part.
    #[tactic(auto, unfolding(crate::specs::Templates::drawing_text))]
    pub(crate) fn text(self) -> &'static str
        ensures { result.now ≡ drawing_text self }
    {
        match self {
            Drawing::Start => "<figure>\n<div class=\"drawing\"><svg width=\"",
            Drawing::Box => "\" height=\"64\" viewBox=\"0 0 ",
            Drawing::AxisStart => AXIS_START,
            Drawing::ShapeEnd => "\"/>\n",
            Drawing::StretchStart => "<path class=\"affected\" d=\"M",
            Drawing::StretchTo => " 32H",
            Drawing::TickStart => "<path class=\"tick\" d=\"M",
            Drawing::LabelStart => " 26v12\"/><text x=\"",
            Drawing::LabelText => "\" y=\"57\">",
            Drawing::LabelEnd => "</text>\n",
            Drawing::LockedStart => "<path class=\"locked\" d=\"M",
            Drawing::LockedLabel => " 21l9 11-9 11-9-11z\"/><text class=\"name\" x=\"",
            Drawing::LockedEnd => "\" y=\"13\">locked</text>\n",
            Drawing::FreeStart => "<circle class=\"free\" cy=\"32\" r=\"9\" cx=\"",
            Drawing::FreeLabel => "\"/><text class=\"name\" x=\"",
            Drawing::FreeEnd => "\" y=\"13\">least free</text>\n",
            Drawing::CaptionStart => "</svg></div>\n<figcaption>Affected:",
            Drawing::Every => "every version",
            Drawing::Below => "below ",
            Drawing::From => "from ",
            Drawing::To => " to below ",
            Drawing::On => " on",
            Drawing::RangeStart => " <span class=\"range\">",
            Drawing::RangeEnd => "</span>",
            Drawing::End => END,
        }
    }
}
