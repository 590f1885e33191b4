//! Shortens texts for messages.

ghost use Rattle.std.specs.Prelude.{◌≡◌};
ghost use Rattle.rustsec_values.specs.Beginnings.{IsBeginning};

/// Returns the longest beginning of a text that has at most this many bytes and ends between two characters.
pub fn beginning_of(text: &str, most: usize) -> &str
    ensures { IsBeginning most text.now result.now }
{
    let (beginning, _) = text.split_at(text.floor_char_boundary(most));
    beginning
}
