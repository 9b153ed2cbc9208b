//! What is reported about bytes.
use crate::notation::Notation;

/// What is reported about bytes, and how.
#[derive(Clone, Copy, Debug)]
pub struct Style {
    pub notation: Notation,
    /// Whether bytes that belong to no item have lines too: those that were skipped, and those of
    /// an incomplete frame.
    pub discarded: bool,
}

impl Style {
    ghost use Rattle.std.specs.Prelude.{◌≡◌};
    ghost use Rattle.ddcmp_explain.specs.Discarded.{items_in};

    /// Returns the style with lines for items only.
    pub fn items(notation: Notation) -> Self
        ensures { result ≡ items_in notation }
    {
        Style {
            notation,
            discarded: false,
        }
    }
}
