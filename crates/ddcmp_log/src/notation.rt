//! The notation of a log.
ghost use Rattle.std.specs.Prelude.{◌≡◌};
ghost use Rattle.ddcmp_log.specs.Logged.{wording_of};

use ddcmp_explain::Notation;

/// The notation of a log.
#[derive(Clone, Copy, Debug)]
pub enum LogNotation {
    /// Plain text for people, as `explain` writes it.
    Plain,
    /// A JSON object a line, for programs.
    Json,
    /// A ladder: an arrow for each item, from its side to the other.
    Ladder,
}

impl LogNotation {
    /// Returns the notation of the lines that are no arrows.
    pub(crate) fn wording(self) -> Notation
        ensures { result ≡ wording_of self }
    {
        match self {
            LogNotation::Plain | LogNotation::Ladder => Notation::Plain,
            LogNotation::Json => Notation::Json,
        }
    }
}
