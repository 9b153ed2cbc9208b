//! How a line ended.
ghost use Rattle.std.specs.Prelude.{◌≡◌, ◌≤◌, length};
ghost use Rattle.ddcmp_session.specs.Text.{line_end_words};

use ddcmp_io::Down;

/// How a line ended, after which it may be opened again.
#[derive(Clone, Copy, Debug, PartialEq, Eq)]
pub enum LineEnd {
    /// It was closed by the other end, or failed.
    Down(Down),
    /// This end left it, since a command halts the link.
    Halted,
    /// This end left it, since the peer restarted or a command restarts the link.
    Restarted,
    /// This end left it, since the peer didn't reply, or refused messages, too many times in a row.
    GivenUp,
}

impl LineEnd {
    /// Returns it in words.
    pub(crate) fn words(self) -> &'static str
        ensures words { result.now ≡ line_end_words self }
        ensures short { length (line_end_words self) ≤ 30 }
    {
        match self {
            LineEnd::Down(why) => why.words(),
            LineEnd::Halted => "halted",
            LineEnd::Restarted => "restarted",
            LineEnd::GivenUp => "given up",
        }
    }
}
