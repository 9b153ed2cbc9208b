//! The request of a line of a script.
ghost use Rattle.std.specs.Prelude.{◌≡◌};
ghost use Rattle.ddcmp_picture.specs.Marks.{is_settle};

/// The request of a line of a script, as far as it affects how a step is drawn.
#[derive(Clone, Copy, Drop)]
pub(crate) enum Request {
    /// An event, or bytes that no end sent.
    Event,
    /// The first `part` of the `of` bytes that are left of an end's first frame arrive.
    Carry { part: usize, of: usize },
    /// A settle or a recovery: frames arrive whole, and neither an end without a frame nor the
    /// expiry of a timer that was off is drawn.
    Settle,
}

impl Request {
    pub(crate) fn is_settle(self) -> bool
        ensures { result ≡ is_settle self }
    {
        match self {
            Request::Settle => true,
            Request::Event | Request::Carry { .. } => false,
        }
    }
}
