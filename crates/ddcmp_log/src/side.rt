//! The two sides of a line.
ghost use Rattle.std.specs.Prelude.{◌≡◌};
ghost use Rattle.ddcmp_log.specs.Logged.{mark_of};

/// When the bytes of a line of a log were received.
#[derive(Clone, Copy)]
pub enum Stamp {
    /// In milliseconds after the beginning.
    Elapsed(u64),
    /// The time of day, in milliseconds after 1970.
    OfDay(u64),
}

/// Where the bytes of a line of a log are from: their side, and when they were received, if that is
/// requested.
#[derive(Clone, Copy)]
pub struct Origin {
    pub stamp: Option<Stamp>,
    pub side: Side,
}

/// How many items and bytes were received from a side.
#[derive(Clone, Copy)]
pub struct Added {
    pub items: u64,
    pub bytes: u64,
}

/// A side of a line: bytes are received from it and sent to it.
#[derive(Clone, Copy, Debug, PartialEq, Eq)]
pub enum Side {
    /// The side that connected, or the first line.
    Caller,
    /// The side that was connected to, or the second line.
    Called,
}

impl Side {
    /// Returns the mark of the bytes from this side.
    pub(crate) fn mark(self) -> &'static [u8]
        ensures { result.now ≡ mark_of self }
    {
        match self {
            Side::Caller => b">",
            Side::Called => b"<",
        }
    }

    /// Returns the side to which bytes from this one are forwarded.
    pub fn other(self) -> Side
        ensures caller { self ≡ Side.Caller → result ≡ Side.Called }
        ensures called { self ≡ Side.Called → result ≡ Side.Caller }
    {
        match self {
            Side::Caller => Side::Called,
            Side::Called => Side::Caller,
        }
    }
}
