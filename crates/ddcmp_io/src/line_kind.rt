//! The kinds of line.
ghost use Rattle.std.specs.Prelude.{◌≡◌};
ghost use Rattle.ddcmp_io.specs.LineKinds.{is_connection, is_of_datagrams};

/// The kind of a line, as far as that makes a difference.
#[derive(Clone, Copy, Debug, PartialEq, Eq)]
pub enum LineKind {
    /// A connection to a peer.
    Connect,
    /// An accepted connection.
    Listen,
    /// Datagrams: each write arrives as a whole, or not at all.
    Datagrams,
    /// A serial line.
    Device,
}

impl LineKind {
    /// Returns whether each write is a datagram.
    pub fn is_of_datagrams(self) -> bool
        ensures { result ≡ is_of_datagrams self }
    {
        matches!(self, LineKind::Datagrams)
    }

    /// Returns whether there is a peer as soon as it is open.
    pub fn is_connection(self) -> bool
        ensures { result ≡ is_connection self }
    {
        matches!(self, LineKind::Connect | LineKind::Listen)
    }
}
