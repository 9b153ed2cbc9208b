//! Whether a line echoes: whether all that came over it is what was sent.
ghost use Rattle.std.specs.Prelude.{◌≡◌, IfOk};
ghost use Rattle.ddcmp_streams.specs.Echo.{IsEcho, after_more, none_echoed, none_yet};

use ddcmp_io::ByteQueue;
use std::alloc::{AllocError, Global};
use std::marker::Model;

/// How many bytes of each direction are compared.
const COMPARED: usize = 64;

/// The first bytes of a direction, and how many there were.
#[derive(Drop)]
struct Beginning {
    bytes: ByteQueue,
    count: u64,
}

impl Model for Beginning {
    ghost use Rattle.ddcmp_streams.specs.Echo.{BeginningView};

    ghost Value = { BeginningView };

    ghost view = { λ b. record { bytes = b.bytes; count = b.count } };
}

impl Beginning {
    fn new(alloc: Global) -> Result<Beginning, AllocError>
        ensures { IfOk result (λ made. made ≡ none_yet) }
    {
        Ok(Beginning {
            bytes: ByteQueue::new(alloc, COMPARED)?,
            count: 0,
        })
    }

    /// Adds bytes.
    fn add(&mut self, piece: &[u8])
        ensures { self.new ≡ after_more piece.now self.old }
    {
        let n = piece.len().min(self.bytes.room());
        self.bytes.push(&piece[..n]);
        self.count = self.count.saturating_add(piece.len() as u64);
    }
}

/// What came over a line beside what was sent. Pass it all bytes of both directions; it keeps the
/// first 64 of each.
#[derive(Drop)]
pub struct Echo {
    sent: Beginning,
    came: Beginning,
}

impl Model for Echo {
    ghost use Rattle.ddcmp_streams.specs.Echo.{EchoView};

    ghost Value = { EchoView };

    ghost view = { λ e. record { sent = e.sent; came = e.came } };
}

impl Echo {
    ghost use Rattle.std.specs.Prelude.{◌≡◌, ◌↔◌, IfOk, IsTrue};
    ghost use Rattle.ddcmp_streams.specs.Echo.{IsEcho, after_more, none_echoed};

    /// Makes that of a new line. Allocates all the memory that it will need.
    pub fn new(alloc: Global) -> Result<Echo, AllocError>
        ensures { IfOk result (λ made. made ≡ none_echoed) }
    {
        Ok(Echo {
            sent: Beginning::new(alloc)?,
            came: Beginning::new(alloc)?,
        })
    }

    /// Notes bytes that were sent.
    pub fn sent(&mut self, piece: &[u8])
        ensures { self.new ≡ record self.old { sent = after_more piece.now self.old.sent } }
    {
        self.sent.add(piece);
    }

    /// Notes bytes that came.
    pub fn came(&mut self, piece: &[u8])
        ensures { self.new ≡ record self.old { came = after_more piece.now self.old.came } }
    {
        self.came.add(piece);
    }

    /// Returns whether as many bytes came as were sent, and the first ones are the same.
    pub fn is_echo(&self) -> bool
        ensures { IsTrue result ↔ IsEcho self.now }
    {
        0 < self.came.count
            && self.came.count == self.sent.count
            && self.came.bytes.waiting() == self.sent.bytes.waiting()
    }
}
