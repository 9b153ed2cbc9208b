//! What a system remembers of each port.
ghost use Rattle.std.specs.Prelude.{◌≡◌};
ghost use Rattle.ddcmp_ports.specs.Running.{is_later, moves_nothing};

use crate::port::{Opening, Transfer};

/// Whether the last call of each kind at a port could do nothing.
#[derive(Clone, Copy)]
pub struct LastCalls {
    pub read: bool,
    pub write: bool,
    pub opening: bool,
}

impl LastCalls {
    /// There was no call that could do nothing.
    pub const NONE: LastCalls = LastCalls {
        read: false,
        write: false,
        opening: false,
    };

    /// Notes a read.
    pub fn read(&mut self, got: Transfer) -> Transfer
        ensures last { self.new ≡ record self.old { read = moves_nothing got } }
        ensures got { result ≡ got }
    {
        self.read = matches!(got, Transfer::Nothing);
        got
    }

    /// Notes a write.
    pub fn write(&mut self, took: Transfer) -> Transfer
        ensures last { self.new ≡ record self.old { write = moves_nothing took } }
        ensures took { result ≡ took }
    {
        self.write = matches!(took, Transfer::Nothing);
        took
    }

    /// Notes an opening.
    pub fn opening(&mut self, opening: Opening) -> Opening
        ensures last { self.new ≡ record self.old { opening = is_later opening } }
        ensures opening { result ≡ opening }
    {
        self.opening = matches!(opening, Opening::Later);
        opening
    }
}
