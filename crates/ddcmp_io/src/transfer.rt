//! Reads and writes that don't wait, and the devices to wait for after them.
ghost use Rattle.std.specs.Prelude.{◌≡◌};
ghost use Rattle.ddcmp_io.specs.Causes.{down_text};
ghost use Rattle.ddcmp_io.specs.Transfers.{count_moved as moved};

use crate::cause::failure_words_of;
use std::fmt;
use std::io::ErrorKind;

/// The result of a read or a write that doesn't wait.
#[derive(Clone, Copy, Debug, PartialEq, Eq)]
pub enum Transfer {
    Bytes(usize),
    /// There was nothing to read, or no room to write.
    Nothing,
    /// The call was interrupted, and is to be repeated.
    Interrupted,
    /// The device has ended or failed.
    Ended(Down),
}

impl Transfer {
    /// Returns how many bytes were moved.
    pub fn count(self) -> usize
        ensures { result ≡ moved self }
    {
        match self {
            Transfer::Bytes(n) => n,
            Transfer::Nothing | Transfer::Interrupted | Transfer::Ended(_) => 0,
        }
    }
}

/// Why a line is down.
#[derive(Clone, Copy, Debug, PartialEq, Eq)]
pub enum Down {
    /// The other end has closed it.
    Closed,
    /// A read or a write failed with this error.
    Failed(ErrorKind),
}

impl Down {
    /// Returns the reason in words.
    pub fn words(self) -> &'static str
        ensures { result.now ≡ down_text self }
    {
        match self {
            Down::Closed => "closed by the other end",
            Down::Failed(kind) => failure_words_of(kind),
        }
    }
}

impl fmt::Display for Down {
    ghost use Rattle.std.specs.Prelude.{Some};

    ghost output = { λ d. Some (down_text d) };

    fn fmt<W: fmt::Write>(&self, f: &mut fmt::Formatter<W>) -> fmt::Result {
        f.write_str(self.words())
    }
}

/// The devices to wait for.
#[derive(Clone, Copy, Debug, PartialEq, Eq)]
pub struct Wanted {
    pub input: bool,
    pub output: bool,
    pub errors: bool,
    pub from_line: bool,
    pub to_line: bool,
}

impl Wanted {
    /// No device.
    pub const NOTHING: Wanted = Wanted {
        input: false,
        output: false,
        errors: false,
        from_line: false,
        to_line: false,
    };

    /// The input alone.
    pub const INPUT: Wanted = Wanted {
        input: true,
        output: false,
        errors: false,
        from_line: false,
        to_line: false,
    };

    /// The output alone.
    pub const OUTPUT: Wanted = Wanted {
        input: false,
        output: true,
        errors: false,
        from_line: false,
        to_line: false,
    };

    /// Standard error alone.
    pub const ERRORS: Wanted = Wanted {
        input: false,
        output: false,
        errors: true,
        from_line: false,
        to_line: false,
    };
}
