//! Why a command didn't complete.
ghost use Rattle.std.specs.Prelude.{◌≡◌};
ghost use Rattle.ddcmp_commands.specs.Endings.{explain_fault, script_fault, serve_fault};

use ddcmp_explain::{ExplainFault, NotDumped};
use ddcmp_line::ScriptFault;
use ddcmp_net::ServeFault;
use ddcmp_station::LineFault;
use std::fmt;

/// Why a command didn't complete.
#[derive(Clone, Copy)]
pub enum Fault {
    /// The number of digits to explain is odd.
    Odd,
    /// The index, from 0, of the first byte that isn't allowed where it is.
    NotHex(u64),
    /// A line isn't one of a dump.
    Dump(NotDumped),
    /// This line of a script isn't a command.
    Line(u64),
    /// A word of this line isn't hexadecimal, or has too few or too many digits.
    Hex(u64),
    /// The message that a station is to send isn't hexadecimal.
    Message,
    Read,
    Write,
    Memory,
    /// A carrier failed, or a connection can't be made.
    Carrier,
    /// The peer of a station ended the connection, or a line ended.
    Ended,
    /// This number of messages of a link was read and never acknowledged.
    Lost(u64),
}

impl From<ExplainFault> for Fault {
    ghost from_gives = { λ fault made. made ≡ explain_fault fault };

    fn from(fault: ExplainFault) -> Fault {
        match fault {
            ExplainFault::Odd => Fault::Odd,
            ExplainFault::NotHex(index) => Fault::NotHex(index),
            ExplainFault::Line(line) => Fault::Dump(line),
            ExplainFault::Read => Fault::Read,
            ExplainFault::Write => Fault::Write,
            ExplainFault::Memory => Fault::Memory,
        }
    }
}

impl From<ScriptFault> for Fault {
    ghost from_gives = { λ fault made. made ≡ script_fault fault };

    fn from(fault: ScriptFault) -> Fault {
        match fault {
            ScriptFault::Line(line) => Fault::Line(line),
            ScriptFault::Hex(line) => Fault::Hex(line),
            ScriptFault::Read => Fault::Read,
            ScriptFault::Write => Fault::Write,
            ScriptFault::Memory => Fault::Memory,
            ScriptFault::Carrier => Fault::Carrier,
        }
    }
}

impl From<ServeFault> for Fault {
    ghost from_gives = { λ fault made. made ≡ serve_fault fault };

    fn from(fault: ServeFault) -> Fault {
        match fault {
            ServeFault::Line(LineFault::Read) => Fault::Read,
            ServeFault::Line(LineFault::Write) | ServeFault::Report => Fault::Write,
            ServeFault::Line(LineFault::Ended) => Fault::Ended,
            ServeFault::Line(LineFault::Memory) | ServeFault::Config => Fault::Memory,
        }
    }
}

/// The text is that of the command's own fault.
impl fmt::Display for Fault {
    fn fmt<W: fmt::Write>(&self, f: &mut fmt::Formatter<W>) -> fmt::Result {
        match self {
            Fault::Odd => ExplainFault::Odd.fmt(f),
            Fault::NotHex(index) => ExplainFault::NotHex(*index).fmt(f),
            Fault::Dump(line) => line.fmt(f),
            Fault::Line(line) => ScriptFault::Line(*line).fmt(f),
            Fault::Hex(line) => ScriptFault::Hex(*line).fmt(f),
            Fault::Message => f.write_str("not hexadecimal"),
            Fault::Read => ScriptFault::Read.fmt(f),
            Fault::Write => ScriptFault::Write.fmt(f),
            Fault::Memory => ScriptFault::Memory.fmt(f),
            Fault::Carrier => ScriptFault::Carrier.fmt(f),
            Fault::Ended => ServeFault::Line(LineFault::Ended).fmt(f),
            Fault::Lost(1) => f.write_str("1 message not acknowledged: it may have arrived"),
            Fault::Lost(count) => write!(
                f,
                "{count} messages not acknowledged: they may have arrived"
            ),
        }
    }
}
