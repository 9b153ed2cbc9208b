//! Why a script wasn't run to its end.
use thiserror::Error;

/// Why a script wasn't run to its end. Lines are counted from 1.
#[derive(Clone, Copy, Debug, Error, PartialEq, Eq)]
pub enum ScriptFault {
    /// This line isn't a command.
    #[error("line {0}: not a command")]
    Line(u64),
    /// A word of this line isn't hexadecimal, or has too few or too many digits.
    #[error("line {0}: not hexadecimal")]
    Hex(u64),
    #[error("read")]
    Read,
    #[error("write")]
    Write,
    #[error("memory")]
    Memory,
    #[error("carrier")]
    Carrier,
}
