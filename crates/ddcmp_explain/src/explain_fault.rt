//! Why an input wasn't explained to its end.
use ddcmp_input::NotDumped;
use thiserror::Error;

/// Why an input wasn't explained to its end.
#[derive(Debug, Drop, Error, PartialEq, Eq)]
pub enum ExplainFault {
    #[error("odd number of digits")]
    Odd,
    /// The index, from 0, of the first byte that isn't allowed where it is.
    #[error("not hexadecimal at {0}")]
    NotHex(u64),
    /// A line isn't one of a dump, or is `*`, which stands for omitted lines.
    #[error("{0}")]
    Line(NotDumped),
    #[error("read")]
    Read,
    #[error("write")]
    Write,
    #[error("memory")]
    Memory,
}
