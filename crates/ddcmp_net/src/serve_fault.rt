//! Why a station ended early.
use ddcmp_station::LineFault;
use std::fmt;

/// Why driving a station failed.
#[derive(Clone, Copy, Debug, PartialEq, Eq)]
pub enum ServeFault {
    /// An allocation for the station failed.
    Config,
    /// The line failed or ended. This is reported even if the report failed too.
    Line(LineFault),
    /// A write of the report failed; this is returned after all turns.
    Report,
}

impl fmt::Display for ServeFault {
    fn fmt<W: fmt::Write>(&self, f: &mut fmt::Formatter<W>) -> fmt::Result {
        f.write_str(match self {
            ServeFault::Line(LineFault::Read) => "read",
            ServeFault::Line(LineFault::Write) | ServeFault::Report => "write",
            ServeFault::Line(LineFault::Ended) => "ended",
            ServeFault::Line(LineFault::Memory) | ServeFault::Config => "memory",
        })
    }
}
