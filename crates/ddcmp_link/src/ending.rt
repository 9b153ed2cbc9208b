//! Why the run of a link ends before all is delivered.
ghost use Rattle.std.specs.Prelude.{◌≢◌};
ghost use Rattle.ddcmp_link.specs.Ending.{FailsAs};

use crate::fault::LinkFailure;
use ddcmp_ports::{Attempt, Cause, LineName, OpenFault, OpenRefusal};
use ddcmp_session::{DeviceFault, Stop};
use std::io::ErrorKind;

/// Why a run ended before all was delivered. The name of the line is added last.
#[derive(Clone, Copy)]
pub(crate) enum LinkStop {
    /// It can't wait for several devices: the system's error.
    CannotWait(ErrorKind),
    Stopped(Stop<OpenRefusal>),
    /// An allocation failed.
    Memory,
}

impl LinkStop {
    /// Returns why a link over a line of this name failed, whose output hasn't.
    pub(crate) fn fault(self, line: LineName<'_>) -> LinkFailure<'_>
        ensures whole { result ≢ LinkFailure.Write }
        ensures fault { FailsAs line.entry self result }
    {
        match self {
            LinkStop::CannotWait(kind) => LinkFailure::Open(OpenFault {
                attempt: Attempt::Open,
                name: "epoll",
                cause: Cause::System(kind),
            }),
            LinkStop::Stopped(Stop::NotOpened(refused)) => {
                LinkFailure::Open(line.open_fault(refused))
            }
            LinkStop::Stopped(Stop::Device(DeviceFault::Input)) => LinkFailure::Read,
            LinkStop::Stopped(Stop::Device(_) | Stop::Left | Stop::Unread) => LinkFailure::Ended,
            LinkStop::Stopped(Stop::Lost(count)) => LinkFailure::Lost(count),
            LinkStop::Memory => LinkFailure::Memory,
        }
    }
}
