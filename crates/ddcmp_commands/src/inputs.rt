//! The files that the program reads.
ghost use Rattle.std.specs.Prelude.{◌≡◌, ◌⊎◌};
ghost use Rattle.ddcmp_commands.specs.Endings.{HasCause, IsUnopened};

use crate::ending::Ending;
use crate::fault::Fault;
use crate::file_pair::FilePair;
use crate::file_poller::FilePoller;
use ddcmp_io::{FromRead, Source, Worst};
use ddcmp_log::Side;
use std::alloc::Global;
use std::fs::{self, File};
use std::io::{ErrorKind, IsTerminal};
use std::os::fd::AsRawFd;

/// The files that the program reads, besides its standard input.
pub trait Inputs {
    ghost use Rattle.std.specs.Prelude.{◌≡◌, ℕ, List, Option, Some, IfOk};
    ghost use Rattle.ddcmp_io.specs.declared.device.Worst.TheVariants.{Fine};

    type Opened: Source + Drop;

    // The contents of the file of a name, if known.
    ghost held: { Self → List ℕ → Option (List ℕ) };

    /// Opens the file of this name, to be read from its beginning, or returns the system's error.
    fn open(&self, name: &str) -> Result<Self::Opened, ErrorKind>
        ensures fine { IfOk result (λ opened. Self.Opened.state opened ≡ Fine) }
        ensures held { IfOk result (λ opened. (bytes : List ℕ)
            → held self.now name.now ≡ Some bytes → Self.Opened.left opened ≡ Some bytes) };

    /// Opens two files, one after the other, to be read as their bytes are received; or returns the
    /// side of the one that can't be opened, and the system's error.
    fn open_pair(
        &self,
        alloc: Global,
        caller: &str,
        called: &str,
    ) -> Result<FilePair<Self::Opened>, (Side, ErrorKind)>;

    /// Prints on standard error what is read, if standard input is a terminal.
    fn await_typing(&self, what: &str);
}

/// The files of the system.
impl Inputs for HostRuntime {
    ghost use Rattle.std.specs.Prelude.{None};

    type Opened = FromRead<File>;

    ghost held = { λ _ _. None };

    fn open(&self, name: &str) -> Result<FromRead<File>, ErrorKind> {
        match fs::open(self, name) {
            Ok(file) => Ok(FromRead::new(file)),
            Err(error) => Err(error.kind()),
        }
    }

    fn open_pair(
        &self,
        alloc: Global,
        caller: &str,
        called: &str,
    ) -> Result<FilePair<FromRead<File>>, (Side, ErrorKind)> {
        let one = match fs::open(self, caller) {
            Ok(file) => file,
            Err(error) => return Err((Side::Caller, error.kind())),
        };
        let two = match fs::open(self, called) {
            Ok(file) => file,
            Err(error) => return Err((Side::Called, error.kind())),
        };
        let poller = FilePoller::new(self, alloc, one.as_raw_fd(), two.as_raw_fd());
        let (one, two) = (FromRead::new(one), FromRead::new(two));
        Ok(FilePair::new(alloc, one, two, poller.ok()))
    }

    fn await_typing(&self, what: &str) {
        if self.stdin().is_terminal() {
            let _unreported = self.eprintln(format_args!(
                "ddcmp: reads {what} until the end of input"
            ));
        }
    }
}

/// Returns the ending if the file of this name can't be opened, with the system's error.
pub fn unopened(alloc: Global, name: &str, why: ErrorKind) -> Ending
    ensures name { IsUnopened name.now result ⊎ (result ≡ Ending.Fault Fault.Memory) }
    ensures cause { HasCause why result }
{
    match String::from_str(alloc, name) {
        Ok(name) => Ending::Unopened(name, why),
        Err(_refused) => Ending::Fault(Fault::Memory),
    }
}
