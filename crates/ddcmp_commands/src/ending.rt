//! How the program ended.
ghost use Rattle.std.specs.Prelude.{◌≡◌};
ghost use Rattle.ddcmp_commands.specs.Endings.{shown_of, status_of};

use crate::fault::Fault;
use ddcmp_io::cause::words_of;
use std::fmt;
use std::fmt::Display;
use std::io::ErrorKind;

/// How the program ended.
#[derive(Drop)]
pub enum Ending {
    /// Completed; also for help and the version.
    Done,
    /// Completed, but parts of the input were refused and reported.
    SomeRefused,
    /// A line can't be opened; this is the text of the cause.
    NoLine(String),
    /// A usage error, with its text.
    Usage(String),
    /// An argument isn't UTF-8.
    NotText,
    /// The file of this name can't be opened, with the system's error.
    Unopened(String, ErrorKind),
    /// Of two files that are read, the one of this name had a fault.
    Unread(String, Fault),
    /// A command failed.
    Fault(Fault),
}

impl Ending {
    /// Returns the exit status: 0 done, 1 input refused, 2 usage, 3 a file, read, write, carrier,
    /// ended, lost or memory.
    pub fn status(&self) -> u8
        ensures { result ≡ status_of self.now }
    {
        match self {
            Ending::Done => 0,
            Ending::SomeRefused => 1,
            Ending::Usage(_) | Ending::NotText => 2,
            Ending::Unopened(_, _) | Ending::NoLine(_) => 3,
            Ending::Fault(fault) | Ending::Unread(_, fault) => match fault {
                Fault::Odd
                | Fault::NotHex(_)
                | Fault::Dump(_)
                | Fault::Line(_)
                | Fault::Hex(_)
                | Fault::Message => 1,
                Fault::Read
                | Fault::Write
                | Fault::Memory
                | Fault::Carrier
                | Fault::Ended
                | Fault::Lost(_) => 3,
            },
        }
    }
}

/// Writes the program's line for a fault.
fn write_fault<W: fmt::Write, T: Display>(f: &mut fmt::Formatter<W>, fault: &T) -> fmt::Result {
    f.write_str("ddcmp: ")?;
    fault.fmt(f)?;
    f.write_str("\n")
}

/// Writes the line for a file with a fault.
fn write_unread<W: fmt::Write>(
    f: &mut fmt::Formatter<W>,
    name: &String,
    fault: &Fault,
) -> fmt::Result {
    f.write_str("ddcmp: ")?;
    f.write_str(name.as_str())?;
    f.write_str(": ")?;
    fault.fmt(f)?;
    f.write_str("\n")
}

/// The text for standard error.
impl Display for Ending {
    ghost output = { shown_of };

    fn fmt<W: fmt::Write>(&self, f: &mut fmt::Formatter<W>) -> fmt::Result {
        match self {
            Ending::Done | Ending::SomeRefused => Ok(()),
            Ending::NoLine(why) => writeln!(f, "ddcmp: {why}"),
            Ending::Usage(text) => f.write_str(text.as_str()),
            Ending::NotText => f.write_str("ddcmp: an argument isn't UTF-8\n"),
            Ending::Unopened(name, why) => {
                let cause = words_of(*why);
                writeln!(f, "ddcmp: open {name}: {cause}")
            }
            Ending::Unread(name, fault) => write_unread(f, name, fault),
            Ending::Fault(fault) => write_fault(f, fault),
        }
    }
}
