//! Endings that no command line leads to. The head of an example says why the program ends; its
//! line and its status are printed.
use ddcmp_cli::{Ending, Fault, run_args};
use ddcmp_frame::{FromRead, ToWrite};
use std::io::{self, ErrorKind};

/// Returns the ending of a run whose arguments the system returns so.
fn ran(rt: &HostRuntime, args: io::Result<Vec<String>>) -> Ending {
    let mut reader = FromRead::new(b"050100000001fc55".as_slice());
    let mut writer = ToWrite::new(Vec::new(rt.alloc()));
    run_args(rt, rt.alloc(), args, &mut reader, &mut writer)
}

fn ending_of(rt: &HostRuntime, head: &str) -> io::Result<Ending> {
    let ending = match head {
        "no arguments, not even a name" => ran(rt, Ok(Vec::new(rt.alloc()))),
        "arguments that are no text" => ran(rt, Err(io::Error::from(ErrorKind::InvalidData))),
        "no memory for the arguments" => ran(rt, Err(io::Error::from(ErrorKind::OutOfMemory))),
        "a file without permission" => {
            let name = String::from_str(rt.alloc(), "a b")?;
            Ending::Unopened(name, ErrorKind::PermissionDenied)
        }
        "no memory" => Ending::Fault(Fault::Memory),
        _ => Ending::Fault(Fault::Lost(u64::MAX)),
    };
    Ok(ending)
}

pub fn run(rt: &HostRuntime, head: &str) -> io::Result<()> {
    let ending = ending_of(rt, head)?;
    println!(rt; "{ending}-> {}", ending.status())
}
