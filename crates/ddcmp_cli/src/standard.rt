//! The program's standard streams, if some are closed or their output isn't read.
use ddcmp_commands::Ending;
use ddcmp_device::errors_take;
use std::alloc::Global;
use std::fs::{File, Files, OpenOptions};
use std::io::Eprint;
use std::net::Net;
use std::os::fd::AsRawFd;

/// Stand-ins for those standard streams that are closed, as long as the value exists: so that no
/// file or connection that is opened later gets the descriptor of one of them. Reading the stand-in
/// for standard input fails, and so does writing to those for the outputs.
#[derive(Drop)]
pub struct StandIns {
    files: [Option<File>; 3],
}

impl StandIns {
    /// Takes those of the descriptors 0 to 2 that are free.
    pub fn new<F: Files<File = File>>(files: &F) -> StandIns {
        let mut taken = StandIns {
            files: [None, None, None],
        };
        for stream in 0..3usize {
            let Some(file) = stand_in(files) else {
                break;
            };
            taken.files[stream] = Some(file);
        }
        taken
    }
}

/// Returns a stand-in for the first stream that is closed, if one is.
fn stand_in<F: Files<File = File>>(files: &F) -> Option<File> {
    // The system assigns the lowest free descriptor.
    let readable = OpenOptions::new().read(true).open(files, "/dev/null").ok()?;
    match readable.as_raw_fd() {
        1 | 2 => Some(readable),
        0 => {
            drop(readable);
            OpenOptions::new().write(true).open(files, "/dev/null").ok()
        }
        _ => None,
    }
}

/// Prints how the program ended. If `is_brief`, prints nothing if standard error can't be written
/// for a second.
pub fn report<S: Net + Eprint>(system: &S, alloc: Global, ending: &Ending, is_brief: bool) {
    let is_silent = matches!(ending, Ending::Done | Ending::SomeRefused);
    if is_silent || is_brief && !errors_take(system, alloc) {
        return;
    }
    let _ = system.eprint(ending);
}
