//! Standard input, by what its end means.
ghost use Rattle.std.specs.Prelude.{◌≡◌, ◌≢◌, false};
ghost use Rattle.std.specs.declared.fs.File.{File as FileValue};
ghost use Rattle.ddcmp_device.specs.StandardStreams.{has_end};

use std::alloc::Global;
use std::fs::{self, File, Files, OpenOptions};
use std::os::unix::fs::FileTypeExt;

/// The name of standard input.
const NAME: &str = "/dev/stdin";

/// Standard input, by what it is. Keep it for as long as standard input is read.
#[derive(Drop)]
pub enum StandardInput {
    /// A file, a pipe or a socket, which is read to its end.
    Ends,
    /// A terminal or another character device, whose end nobody waits for.
    Device,
    /// A FIFO with a name, opened for writing too: it has no end while it is open here, so further
    /// writers may come.
    KeptOpen(File),
}

impl StandardInput {
    /// Returns standard input. If `stays`, a FIFO is kept open for further writers.
    pub fn new<F: Files<File = File>>(files: &F, alloc: Global, stays: bool) -> StandardInput
        ensures { stays ≡ false → (file : FileValue) → result ≢ StandardInput.KeptOpen file }
    {
        let Ok(metadata) = fs::metadata(files, NAME) else {
            return StandardInput::Ends;
        };
        let kind = metadata.file_type();
        if kind.is_char_device() {
            return StandardInput::Device;
        }
        if stays && kind.is_fifo() {
            if let Some(file) = open_for_writers(files, alloc) {
                return StandardInput::KeptOpen(file);
            }
        }
        StandardInput::Ends
    }

    /// Returns whether it has an end that is waited for.
    pub fn has_end(&self) -> bool
        ensures { result ≡ has_end self.now }
    {
        matches!(self, StandardInput::Ends)
    }
}

/// Opens a FIFO with a name for reading and writing, which doesn't wait for another process. An
/// anonymous pipe has no name that another writer could open it by.
fn open_for_writers<F: Files<File = File>>(files: &F, alloc: Global) -> Option<File> {
    let _name = files.canonicalize(alloc, NAME).ok()?;
    let mut opening = OpenOptions::new();
    opening.read(true).write(true).open(files, NAME).ok()
}
