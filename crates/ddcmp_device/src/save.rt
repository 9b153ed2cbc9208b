//! The bytes received over a line of a bridge, saved in a file.
ghost use Rattle.std.specs.Prelude.{◌≡◌};
ghost use Rattle.ddcmp_device.specs.Inside.Saving.{after_lookup, is_lookup_due};

use ddcmp_ports::{Attempt, Cause, OpenFault};
use std::fs::{self, File, Files, Metadata, OpenOptions, TryLockError};
use std::io::{ErrorKind, Write};
use std::os::unix::fs::MetadataExt;

/// The minimum time between two lookups of a file's name, in milliseconds.
const LOOKUP_MS: u64 = 1000;

/// Which file of the system one is, whatever its name.
#[derive(Clone, Copy, PartialEq, Eq)]
struct Identity {
    device: u64,
    inode: u64,
}

impl Identity {
    fn of(metadata: &Metadata) -> Identity {
        Identity {
            device: metadata.dev(),
            inode: metadata.ino(),
        }
    }
}

/// A file that was made, with its name.
#[derive(Clone, Copy)]
pub(crate) struct Made<'a> {
    name: &'a str,
    identity: Option<Identity>,
}

/// A file for the bytes received over a line.
pub(crate) struct Save<'a> {
    name: &'a str,
    file: File,
    identity: Option<Identity>,
    /// Whether it is appended to, and opened again once its name leads to another file or to none.
    appends: bool,
    /// Whether it was made here.
    is_new: bool,
    /// The moment from which its name is looked up again.
    lookup_at: u64,
    /// Why it can't be written any more, if so.
    failed: Option<Cause>,
}

// Manual, since a derived `Drop` would be expanded wherever a value is dropped.
impl Drop for Save<'_> {
    fn drop(self) {
        let Save {
            name: _,
            file: _file,
            identity: _,
            appends: _,
            is_new: _,
            lookup_at: _,
            failed: _,
        } = self;
    }
}

impl<'a> Save<'a> {
    /// Creates the file. It must not exist, unless it is to be appended to.
    pub(crate) fn new<S: Files<File = File>>(
        files: &S,
        name: &'a str,
        appends: bool,
    ) -> Result<Save<'a>, OpenFault<'a>> {
        match opened(files, name, appends) {
            Ok((file, is_new)) => Ok(Save {
                name,
                identity: identity_of(&file),
                file,
                appends,
                is_new,
                lookup_at: 0,
                failed: None,
            }),
            Err(cause) => Err(OpenFault {
                attempt: if appends {
                    Attempt::Open
                } else {
                    Attempt::Create
                },
                name,
                cause,
            }),
        }
    }

    /// Returns the file, if it was made here.
    pub(crate) fn made(&self) -> Option<Made<'a>> {
        if !self.is_new {
            return None;
        }
        Some(Made {
            name: self.name,
            identity: self.identity,
        })
    }

    /// Saves bytes, unless that has failed before.
    pub(crate) fn write<S: Files<File = File>>(&mut self, files: &S, now: u64, bytes: &[u8]) {
        if self.failed.is_some() {
            return;
        }
        self.failed = match self.follow_name(files, now) {
            Ok(()) => match self.file.write_all(bytes) {
                Ok(()) => None,
                Err(error) => Some(match error.kind() {
                    ErrorKind::StorageFull | ErrorKind::QuotaExceeded => Cause::Full,
                    _ => Cause::Failed,
                }),
            },
            Err(cause) => Some(cause),
        };
    }

    /// Opens the file again if it is appended to, and its name leads to another file or to none.
    fn follow_name<S: Files<File = File>>(&mut self, files: &S, now: u64) -> Result<(), Cause> {
        if !self.begins_lookup(now) || leads_to(files, self.name, self.identity) {
            return Ok(());
        }
        let file = appended(files, self.name)?;
        self.identity = identity_of(&file);
        self.file = file;
        Ok(())
    }

    /// Returns whether the name is to be looked up now, and notes when it is next.
    fn begins_lookup(&mut self, now: u64) -> bool
        ensures due { result ≡ is_lookup_due now self.old }
        ensures next { self.new ≡ after_lookup now self.old }
    {
        if !self.appends || now < self.lookup_at {
            return false;
        }
        self.lookup_at = now.saturating_add(LOOKUP_MS);
        true
    }

    /// Returns why it can't be written any more, if so.
    pub(crate) fn failed(&self) -> Option<Cause> {
        self.failed
    }
}

/// Opens a file, and returns whether it was made: it must be, unless it is to be appended to.
fn opened<S: Files<File = File>>(
    files: &S,
    name: &str,
    appends: bool,
) -> Result<(File, bool), Cause> {
    let made = OpenOptions::new()
        .append(true)
        .create_new(true)
        .open(files, name);
    match made {
        Ok(file) => Ok((locked(file)?, true)),
        Err(error) => match error.kind() {
            ErrorKind::AlreadyExists if appends => Ok((appended(files, name)?, false)),
            ErrorKind::AlreadyExists => Err(Cause::Exists),
            kind => Err(Cause::System(kind)),
        },
    }
}

/// Opens a file to append to it, and makes it if there is none.
fn appended<S: Files<File = File>>(files: &S, name: &str) -> Result<File, Cause> {
    match OpenOptions::new()
        .append(true)
        .create(true)
        .open(files, name)
    {
        Ok(file) => locked(file),
        Err(error) => Err(match error.kind() {
            ErrorKind::StorageFull | ErrorKind::QuotaExceeded => Cause::Full,
            kind => Cause::System(kind),
        }),
    }
}

/// Locks a file, so that what comes over another line isn't saved in it.
fn locked(file: File) -> Result<File, Cause> {
    if let Err(TryLockError::WouldBlock) = file.try_lock() {
        return Err(Cause::InUse);
    }
    Ok(file)
}

/// Returns which file an open one is.
fn identity_of(file: &File) -> Option<Identity> {
    match file.metadata() {
        Ok(metadata) => Some(Identity::of(&metadata)),
        Err(_unknown) => None,
    }
}

/// Returns whether a name leads to this file.
fn leads_to<S: Files<File = File>>(files: &S, name: &str, identity: Option<Identity>) -> bool {
    match (fs::metadata(files, name), identity) {
        (Ok(metadata), Some(identity)) => Identity::of(&metadata) == identity,
        _ => false,
    }
}

/// Removes a file that was made, and to which nothing was written, if its name still leads to it.
pub(crate) fn remove<S: Files<File = File>>(files: &S, made: Option<Made<'_>>) {
    if let Some(Made { name, identity }) = made {
        if leads_to(files, name, identity) {
            let _ = fs::remove_file(files, name);
        }
    }
}
