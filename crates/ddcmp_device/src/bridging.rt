//! A bridge over two lines, from their opening to its end.
use crate::live::Live;
use crate::live_line::LiveLine;
use crate::save::{Made, Save, remove};
use crate::system::System;
use ddcmp_bridge::{Bridge, BridgeEnd, BridgeOptions, run_bridge};
use ddcmp_ports::{Attempt, Buffers, Cause, LineName, OpenFault};
use mio::Token;
use std::alloc::Global;
use std::fs::{File, Files};
use std::io::ErrorKind;
use std::time::Clock;

/// The maximum number of bytes that are read at once: no datagram has more.
const MOST: usize = 65536;

/// Why there was no bridge.
#[derive(Clone, Copy)]
pub enum BridgeFault<'a> {
    /// A line couldn't be opened, or a file created.
    Open(OpenFault<'a>),
    /// An allocation failed, before anything was done.
    Memory,
}

/// A line by its name, and the file that what comes over it is saved in, if there is one.
#[derive(Drop)]
struct SavedLine<'a> {
    name: LineName<'a>,
    save: Option<Save<'a>>,
}

impl<'a> SavedLine<'a> {
    /// Returns the file that was made for it, if one was.
    fn made(&self) -> Option<Made<'a>> {
        match &self.save {
            Some(save) => save.made(),
            None => None,
        }
    }
}

/// Passes the good frames received over each line on to the other, with the faults that are set,
/// until a line ends, and isn't opened again, or the time is over.
pub fn bridge_lines<'a, S: System>(
    system: &S,
    alloc: Global,
    first: LineName<'a>,
    second: LineName<'a>,
    options: BridgeOptions<'a>,
) -> Result<BridgeEnd, BridgeFault<'a>> {
    let first = SavedLine {
        name: first,
        save: save_in(system, options.save_first, options.append)?,
    };
    let first_made = first.made();
    let second = match save_in(system, options.save_second, options.append) {
        Ok(save) => SavedLine { name: second, save },
        Err(fault) => {
            remove(system, first_made);
            return Err(fault);
        }
    };
    let second_made = second.made();
    let ended = bridge(system, alloc, first, second, &options);
    if ended.is_err() {
        remove(system, first_made);
        remove(system, second_made);
    }
    ended
}

/// Opens the file of this name, if one is requested.
fn save_in<'a, S: Files<File = File>>(
    files: &S,
    name: Option<&'a str>,
    appends: bool,
) -> Result<Option<Save<'a>>, BridgeFault<'a>> {
    let Some(name) = name else {
        return Ok(None);
    };
    match Save::new(files, name, appends) {
        Ok(save) => Ok(Some(save)),
        Err(fault) => Err(BridgeFault::Open(fault)),
    }
}

/// Allocates all memory that is needed, and runs the bridge.
fn bridge<'a, S: System>(
    system: &S,
    alloc: Global,
    first: SavedLine<'a>,
    second: SavedLine<'a>,
    options: &BridgeOptions<'a>,
) -> Result<BridgeEnd, BridgeFault<'a>> {
    let Some(mut bridge) = Bridge::new(alloc, first.name, second.name, options) else {
        return Err(BridgeFault::Memory);
    };
    let Ok(mut buffers) = Buffers::new(alloc, 0, MOST) else {
        return Err(BridgeFault::Memory);
    };
    let baud = options.baud;
    let first = LiveLine::new(alloc, first.name, baud, first.save, (Token(1), Token(2)));
    let second = LiveLine::new(alloc, second.name, baud, second.save, (Token(3), Token(4)));
    let (Some(first), Some(second)) = (first, second) else {
        return Err(BridgeFault::Memory);
    };
    let mut live = match Live::new(system, alloc, first, second) {
        Ok(live) => live,
        Err(error) => return Err(no_waiting(error.kind())),
    };
    if let Some(began) = time_of_day(system) {
        bridge.show_time(began);
    }
    match run_bridge(&mut buffers, &mut bridge, &mut live) {
        Ok(end) => Ok(live.counted(end)),
        Err(fault) => Err(BridgeFault::Open(fault)),
    }
}

/// Returns the time of day in milliseconds after 1970, if it is known.
fn time_of_day<C: Clock>(system: &C) -> Option<u64> {
    let since_1970 = system.since_1970().ok()?;
    u64::try_from(since_1970.as_millis()).ok()
}

/// Returns the fault of a bridge that can't wait for several lines.
fn no_waiting<'a>(kind: ErrorKind) -> BridgeFault<'a> {
    match kind {
        ErrorKind::OutOfMemory => BridgeFault::Memory,
        kind => BridgeFault::Open(OpenFault {
            attempt: Attempt::Open,
            name: "epoll",
            cause: Cause::System(kind),
        }),
    }
}
