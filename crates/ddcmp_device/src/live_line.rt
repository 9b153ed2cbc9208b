//! A line of a bridge, on the system's devices.
ghost use Rattle.std.specs.Prelude.{◌≡◌, ◌≢◌, ◌≤◌, ◌⊎◌, ◌+◌, ◌^◌, ◌-◌, IfSome, IsTrue, false};
ghost use Rattle.std.specs.Prelude.{length, min};
ghost use Rattle.ddcmp_bridge.specs.Crossing.{plan_of};
ghost use Rattle.ddcmp_device.specs.Inside.Lines.{is_datagrams};
ghost use Rattle.ddcmp_device.specs.Inside.Lives.{plan};
ghost use Rattle.ddcmp_device.specs.Pace.{IsPaced, after_given, room_at, wait_at};
ghost use Rattle.ddcmp_ports.specs.LineNames.{line_kind};
ghost use Rattle.ddcmp_io.specs.Transfers.{count_moved as count_of};
ghost use Rattle.ddcmp_ports.specs.Moving.{count_moved};

use crate::datagram::Framing;
use crate::line::{Heard, Line};
use crate::opener::Opener;
use crate::pace::Pace;
use crate::place::LinePlace;
use crate::save::Save;
use crate::system::System;
use ddcmp_bridge::Counts;
use ddcmp_io::LineKind;
use ddcmp_ports::{Cause, Down, LineEvent, LineName, Machine, Need, Opening, Port, Transfer};
use ddcmp_station::Clock;
use mio::{Poll, Token};
use std::alloc::Global;

/// Converts the result of a read or a write.
pub(crate) fn moved_by(moved: ddcmp_io::Transfer) -> Transfer
    ensures { count_moved result ≡ count_of moved }
{
    match moved {
        ddcmp_io::Transfer::Bytes(n) => Transfer::Bytes(n),
        ddcmp_io::Transfer::Interrupted => Transfer::Bytes(0),
        ddcmp_io::Transfer::Nothing => Transfer::Nothing,
        ddcmp_io::Transfer::Ended(ddcmp_io::Down::Closed) => Transfer::Over(Down::Closed),
        ddcmp_io::Transfer::Ended(ddcmp_io::Down::Failed(kind)) => Transfer::Over(Down::Failed(
            kind,
        )),
    }
}

/// What a machine needs of a line before it waits.
#[derive(Clone, Copy)]
pub(crate) struct Wanted {
    pub(crate) to_read: bool,
    pub(crate) to_write: bool,
}

/// Returns what a machine needs of a line.
pub(crate) fn wanted_of<M: Machine>(machine: &M, port: Port) -> Wanted {
    Wanted {
        to_read: matches!(machine.needs(port), Need::Bytes),
        to_write: !machine.pending(port).is_empty(),
    }
}

/// A line that is opened by its name, once or again.
pub(crate) struct LiveLine<'a> {
    opener: Opener<'a>,
    line: Option<Line>,
    pub(crate) place: LinePlace,
    baud: u32,
    /// The pace at which it is written to.
    pace: Pace,
    /// Finds the incomplete frame at the end of a datagram.
    framing: Framing,
    /// How many bytes of such frames were dropped.
    cut: u64,
    /// The file that all received bytes are saved in, if there is one.
    save: Option<Save<'a>>,
    /// What is to be reported of the first datagram that wasn't the peer's.
    pub(crate) event: Option<LineEvent>,
    /// Whether there was such a datagram.
    had_event: bool,
}

// Manual, since a derived `Drop` would be expanded wherever a value is dropped.
impl Drop for LiveLine<'_> {
    fn drop(self) {
        let LiveLine {
            opener: _opener,
            line: _line,
            place: _place,
            baud: _,
            pace: _,
            framing: _framing,
            cut: _,
            save: _save,
            event: _,
            had_event: _,
        } = self;
    }
}

impl<'a> LiveLine<'a> {
    /// Makes a line of this name and speed, which isn't open yet. What comes over it is saved in
    /// this file, if there is one. Allocates all memory that it will need; returns none if that
    /// failed.
    pub(crate) fn new(
        alloc: Global,
        name: LineName<'a>,
        baud: u32,
        save: Option<Save<'a>>,
        tokens: (Token, Token),
    ) -> Option<LiveLine<'a>>
        ensures { IfSome result (λ made. plan made ≡ plan_of name.entry baud) }
    {
        let (line, callers) = tokens;
        Some(LiveLine {
            opener: Opener::new(name, None),
            line: None,
            place: LinePlace::new(line, callers),
            baud,
            pace: Pace::new(baud),
            framing: Framing::new(alloc, ddcmp_frame::MAX_COUNT).ok()?,
            cut: 0,
            save,
            event: None,
            had_event: false,
        })
    }

    /// Opens the line as far as that is possible without waiting. A caller has it from its first
    /// bytes on: one that has sent nothing is left if it closes its connection, and for the next
    /// caller. Then it ends the listening.
    pub(crate) fn open<S: System>(&mut self, system: &S, poll: &Poll) -> Opening {
        if self.is_heard() {
            return self.opened();
        }
        match self.opener.open(system, poll, &mut self.place) {
            Ok(opened) => {
                let event = opened.event();
                let line = opened.into_line();
                let is_open = line.is_some();
                if is_open {
                    self.line = line;
                }
                match event {
                    Some(event) => Opening::Reported(event),
                    None if is_open => self.opened(),
                    None => Opening::Later,
                }
            }
            Err(refused) => Opening::Failed(refused),
        }
    }

    /// Notes that the line is open, so that its port refuses callers.
    fn opened(&mut self) -> Opening {
        self.opener.refuse_callers();
        self.pace = Pace::new(self.baud);
        Opening::Done(None)
    }

    /// Returns whether there is a line, other than that of a caller who has sent nothing. Drops
    /// that of one who is gone.
    fn is_heard(&mut self) -> bool {
        let Some(line) = &self.line else {
            return false;
        };
        let heard = match self.opener.name.kind() {
            LineKind::Listen => line.heard(),
            LineKind::Connect | LineKind::Datagrams | LineKind::Device => Heard::Bytes,
        };
        if matches!(heard, Heard::Gone) {
            self.line = None;
        }
        matches!(heard, Heard::Bytes)
    }

    /// Reads received bytes, and saves them.
    pub(crate) fn read<S: System>(&mut self, system: &S, now: u64, space: &mut [u8]) -> Transfer
        ensures { count_moved result ≤ length space.new }
    {
        if let Some(cause) = self.unsaved() {
            return Transfer::Over(Down::Unsaved(cause));
        }
        let Some(line) = &mut self.line else {
            return Transfer::Over(Down::Closed);
        };
        if !self.place.may_read() {
            return Transfer::Nothing;
        }
        let mut event = None;
        let got = moved_by(line.read(space, &mut event));
        self.place.was_read(matches!(got, Transfer::Nothing));
        if event.is_some() && !self.had_event {
            self.event = event;
            self.had_event = true;
        }
        match got {
            Transfer::Bytes(n) => {
                let n = n.min(space.len());
                self.take(system, now, &space[..n])
            }
            got => got,
        }
    }

    /// Saves received bytes, and leaves out an incomplete frame at the end of a datagram.
    fn take<S: System>(&mut self, system: &S, now: u64, bytes: &[u8]) -> Transfer
        ensures { count_moved result ≤ length bytes.now }
    {
        if let Some(save) = &mut self.save {
            save.write(system, now, bytes);
        }
        if !self.has_datagrams() {
            return Transfer::Bytes(bytes.len());
        }
        // No frame continues in the next datagram.
        let unfinished = self.framing.unfinished(bytes);
        self.cut = self.cut.saturating_add(unfinished as u64);
        Transfer::Bytes(bytes.len().saturating_sub(unfinished))
    }

    /// Returns why received bytes couldn't be saved, if that failed.
    fn unsaved(&self) -> Option<Cause> {
        match &self.save {
            Some(save) => save.failed(),
            None => None,
        }
    }

    /// Returns whether its line is one of datagrams.
    fn has_datagrams(&self) -> bool
        ensures { result ≡ is_datagrams (line_kind self.now.opener.name) }
    {
        matches!(self.opener.name.kind(), LineKind::Datagrams)
    }

    /// Writes bytes from the front of `bytes`, as far as its pace has room for them.
    pub(crate) fn write(&mut self, now: u64, bytes: &[u8]) -> Transfer
        ensures fits { count_moved result ≤ length bytes.now }
        ensures none { room_at now self.old.pace ≡ 0 → count_moved result ≡ 0 }
        ensures given { ((count_moved result ≡ 0) × (self.new.pace ≡ self.old.pace))
            ⊎ (self.new.pace ≡ after_given now (count_moved result) self.old.pace) }
        ensures paced { is_datagrams (line_kind self.old.opener.name) ≡ false
            → IsPaced now self.old.pace → IsPaced now self.new.pace }
    {
        let room = self.room(now, bytes.len());
        let Some(line) = &mut self.line else {
            return Transfer::Over(Down::Closed);
        };
        if !self.place.may_write() || room == 0 {
            return Transfer::Nothing;
        }
        let took = moved_by(line.write(&bytes[..room]));
        self.place.was_written(matches!(took, Transfer::Nothing));
        match took {
            Transfer::Bytes(n) => {
                let n = n.min(room);
                self.pace.given(now, n);
                Transfer::Bytes(n)
            }
            Transfer::Over(why) => {
                // The next read finds out whether there is anything left.
                self.place.may_have_more();
                Transfer::Over(why)
            }
            Transfer::Nothing => Transfer::Nothing,
        }
    }

    /// Returns how many of `n` bytes may be written now. A datagram goes as a whole.
    fn room(&self, now: u64, n: usize) -> usize
        ensures most { result ≤ n }
        ensures none { room_at now self.now.pace ≡ 0 → result ≡ 0 }
        ensures paced { is_datagrams (line_kind self.now.opener.name) ≡ false
            → result ≡ min (room_at now self.now.pace) n }
    {
        let room = self.pace.room(now).min(n);
        if room > 0 && self.has_datagrams() {
            return n;
        }
        room
    }

    /// Has the peer learn that no more bytes will be written.
    pub(crate) fn shut(&mut self) {
        if let Some(line) = &self.line {
            let _is_up = line.shut();
        }
    }

    /// Closes the line.
    pub(crate) fn close<C: Clock>(&mut self, clock: &mut C) {
        if let Some(line) = self.line.take() {
            line.close(clock);
        }
        self.place.forget();
    }

    /// Has the next wait report it if what is needed of it isn't known to be ready; returns after
    /// how many milliseconds at most it may have room by its pace, or is ready.
    pub(crate) fn wait_ms(&mut self, poll: &Poll, wanted: Wanted, now: u64, most_ms: u64) -> u64
        ensures most { result ≤ most_ms }
        ensures paced { IsTrue wanted.to_write
            → wait_at now self.old.pace ≢ 0 → result ≤ wait_at now self.old.pace }
    {
        let paced_ms = self.pace.wait_ms(now);
        let to_write = wanted.to_write && paced_ms == 0;
        self.place.ask(poll, wanted.to_read, to_write);
        if self.place.is_ready(wanted.to_read, to_write) {
            return 0;
        }
        match wanted.to_write && paced_ms > 0 {
            true => most_ms.min(paced_ms),
            false => most_ms,
        }
    }

    /// Returns the counters, with the bytes that were dropped here counted as skipped.
    pub(crate) fn counted(&self, counts: Counts) -> Counts
        ensures { result ≡ record counts {
          skipped = min (counts.skipped + self.now.cut) (2 ^ 64 - 1);
        } }
    {
        Counts {
            skipped: counts.skipped.saturating_add(self.cut),
            ..counts
        }
    }
}
