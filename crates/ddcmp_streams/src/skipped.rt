//! The bytes in one direction over a line: their frames, and what was discarded between them.
ghost use Rattle.std.specs.Prelude.{◌≡◌, ◌+◌, ◌-◌, ◌<◌, ◌≤◌, ◌^◌, ◌∷◌, ◌++◌, [], ℕ, length};
ghost use Rattle.std.specs.Prelude.{List, None, IfOk};
ghost use Rattle.std.specs.Result.{result_map_both};
ghost use Rattle.ddcmp_frame.specs.Reader.{MakesReader};
ghost use Rattle.ddcmp_frame.specs.Step.{item_offset};
ghost use Rattle.ddcmp_explain.specs.Discarded.{behind};
ghost use Rattle.ddcmp_streams.specs.Trace.{Discards, HasHeard, Hears, first_junk, junk_of};
ghost use Rattle.ddcmp_streams.specs.Trace.{is_fill as fills, skipped_between};

use ddcmp_explain::{Reached, Skipped, reached_by};
use ddcmp_frame::codes::SYN;
use ddcmp_frame::{Item, Reader, ReaderRefusal};
use std::alloc::Global;
use std::marker::Model;

/// The byte with which some stations pad their frames.
const DEL: u8 = 0xff;

/// This many discarded bytes are reported even if no frame follows them.
pub(crate) const MOST_DISCARDED: u64 = 256;

/// Returns whether a byte between frames is fill, which stations send before or after a frame.
fn is_fill(byte: u8) -> bool
    ensures { result ≡ fills byte }
{
    byte == SYN || byte == DEL
}

/// An item that a byte completed, and what was discarded before it.
#[derive(Clone, Copy)]
pub(crate) struct Completed {
    pub(crate) item: Item,
    pub(crate) discarded: Option<Skipped>,
}

/// A reader of the bytes in one direction.
pub(crate) struct WayReader {
    frames: Reader,
    /// The last item, or the end of the bytes that were reported since.
    reached: Reached,
    /// The offset of the first byte after that which is no fill. Fill alone isn't reported.
    junk: Option<u64>,
}

impl Model for WayReader {
    ghost use Rattle.ddcmp_streams.specs.Trace.{WayReaderView};

    ghost Value = { WayReaderView };

    ghost view = { λ h. record { frames = h.frames; reached = h.reached; junk = h.junk } };
}

// Manual, since a derived `Drop` is expanded wherever it is dropped.
impl Drop for WayReader {
    fn drop(self) {
        let WayReader {
            frames: _frames,
            reached: _,
            junk: _,
        } = self;
    }
}

impl WayReader {
    /// Makes a reader of frames of at most this many bytes of data.
    pub(crate) fn new(alloc: Global, max: u16) -> Result<WayReader, ReaderRefusal>
        ensures makes { MakesReader max
            (result_map_both (λ h. h.frames) (λ refusal. refusal) result) }
        ensures heard { IfOk result (λ h. HasHeard [] 0 h) }
    {
        match Reader::new(alloc, max) {
            Ok(frames) => Ok(WayReader {
                frames,
                reached: Reached::at(0),
                junk: None,
            }),
            Err(refusal) => Err(refusal),
        }
    }

    /// Restarts on another line.
    pub(crate) fn restart(&mut self)
        ensures heard { HasHeard [] 0 self.new }
        ensures max { self.new.frames.max ≡ self.old.frames.max }
        ensures lent { self.new.frames.lent ≡ [] }
    {
        self.frames.reset();
        self.reached = Reached::at(0);
        self.junk = None;
    }

    /// Handles a byte, and returns the item that it completes and what was discarded before that. A
    /// byte whose offset has no room in 64 bits is ignored.
    pub(crate) fn push(&mut self, byte: u8) -> Option<Completed>
        ensures hears { self.old.frames.offset < 2 ^ 64 - 2 → Hears self.old byte result self.new }
        ensures full { 2 ^ 64 - 2 ≤ self.old.frames.offset → (result ≡ None)
            × (self.new ≡ self.old) }
    {
        if self.frames.offset() >= u64::MAX - 1 {
            return None;
        }
        self.note(byte);
        let item = self.frames.push(byte);
        match item {
            Some(item) => {
                let discarded = self.reach(&item);
                Some(Completed { item, discarded })
            }
            None => None,
        }
    }

    /// Notes the offset of the next byte, if it is the first that is no fill.
    fn note(&mut self, byte: u8)
        requires { self.old.frames.offset + 1 < 2 ^ 64 }
        ensures frames { self.new.frames ≡ self.old.frames }
        ensures reached { self.new.reached ≡ self.old.reached }
        ensures junk { (text : List ℕ) (from : ℕ) → HasHeard text from self.old
            → self.new.junk ≡ first_junk (text ++ byte ∷ []) from }
    {
        let offset = self.frames.offset();
        match self.junk {
            Some(_) => {}
            None => self.junk = self.junk_at(byte, offset),
        }
    }

    /// Returns the offset of a byte, if it is after the last item and no fill.
    fn junk_at(&self, byte: u8, offset: u64) -> Option<u64>
        requires { offset + 1 < 2 ^ 64 }
        ensures { (text : List ℕ) (from : ℕ) → offset ≡ length text
            → self.now.reached.offset + self.now.reached.taken ≡ from
            → first_junk text from ≡ None
            → result ≡ first_junk (text ++ byte ∷ []) from }
    {
        if is_fill(byte) {
            return None;
        }
        match self.reached.skipped_to(offset + 1) {
            Some(_) => Some(offset),
            None => None,
        }
    }

    /// Returns the data of the item that the last byte completed.
    pub(crate) fn data(&self) -> &[u8]
        ensures { result.now ≡ self.now.frames.lent }
    {
        self.frames.data()
    }

    /// Notes a completed item, and returns what was discarded before it.
    fn reach(&mut self, item: &Item) -> Option<Skipped>
        ensures frames { self.new.frames ≡ self.old.frames }
        ensures reached { self.new.reached.offset + self.new.reached.taken ≡ behind item.now }
        ensures junk { self.new.junk ≡ junk_of item.now }
        ensures skipped { (text : List ℕ) (from : ℕ)
            → self.old.reached.offset + self.old.reached.taken ≡ from
            → self.old.junk ≡ first_junk text from
            → result ≡ skipped_between text from (item_offset item.now) }
    {
        let reached = reached_by(item);
        let skipped = self.skipped_to(reached.offset);
        self.reached = reached;
        // The start byte of a damaged header is skipped itself.
        self.junk = (reached.taken == 0).then_some(reached.offset);
        skipped
    }

    /// Returns the bytes discarded after the last frame, if there are at least this many.
    pub(crate) fn discard(&mut self, least: u64) -> Option<Skipped>
        ensures { Discards self.old least result self.new }
    {
        let open = self.frames.open() as u64;
        let end = self.frames.offset().saturating_sub(open);
        match self.skipped_to(end) {
            None => None,
            Some(skipped) => {
                if skipped.count < least {
                    return None;
                }
                self.reached = Reached::at(end);
                // The unfinished frame may turn out to be no frame.
                self.junk = (open > 0).then_some(end);
                Some(skipped)
            }
        }
    }

    /// Returns what was discarded up to an offset, if it isn't fill alone.
    fn skipped_to(&self, to: u64) -> Option<Skipped>
        ensures { (text : List ℕ) (from : ℕ)
            → self.now.reached.offset + self.now.reached.taken ≡ from
            → self.now.junk ≡ first_junk text from
            → result ≡ skipped_between text from to }
    {
        match self.junk {
            None => None,
            Some(junk) => {
                if to <= junk {
                    return None;
                }
                self.reached.skipped_to(to)
            }
        }
    }
}
