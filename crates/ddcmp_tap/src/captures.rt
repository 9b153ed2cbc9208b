//! Two captured directions of a line, drawn as one ladder.
ghost use Rattle.std.specs.Prelude.{◌≡◌, ◌+◌, ◌-◌, ◌<◌, ◌≤◌, ◌^◌, ◌↔◌, IsTrue, false};
ghost use Rattle.ddcmp_frame.specs.Limits.{MAX_COUNT};

use crate::order::{ItemSummary, Order};
use ddcmp_explain::{ExplainFault, InputBytes, InputForm, PIECE, Reached, Totals, reached_by};
use ddcmp_frame::{Item, Pushed, Reader};
use ddcmp_io::{Page, Sink, Source};
use ddcmp_log::{LogNotation, NoMemory, Origin, Side, write_line, write_skipped, write_totals};
use std::alloc::Global;

const LADDER: LogNotation = LogNotation::Ladder;

/// A captured direction of a line, read up to its next item.
pub struct Capture<R> {
    side: Side,
    discarded: bool,
    reader: R,
    input: InputBytes,
    frames: Reader,
    // Bytes that were read; those from `at` up to `end` weren't taken yet.
    bytes: [u8; PIECE],
    at: usize,
    end: usize,
    items: u64,
    /// The next item, if it was read but not drawn.
    next: Option<Item>,
    /// Where the last drawn item ends.
    reached: Reached,
    ended: bool,
    fault: Option<ExplainFault>,
    ghost taken: { at ≤ end },
    ghost fits: { end ≤ 16384 },
}

// Manual, since a derived `Drop` would be expanded wherever a value is dropped.
impl<R: Drop> Drop for Capture<R> {
    fn drop(self) {
        let Capture {
            side: _,
            discarded: _,
            reader: _reader,
            input: _input,
            frames: _frames,
            bytes: _,
            at: _,
            end: _,
            items: _,
            next: _,
            reached: _,
            ended: _,
            fault: _fault,
        } = self;
    }
}

/// Passes some of these bytes to a reader, up to the first that completes an item.
fn push_some(frames: &mut Reader, bytes: &[u8; PIECE], at: usize, end: usize) -> Pushed
    requires within { (at ≤ end) × (end ≤ PIECE) }
    requires fits { frames.old.offset + (end - at) < 2 ^ 64 }
    ensures used { at + result.used ≤ end }
{
    frames.push_all(&bytes[at..end])
}

/// Why two captures weren't drawn to their ends.
#[derive(Debug, Drop, PartialEq, Eq)]
pub enum DrawFault {
    /// The capture of this side can't be read further.
    Capture(Side, ExplainFault),
    Write,
}

impl<R: Source + Drop> Capture<R> {
    /// Makes a capture of the bytes from a side, of which nothing was read. It accepts frames with
    /// data of up to `max` bytes, and reports skipped bytes if `discarded` is set.
    pub fn new(
        alloc: Global,
        reader: R,
        written: InputForm,
        side: Side,
        discarded: bool,
        max: u16,
    ) -> Result<Capture<R>, NoMemory>
        requires low { 0 < max }
        requires high { max ≤ MAX_COUNT }
    {
        let Ok(frames) = Reader::new(alloc, max) else {
            return Err(NoMemory);
        };
        Ok(Capture {
            side,
            discarded,
            reader,
            input: InputBytes::new(written),
            frames,
            bytes: [0; PIECE],
            at: 0,
            end: 0,
            items: 0,
            next: None,
            reached: Reached::at(0),
            ended: false,
            fault: None,
        })
    }

    /// Reads the next item, unless it was read already or there is none.
    fn fill(&mut self, piece: &mut [u8; PIECE]) {
        for _turn in 0..u64::MAX {
            if self.next.is_some() || self.ended {
                return;
            }
            if self.at < self.end {
                self.take();
            } else {
                self.read(piece);
            }
        }
    }

    /// Takes bytes up to the first that completes an item.
    fn take(&mut self) {
        let count = (self.end - self.at) as u64;
        if u64::MAX - self.frames.offset() <= count {
            self.fail(ExplainFault::Read);
            return;
        }
        let Pushed { used, item } = push_some(&mut self.frames, &self.bytes, self.at, self.end);
        self.at += used;
        if item.is_some() {
            self.items = self.items.saturating_add(1);
        }
        self.next = item;
    }

    /// Reads bytes.
    fn read(&mut self, piece: &mut [u8; PIECE]) {
        match self.input.next(&mut self.reader, piece, &mut self.bytes) {
            Ok(Some(count)) => {
                self.at = 0;
                self.end = count;
            }
            Ok(None) => self.ended = true,
            Err(fault) => self.fail(fault),
        }
    }

    /// Ends the reading with a fault.
    fn fail(&mut self, fault: ExplainFault) {
        self.fault = Some(fault);
        self.ended = true;
    }

    /// Returns what the order needs to know about the next item, if there is one.
    fn summary(&self) -> Option<ItemSummary> {
        match &self.next {
            Some(item) => Some(ItemSummary::of(item)),
            None => None,
        }
    }

    /// Draws the next item, and before it the skipped bytes, if these are reported.
    fn draw<W: Sink>(&mut self, page: &mut Page, writer: &mut W) {
        match &self.next {
            Some(item) => {
                let reached = reached_by(item);
                if self.discarded {
                    write_skipped_to(page, writer, self.side, &self.reached, reached.offset);
                }
                write_line(page, writer, LADDER, origin_of(self.side), item, &[]);
                self.reached = reached;
            }
            None => {}
        }
        self.next = None;
    }

    /// Writes the last line.
    fn finish<W: Sink>(&self, page: &mut Page, writer: &mut W) {
        let bytes = self.frames.offset();
        let left_open = self.frames.open() as u64;
        if self.discarded {
            let end = bytes.saturating_sub(left_open);
            write_skipped_to(page, writer, self.side, &self.reached, end);
        }
        let totals = Totals {
            items: self.items,
            bytes,
            left_open,
        };
        write_totals(page, writer, LADDER, origin_of(self.side), totals);
    }
}

/// Returns the origin of lines from a side, whose bytes have no time.
fn origin_of(side: Side) -> Origin {
    Origin { stamp: None, side }
}

/// Writes the line of the bytes skipped after an item of a side, up to an offset.
fn write_skipped_to<W: Sink>(
    page: &mut Page,
    writer: &mut W,
    side: Side,
    reached: &Reached,
    to: u64,
) {
    match reached.skipped_to(to) {
        Some(it) => write_skipped(page, writer, LADDER, origin_of(side), it),
        None => {}
    }
}

/// Draws two captures: an arrow for each item, in the order of `Order`, and the totals of both. If
/// one can't be read further, draws the items before that, and no totals.
pub fn draw_captures<R: Source + Drop, W: Sink>(
    caller: &mut Capture<R>,
    called: &mut Capture<R>,
    writer: &mut W,
) -> Result<(), DrawFault>
    requires whole { W.broken writer.old ≡ false }
    ensures write { (result ≡ Err DrawFault.Write) ↔ IsTrue (W.broken writer.new) }
{
    let mut page = Page::new();
    draw_items(caller, called, &mut page, writer);
    let fault = fault_of(caller, called);
    if fault.is_none() {
        caller.finish(&mut page, writer);
        called.finish(&mut page, writer);
    }
    match page.flush(writer) {
        Ok(()) => match fault {
            Some((side, fault)) => Err(DrawFault::Capture(side, fault)),
            None => Ok(()),
        },
        Err(_failed) => Err(DrawFault::Write),
    }
}

/// Draws all items, until a write fails.
fn draw_items<R: Source + Drop, W: Sink>(
    caller: &mut Capture<R>,
    called: &mut Capture<R>,
    page: &mut Page,
    writer: &mut W,
) {
    let mut piece = [0; PIECE];
    let mut order = Order::new();
    for _item in 0..u64::MAX {
        caller.fill(&mut piece);
        called.fill(&mut piece);
        let (up, down) = (caller.summary(), called.summary());
        let Some(side) = order.next(up, down) else {
            return;
        };
        if writer.failed() {
            return;
        }
        let summary = match side {
            Side::Caller => {
                caller.draw(page, writer);
                up
            }
            Side::Called => {
                called.draw(page, writer);
                down
            }
        };
        if let Some(summary) = summary {
            order.draw(side, summary);
        }
    }
}

/// Takes the fault that a capture ended with, the caller's if both did.
fn fault_of<R>(caller: &mut Capture<R>, called: &mut Capture<R>) -> Option<(Side, ExplainFault)> {
    match caller.fault.take() {
        Some(fault) => Some((Side::Caller, fault)),
        None => match called.fault.take() {
            Some(fault) => Some((Side::Called, fault)),
            None => None,
        },
    }
}
