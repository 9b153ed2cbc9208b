//! The log of one side: a line for each item, as its bytes are received.
ghost use Rattle.std.specs.Prelude.{◌≡◌, ◌+◌, ◌-◌, ◌<◌, ◌≤◌, ◌^◌, ◌++◌, [], List, ℕ, IfOk};
ghost use Rattle.std.specs.Prelude.{IsOk, false, is_err, length, take};
ghost use Rattle.ddcmp_frame.specs.Limits.{MAX_COUNT};
ghost use Rattle.ddcmp_io.specs.Written.{HandsOver};
ghost use Rattle.ddcmp_io.specs.declared.memory.MemorySink.{MemorySink as Text};
ghost use Rattle.ddcmp_log.specs.Inside.Telling.{Tells, output_in};
ghost use Rattle.ddcmp_log.specs.Items.{HasTold};
ghost use Rattle.ddcmp_log.specs.Inside.Telling.{totals_of};
ghost use Rattle.ddcmp_log.specs.Logged.{items_added, logged_last, logged_lines, reported_line};

use crate::line::{write_line, write_reported, write_totals};
use crate::no_memory::NoMemory;
use crate::notation::LogNotation;
use crate::side::{Added, Origin, Side, Stamp};
use ddcmp_explain::Totals;
use ddcmp_frame::{Pushed, Reader};
use ddcmp_io::{MemorySink, Page};
use std::alloc::Global;
use std::marker::Model;

/// The reader of the bytes of one side, and how these are logged.
#[derive(Drop)]
pub struct ItemLog {
    side: Side,
    notation: LogNotation,
    frames: Reader,
    items: u64,
}

impl Model for ItemLog {
    ghost use Rattle.std.specs.Prelude.{◌≤◌};
    ghost use Rattle.ddcmp_log.specs.Items.{ItemLogView};

    ghost Value = { ItemLogView };

    ghost view = { λ l. record {
      side = l.side;
      notation = l.notation;
      frames = l.frames;
      items = l.items;
    } };

    ghost invariant = { λ l. l.items ≤ l.frames.offset };
}

/// Appends what is buffered in a page to a text.
fn put_page(page: &mut Page, text: &mut MemorySink) -> Result<(), NoMemory>
    ensures { IsOk result → (was : Text) (first lines : List ℕ)
        → was.refused ≡ false → first ≡ []
        → HandsOver (output_in was first) (output_in text.old page.old) lines
        → text.new.bytes.items ≡ was.bytes.items ++ lines }
{
    match page.flush(text) {
        Ok(()) => Ok(()),
        Err(_failed) => Err(NoMemory),
    }
}

impl ItemLog {
    /// Makes the log of a side of which no bytes were received, with frames of up to `max` bytes of
    /// data.
    pub fn new(
        alloc: Global,
        side: Side,
        notation: LogNotation,
        max: u16,
    ) -> Result<ItemLog, NoMemory>
        requires low { 0 < max }
        requires high { max ≤ MAX_COUNT }
        ensures told { IfOk result (λ made. HasTold made.frames made.items []) }
        ensures side { IfOk result (λ made. made.side ≡ side) }
        ensures notation { IfOk result (λ made. made.notation ≡ notation) }
        ensures max { IfOk result (λ made. made.frames.max ≡ max) }
    {
        let Ok(frames) = Reader::new(alloc, max) else {
            return Err(NoMemory);
        };
        Ok(ItemLog {
            side,
            notation,
            frames,
            items: 0,
        })
    }

    /// Begins anew: no bytes were received.
    pub fn restart(&mut self)
        ensures told { HasTold self.new.frames self.new.items [] }
        ensures stays { self.new ≡ record self.old { frames = self.new.frames; items = 0 } }
        ensures max { self.new.frames.max ≡ self.old.frames.max }
    {
        self.frames.reset();
        self.items = 0;
    }

    /// Returns the side that the bytes come from.
    pub fn side(&self) -> Side
        ensures { result ≡ self.now.side }
    {
        self.side
    }

    /// Returns the notation of the lines.
    pub fn notation(&self) -> LogNotation
        ensures { result ≡ self.now.notation }
    {
        self.notation
    }

    /// Returns how many more bytes can be counted.
    pub fn room(&self) -> u64
        ensures { result ≡ (2 ^ 64 - 1) - self.now.frames.offset }
    {
        u64::MAX - self.frames.offset()
    }

    /// Takes bytes up to the first that completes an item, and writes its line. Returns how many.
    fn push(
        &mut self,
        page: &mut Page,
        text: &mut MemorySink,
        stamp: Option<Stamp>,
        bytes: &[u8],
    ) -> usize
        requires some { 0 < length bytes.now }
        requires fits { self.old.frames.offset + length bytes.now < 2 ^ 64 }
        ensures some { 0 < result }
        ensures used { result ≤ length bytes.now }
        ensures offset { self.new.frames.offset ≡ self.old.frames.offset + result }
        ensures max { self.new.frames.max ≡ self.old.frames.max }
        ensures notation { self.new.notation ≡ self.old.notation }
        ensures side { self.new.side ≡ self.old.side }
        ensures told { (told : List ℕ) → HasTold self.old.frames self.old.items told
            → HasTold self.new.frames self.new.items (told ++ take result bytes.now)
            × Tells self.old.notation self.old.side self.old.frames.max stamp told
            (take result bytes.now) (output_in text.old page.old) (output_in text.new page.new) }
    {
        let Pushed { used, item } = self.frames.push_all(bytes);
        match item {
            Some(item) => {
                self.items += 1;
                let data = self.frames.data();
                let origin = Origin {
                    stamp,
                    side: self.side,
                };
                write_line(page, text, self.notation, origin, &item, data);
            }
            None => {}
        }
        used
    }

    /// Takes bytes, and appends the lines of the items that they complete to a text.
    pub fn log(
        &mut self,
        text: &mut MemorySink,
        stamp: Option<Stamp>,
        bytes: &[u8],
    ) -> Result<(), NoMemory>
        requires fits { self.old.frames.offset + length bytes.now < 2 ^ 64 }
        requires whole { text.old.refused ≡ false }
        ensures offset { self.new.frames.offset ≡ self.old.frames.offset + length bytes.now }
        ensures max { self.new.frames.max ≡ self.old.frames.max }
        ensures notation { self.new.notation ≡ self.old.notation }
        ensures side { self.new.side ≡ self.old.side }
        ensures told { (told : List ℕ) → HasTold self.old.frames self.old.items told
            → HasTold self.new.frames self.new.items (told ++ bytes.now) }
        ensures puts { IsOk result → (told : List ℕ)
            → HasTold self.old.frames self.old.items told
            → text.new.bytes.items ≡ text.old.bytes.items
            ++ logged_lines self.old.notation stamp self.old.side
            (items_added self.old.frames.max told bytes.now) }
    {
        let mut page = Page::new();
        let mut used = 0;
        while used < bytes.len() {
            used += self.push(&mut page, text, stamp, &bytes[used..]);
        }
        put_page(&mut page, text)
    }

    /// Returns how many items and bytes were received.
    pub fn added(&self) -> Added
        ensures { result ≡ record { items = self.now.items; bytes = self.now.frames.offset } }
    {
        Added {
            items: self.items,
            bytes: self.frames.offset(),
        }
    }

    /// Returns the totals.
    fn totals(&self) -> Totals
        ensures { (told : List ℕ) → HasTold self.now.frames self.now.items told
            → result ≡ totals_of self.now.frames.max told }
    {
        Totals {
            items: self.items,
            bytes: self.frames.offset(),
            left_open: self.frames.open() as u64,
        }
    }

    /// Appends a report to a text: the totals, and in an object what was added since there were
    /// this many items and bytes.
    pub fn report(
        &self,
        text: &mut MemorySink,
        stamp: Option<Stamp>,
        since: Added,
    ) -> Result<(), NoMemory>
        requires whole { text.old.refused ≡ false }
        ensures { IsOk result → (told : List ℕ)
            → HasTold self.now.frames self.now.items told
            → text.new.bytes.items ≡ text.old.bytes.items
            ++ reported_line self.now.notation stamp self.now.side self.now.frames.max since told }
    {
        let origin = Origin {
            stamp,
            side: self.side,
        };
        let mut page = Page::new();
        match self.notation {
            LogNotation::Plain | LogNotation::Ladder => {
                write_totals(&mut page, text, self.notation, origin, self.totals());
            }
            LogNotation::Json => {
                let added = Added {
                    items: self.items.saturating_sub(since.items),
                    bytes: self.frames.offset().saturating_sub(since.bytes),
                };
                write_reported(&mut page, text, origin, self.totals(), added);
            }
        }
        put_page(&mut page, text)
    }

    /// Appends the last line to a text.
    pub fn finish(&self, text: &mut MemorySink, stamp: Option<Stamp>) -> Result<(), NoMemory>
        requires whole { text.old.refused ≡ false }
        ensures { IsOk result → (told : List ℕ)
            → HasTold self.now.frames self.now.items told
            → text.new.bytes.items ≡ text.old.bytes.items
            ++ logged_last self.now.notation stamp self.now.side self.now.frames.max told }
    {
        let origin = Origin {
            stamp,
            side: self.side,
        };
        let mut page = Page::new();
        write_totals(&mut page, text, self.notation, origin, self.totals());
        put_page(&mut page, text)
    }
}
