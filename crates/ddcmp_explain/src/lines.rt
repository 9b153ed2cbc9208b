//! The lines of the items of bytes, and the last line.
ghost use Rattle.std.specs.Prelude.{◌≡◌, ◌+◌, ◌<◌, ◌≤◌, ◌^◌, ◌++◌, ◌∷◌, [], Bool, List, ℕ, true};
ghost use Rattle.std.specs.Prelude.{Option, is_err, length, take};
ghost use Rattle.ddcmp_frame.specs.Reader.{StandsFor};
ghost use Rattle.ddcmp_frame.specs.Reading.{Place, open_at_end};
ghost use Rattle.ddcmp_frame.specs.Step.{item_offset};
ghost use Rattle.ddcmp_io.specs.Written.{HandsOver, Writes, output_of};
ghost use Rattle.ddcmp_explain.specs.Discarded.{behind, end_in, lines_in, opened, part_lines};
ghost use Rattle.ddcmp_explain.specs.Discarded.{none_text, passed, rest_by};
ghost use Rattle.ddcmp_explain.specs.Inside.Heads.{Heads};

use crate::discards::{write_discarded, write_open};
use crate::head::Head;
use crate::notation::{Notation, Totals, write_item, write_item_by, write_last};
use crate::put::LINE;
use crate::skipped::{Reached, finds_good, reached_by};
use crate::style::Style;
use ddcmp_frame::{Header, Item, Pushed, Reader};
use ddcmp_io::{Page, Sink, WriteFailed};

/// Writes the lines of the bytes received so far to a sink, in order.
#[derive(Drop)]
pub(crate) struct Lines {
    pub(crate) frames: Reader,
    pub(crate) style: Style,
    pub(crate) items: u64,
    pub(crate) page: Page,
    // If skipped bytes are reported: where the last item ends, and the first bytes of the
    // incomplete frame.
    pub(crate) reached: Reached,
    pub(crate) head: Head,
    // Whether a frame was good, if skipped bytes are reported.
    pub(crate) is_found: bool,
    ghost counted: { items ≤ frames.offset },
}

impl Lines {
    ghost use Rattle.ddcmp_explain.specs.Inside.Progress.{HasTold};

    /// Returns a value that has taken no bytes, for a new reader.
    pub(crate) fn new(frames: Reader, style: Style) -> Self
        requires { StandsFor frames [] }
        ensures max { result.frames.max ≡ frames.max }
        ensures style { result.style ≡ style }
        ensures offset { result.frames.offset ≡ 0 }
        ensures told { (broken : Bool) (start : Option (List ℕ))
            → HasTold frames.max start [] result broken start }
    {
        Lines {
            frames,
            style,
            items: 0,
            page: Page::new(),
            reached: Reached::at(0),
            head: Head::new(),
            is_found: false,
        }
    }

    /// Takes bytes up to the first that completes an item, and writes its line, which is assembled
    /// in `line`. Returns how many bytes were taken.
    #[inline(always)]
    fn push<W: Sink>(&mut self, writer: &mut W, line: &mut [u8; LINE], bytes: &[u8]) -> usize
        requires some { 0 < length bytes.now }
        requires fits { self.old.frames.offset + length bytes.now < 2 ^ 64 }
        ensures used { result ≤ length bytes.now }
        ensures some { 0 < result }
        ensures max { self.new.frames.max ≡ self.old.frames.max }
        ensures style { self.new.style ≡ self.old.style }
        ensures offset { self.new.frames.offset ≡ self.old.frames.offset + result }
        ensures told { (max : ℕ) (start : Option (List ℕ)) (text : List ℕ)
            → HasTold max start text self.old (W.broken writer.old) (W.contents writer.old)
            → HasTold max start (text ++ take result bytes.now) self.new
            (W.broken writer.new) (W.contents writer.new) }
    {
        if self.style.discarded {
            return self.push_one(writer, bytes[0]);
        }
        let part = self.style.notation.whole();
        // The data of a frame that is whole in the bytes are written from there.
        let at = self.frames.offset();
        if let Some(fields) = self.frames.push_frame(bytes) {
            self.items += 1;
            let end = fields.count as usize + 8;
            let item = Item::Good(at, Header::Data(fields));
            let data = &bytes[8..end];
            write_item_by(line, &mut self.page, writer, part, &item, data);
            return end + 2;
        }
        let Pushed { used, item } = self.frames.push_all(bytes);
        match item {
            Some(item) => {
                self.items += 1;
                let data = self.frames.data();
                write_item_by(line, &mut self.page, writer, part, &item, data);
            }
            None => {}
        }
        used
    }

    /// Takes a byte, and writes the line of the item that it completes, after a line for the bytes
    /// skipped before that.
    fn push_one<W: Sink>(&mut self, writer: &mut W, byte: u8) -> usize
        requires fits { self.old.frames.offset + 1 < 2 ^ 64 }
        requires discarded { self.old.style.discarded ≡ true }
        ensures one { result ≡ 1 }
        ensures max { self.new.frames.max ≡ self.old.frames.max }
        ensures style { self.new.style ≡ self.old.style }
        ensures offset { self.new.frames.offset ≡ self.old.frames.offset + 1 }
        ensures told { (max : ℕ) (start : Option (List ℕ)) (text : List ℕ)
            → HasTold max start text self.old (W.broken writer.old) (W.contents writer.old)
            → HasTold max start (text ++ byte ∷ []) self.new
            (W.broken writer.new) (W.contents writer.new) }
    {
        let item = self.frames.push(byte);
        self.head.follow(byte, self.frames.open());
        match item {
            Some(item) => {
                self.items += 1;
                self.is_found = finds_good(self.is_found, &item);
                self.reach(writer, &item);
                let data = self.frames.data();
                let part = self.style.notation.whole();
                write_item(&mut self.page, writer, part, &item, data);
            }
            None => {}
        }
        1
    }

    /// Writes the line of the bytes skipped before an item.
    fn reach<W: Sink>(&mut self, writer: &mut W, item: &Item)
        ensures frames { self.new.frames ≡ self.old.frames }
        ensures style { self.new.style ≡ self.old.style }
        ensures items { self.new.items ≡ self.old.items }
        ensures head { self.new.head ≡ self.old.head }
        ensures found { self.new.is_found ≡ self.old.is_found }
        ensures reached { self.new.reached.offset + self.new.reached.taken ≡ behind item.now }
        ensures passed { HandsOver (output_of W.broken W.contents writer.old self.old.page)
            (output_of W.broken W.contents writer.new self.new.page)
            (part_lines self.old.style.notation
            (passed (self.old.reached.offset + self.old.reached.taken) (item_offset item.now))) }
    {
        let reached = reached_by(item);
        self.write_skipped_to(writer, reached.offset);
        self.reached = reached;
    }

    /// Writes the line of the bytes skipped up to an offset.
    fn write_skipped_to<W: Sink>(&mut self, writer: &mut W, to: u64)
        ensures frames { self.new.frames ≡ self.old.frames }
        ensures style { self.new.style ≡ self.old.style }
        ensures items { self.new.items ≡ self.old.items }
        ensures head { self.new.head ≡ self.old.head }
        ensures found { self.new.is_found ≡ self.old.is_found }
        ensures passed { HandsOver (output_of W.broken W.contents writer.old self.old.page)
            (output_of W.broken W.contents writer.new self.new.page)
            (part_lines self.old.style.notation
            (passed (self.old.reached.offset + self.old.reached.taken) to)) }
    {
        match self.reached.skipped_to(to) {
            Some(it) => {
                let part = self.style.notation.whole();
                write_discarded(&mut self.page, writer, part, it);
            }
            None => {}
        }
    }

    /// Writes the lines of the bytes after the last item.
    fn write_rest<W: Sink>(&mut self, writer: &mut W, end: u64, left_open: u64)
        ensures frames { self.new.frames ≡ self.old.frames }
        ensures style { self.new.style ≡ self.old.style }
        ensures items { self.new.items ≡ self.old.items }
        ensures found { self.new.is_found ≡ self.old.is_found }
        ensures told { (p : Place) → Heads self.old.head p.rest → p.offset ≡ end
            → length p.rest ≡ left_open
            → HandsOver (output_of W.broken W.contents writer.old self.old.page)
            (output_of W.broken W.contents writer.new self.new.page)
            (part_lines self.old.style.notation
            (passed (self.old.reached.offset + self.old.reached.taken) end ++ opened p)) }
    {
        self.write_skipped_to(writer, end);
        if 0 < left_open {
            write_open(
                &mut self.page,
                writer,
                self.style.notation,
                end,
                &self.head.header(),
                left_open,
            );
        }
    }

    /// Writes the lines of the bytes after the last item, and a line if no frame was good, if
    /// skipped bytes are reported.
    fn write_end<W: Sink>(&mut self, writer: &mut W, bytes: u64, left_open: u64)
        ensures frames { self.new.frames ≡ self.old.frames }
        ensures style { self.new.style ≡ self.old.style }
        ensures items { self.new.items ≡ self.old.items }
        ensures told { (max : ℕ) (start : Option (List ℕ)) (text : List ℕ)
            → HasTold max start text self.old (W.broken writer.old) (W.contents writer.old)
            → bytes ≡ length text → left_open ≡ open_at_end max text
            → HandsOver (output_of W.broken W.contents writer.old self.old.page)
            (output_of W.broken W.contents writer.new self.new.page)
            (rest_by self.old.style.discarded self.old.style.notation max text) }
    {
        if !self.style.discarded {
            return;
        }
        self.write_rest(writer, bytes.saturating_sub(left_open), left_open);
        self.write_none(writer);
    }

    /// Writes a line if no frame was good.
    fn write_none<W: Sink>(&mut self, writer: &mut W)
        ensures frames { self.new.frames ≡ self.old.frames }
        ensures style { self.new.style ≡ self.old.style }
        ensures items { self.new.items ≡ self.old.items }
        ensures told { HandsOver (output_of W.broken W.contents writer.old self.old.page)
            (output_of W.broken W.contents writer.new self.new.page)
            (none_text self.old.style.notation self.old.is_found) }
    {
        match (self.style.notation, self.is_found) {
            (Notation::Plain, false) => self.page.write(writer, b"no good frame was found\n"),
            (Notation::Plain, true) | (Notation::Json, _) => {}
        }
    }

    /// Takes bytes, and writes the lines of the items that they complete.
    pub(crate) fn push_all<W: Sink>(&mut self, writer: &mut W, bytes: &[u8])
        requires { self.old.frames.offset + length bytes.now < 2 ^ 64 }
        ensures max { self.new.frames.max ≡ self.old.frames.max }
        ensures style { self.new.style ≡ self.old.style }
        ensures offset { self.new.frames.offset ≡ self.old.frames.offset + length bytes.now }
        ensures told { (max : ℕ) (start : Option (List ℕ)) (text : List ℕ)
            → HasTold max start text self.old (W.broken writer.old) (W.contents writer.old)
            → HasTold max start (text ++ bytes.now) self.new
            (W.broken writer.new) (W.contents writer.new) }
    {
        let mut line = [0; LINE];
        let mut used = 0;
        while used < bytes.len() {
            used += self.push(writer, &mut line, &bytes[used..]);
        }
    }

    /// Writes all buffered lines.
    pub(crate) fn flush<W: Sink>(&mut self, writer: &mut W) -> Result<(), WriteFailed>
        ensures max { self.new.frames.max ≡ self.old.frames.max }
        ensures style { self.new.style ≡ self.old.style }
        ensures offset { self.new.frames.offset ≡ self.old.frames.offset }
        ensures broken { W.broken writer.new ≡ is_err result }
        ensures told { (max : ℕ) (start : Option (List ℕ)) (text : List ℕ)
            → HasTold max start text self.old (W.broken writer.old) (W.contents writer.old)
            → HasTold max start text self.new (W.broken writer.new) (W.contents writer.new)
            × Writes start (W.contents writer.new) result (lines_in self.old.style max text) }
    {
        self.page.flush(writer)
    }

    /// Writes the last line after all others.
    pub(crate) fn finish<W: Sink>(&mut self, writer: &mut W) -> Result<(), WriteFailed>
        ensures offset { self.new.frames.offset ≡ self.old.frames.offset }
        ensures broken { W.broken writer.new ≡ is_err result }
        ensures told { (max : ℕ) (start : Option (List ℕ)) (text : List ℕ)
            → HasTold max start text self.old (W.broken writer.old) (W.contents writer.old)
            → Writes start (W.contents writer.new) result
            (lines_in self.old.style max text ++ end_in self.old.style max text) }
    {
        let bytes = self.frames.offset();
        let left_open = self.frames.open() as u64;
        self.write_end(writer, bytes, left_open);
        let part = self.style.notation.whole();
        let totals = Totals {
            items: self.items,
            bytes,
            left_open,
        };
        write_last(&mut self.page, writer, part, totals);
        self.page.flush(writer)
    }
}
