//! The canvas that is drawn on: a terminal, or the sheet of a document.
ghost use Rattle.std.specs.Prelude.{◌≡◌, false, IsTrue};

use crate::caption::write_caption_text;
use crate::ladder::{write_ladder, write_ladder_head};
use crate::lettering::Lettering;
use crate::mark::Mark;
use crate::paper::Paper;
use crate::svg::{write_document, write_element};
use ddcmp_io::{MemorySink, Page, Sink, write_all};
use ddcmp_line::closing::write_closing;
use ddcmp_pair::Pair;
use std::alloc::Global;

/// The format of a picture.
#[derive(Clone, Copy)]
pub enum Picture {
    /// Text, one line a step.
    Ladder,
    /// A document in SVG.
    Svg,
}

/// A picture that is being drawn.
pub(crate) struct Canvas {
    picture: Picture,
    /// The buffer before the sheet.
    draft: Page,
    /// What was drawn and isn't written yet.
    sheet: MemorySink,
    /// The texts over the arrows of a document.
    lettering: Lettering,
    /// How many rows there are so far.
    rows: u64,
}

// Manual, since a derived `Drop` would be expanded wherever a value is dropped.
impl Drop for Canvas {
    fn drop(self) {
        let Canvas {
            picture: _,
            draft: _draft,
            sheet: _sheet,
            lettering: _lettering,
            rows: _,
        } = self;
    }
}

/// Returns how many rows a mark takes.
fn rows_of(mark: &Mark) -> u64 {
    match mark {
        Mark::Note { is_beside, .. } if *is_beside => 0,
        _ => 1,
    }
}

impl Canvas {
    /// Returns an empty canvas; a ladder begins with the names of both ends.
    pub(crate) fn new(alloc: Global, picture: Picture) -> Self {
        let mut canvas = Canvas {
            picture,
            draft: Page::new(),
            sheet: MemorySink::new(alloc),
            lettering: Lettering::new(alloc),
            rows: 0,
        };
        if picture == Picture::Ladder {
            write_ladder_head(&mut canvas.draft, &mut canvas.sheet);
        }
        canvas
    }

    /// Ends the picture, with a summary of the run below it if `closing` is the pair; returns
    /// whether no allocation failed.
    pub(crate) fn end<W: Sink>(
        &mut self,
        alloc: Global,
        writer: &mut W,
        closing: Option<&Pair>,
        counted: bool,
    ) -> bool {
        let is_drawn = self.draft.flush(&mut self.sheet).is_ok() && self.lettering.end();
        let mut caption = MemorySink::new(alloc);
        let is_counted = match closing {
            Some(pair) => self.write_closing(alloc, &mut caption, pair, counted),
            None => true,
        };
        let is_said = self.draft.flush(&mut caption).is_ok();
        let mut page = Page::new();
        self.write_out(&mut page, writer, caption.bytes.as_slice());
        let _the_writer_tells = page.flush(writer);
        is_drawn && is_counted && is_said
    }

    /// Writes the summary of the run, complete below a ladder; returns whether no allocation
    /// failed.
    fn write_closing(
        &mut self,
        alloc: Global,
        caption: &mut MemorySink,
        pair: &Pair,
        counted: bool,
    ) -> bool {
        match self.picture {
            Picture::Ladder => {
                write_closing(&mut self.draft, caption, pair, counted);
                true
            }
            Picture::Svg => write_caption_text(alloc, &mut self.draft, caption, pair, counted),
        }
    }

    /// Writes the rest of a ladder, or the whole document, and the caption below it.
    fn write_out<W: Sink>(&self, page: &mut Page, writer: &mut W, caption: &[u8]) {
        let sheet = self.sheet.bytes.as_slice();
        match self.picture {
            Picture::Ladder => {
                page.write(writer, sheet);
                page.write(writer, caption);
            }
            Picture::Svg => {
                let texts = self.lettering.sheet.bytes.as_slice();
                write_document(page, writer, sheet, texts, self.rows, caption);
            }
        }
    }
}

impl Paper for Canvas {
    ghost next_row = { λ canvas. canvas.rows };

    fn row(&self) -> u64 {
        self.rows
    }

    fn put(&mut self, mark: &Mark) {
        match self.picture {
            Picture::Ladder => write_ladder(&mut self.draft, &mut self.sheet, mark),
            Picture::Svg => {
                let (page, sheet) = (&mut self.draft, &mut self.sheet);
                write_element(page, sheet, &mut self.lettering, self.rows, mark);
            }
        }
        self.rows = self.rows.saturating_add(rows_of(mark));
    }

    /// Writes the lines that were drawn; returns whether no allocation or write failed. A document
    /// is written at its end.
    fn show<W: Sink>(&mut self, writer: &mut W) -> bool {
        if self.draft.flush(&mut self.sheet).is_err() {
            return false;
        }
        match self.picture {
            Picture::Ladder => {
                let shown = write_all(writer, self.sheet.bytes.as_slice());
                self.sheet.clear();
                shown.is_ok()
            }
            Picture::Svg => true,
        }
    }
}
