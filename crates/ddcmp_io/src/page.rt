//! A page of text that is buffered before a sink, so that many short writes become a long one.
ghost use Rattle.std.specs.Prelude.{◌≡◌, ◌+◌, ◌*◌, ◌≤◌, ◌++◌, [], length, true, is_err};
ghost use Rattle.hex.specs.Hex.{encode_lower};
ghost use Rattle.ddcmp_io.specs.Written.{HandsOver, output_of};

use crate::device::{Sink, WriteFailed, write_all};
use crate::text::put_digits;
use std::marker::Model;

/// The size of a page in bytes.
const PAGE: usize = 8192;

/// Text that is buffered. Contracts see it as the list of its bytes.
///
/// After a failed write it still takes text, and discards it. So a caller can write the parts of a
/// line one after another and check just once, at `flush`, whether all was written.
#[derive(Drop)]
pub struct Page {
    bytes: [u8; PAGE],
    len: usize,
}

impl Model for Page {
    ghost use Rattle.std.specs.Prelude.{List, ℕ, take, ◌≤◌};
    ghost use Rattle.ddcmp_io.specs.declared.page.TheConstants.{PAGE};

    ghost Value = { List ℕ };

    ghost view = { λ p. take p.len p.bytes };

    ghost invariant = { λ p. p.len ≤ PAGE };
}

impl Page {
    /// Returns an empty page.
    pub fn new() -> Self
        ensures { result ≡ [] }
    {
        Page {
            bytes: [0; PAGE],
            len: 0,
        }
    }

    /// Writes a text of any length: it is buffered, or written after what was buffered.
    #[inline(always)]
    pub fn write<W: Sink>(&mut self, writer: &mut W, text: &[u8])
        ensures sends { HandsOver (output_of W.broken W.contents writer.old self.old)
            (output_of W.broken W.contents writer.new self.new) text.now }
        ensures stays { W.broken writer.old ≡ true → writer.new ≡ writer.old }
    {
        if text.len() <= self.room() {
            return self.append(text);
        }
        match self.flush(writer) {
            Ok(()) => {
                if text.len() <= PAGE {
                    self.append(text);
                } else {
                    let _ = write_all(writer, text);
                }
            }
            Err(_failed) => {}
        }
    }

    /// Writes what is buffered; returns whether all text was written.
    pub fn flush<W: Sink>(&mut self, writer: &mut W) -> Result<(), WriteFailed>
        ensures sends { HandsOver (output_of W.broken W.contents writer.old self.old)
            (output_of W.broken W.contents writer.new self.new) [] }
        ensures empty { self.new ≡ [] }
        ensures broken { W.broken writer.new ≡ is_err result }
        ensures stays { W.broken writer.old ≡ true → writer.new ≡ writer.old }
    {
        let len = self.len;
        self.len = 0;
        if writer.failed() {
            return Err(WriteFailed);
        }
        write_all(writer, &self.bytes[..len])
    }

    /// Makes room for a text of `n` bytes, if necessary by a flush.
    #[inline(always)]
    pub(crate) fn make_room<W: Sink>(&mut self, writer: &mut W, n: usize)
        requires { n ≤ PAGE }
        ensures sends { HandsOver (output_of W.broken W.contents writer.old self.old)
            (output_of W.broken W.contents writer.new self.new) [] }
        ensures room { length self.new + n ≤ PAGE }
    {
        if self.room() < n {
            let _ = self.flush(writer);
        }
    }

    /// Appends bytes as hexadecimal digits.
    #[inline(always)]
    pub(crate) fn append_hex(&mut self, bytes: &[u8])
        requires { length self.old + 2 * length bytes.now ≤ PAGE }
        ensures { self.new ≡ self.old ++ encode_lower bytes.now }
    {
        put_digits(bytes, &mut self.bytes[self.len..]);
        self.len += 2 * bytes.len();
    }

    /// Returns how many more bytes fit.
    #[inline(always)]
    fn room(&self) -> usize
        ensures { length self.now + result ≡ PAGE }
    {
        PAGE - self.len
    }

    /// Appends a text to the buffer.
    #[inline(always)]
    fn append(&mut self, text: &[u8])
        requires { length self.old + length text.now ≤ PAGE }
        ensures { self.new ≡ self.old ++ text.now }
    {
        let end = self.len + text.len();
        self.bytes[self.len..end].copy_from_slice(text);
        self.len = end;
    }
}
