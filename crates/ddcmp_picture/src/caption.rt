//! The caption below a document: the end of the text of a run, wrapped into lines that fit.
ghost use Rattle.std.specs.Prelude.{◌≡◌, ◌≤◌, IsTrue, [], length};
ghost use Rattle.ddcmp_io.specs.Written.{HandsOver, output_of};
ghost use Rattle.ddcmp_picture.specs.Inside.Captions.{caption_text, is_gap, is_zero, unless_zero};
ghost use Rattle.ddcmp_picture.specs.Inside.Captions.{without_zeros};
ghost use Rattle.ddcmp_line.specs.ScriptText.{counters_lines};

use ddcmp_io::{MemorySink, Page, Sink};
use ddcmp_line::closing::{write_both_counters, write_closing};
use ddcmp_pair::Pair;
use std::alloc::Global;

/// The maximum length of a line in bytes; a document is wide enough for as many digits.
const WIDTH: usize = 125;

/// Returns whether this byte ends a word.
fn is_gap(byte: u8) -> bool
    ensures { result ≡ is_gap byte }
{
    byte == b' ' || byte == b'\n'
}

/// Returns whether a word ends in a value of 0.
fn is_zero_counter(word: &[u8]) -> bool
    ensures { result ≡ is_zero word.now }
{
    word.len() > 1 && word[word.len() - 2] == b'=' && word[word.len() - 1] == b'0'
}

fn write_unless_zero<W: Sink>(page: &mut Page, writer: &mut W, word: &[u8])
    ensures { HandsOver (output_of W.broken W.contents writer.old page.old)
        (output_of W.broken W.contents writer.new page.new) (unless_zero word.now) }
{
    if !is_zero_counter(word) {
        page.write(writer, word);
    }
}

/// Writes a text without the counters that are 0.
fn write_without_zeros<W: Sink>(page: &mut Page, writer: &mut W, text: &[u8])
    ensures { HandsOver (output_of W.broken W.contents writer.old page.old)
        (output_of W.broken W.contents writer.new page.new) (without_zeros [] text.now) }
{
    let mut start = 0;
    for at in 0..text.len() {
        if is_gap(text[at]) {
            write_unless_zero(page, writer, &text[start..at]);
            start = at;
        }
    }
    write_unless_zero(page, writer, &text[start..]);
}

/// Writes the counters that aren't 0; returns whether no allocation failed.
fn write_shown_counters<W: Sink>(
    alloc: Global,
    page: &mut Page,
    writer: &mut W,
    pair: &Pair,
) -> bool
    ensures { IsTrue result → HandsOver (output_of W.broken W.contents writer.old page.old)
        (output_of W.broken W.contents writer.new page.new)
        (without_zeros [] (counters_lines pair.now)) }
{
    let mut counters = MemorySink::new(alloc);
    let mut draft = Page::new();
    write_both_counters(&mut draft, &mut counters, pair);
    let _the_sink_tells = draft.flush(&mut counters);
    if counters.failed() {
        return false;
    }
    write_without_zeros(page, writer, counters.bytes.as_slice());
    true
}

/// Writes the text of a caption; returns whether no allocation failed.
pub(crate) fn write_caption_text<W: Sink>(
    alloc: Global,
    page: &mut Page,
    writer: &mut W,
    pair: &Pair,
    counted: bool,
) -> bool
    ensures { IsTrue result → HandsOver (output_of W.broken W.contents writer.old page.old)
        (output_of W.broken W.contents writer.new page.new) (caption_text counted pair.now) }
{
    if counted {
        let is_kept = write_shown_counters(alloc, page, writer, pair);
        write_closing(page, writer, pair, false);
        return is_kept;
    }
    write_closing(page, writer, pair, false);
    true
}

/// Returns where the first line of a caption ends: before its LF, or before the last blank that
/// fits.
fn line_end(text: &[u8]) -> usize
    ensures within { result ≤ WIDTH }
    ensures inside { result ≤ length text.now }
{
    let mut blank = 0;
    for at in 0..text.len() {
        if text[at] == b'\n' {
            return at;
        }
        if at == WIDTH {
            return if text[at] == b' ' || blank == 0 {
                at
            } else {
                blank
            };
        }
        if text[at] == b' ' {
            blank = at;
        }
    }
    text.len()
}

/// Returns the first line of a caption, and the rest.
pub(crate) fn first_line(text: &[u8]) -> (&[u8], &[u8])
    ensures { length result.0.now ≤ WIDTH }
{
    let end = line_end(text);
    let behind = &text[end..];
    let ends_at_gap = !behind.is_empty() && is_gap(behind[0]);
    (
        &text[..end],
        if ends_at_gap { &behind[1..] } else { behind },
    )
}

/// Returns how many lines a caption has.
pub(crate) fn caption_lines(text: &[u8]) -> u64 {
    let mut lines: u64 = 0;
    let mut rest = text;
    for _byte in 0..text.len() {
        if rest.is_empty() {
            return lines;
        }
        let (_line, behind) = first_line(rest);
        lines = lines.saturating_add(1);
        rest = behind;
    }
    lines
}
