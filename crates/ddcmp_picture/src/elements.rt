//! The parts of the elements of a document, and the positions that these share.
use ddcmp_io::text::write_number;
use ddcmp_io::{Page, Sink};
use ddcmp_pair::End;

/// The x positions of the lines of both ends, and of the middle between them.
pub(crate) const LINE_A: u64 = 260;

pub(crate) const LINE_B: u64 = 700;

pub(crate) const MIDDLE: u64 = 480;

/// The y position of the first row, and the distance between rows.
pub(crate) const TOP: u64 = 62;

const STEP: u64 = 24;

/// Returns the y position of a row.
pub(crate) fn height_of(row: u64) -> u64 {
    row.saturating_mul(STEP).saturating_add(TOP)
}

pub(crate) fn line_of(end: End) -> u64 {
    match end {
        End::A => LINE_A,
        End::B => LINE_B,
    }
}

/// Returns the class of what an end sends.
pub(crate) fn class_of(end: End) -> &'static [u8] {
    match end {
        End::A => b"a",
        End::B => b"b",
    }
}

/// A part of an element: a text, a number, or a fraction in thousandths.
#[derive(Clone, Copy)]
pub(crate) enum Part<'a> {
    Text(&'a [u8]),
    Number(u64),
    Thousandths(u64),
}

pub(crate) use Part::{Number, Text, Thousandths};

/// Writes parts, one after another.
pub(crate) fn write<W: Sink>(page: &mut Page, writer: &mut W, parts: &[Part<'_>]) {
    for part in parts {
        match *part {
            Text(text) => page.write(writer, text),
            Number(n) => write_number(page, writer, n),
            Thousandths(n) => write_thousandths(page, writer, n),
        }
    }
}

/// Writes a fraction in thousandths.
fn write_thousandths<W: Sink>(page: &mut Page, writer: &mut W, n: u64) {
    if n >= 1000 {
        return page.write(writer, b"1");
    }
    page.write(writer, b"0.");
    write_number(page, writer, n / 100);
    write_number(page, writer, n / 10 % 10);
    write_number(page, writer, n % 10);
}

/// Writes a text at a position, anchored at its start, its middle or its end.
pub(crate) fn write_text<'a, W: Sink>(
    page: &mut Page,
    writer: &mut W,
    x: u64,
    y: u64,
    how: &'a [u8],
    text: &'a [u8],
) {
    let parts = [
        Text(b"<text x=\""),
        Number(x),
        Text(b"\" y=\""),
        Number(y),
        Text(b"\" "),
        Text(how),
        Text(b">"),
        Text(text),
        Text(b"</text>\n"),
    ];
    write(page, writer, &parts);
}
