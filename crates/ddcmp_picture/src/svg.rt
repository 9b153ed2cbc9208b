//! A time-sequence diagram in SVG: two vertical lines; time goes down, one row a step.
use crate::arrow::{Stroke, write_trip};
use crate::caption::{caption_lines, first_line};
use crate::elements::Part::{Number, Text};
use crate::elements::{LINE_A, LINE_B, MIDDLE, TOP, height_of, line_of, write, write_text};
use crate::lettering::{Lettering, Spot, width_of};
use crate::mark::Mark;
use ddcmp_io::{Page, Sink};
use ddcmp_pair::End;

const STYLE: &[u8] = b"<style>\
.end{stroke:#555;stroke-width:1.5}\
.a,.b{fill:none;stroke-width:1.6}.a{stroke:#003f7a}.b{stroke:#c76a00}\
.damaged{stroke-dasharray:7 4}.raw{stroke-dasharray:2 3}\
text{fill:#111;stroke:#fff;stroke-width:3px;paint-order:stroke;stroke-linejoin:round}\
.name{font-size:16px;font-weight:bold}.across{font-style:italic}\
</style>\n\
<defs>\
<marker id=\"head-a\" viewBox=\"0 0 10 10\" refX=\"10\" refY=\"5\" markerWidth=\"7\" \
markerHeight=\"7\" orient=\"auto\"><path d=\"M0 0L10 5L0 10z\" fill=\"#003f7a\"/></marker>\
<marker id=\"head-b\" viewBox=\"0 0 10 10\" refX=\"10\" refY=\"5\" markerWidth=\"7\" \
markerHeight=\"7\" orient=\"auto\"><path d=\"M0 0L10 5L0 10z\" fill=\"#c76a00\"/></marker>\
</defs>\n";

/// The title and description of a document, up to its caption.
const TITLE: &[u8] = b"\" role=\"img\" aria-labelledby=\"title desc\" \
font-family=\"DejaVu Sans,Verdana,Arial,sans-serif\" font-size=\"12\">\n\
<title id=\"title\">DDCMP: a run between the stations A and B</title>\n\
<desc id=\"desc\">Time goes down. An arrow is a frame, from where it was sent to where it \
arrived. A lost one ends in a cross, a damaged one is dashed and has a diamond, and of one \
that ends in a bar only a part arrived. ";

/// Draws a dot on the line of an end.
fn write_dot<W: Sink>(page: &mut Page, writer: &mut W, at: End, y: u64) {
    let parts = [
        Text(b"<circle cx=\""),
        Number(line_of(at)),
        Text(b"\" cy=\""),
        Number(y),
        Text(b"\" r=\"3\" fill=\"#555\"/>"),
    ];
    write(page, writer, &parts);
}

/// Writes a text beside the line of an end.
fn write_note<W: Sink>(page: &mut Page, writer: &mut W, at: End, y: u64, text: &[u8]) {
    let base = y.saturating_add(4);
    match at {
        End::A => write_text(
            page,
            writer,
            LINE_A - 12,
            base,
            b"text-anchor=\"end\"",
            text,
        ),
        End::B => write_text(
            page,
            writer,
            LINE_B + 12,
            base,
            b"text-anchor=\"start\"",
            text,
        ),
    }
}

/// Draws bytes that neither end sent.
fn write_appearance<W: Sink>(
    page: &mut Page,
    writer: &mut W,
    lettering: &mut Lettering,
    at: End,
    row: u64,
    label: &[u8],
) {
    let y = height_of(row);
    let stroke = Stroke {
        from: at.other(),
        x1: MIDDLE,
        y1: y,
        x2: line_of(at),
        y2: y,
    };
    stroke.write(page, writer, b" raw", true);
    let base = y.saturating_sub(5);
    let width = width_of(label);
    let (x, left, how): (u64, u64, &[u8]) = match at {
        End::A => (LINE_A + 12, LINE_A + 12, b"text-anchor=\"start\""),
        End::B => (
            LINE_B - 12,
            (LINE_B - 12).saturating_sub(width),
            b"text-anchor=\"end\"",
        ),
    };
    lettering.keep(Spot::level(left, left.saturating_add(width), base));
    write_text(
        &mut lettering.draft,
        &mut lettering.sheet,
        x,
        base,
        how,
        label,
    );
}

/// Writes a text about both ends.
fn write_across(lettering: &mut Lettering, row: u64, text: &[u8]) {
    let y = height_of(row).saturating_add(4);
    let how = b"text-anchor=\"middle\" class=\"across\"";
    let half = width_of(text) / 2;
    lettering.keep(Spot::level(MIDDLE.saturating_sub(half), MIDDLE.saturating_add(half), y));
    write_text(
        &mut lettering.draft,
        &mut lettering.sheet,
        MIDDLE,
        y,
        how,
        text,
    );
}

/// Draws a mark in the rows of a document; texts between both ends are added to the lettering.
pub(crate) fn write_element<W: Sink>(
    page: &mut Page,
    writer: &mut W,
    lettering: &mut Lettering,
    row: u64,
    mark: &Mark,
) {
    match mark {
        Mark::Note {
            at,
            text,
            is_beside,
        } => {
            let here = if *is_beside {
                height_of(row.saturating_sub(1))
            } else {
                write_dot(page, writer, *at, height_of(row));
                height_of(row)
            };
            write_note(page, writer, *at, here, text.as_slice());
        }
        Mark::Across(text) => write_across(lettering, row, text.as_slice()),
        // Its arrow is drawn once its end is known.
        Mark::Departs(_trip) => {}
        Mark::Ends(trip, trip_end) => write_trip(page, writer, lettering, trip, *trip_end, row),
        Mark::Appears { at, label } => {
            write_appearance(page, writer, lettering, *at, row, label.as_slice());
        }
    }
}

/// Writes a caption line by line.
fn write_caption<W: Sink>(page: &mut Page, writer: &mut W, top: u64, text: &[u8]) {
    let mut y = top;
    let mut rest = text;
    for _byte in 0..text.len() {
        if rest.is_empty() {
            return;
        }
        let (line, behind) = first_line(rest);
        write_text(page, writer, MIDDLE, y, b"text-anchor=\"middle\"", line);
        y = y.saturating_add(18);
        rest = behind;
    }
}

/// Draws the line of an end.
fn write_end_line<W: Sink>(page: &mut Page, writer: &mut W, x: u64, foot: u64) {
    let parts = [
        Text(b"<line class=\"end\" x1=\""),
        Number(x),
        Text(b"\" y1=\""),
        Number(TOP - 24),
        Text(b"\" x2=\""),
        Number(x),
        Text(b"\" y2=\""),
        Number(foot),
        Text(b"\"/>\n"),
    ];
    write(page, writer, &parts);
}

/// Writes the header, up to the lines of both ends.
fn write_head<W: Sink>(page: &mut Page, writer: &mut W, foot: u64, height: u64, caption: &[u8]) {
    let parts = [
        Text(b"<svg xmlns=\"http://www.w3.org/2000/svg\" width=\"1000\" height=\""),
        Number(height),
        Text(b"\" viewBox=\"-20 0 1000 "),
        Number(height),
        Text(TITLE),
        Text(caption),
        Text(b"</desc>\n"),
        Text(STYLE),
        Text(b"<rect x=\"-20\" width=\"1000\" height=\"100%\" fill=\"#fff\"/>\n"),
    ];
    write(page, writer, &parts);
    write_end_line(page, writer, LINE_A, foot);
    write_end_line(page, writer, LINE_B, foot);
    let how = b"text-anchor=\"middle\" class=\"name\"";
    write_text(page, writer, LINE_A, TOP - 32, how, b"A");
    write_text(page, writer, LINE_B, TOP - 32, how, b"B");
}

/// Writes a whole document: these elements in this many rows, the texts over them, and a caption
/// below them.
pub(crate) fn write_document<W: Sink>(
    page: &mut Page,
    writer: &mut W,
    elements: &[u8],
    texts: &[u8],
    rows: u64,
    caption: &[u8],
) {
    let foot = height_of(rows);
    let below = caption_lines(caption).saturating_mul(18).saturating_add(24);
    write_head(page, writer, foot, foot.saturating_add(below), caption);
    page.write(writer, elements);
    page.write(writer, texts);
    write_caption(page, writer, foot.saturating_add(26), caption);
    page.write(writer, b"</svg>\n");
}
