//! A ladder: a line of text for each step, 78 columns wide.
use crate::mark::{Mark, Trip, TripEnd};
use ddcmp_io::{Page, Sink};
use ddcmp_pair::End;

/// The width of a line.
const WIDTH: usize = 78;

/// The column between the frames in flight from A and those from B.
const NEAR_A: usize = 33;

const NEAR_B: usize = 44;

/// The columns where lost frames of A and of B end.
const HALF_A: usize = 38;

const HALF_B: usize = 39;

/// A line of the ladder.
#[derive(Drop)]
struct Row {
    bytes: [u8; WIDTH],
}

impl Row {
    /// Returns a row with the lines of both ends and nothing between them.
    fn new() -> Self {
        let mut bytes = [b' '; WIDTH];
        bytes[0] = b'|';
        bytes[WIDTH - 1] = b'|';
        Row { bytes }
    }

    /// Sets a byte between both lines.
    fn set(&mut self, at: usize, byte: u8) {
        if 0 < at && at < WIDTH - 1 {
            self.bytes[at] = byte;
        }
    }

    fn put(&mut self, at: usize, text: &[u8]) {
        for i in 0..text.len() {
            self.set(at.saturating_add(i), text[i]);
        }
    }

    fn fill(&mut self, from: usize, to: usize, byte: u8) {
        for at in from..to.min(WIDTH) {
            self.set(at, byte);
        }
    }

    /// Puts an arrow at the line of A: `outer` is at the line; `inner` is its other end, at `reach`
    /// or, if the label is long, after that.
    fn put_at_a(&mut self, outer: &[u8], label: &[u8], stroke: u8, inner: u8, reach: usize) {
        let start = outer.len().saturating_add(1);
        let behind = start.saturating_add(label.len()).saturating_add(1);
        let end = reach.max(behind.saturating_add(1));
        self.put(1, outer);
        self.put(start, label);
        self.fill(behind, end, stroke);
        self.set(end, inner);
    }

    /// Puts an arrow at the line of B, likewise.
    fn put_at_b(&mut self, outer: &[u8], label: &[u8], stroke: u8, inner: u8, reach: usize) {
        let end = (WIDTH - 1).saturating_sub(outer.len());
        let start = end.saturating_sub(label.len());
        let before = start.saturating_sub(1);
        let head = reach.min(before.saturating_sub(2));
        self.put(end, outer);
        self.put(start, label);
        self.fill(head.saturating_add(1), before, stroke);
        self.set(head, inner);
    }

    fn put_note(&mut self, at: End, text: &[u8]) {
        match at {
            End::A => self.put(2, text),
            End::B => self.put((WIDTH - 2).saturating_sub(text.len()), text),
        }
    }

    fn put_across(&mut self, text: &[u8]) {
        self.put((WIDTH / 2).saturating_sub(text.len() / 2), text);
    }

    fn put_departure(&mut self, trip: &Trip) {
        match trip.from {
            End::A => self.put_at_a(b"-- ", trip.label.as_slice(), b'-', b'>', NEAR_A),
            End::B => self.put_at_b(b" -", trip.label.as_slice(), b'-', b'<', NEAR_B),
        }
    }

    fn put_end(&mut self, trip: &Trip, trip_end: TripEnd) {
        let label = match trip_end {
            TripEnd::Lost => trip_end.label(trip).with(b", lost"),
            _ => trip_end.label(trip),
        };
        let text = label.as_slice();
        let stroke = if trip.is_damaged { b'~' } else { b'-' };
        match (trip.from, trip_end) {
            (End::A, TripEnd::Arrived) => self.put_at_b(b" ->", text, stroke, stroke, NEAR_B),
            (End::B, TripEnd::Arrived) => self.put_at_a(b"<- ", text, stroke, stroke, NEAR_A),
            (End::A, TripEnd::Cut { .. }) => self.put_at_b(b" -|", text, stroke, stroke, NEAR_B),
            (End::B, TripEnd::Cut { .. }) => self.put_at_a(b"|- ", text, stroke, stroke, NEAR_A),
            (End::A, _) => self.put_at_a(b"-- ", text, stroke, b'X', HALF_A),
            (End::B, _) => self.put_at_b(b" -", text, stroke, b'X', HALF_B),
        }
    }

    fn put_appearance(&mut self, at: End, label: &[u8]) {
        match at {
            End::A => self.put_at_a(b"<- ", label, b'.', b'.', NEAR_A),
            End::B => self.put_at_b(b" ->", label, b'.', b'.', NEAR_B),
        }
    }

    fn put_mark(&mut self, mark: &Mark) {
        match mark {
            Mark::Note { at, text, .. } => self.put_note(*at, text.as_slice()),
            Mark::Across(text) => self.put_across(text.as_slice()),
            Mark::Departs(trip) => self.put_departure(trip),
            Mark::Ends(trip, trip_end) => self.put_end(trip, *trip_end),
            Mark::Appears { at, label } => self.put_appearance(*at, label.as_slice()),
        }
    }
}

/// Writes the names of both ends.
pub(crate) fn write_ladder_head<W: Sink>(page: &mut Page, writer: &mut W) {
    let mut head = [b' '; WIDTH];
    head[0] = b'A';
    head[WIDTH - 1] = b'B';
    page.write(writer, &head);
    page.write(writer, b"\n");
}

/// Writes the line of a step.
pub(crate) fn write_ladder<W: Sink>(page: &mut Page, writer: &mut W, mark: &Mark) {
    if let Mark::Ends(_, TripEnd::InFlight) = mark {
        return;
    }
    let mut row = Row::new();
    row.put_mark(mark);
    page.write(writer, &row.bytes);
    page.write(writer, b"\n");
}
