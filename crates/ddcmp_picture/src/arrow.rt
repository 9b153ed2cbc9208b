//! The arrows of a document: frames from where they left to where they ended, with their labels.
use crate::elements::Part::{Number, Text, Thousandths};
use crate::elements::{LINE_A, LINE_B, MIDDLE, class_of, height_of, line_of, write, write_text};
use crate::lettering::{Lettering, Spot, width_of};
use crate::mark::{Trip, TripEnd};
use ddcmp_io::{Page, Sink};
use ddcmp_pair::End;

/// The maximum extent of an arrow whose label is turned; along a longer arrow the label is level.
const STEEPEST: u64 = 640;

/// The minimum distance of a label from the tail of its arrow, and from its head.
const NEAR_TAIL: u64 = 10;

const NEAR_HEAD: u64 = 16;

/// How many positions are tried for a label.
const PLACES: usize = 22;

/// Returns the integer square root of a number, from 1 to 1000.
fn root(n: u64) -> u64 {
    let mut root = 1;
    for next in 2..1001u64 {
        if next * next <= n {
            root = next;
        }
    }
    root
}

/// A line from one place to another, or a part of an arrow.
#[derive(Clone, Copy, Drop)]
pub(crate) struct Stroke {
    pub(crate) from: End,
    pub(crate) x1: u64,
    pub(crate) y1: u64,
    pub(crate) x2: u64,
    pub(crate) y2: u64,
}

impl Stroke {
    /// Returns the stroke of a trip that ends in this row.
    fn of(trip: &Trip, trip_end: TripEnd, row: u64) -> Stroke {
        let x2 = match trip_end {
            TripEnd::Arrived | TripEnd::Cut { .. } => line_of(trip.from.other()),
            TripEnd::Lost | TripEnd::InFlight => MIDDLE,
        };
        Stroke {
            from: trip.from,
            x1: line_of(trip.from),
            y1: height_of(trip.row),
            x2,
            y2: height_of(row),
        }
    }

    /// Returns its point after this many quarters.
    fn place(&self, quarters: u64) -> (u64, u64) {
        let x = (self.x1.saturating_mul(4u64.saturating_sub(quarters))).saturating_add(
            self.x2.saturating_mul(quarters),
        ) / 4;
        let down = self.y2.saturating_sub(self.y1) / 4;
        (x, self.y1.saturating_add(down.saturating_mul(quarters)))
    }

    pub(crate) fn write<W: Sink>(
        &self,
        page: &mut Page,
        writer: &mut W,
        class: &[u8],
        has_head: bool,
    ) {
        let head: &[u8] = match (has_head, self.from) {
            (false, _) => b"",
            (true, End::A) => b" marker-end=\"url(#head-a)\"",
            (true, End::B) => b" marker-end=\"url(#head-b)\"",
        };
        let parts = [
            Text(b"<line class=\""),
            Text(class_of(self.from)),
            Text(class),
            Text(b"\" x1=\""),
            Number(self.x1),
            Text(b"\" y1=\""),
            Number(self.y1),
            Text(b"\" x2=\""),
            Number(self.x2),
            Text(b"\" y2=\""),
            Number(self.y2),
            Text(b"\""),
            Text(head),
            Text(b"/>\n"),
        ];
        write(page, writer, &parts);
    }

    /// Returns the base line of its label at a distance from its tail.
    fn base_at(&self, distance: u64) -> u64 {
        let down = self.y2.saturating_sub(self.y1);
        let part = down.saturating_mul(distance) / self.across().max(1);
        self.y1.saturating_add(part).saturating_sub(self.lift())
    }

    fn across(&self) -> u64 {
        self.x1.abs_diff(self.x2)
    }

    /// Returns how far its label is above it.
    fn lift(&self) -> u64 {
        if self.x2 == MIDDLE { 9 } else { 5 }
    }

    /// Returns whether its label is level instead of turned, since the frame was long in flight.
    fn is_steep(&self) -> bool {
        self.y2.saturating_sub(self.y1) > STEEPEST || self.across() > STEEPEST
    }

    /// Returns the position of a text at a distance from its tail.
    fn spot_at(&self, near: u64, width: u64) -> Spot {
        let far = near.saturating_add(width);
        let (near_base, far_base) = if self.is_steep() {
            (self.y1.saturating_sub(3), self.y1.saturating_sub(3))
        } else {
            (self.base_at(near), self.base_at(far))
        };
        match self.from {
            End::A => Spot {
                left: self.x1.saturating_add(near),
                right: self.x1.saturating_add(far),
                left_base: near_base,
                right_base: far_base,
            },
            End::B => Spot {
                left: self.x1.saturating_sub(far),
                right: self.x1.saturating_sub(near),
                left_base: far_base,
                right_base: near_base,
            },
        }
    }

    /// Returns the distance of its label from its tail: the smallest at which it doesn't overlap
    /// another label, or the minimum if there is none.
    fn label_place(&self, lettering: &Lettering, width: u64) -> u64 {
        if self.is_steep() {
            return NEAR_TAIL;
        }
        let last = self
            .across()
            .saturating_sub(NEAR_HEAD)
            .saturating_sub(width);
        let mut near = NEAR_TAIL;
        for _try in 0..PLACES {
            let place = near.min(last).max(NEAR_TAIL);
            if lettering.is_free(&self.spot_at(place, width)) {
                return place;
            }
            near = near.saturating_add(20);
        }
        NEAR_TAIL
    }

    /// Writes a label above it, turned as it is.
    fn write_label(&self, lettering: &mut Lettering, text: &[u8]) {
        let width = width_of(text);
        let near = self.label_place(lettering, width);
        lettering.keep(self.spot_at(near, width));
        if self.is_steep() {
            return self.write_level_label(lettering, text);
        }
        let across = self.across().min(STEEPEST);
        let down = self.y2.saturating_sub(self.y1).min(STEEPEST);
        let length = root(across * across + down * down);
        let cosine = across.saturating_mul(1000) / length.max(1);
        let sine = down.saturating_mul(1000) / length.max(1);
        self.write_turned_label(lettering, cosine, sine, near, text);
    }

    /// Writes a label that a matrix turns and moves to its position.
    fn write_turned_label(
        &self,
        lettering: &mut Lettering,
        cosine: u64,
        sine: u64,
        near: u64,
        text: &[u8],
    ) {
        let (rises, falls, how): (&[u8], &[u8], &[u8]) = match self.from {
            End::A => (b" ", b" -", b" x=\""),
            End::B => (b" -", b" ", b" text-anchor=\"end\" x=\"-"),
        };
        let parts = [
            Text(b"<text transform=\"matrix("),
            Thousandths(cosine),
            Text(rises),
            Thousandths(sine),
            Text(falls),
            Thousandths(sine),
            Text(b" "),
            Thousandths(cosine),
            Text(b" "),
            Number(self.x1),
            Text(b" "),
            Number(self.y1),
            Text(b")\""),
            Text(how),
            Number(near),
            Text(b"\" y=\"-"),
            Number(self.lift()),
            Text(b"\">"),
            Text(text),
            Text(b"</text>\n"),
        ];
        write(&mut lettering.draft, &mut lettering.sheet, &parts);
    }

    fn write_level_label(&self, lettering: &mut Lettering, text: &[u8]) {
        let (page, writer) = (&mut lettering.draft, &mut lettering.sheet);
        let y = self.y1.saturating_sub(3);
        match self.from {
            End::A => write_text(page, writer, LINE_A + 10, y, b"text-anchor=\"start\"", text),
            End::B => write_text(page, writer, LINE_B - 10, y, b"text-anchor=\"end\"", text),
        }
    }

    /// Writes how a trip ends, at its end.
    fn write_trip_end<W: Sink>(&self, page: &mut Page, writer: &mut W, trip_end: TripEnd) {
        match trip_end {
            TripEnd::Arrived => {}
            TripEnd::Cut { .. } => {
                let shape: &[u8] = match self.from {
                    End::A => b"m-5 -8v16",
                    End::B => b"m5 -8v16",
                };
                self.write_shape(page, writer, self.x2, shape);
            }
            TripEnd::Lost => {
                self.write_shape(page, writer, self.x2, b"m-6 -6l12 12m0 -12l-12 12");
            }
            TripEnd::InFlight => self.write_shape(page, writer, self.x2, b"m-4 0l4 4l4 -4l-4 -4z"),
        }
    }

    /// Writes a label after the cross of a lost frame.
    fn write_lost(&self, lettering: &mut Lettering) {
        let y = self.y2.saturating_add(4);
        let width = width_of(b"lost");
        let (x, left, how): (u64, u64, &[u8]) = match self.from {
            End::A => (MIDDLE + 12, MIDDLE + 12, b"text-anchor=\"start\""),
            End::B => (
                MIDDLE - 12,
                (MIDDLE - 12).saturating_sub(width),
                b"text-anchor=\"end\"",
            ),
        };
        lettering.keep(Spot::level(left, left.saturating_add(width), y));
        write_text(
            &mut lettering.draft,
            &mut lettering.sheet,
            x,
            y,
            how,
            b"lost",
        );
    }

    /// Writes a shape at its end.
    fn write_shape<W: Sink>(&self, page: &mut Page, writer: &mut W, x: u64, shape: &[u8]) {
        let parts = [
            Text(b"<path class=\""),
            Text(class_of(self.from)),
            Text(b"\" style=\"stroke-width:2.5\" d=\"M"),
            Number(x),
            Text(b" "),
            Number(self.y2),
            Text(shape),
            Text(b"\"/>\n"),
        ];
        write(page, writer, &parts);
    }

    /// Writes the mark of a damaged frame.
    fn write_damage<W: Sink>(&self, page: &mut Page, writer: &mut W) {
        let (x, y) = self.place(3);
        let parts = [
            Text(b"<path fill=\"#111\" d=\"M"),
            Number(x),
            Text(b" "),
            Number(y),
            Text(b"m0 -7l7 7l-7 7l-7 -7z\"/>\n"),
        ];
        write(page, writer, &parts);
    }
}

/// Draws a trip that ends like this in this row.
pub(crate) fn write_trip<W: Sink>(
    page: &mut Page,
    writer: &mut W,
    lettering: &mut Lettering,
    trip: &Trip,
    trip_end: TripEnd,
    row: u64,
) {
    let stroke = Stroke::of(trip, trip_end, row);
    let class: &[u8] = if trip.is_damaged { b" damaged" } else { b"" };
    stroke.write(page, writer, class, matches!(trip_end, TripEnd::Arrived));
    stroke.write_trip_end(page, writer, trip_end);
    if trip.is_damaged {
        stroke.write_damage(page, writer);
    }
    if let TripEnd::Lost = trip_end {
        stroke.write_lost(lettering);
    }
    stroke.write_label(lettering, trip_end.label(trip).as_slice());
}
