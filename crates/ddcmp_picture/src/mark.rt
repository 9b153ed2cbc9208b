//! The marks of a picture.
ghost use Rattle.std.specs.Prelude.{◌≡◌};
ghost use Rattle.ddcmp_picture.specs.Trips.{damaged_by, end_label, rest_of};

use crate::short_text::ShortText;
use ddcmp_pair::End;

/// A frame in flight.
#[derive(Clone, Copy, Drop)]
pub struct Trip {
    pub from: End,
    /// The row in which it left.
    pub row: u64,
    pub label: ShortText,
    /// Whether none of its bytes have arrived.
    pub is_whole: bool,
    pub is_damaged: bool,
}

impl Trip {
    /// Records that a byte was changed by exclusive or. A damaged frame stays damaged.
    pub(crate) fn damage(&mut self, by: u8)
        ensures { self.new ≡ damaged_by by self.old }
    {
        self.is_damaged = self.is_damaged || by != 0;
    }

    /// Records that some bytes have arrived; the rest leaves in this row.
    pub(crate) fn leave_rest(&mut self, row: u64)
        ensures { self.new ≡ rest_of row self.old }
    {
        self.row = row;
        if self.is_whole {
            self.is_whole = false;
            self.label = self.label.with(b", rest");
        }
    }
}

/// How a trip ends.
#[derive(Clone, Copy)]
pub enum TripEnd {
    /// It arrived, or the last part of it did.
    Arrived,
    /// Only this many of the bytes that were left arrived.
    Cut { part: usize, of: usize },
    Lost,
    /// The run ended before.
    InFlight,
}

/// A mark of a picture, made by a step of a run.
#[derive(Clone, Copy, Drop)]
pub enum Mark {
    /// A text beside the line of an end; or in the row of what arrived there just before.
    Note {
        at: End,
        text: ShortText,
        is_beside: bool,
    },
    /// A text about both ends.
    Across(ShortText),
    Departs(Trip),
    Ends(Trip, TripEnd),
    /// Bytes that neither end sent arrive at an end.
    Appears {
        at: End,
        label: ShortText,
    },
}

impl TripEnd {
    /// Returns the label of a trip that ends like this.
    pub fn label(self, trip: &Trip) -> ShortText
        ensures { result ≡ end_label self trip.now }
    {
        let label = if trip.is_damaged {
            trip.label.with(b", damaged")
        } else {
            trip.label
        };
        match self {
            TripEnd::Cut { part, of } => label
                .with(b", ")
                .with_number(part as u64)
                .with(b" of ")
                .with_number(of as u64),
            TripEnd::Arrived | TripEnd::Lost | TripEnd::InFlight => label,
        }
    }
}
