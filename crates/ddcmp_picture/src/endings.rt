//! The ends of frames in flight.
ghost use Rattle.std.specs.Prelude.{◌≡◌, ◌++◌, [], ◌∷◌, drop, map, length};
ghost use Rattle.ddcmp_io.specs.Device.{Logs};
ghost use Rattle.ddcmp_picture.specs.Marks.{all_end, damage_marks, damage_trips, ends_by};
ghost use Rattle.ddcmp_picture.specs.Marks.{landed_marks, landed_trips, lost_marks};
ghost use Rattle.ddcmp_picture.specs.Trips.{no_trips, trips_of, with_trips};

use crate::flights::Flights;
use crate::labels::without_lf;
use crate::mark::{Mark, TripEnd};
use crate::notes::note;
use crate::paper::Paper;
use crate::replies::words;
use ddcmp_line::reply_text::damage_name;
use ddcmp_pair::End;

/// Draws that `part` of the `of` bytes that were left of an end's first frame arrived. The rest
/// leaves in the row of this arrival.
#[tactic(auto, using(crate::proofs::NoteLaws::logs_none))]
pub(crate) fn land<P: Paper>(
    paper: &mut P,
    flights: &mut Flights,
    from: End,
    part: usize,
    of: usize,
)
    ensures marks { Logs (P.drawn paper.old) (P.drawn paper.new)
        (landed_marks part of (trips_of from flights.old)) }
    ensures trips { flights.new ≡ with_trips from
        (landed_trips (P.next_row paper.old) part of (trips_of from flights.old)) flights.old }
{
    let row = paper.row();
    let Some(trip) = flights.front(from) else {
        return;
    };
    if part < of {
        flights.leave_rest(from, row);
        paper.put(&Mark::Ends(trip, TripEnd::Cut { part, of }));
    } else {
        let _arrived = flights.pop(from);
        paper.put(&Mark::Ends(trip, TripEnd::Arrived));
    }
}

/// Drops the first frame of an end.
pub(crate) fn lose<P: Paper>(paper: &mut P, flights: &mut Flights, from: End)
    ensures marks { Logs (P.drawn paper.old) (P.drawn paper.new)
        (lost_marks from (trips_of from flights.old)) }
    ensures trips { flights.new
        ≡ with_trips from (drop 1 (trips_of from flights.old)) flights.old }
{
    match flights.pop(from) {
        Some(trip) => paper.put(&Mark::Ends(trip, TripEnd::Lost)),
        None => note(paper, from, words(b"nothing to lose"), false),
    }
}

/// Changes a byte of the first frame of an end by exclusive or, if the frame has that byte.
#[tactic(auto, using(crate::proofs::NoteLaws::logs_none))]
pub(crate) fn damage<P: Paper>(
    paper: &mut P,
    flights: &mut Flights,
    from: End,
    at: usize,
    by: u8,
    front: Option<usize>,
)
    ensures marks { Logs (P.drawn paper.old) (P.drawn paper.new) (damage_marks from at front) }
    ensures trips { flights.new ≡ damage_trips from at by front flights.old }
{
    let is_there = match front {
        Some(length) => at < length,
        None => false,
    };
    if is_there {
        flights.damage(from, by);
    } else {
        let why = without_lf(damage_name(front.is_none(), false));
        note(paper, from, words(b"damage: ").with(why), false);
    }
}

/// Takes all frames of an end off its line.
#[tactic(auto, using(crate::proofs::EndLaws::ends_none, crate::proofs::EndLaws::ends_all))]
fn end_of<P: Paper>(paper: &mut P, flights: &mut Flights, end: End, trip_end: TripEnd)
    ensures marks { Logs (P.drawn paper.old) (P.drawn paper.new)
        (map (ends_by trip_end) (trips_of end flights.old)) }
    ensures trips { flights.new ≡ with_trips end [] flights.old }
{
    for _trip in 0..flights.len(end) {
        let Some(trip) = flights.pop(end) else {
            return;
        };
        paper.put(&Mark::Ends(trip, trip_end));
    }
}

/// Takes all frames off the lines, and draws each with this end.
#[tactic(auto, using(crate::proofs::NoteLaws::logs_then))]
pub(crate) fn end_all<P: Paper>(paper: &mut P, flights: &mut Flights, trip_end: TripEnd)
    ensures marks { Logs (P.drawn paper.old) (P.drawn paper.new) (all_end trip_end flights.old) }
    ensures trips { flights.new ≡ no_trips }
{
    end_of(paper, flights, End::A, trip_end);
    end_of(paper, flights, End::B, trip_end);
}
