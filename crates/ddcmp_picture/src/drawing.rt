//! A run, drawn step by step.
ghost use Rattle.std.specs.Prelude.{◌≡◌, [], ◌∷◌, true};
ghost use Rattle.ddcmp_io.specs.Device.{Logs};
ghost use Rattle.ddcmp_picture.specs.Marks.{all_end, line_asked, line_marks, line_trips};
ghost use Rattle.ddcmp_picture.specs.Marks.{part_of as part_of_them};
ghost use Rattle.ddcmp_picture.specs.Marks.{is_settle, polled_marks, polled_trips, recovered_label};
ghost use Rattle.ddcmp_picture.specs.Marks.{arrived_marks, arrived_trips, carry_asked, carry_marks};
ghost use Rattle.ddcmp_picture.specs.Marks.{cleared_marks, cleared_trips, expired_marks};
ghost use Rattle.ddcmp_picture.specs.Marks.{notices_in};
ghost use Rattle.ddcmp_picture.specs.Marks.{seen_at, seen_now, settle_marks, state_at, state_of};
ghost use Rattle.ddcmp_picture.specs.Marks.{told_marks};
ghost use Rattle.ddcmp_picture.specs.Trips.{no_trips};
ghost use Rattle.ddcmp_picture.specs.Marks.{settled_label, step_marks, step_trips, states_in};

use crate::endings::{damage, end_all, land, lose};
use crate::flights::Flights;
use crate::labels::label_of;
use crate::mark::{Mark, Trip, TripEnd};
use crate::notes::{across, answer, look, note, report, sent};
use crate::paper::Paper;
use crate::replies::{answer_text, words};
use crate::request::Request;
use crate::states::{Seen, States};
use ddcmp_line::command::ScriptCommand;
use ddcmp_pair::{End, Event, Pair, Recovered, Reply, Settled};
use std::alloc::Global;

/// A drawing of a run on a paper. As the view of a script (`ddcmp_line::script_viewed`) it adds the
/// marks of each line and each step; after the script call `end_flights`.
pub struct Drawing<P> {
    pub(crate) flights: Flights,
    pub paper: P,
    /// What both ends were like before the next step.
    pub(crate) states: States,
    pub(crate) asked: Request,
    /// Whether no allocation for frames in flight failed.
    pub(crate) is_whole: bool,
}

// Manual, since a derived `Drop` would be expanded wherever a value is dropped.
impl<P: Drop> Drop for Drawing<P> {
    fn drop(self) {
        let Drawing {
            flights: _flights,
            paper: _paper,
            states: _,
            asked: _,
            is_whole: _,
        } = self;
    }
}

/// Returns how many bytes of a frame are to arrive: at most n, or all.
fn part_of(most: Option<u32>, of: usize) -> usize
    ensures { result ≡ part_of_them most of }
{
    match most {
        Some(n) => of.min(n as usize),
        None => of,
    }
}

impl<P: Paper + Drop> Drawing<P> {
    /// Makes a drawing for a run that begins with this pair, with nothing drawn yet.
    pub fn new(alloc: Global, paper: P, pair: &Pair) -> Self
        ensures paper { result.paper ≡ paper }
        ensures trips { result.flights ≡ no_trips }
        ensures whole { result.is_whole ≡ true }
        ensures states { result.states ≡ states_in pair.now }
        ensures asked { result.asked ≡ Request.Event }
    {
        Drawing {
            flights: Flights::new(alloc),
            paper,
            states: States::of(pair),
            asked: Request::Event,
            is_whole: true,
        }
    }

    /// Draws the frame that an end wrote, or that it had none.
    #[tactic(auto, using(crate::proofs::NoteLaws::logs_none))]
    fn polled(&mut self, from: End, reply: &Reply)
        ensures marks { Logs (P.drawn self.old.paper) (P.drawn self.new.paper)
            (polled_marks from (P.next_row self.old.paper) (is_settle self.old.asked) reply.now) }
        ensures trips { self.new.is_whole ≡ true → self.new.flights
            ≡ polled_trips from (P.next_row self.old.paper) reply.now self.old.flights }
        ensures whole { self.new.is_whole ≡ true → self.old.is_whole ≡ true }
        ensures states { self.new.states ≡ self.old.states }
        ensures asked { self.new.asked ≡ self.old.asked }
    {
        match reply {
            Reply::Wrote(bytes) => {
                let trip = Trip {
                    from,
                    row: self.paper.row(),
                    label: label_of(bytes.as_slice()),
                    is_whole: true,
                    is_damaged: false,
                };
                self.paper.put(&Mark::Departs(trip));
                let is_kept = self.flights.push(trip).is_ok();
                self.is_whole = self.is_whole && is_kept;
            }
            _ => {
                if !self.asked.is_settle() {
                    note(&mut self.paper, from, answer_text(reply), false);
                }
            }
        }
    }

    fn expired(&mut self, pair: &Pair, end: End, reply: &Reply)
        ensures marks { Logs (P.drawn self.old.paper) (P.drawn self.new.paper)
            (expired_marks end (is_settle self.old.asked) reply.now
            (state_at end self.old.states) (state_of end pair.now)) }
        ensures trips { self.new.flights ≡ self.old.flights }
        ensures whole { self.new.is_whole ≡ self.old.is_whole }
        ensures states { self.new.states ≡ self.old.states }
        ensures asked { self.new.asked ≡ self.old.asked }
    {
        if let Reply::Expired(false) = reply {
            if self.asked.is_settle() {
                return;
            }
        }
        let (before, now) = (self.states.at(end).state, pair.station(end).state());
        answer(&mut self.paper, end, reply, before, now);
    }

    #[tactic(auto, using(crate::proofs::NoteLaws::logs_then))]
    fn cleared(&mut self, reply: &Reply)
        ensures marks { Logs (P.drawn self.old.paper) (P.drawn self.new.paper)
            (cleared_marks reply.now self.old.flights) }
        ensures trips { self.new.flights ≡ cleared_trips reply.now self.old.flights }
        ensures whole { self.new.is_whole ≡ self.old.is_whole }
        ensures states { self.new.states ≡ self.old.states }
        ensures asked { self.new.asked ≡ self.old.asked }
    {
        if let Reply::Cleared = reply {
            end_all(&mut self.paper, &mut self.flights, TripEnd::Lost);
        }
        across(&mut self.paper, answer_text(reply));
    }

    /// Draws bytes that arrived at an end: those of a frame of the other end, or injected ones.
    fn arrived(&mut self, to: End, bytes: &[u8])
        ensures marks { Logs (P.drawn self.old.paper) (P.drawn self.new.paper)
            (arrived_marks self.old.asked to bytes.now self.old.flights) }
        ensures trips { self.new.flights ≡ arrived_trips self.old.asked to
            (P.next_row self.old.paper) bytes.now self.old.flights }
        ensures whole { self.new.is_whole ≡ self.old.is_whole }
        ensures states { self.new.states ≡ self.old.states }
        ensures asked { self.new.asked ≡ self.old.asked }
    {
        let length = bytes.len();
        match self.asked {
            Request::Event => {
                let label = label_of(bytes);
                self.paper.put(&Mark::Appears { at: to, label });
            }
            Request::Carry { part, of } => {
                land(&mut self.paper, &mut self.flights, to.other(), part, of);
            }
            Request::Settle => {
                land(
                    &mut self.paper,
                    &mut self.flights,
                    to.other(),
                    length,
                    length,
                );
            }
        }
    }

    /// Draws what an end reported on an arrival.
    fn noticed(&mut self, pair: &Pair, to: End, reply: &Reply)
        ensures marks { Logs (P.drawn self.old.paper) (P.drawn self.new.paper)
            (told_marks to (notices_in reply.now) (seen_at to self.old.states)
            (seen_now to pair.now)) }
        ensures trips { self.new.flights ≡ self.old.flights }
        ensures whole { self.new.is_whole ≡ self.old.is_whole }
        ensures states { self.new.states ≡ self.old.states }
        ensures asked { self.new.asked ≡ self.old.asked }
    {
        let (before, now) = (self.states.at(to), Seen::of(pair, to));
        match reply {
            Reply::Notices(notices) => {
                report(&mut self.paper, to, notices.as_slice(), before, &now);
            }
            _ => report(&mut self.paper, to, &[], before, &now),
        }
    }

    /// Draws a step of the run, after which the pair is `pair`.
    #[tactic(auto, using(crate::proofs::NoteLaws::logs_then))]
    pub fn step(&mut self, pair: &Pair, event: &Event, reply: &Reply)
        ensures marks { Logs (P.drawn self.old.paper) (P.drawn self.new.paper)
            (step_marks event.now reply.now pair.now (record {
              asked = self.old.asked;
              row = P.next_row self.old.paper;
              states = self.old.states;
              trips = self.old.flights;
            })) }
        ensures trips { self.new.is_whole ≡ true → self.new.flights
            ≡ step_trips event.now reply.now (record {
              asked = self.old.asked;
              row = P.next_row self.old.paper;
              states = self.old.states;
              trips = self.old.flights;
            }) }
        ensures whole { self.new.is_whole ≡ true → self.old.is_whole ≡ true }
        ensures states { self.new.states ≡ states_in pair.now }
        ensures asked { self.new.asked ≡ self.old.asked }
    {
        match event {
            Event::Poll(end) => self.polled(*end, reply),
            Event::Take(end) => note(&mut self.paper, *end, answer_text(reply), false),
            Event::Send(end, message) => sent(&mut self.paper, *end, message.as_slice(), reply),
            Event::Clear => self.cleared(reply),
            Event::Start(end) | Event::Halt(end) => {
                let (before, now) = (self.states.at(*end).state, pair.station(*end).state());
                answer(&mut self.paper, *end, reply, before, now);
            }
            Event::Expire(end) => self.expired(pair, *end, reply),
            Event::Arrive(to, bytes) => {
                self.arrived(*to, bytes.as_slice());
                self.noticed(pair, *to, reply);
            }
        }
        self.states = States::of(pair);
    }

    /// Drops all frames and draws them as lost, before both ends settle or the line recovers.
    #[tactic(auto, using(crate::proofs::NoteLaws::logs_then))]
    fn begin_settle(&mut self, name: &[u8])
        ensures marks { Logs (P.drawn self.old.paper) (P.drawn self.new.paper)
            (settle_marks name.now self.old.flights) }
        ensures trips { self.new.flights ≡ no_trips }
        ensures whole { self.new.is_whole ≡ self.old.is_whole }
        ensures states { self.new.states ≡ self.old.states }
        ensures asked { self.new.asked ≡ Request.Settle }
    {
        self.asked = Request::Settle;
        end_all(&mut self.paper, &mut self.flights, TripEnd::Lost);
        across(&mut self.paper, words(name));
    }

    /// Prepares for the arrival of the first bytes of a frame, or all of it.
    #[tactic(auto, using(crate::proofs::NoteLaws::logs_none))]
    fn carry(&mut self, from: End, most: Option<u32>, front: Option<usize>)
        ensures marks { Logs (P.drawn self.old.paper) (P.drawn self.new.paper)
            (carry_marks from front) }
        ensures trips { self.new.flights ≡ self.old.flights }
        ensures whole { self.new.is_whole ≡ self.old.is_whole }
        ensures states { self.new.states ≡ self.old.states }
        ensures asked { self.new.asked ≡ carry_asked most front }
    {
        match front {
            None => {
                self.asked = Request::Event;
                note(&mut self.paper, from, words(b"nothing to pass"), false);
            }
            Some(of) => {
                self.asked = Request::Carry {
                    part: part_of(most, of),
                    of,
                };
            }
        }
    }

    /// Draws a command of the script before it has any effect.
    #[tactic(auto, using(crate::proofs::NoteLaws::logs_none))]
    pub fn begin(&mut self, pair: &Pair, command: &ScriptCommand, front: Option<usize>)
        ensures marks { Logs (P.drawn self.old.paper) (P.drawn self.new.paper)
            (line_marks command.now front pair.now self.old.flights) }
        ensures trips { self.new.flights ≡ line_trips command.now front self.old.flights }
        ensures whole { self.new.is_whole ≡ self.old.is_whole }
        ensures states { self.new.states ≡ self.old.states }
        ensures asked { self.new.asked ≡ line_asked command.now front }
    {
        self.asked = Request::Event;
        let (paper, flights) = (&mut self.paper, &mut self.flights);
        match command {
            ScriptCommand::Happens(_) | ScriptCommand::Raw(_, _) => {}
            ScriptCommand::Carry(from, most) => self.carry(*from, *most, front),
            ScriptCommand::Lose(from) => lose(paper, flights, *from),
            ScriptCommand::Damage(from, at, by) => {
                damage(paper, flights, *from, *at as usize, *by, front);
            }
            ScriptCommand::Settle => self.begin_settle(b"settle"),
            ScriptCommand::Recover => self.begin_settle(b"recover"),
            ScriptCommand::State(end) => look(paper, *end, pair.station(*end)),
        }
    }

    /// Draws the frames that are still in flight when the run is over.
    pub fn end_flights(&mut self)
        ensures marks { Logs (P.drawn self.old.paper) (P.drawn self.new.paper)
            (all_end TripEnd.InFlight self.old.flights) }
        ensures trips { self.new.flights ≡ no_trips }
        ensures whole { self.new.is_whole ≡ self.old.is_whole }
        ensures states { self.new.states ≡ self.old.states }
        ensures asked { self.new.asked ≡ self.old.asked }
    {
        end_all(&mut self.paper, &mut self.flights, TripEnd::InFlight);
    }

    /// Draws the result of a settle.
    pub fn put_settled(&mut self, settled: &Settled)
        ensures { Logs (P.drawn self.old.paper) (P.drawn self.new.paper)
            (Mark.Across (settled_label settled.now.exchanges settled.now.quiet) ∷ []) }
    {
        let how: &[u8] = if settled.quiet { b" quiet" } else { b" busy" };
        let text = words(b"settled ").with_number(settled.exchanges as u64);
        across(&mut self.paper, text.with(how));
    }

    /// Draws the result of a recovery; `done` is whether the pair is then done.
    #[tactic(auto, unfolding(crate::specs::Marks::counts_label))]
    pub fn put_recovered(&mut self, recovered: &Recovered, done: bool)
        ensures { Logs (P.drawn self.old.paper) (P.drawn self.new.paper)
            (Mark.Across (recovered_label recovered.now.exchanges done) ∷ []) }
    {
        let [first, second, third] = recovered.exchanges;
        let text = words(b"recovered")
            .with(b" ")
            .with_number(first as u64)
            .with(b" ")
            .with_number(second as u64)
            .with(b" ")
            .with_number(third as u64);
        let how: &[u8] = if done { b" done" } else { b" unfinished" };
        across(&mut self.paper, text.with(how));
    }
}
