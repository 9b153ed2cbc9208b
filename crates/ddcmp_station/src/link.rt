//! A station with its outbox and its deadline.

mod frames;

use crate::outbox::Outbox;
use crate::reply_timer::keep_time;
use ddcmp_proto::{Config, ConfigRefusal, Counters, SendRefusal, StartRefusal, State, Station};
use std::alloc::Global;
use std::marker::Model;

/// The totals of a link since it was made. Each stays at 2^64 - 1 once it is reached.
#[derive(Clone, Copy, Debug, PartialEq, Eq)]
pub struct Totals {
    /// The bytes of the line that were used.
    pub read: u64,
    /// The bytes that were written to the line.
    pub written: u64,
    /// The messages that were accepted.
    pub sent: u64,
    /// The messages that the peer acknowledged.
    pub acknowledged: u64,
    /// The messages that were taken.
    pub handed: u64,
}

/// A station, the bytes pending for its line, and the deadline of its timer, for an event loop.
/// After `new` no call allocates.
///
/// Call `start`. In each turn call `wake`; pass received bytes to `feed` while `wants_line` returns
/// true, and what it didn't use again; `take` and `offer` messages; call `fill`, write `unsent` to
/// the line and report it by `sent`; then call `wake` again, and wait until `deadline` at most.
pub struct Link {
    station: Station,
    outbox: Outbox,
    deadline: Option<u64>,
    timer_ms: u32,
    totals: Totals,
}

// Manual, since a derived `Drop` is expanded wherever a link is dropped.
impl Drop for Link {
    fn drop(self) {
        let Link {
            station: _station,
            outbox: _outbox,
            deadline: _,
            timer_ms: _,
            totals: _,
        } = self;
    }
}

impl Model for Link {
    ghost use Rattle.ddcmp_station.specs.Linking.{LinkView};

    ghost Value = { LinkView };

    ghost view = { λ l. record {
      station = l.station;
      outbox = l.outbox;
      deadline = l.deadline;
      milliseconds = l.timer_ms;
      totals = l.totals;
    } };
}

impl Link {
    ghost use Rattle.std.specs.Prelude.{◌≡◌, ◌⊎◌, ◌≤◌, [], length, take, IsOk, IfOk, Some, None};
    ghost use Rattle.std.specs.Prelude.{◌<◌, Err, option_map, slice_index_or};
    ghost use Rattle.ddcmp_frame.specs.Reader.{StandsFor};
    ghost use Rattle.ddcmp_window.specs.Store.{first_message, with_front};
    ghost use Rattle.ddcmp_core.specs.Table.{after_halt, answer_to_start};
    ghost use Rattle.ddcmp_core.specs.Choosing.{chosen, answer_to_choose};
    ghost use Rattle.ddcmp_proto.specs.Config.{first_refusal, config_of};
    ghost use Rattle.ddcmp_station.specs.Linking.{link_made, with_state, started, anew, after_wake};
    ghost use Rattle.ddcmp_station.specs.Linking.{wakes_at, takes_message, after_offered};
    ghost use Rattle.ddcmp_station.specs.Linking.{answer_to_offered, after_taking, delivered};
    ghost use Rattle.ddcmp_station.specs.Linking.{anew_for_maintenance, no_bytes, total_plus};
    ghost use Rattle.ddcmp_station.specs.Linking.{after_offered_maintenance};
    ghost use Rattle.ddcmp_station.specs.Linking.{answer_to_offered_maintenance};
    ghost use Rattle.ddcmp_station.specs.Driving.{core_after_halt, expires_at};

    /// Makes a halted link, whose timer expires `timer_ms` milliseconds after it was started.
    pub fn new(alloc: Global, config: Config, timer_ms: u32) -> Result<Link, ConfigRefusal>
        ensures made { IfOk result (λ l. l ≡ link_made config timer_ms l.station.line) }
        ensures stands { IfOk result (λ l. StandsFor l.station.line []) }

        // If a size is out of range, the first such is the refusal; otherwise it can only be an
        // allocation failure.
        ensures refused { (refusal : ConfigRefusal) → first_refusal config ≡ Some refusal → result
            ≡ Err refusal }
        ensures only { first_refusal config ≡ None → IsOk result
            ⊎ (result ≡ Err ConfigRefusal.Memory) }
    {
        let station = match Station::new(alloc, config) {
            Ok(station) => station,
            Err(refusal) => return Err(refusal),
        };
        let Ok(outbox) = Outbox::new(alloc) else {
            return Err(ConfigRefusal::Memory);
        };
        Ok(Link {
            station,
            outbox,
            deadline: None,
            timer_ms,
            totals: Totals {
                read: 0,
                written: 0,
                sent: 0,
                acknowledged: 0,
                handed: 0,
            },
        })
    }

    /// Asks the peer to start; returns how many unacknowledged messages were dropped. Refused if
    /// the station isn't halted, or received messages weren't taken.
    pub fn start(&mut self) -> Result<u8, StartRefusal>
        ensures state { self.new ≡ with_state (started self.old.station.core.station) self.old }
        ensures answer { result ≡ answer_to_start self.old.station.core.station }
    {
        self.station.start()
    }

    /// Chooses when messages are acknowledged, if the station is halted and its inbox empty: when
    /// they are taken, or when they are received. It stays so over starts. A new link acknowledges
    /// what it receives.
    pub fn acknowledge_on_take(&mut self, by_user: bool) -> Result<(), StartRefusal>
        ensures state { self.new ≡ with_state (chosen by_user self.old.station.core.station)
            self.old }
        ensures answer { result ≡ answer_to_choose self.old.station.core.station }
    {
        self.station.acknowledge_on_take(by_user)
    }

    /// Halts the station: it sends and accepts nothing more. Bytes pending for the line stay.
    pub fn halt(&mut self)
        ensures { self.new ≡ with_state (after_halt self.old.station.core.station) self.old }
    {
        self.station.halt();
    }

    /// Halts the station, drops the bytes pending for the line and those received from it, and
    /// starts; returns how many unacknowledged messages were dropped. If received messages weren't
    /// taken this is refused, but the station is halted and the line cleared all the same: take
    /// them, then start.
    pub fn restart(&mut self) -> Result<u8, StartRefusal>
        ensures state { self.new ≡ anew self.new.station.line self.old }
        ensures cleared { StandsFor self.new.station.line [] }
        ensures answer { result ≡ answer_to_start (after_halt self.old.station.core.station) }
    {
        self.clear();
        self.start()
    }

    /// Does the same as `restart`, but enters maintenance mode, where `offer_maintenance` takes
    /// the place of `offer`.
    pub fn begin_maintenance(&mut self) -> Result<u8, StartRefusal>
        ensures state { self.new ≡ anew_for_maintenance self.new.station.line self.old }
        ensures cleared { StandsFor self.new.station.line [] }
        ensures answer { result ≡ answer_to_start (after_halt self.old.station.core.station) }
    {
        self.clear();
        self.station.enter_maintenance()
    }

    /// Halts the station, and drops the bytes pending for the line and those received from it.
    fn clear(&mut self)
        ensures state { self.new ≡ record self.old {
          station = record {
            core = core_after_halt self.old.station.core;
            syn = self.old.station.syn;
            line = self.new.station.line;
          };
          outbox = no_bytes;
        } }
        ensures cleared { StandsFor self.new.station.line [] }
    {
        self.halt();
        self.station.clear_line();
        self.outbox.clear();
    }

    /// Handles the reply timer, and returns whether it expired. Call it last before a wait, and
    /// first after it.
    pub fn wake(&mut self, now: u64) -> bool
        ensures state { self.new ≡ after_wake now self.old }
        ensures expires { result ≡ expires_at self.old.milliseconds now
            self.old.station.core.station.timer self.old.deadline }
    {
        keep_time(&mut self.station, now, self.timer_ms, &mut self.deadline)
    }

    /// Returns the moment in milliseconds when `wake` is to be called at the latest; none while the
    /// timer is off.
    pub fn deadline(&self) -> Option<u64>
        ensures { result ≡ wakes_at self.now }
    {
        if !self.station.timer_on() {
            return None;
        }
        match self.deadline {
            Some(moment) => Some(moment),
            None => Some(0),
        }
    }

    /// Returns whether `offer` would accept a message of 1 to `max` bytes.
    pub fn has_room(&self) -> bool
        ensures { result ≡ takes_message self.now }
    {
        self.state() == State::Running && self.station.room()
    }

    /// Accepts a message to be sent, or returns why not.
    pub fn offer(&mut self, message: &[u8]) -> Result<(), SendRefusal>
        ensures state { self.new ≡ after_offered message.now self.old }
        ensures answer { result ≡ answer_to_offered message.now self.old }
    {
        match self.station.send(message) {
            Ok(_number) => {
                self.count_sent();
                Ok(())
            }
            Err(refusal) => Err(refusal),
        }
    }

    /// Accepts a message to be sent in maintenance mode, once: it is neither numbered nor
    /// acknowledged.
    pub fn offer_maintenance(&mut self, message: &[u8]) -> Result<(), SendRefusal>
        ensures state { self.new ≡ after_offered_maintenance message.now self.old }
        ensures answer { result ≡ answer_to_offered_maintenance message.now self.old }
    {
        match self.station.send_maintenance(message) {
            Ok(()) => {
                self.count_sent();
                Ok(())
            }
            Err(refusal) => Err(refusal),
        }
    }

    fn count_sent(&mut self)
        ensures { self.new ≡ record self.old {
          totals = record self.old.totals { sent = total_plus self.old.totals.sent 1 };
        } }
    {
        self.totals.sent = self.totals.sent.saturating_add(1);
    }

    /// Moves the first received message to the front of `out`, which has room for `max` bytes, and
    /// returns its length.
    pub fn take(&mut self, out: &mut [u8]) -> Option<usize>
        requires { self.old.station.core.limits.longest ≤ length out.old }
        ensures state { self.new ≡ after_taking self.old }
        ensures length { result
            ≡ option_map length (first_message self.old.station.core.station.inbox) }
        ensures out { out.new
            ≡ with_front (first_message self.old.station.core.station.inbox) out.old }
    {
        match self.station.take(out) {
            None => None,
            Some(length) => {
                self.totals.handed = self.totals.handed.saturating_add(1);
                Some(length)
            }
        }
    }

    /// Returns the number of received messages that weren't taken.
    pub fn waiting(&self) -> u8
        ensures { result ≡ length self.now.station.core.station.inbox }
    {
        self.station.waiting()
    }

    /// Copies received message `i`, counted from 0, to the front of `out`, which has room for `max`
    /// bytes, and returns its length. Nothing is taken.
    pub fn waiting_at(&self, i: u8, out: &mut [u8]) -> usize
        requires there { i < length self.now.station.core.station.inbox }
        requires longest { self.now.station.core.limits.longest ≤ length out.old }
        ensures length { result ≡ length (slice_index_or self.now.station.core.station.inbox i []) }
        ensures out { out.new
            ≡ with_front (Some (slice_index_or self.now.station.core.station.inbox i [])) out.old }
    {
        self.station.waiting_at(i, out)
    }

    /// Returns how many messages were accepted and aren't acknowledged.
    pub fn lost(&self) -> u8
        ensures { result ≡ length self.now.station.core.station.out }
    {
        self.station.outgoing()
    }

    /// Returns whether all that was accepted is acknowledged, nothing is pending for the line and
    /// no frame is to be sent.
    pub fn is_delivered(&self) -> bool
        ensures { result ≡ delivered self.now }
    {
        self.lost() == 0 && self.unsent().is_empty() && self.station.next_header().is_none()
    }

    /// Returns the state of the station.
    pub fn state(&self) -> State
        ensures { result ≡ self.now.station.core.station.state }
    {
        self.station.state()
    }

    /// Returns the counters of the station.
    pub fn counters(&self) -> &Counters
        ensures { result.now ≡ self.now.station.core.counters }
    {
        self.station.counters()
    }

    /// Returns the totals of the link.
    pub fn totals(&self) -> Totals
        ensures { result ≡ self.now.totals }
    {
        self.totals
    }

    /// Returns the sizes with which it was made.
    pub fn config(&self) -> Config
        ensures { result ≡ config_of self.now.station.core.limits self.now.station.syn }
    {
        self.station.config()
    }
}
