//! A station over the bytes of its line.
mod feed;

ghost use Rattle.std.specs.Prelude.{◌≡◌, ◌+◌, ◌≤◌, ◌++◌, length, drop, replicate, option_map};
ghost use Rattle.std.specs.Prelude.{IfSome};
ghost use Rattle.ddcmp_frame.specs.Wire.{wire, IsFrame};
ghost use Rattle.ddcmp_window.specs.Store.{with_front};
ghost use Rattle.ddcmp_core.specs.Table.{next, next_frame};
ghost use Rattle.ddcmp_proto.specs.Bytes.{data_in, frame_on_line, after_poll};

use crate::config::{Config, ConfigRefusal, MAX_SYN};
use ddcmp_core::{
    Core, Counters, Header, MAX_COUNT, Numbers, SendRefusal, Seq, StartRefusal, State,
};
use ddcmp_frame::codes::SYN;
use ddcmp_frame::{Reader, write_around};
use ddcmp_window::SlotStore;
pub use feed::Fed;
use std::alloc::Global;
use std::marker::Model;

/// The most SYN fill that a station writes before a frame.
const FILL: [u8; 16] = [SYN; 16];

/// A station over the bytes of its line, without I/O or time. After `new` no call allocates.
///
/// Call `start`. After each `feed`, `send` and `expire` call `poll` until it returns None, and
/// write to the line what it puts into `out`. Pass received bytes to `feed`, and what it didn't use
/// again; `take` messages while there are any, and don't read the line while the inbox is full. If
/// `take_arm` returns true, which is to be asked after each `poll` and `feed`, set a deadline; if
/// `timer_on` returns true when it is reached, call `expire`.
pub struct Station {
    core: Core<SlotStore>,
    reader: Reader,
    config: Config,
}

// Manual, since a derived `Drop` is expanded wherever a station is dropped.
impl Drop for Station {
    fn drop(self) {
        let Station {
            core: _core,
            reader: _reader,
            config: _,
        } = self;
    }
}

impl Model for Station {
    ghost use Rattle.std.specs.Prelude.{◌≡◌, ◌≤◌};
    ghost use Rattle.ddcmp_proto.specs.declared.config.TheConstants.{MAX_SYN};
    ghost use Rattle.ddcmp_proto.specs.Config.{limits_of};
    ghost use Rattle.ddcmp_proto.specs.Station.{StationView};

    ghost Value = { StationView };

    ghost view = { λ s. record { core = s.core; syn = s.config.syn; line = s.reader } };

    ghost invariant = { λ s. (s.reader.max ≡ s.core.limits.longest)
        × (s.config.syn ≤ MAX_SYN) × (s.core.limits ≡ limits_of s.config) };
}

/// Writes SYN fill and a frame at the front of `out`, which has the `count` bytes of data in place;
/// returns the number of bytes of both.
fn write_line(syn: u8, header: &Header, count: usize, out: &mut [u8]) -> usize
    requires syn { (syn ≤ MAX_SYN) × (syn ≤ length out.old) }
    requires frame { IsFrame header.now (data_in syn count out.old) }
    requires room { syn + length (wire header.now (data_in syn count out.old)) ≤ length out.old }
    ensures length { result
        ≡ length (replicate syn SYN ++ wire header.now (data_in syn count out.old)) }
    ensures written { out.new
        ≡ (replicate syn SYN ++ wire header.now (data_in syn count out.old))
        ++ drop result out.old }
{
    let (fill, frame) = out.split_at_mut(syn as usize);
    fill.copy_from_slice(&FILL[..syn as usize]);
    fill.len() + write_around(header, count, frame)
}

/// Writes SYN fill and the next frame at the front of `out`.
fn write_next(core: &mut Core<SlotStore>, syn: u8, out: &mut [u8]) -> Option<usize>
    requires syn { syn ≤ MAX_SYN }
    requires room { syn + core.old.limits.longest + 10 ≤ length out.old }
    ensures state { core.new ≡ after_poll core.old }
    ensures length { result
        ≡ option_map length (option_map (frame_on_line syn) (next_frame (next core.old.station))) }
    ensures most { IfSome result (λ n. n ≤ syn + core.old.limits.longest + 10) }
    ensures within { IfSome result (λ n. n ≤ MAX_COUNT + 10 + MAX_SYN) }
    ensures out { out.new
        ≡ with_front (option_map (frame_on_line syn) (next_frame (next core.old.station))) out.old }
{
    match core.next(&mut out[syn as usize + 8..]) {
        None => None,
        Some((header, count)) => Some(write_line(syn, &header, count, out)),
    }
}

impl Station {
    ghost use Rattle.std.specs.Prelude.{◌≡◌, ◌⊎◌, [], Some, None, Err, IsOk, IfOk, IfSome};
    ghost use Rattle.ddcmp_proto.specs.Config.{first_refusal, core_made};
    ghost use Rattle.ddcmp_frame.specs.Reader.{StandsFor};

    /// Makes a halted station whose line has received no bytes. Allocates all the memory that it
    /// will need.
    pub fn new(alloc: Global, config: Config) -> Result<Station, ConfigRefusal>
        ensures made { IfOk result (λ s. (s.core ≡ core_made config) × (s.syn ≡ config.syn)) }
        ensures stands { IfOk result (λ s. StandsFor s.line []) }

        // If a size is out of range, the first such is the refusal; otherwise it can only be an
        // allocation failure.
        ensures refused { (refusal : ConfigRefusal) → first_refusal config ≡ Some refusal → result
            ≡ Err refusal }
        ensures only { first_refusal config ≡ None → IsOk result
            ⊎ (result ≡ Err ConfigRefusal.Memory) }
    {
        match config.first_refusal() {
            Some(refusal) => Err(refusal),
            None => match Station::make(alloc, config) {
                Some(station) => Ok(station),
                None => Err(ConfigRefusal::Memory),
            },
        }
    }

    /// Makes a station with sizes in range; None if an allocation fails.
    fn make(alloc: Global, config: Config) -> Option<Station>
        requires { first_refusal config ≡ None }
        ensures made { IfSome result (λ s. (s.core ≡ core_made config) × (s.syn ≡ config.syn)) }
        ensures stands { IfSome result (λ s. StandsFor s.line []) }
    {
        let out = SlotStore::new(alloc, config.window as u8, config.max).ok()?;
        let inbox = SlotStore::new(alloc, config.inbox as u8, config.max).ok()?;
        let reader = Reader::new(alloc, config.max).ok()?;
        Some(Station {
            core: Core::new(out, inbox, config.restart),
            reader,
            config,
        })
    }
}

impl Station {
    ghost use Rattle.std.specs.Prelude.{◌≡◌, ◌↔◌, ℕ, ◌+◌, ◌<◌, ◌≤◌, true, false, List, [], length};
    ghost use Rattle.std.specs.Prelude.{slice_index_or, IsTrue, Some, Err, OnErr, IfSome};
    ghost use Rattle.std.specs.Prelude.{option_map, if◌then◌else◌};
    ghost use Rattle.ddcmp_frame.specs.Reader.{StandsFor, open_of};
    ghost use Rattle.ddcmp_frame.specs.Reading.{open_at_end, kept_at_end};
    ghost use Rattle.ddcmp_window.specs.Store.{first_message, with_front};
    ghost use Rattle.ddcmp_core.specs.Table.{may_start, answer_to_start, after_start};
    ghost use Rattle.ddcmp_core.specs.Table.{after_enter_maintenance, after_halt};
    ghost use Rattle.ddcmp_core.specs.Choosing.{chosen};
    ghost use Rattle.ddcmp_core.specs.Choosing.{answer_to_choose};
    ghost use Rattle.ddcmp_core.specs.Table.{send_refusal as send_refusal_of, answer_to_send};
    ghost use Rattle.ddcmp_core.specs.Table.{may_send, after_accept, answer_to_send_maintenance};
    ghost use Rattle.ddcmp_core.specs.Table.{may_send_maintenance, after_take, after_expire, is_on};
    ghost use Rattle.ddcmp_core.specs.Table.{is_ack};
    ghost use Rattle.ddcmp_core.specs.Table.{is_fresh, is_halted, after_take_arm, next, next_frame};
    ghost use Rattle.ddcmp_core.specs.Frames.{header_of};
    ghost use Rattle.ddcmp_core.specs.Counting.{counters_after_expire};
    ghost use Rattle.ddcmp_proto.specs.Bytes.{frame_on_line, after_poll};
    ghost use Rattle.ddcmp_proto.specs.Config.{config_of};
    ghost use Rattle.ddcmp_proto.specs.Station.{IsSoundStation, held_of, held_at_most};
    ghost use Rattle.ddcmp_proto.specs.Station.{message_bytes};

    /// Asks the peer to start; returns how many queued messages were dropped.
    pub fn start(&mut self) -> Result<u8, StartRefusal>
        ensures state { self.new ≡ record self.old {
          core = record self.old.core {
            station = if may_start self.old.core.station then after_start self.old.core.station
                else self.old.core.station;
          };
        } }
        ensures answer { result ≡ answer_to_start self.old.core.station }
        ensures refused { OnErr result (self.new ≡ self.old) }
    {
        self.core.start()
    }

    /// Enters the Maintenance state; returns how many queued messages were dropped.
    pub fn enter_maintenance(&mut self) -> Result<u8, StartRefusal>
        ensures state { self.new ≡ record self.old {
          core = record self.old.core {
            station = if may_start self.old.core.station
                then after_enter_maintenance self.old.core.station else self.old.core.station;
          };
        } }
        ensures answer { result ≡ answer_to_start self.old.core.station }
        ensures refused { OnErr result (self.new ≡ self.old) }
    {
        self.core.enter_maintenance()
    }

    /// Chooses when messages are acknowledged, if the station is halted and its inbox empty: when
    /// they are taken, or when they are received. It stays so over starts. A new station
    /// acknowledges what it receives.
    pub fn acknowledge_on_take(&mut self, by_user: bool) -> Result<(), StartRefusal>
        ensures state { self.new ≡ record self.old {
          core = record self.old.core { station = chosen by_user self.old.core.station };
        } }
        ensures answer { result ≡ answer_to_choose self.old.core.station }
        ensures refused { OnErr result (self.new ≡ self.old) }
    {
        self.core.acknowledge_on_take(by_user)
    }

    /// Halts: the station sends and accepts nothing more. Numbers and messages stay.
    pub fn halt(&mut self)
        ensures { self.new ≡ record self.old {
          core = record self.old.core { station = after_halt self.old.core.station };
        } }
    {
        self.core.halt();
    }

    /// Drops the bytes of the line so far, if the station is halted; returns whether it is.
    pub fn clear_line(&mut self) -> bool
        ensures answer { result ≡ is_halted self.old.core.station.state }
        ensures cleared { result ≡ true → StandsFor self.new.line [] }
        ensures core { (self.new.core ≡ self.old.core) × (self.new.syn ≡ self.old.syn) }
        ensures refused { result ≡ false → self.new ≡ self.old }
    {
        if self.state() != State::Halted {
            return false;
        }
        self.reader.reset();
        true
    }

    /// Returns why a message isn't accepted, or None if it is.
    pub fn send_refusal(&self, message: &[u8]) -> Option<SendRefusal>
        ensures { result
            ≡ send_refusal_of self.now.core.limits self.now.core.station message.now }
    {
        self.core.send_refusal(message)
    }

    /// Queues a message and returns its number.
    pub fn send(&mut self, message: &[u8]) -> Result<Seq, SendRefusal>
        ensures state { self.new ≡ record self.old {
          core = record self.old.core {
            station = if may_send self.old.core.limits self.old.core.station message.now
                then after_accept self.old.core.station message.now else self.old.core.station;
          };
        } }
        ensures answer { result
            ≡ answer_to_send self.old.core.limits self.old.core.station message.now }
        ensures refused { OnErr result (self.new ≡ self.old) }
    {
        self.core.send(message)
    }

    /// Queues a maintenance message.
    pub fn send_maintenance(&mut self, message: &[u8]) -> Result<(), SendRefusal>
        ensures state { self.new ≡ record self.old {
          core = record self.old.core {
            station = if may_send_maintenance self.old.core.limits self.old.core.station message.now
                then after_accept self.old.core.station message.now else self.old.core.station;
          };
        } }
        ensures answer { result
            ≡ answer_to_send_maintenance self.old.core.limits self.old.core.station message.now }
        ensures refused { OnErr result (self.new ≡ self.old) }
    {
        self.core.send_maintenance(message)
    }

    /// Writes SYN fill and the next frame at the front of `out`; returns how many bytes they have.
    pub fn poll(&mut self, out: &mut [u8]) -> Option<usize>
        requires { self.old.syn + self.old.core.limits.longest + 10 ≤ length out.old }
        ensures state { self.new ≡ record self.old { core = after_poll self.old.core } }
        ensures length { result ≡ option_map length
            (option_map (frame_on_line self.old.syn) (next_frame (next self.old.core.station))) }
        ensures most { IfSome result (λ n. n ≤ self.old.syn + self.old.core.limits.longest + 10) }
        ensures out { out.new ≡ with_front
            (option_map (frame_on_line self.old.syn) (next_frame
            (next self.old.core.station))) out.old }
        ensures within { IfSome result (λ n. n ≤ MAX_COUNT + 10 + MAX_SYN) }
    {
        write_next(&mut self.core, self.config.syn, out)
    }

    /// Returns the header of the frame that `poll` would write.
    pub fn next_header(&self) -> Option<Header>
        ensures header { result ≡ option_map header_of (next_frame (next self.now.core.station)) }
        ensures sound { IsSoundStation self.now }
    {
        self.core.next_header()
    }

    /// Returns the number of bytes that `poll` would write.
    pub fn next_length(&self) -> Option<usize>
        ensures { result ≡ option_map length
            (option_map (frame_on_line self.now.syn) (next_frame (next self.now.core.station))) }
    {
        match self.next_header() {
            None => None,
            Some(header) => Some(self.config.syn as usize + header.frame_length()),
        }
    }

    /// Moves the first message of the inbox to the front of `out` and returns its length.
    pub fn take(&mut self, out: &mut [u8]) -> Option<usize>
        requires { self.old.core.limits.longest ≤ length out.old }
        ensures state { self.new ≡ record self.old {
          core = record self.old.core { station = after_take self.old.core.station };
        } }
        ensures length { result ≡ option_map length (first_message self.old.core.station.inbox) }
        ensures out { out.new ≡ with_front (first_message self.old.core.station.inbox) out.old }
    {
        self.core.take(out)
    }

    /// Handles an expiry of the timer; returns whether it was on.
    pub fn expire(&mut self) -> bool
        ensures state { self.new ≡ record self.old {
          core = record self.old.core {
            station = after_expire self.old.core.station;
            counters = counters_after_expire self.old.core.station self.old.core.counters;
          };
        } }
        ensures answer { result ≡ is_on self.old.core.station.timer }
    {
        self.core.expire()
    }

    /// Returns whether the timer was started since the last call: if so, the caller sets its
    /// deadline.
    pub fn take_arm(&mut self) -> bool
        ensures state { self.new ≡ record self.old {
          core = record self.old.core { station = after_take_arm self.old.core.station };
        } }
        ensures answer { result ≡ is_fresh self.old.core.station.timer }
    {
        self.core.take_arm()
    }

    /// Returns the state.
    pub fn state(&self) -> State
        ensures { result ≡ self.now.core.station.state }
    {
        self.core.state()
    }

    /// Returns the numbers of the station.
    pub fn numbers(&self) -> Numbers
        ensures { result ≡ record {
          r = record { 0 = self.now.core.station.r };
          n = record { 0 = self.now.core.station.n };
          a = record { 0 = self.now.core.station.a };
          t = record { 0 = self.now.core.station.t };
        } }
    {
        self.core.numbers()
    }

    /// Returns the number of queued messages.
    pub fn outgoing(&self) -> u8
        ensures { result ≡ length self.now.core.station.out }
    {
        self.core.outgoing()
    }

    /// Returns whether fewer messages are queued than the window allows.
    pub fn room(&self) -> bool
        ensures { IsTrue result ↔ (length self.now.core.station.out < self.now.core.limits.window) }
    {
        self.core.room()
    }

    /// Returns the number of messages in the inbox.
    pub fn waiting(&self) -> u8
        ensures { result ≡ length self.now.core.station.inbox }
    {
        self.core.waiting()
    }

    /// Returns the length of message `i` of the inbox, counted from 0.
    pub fn waiting_length(&self, i: u8) -> usize
        requires { i < length self.now.core.station.inbox }
        ensures length { result ≡ length (slice_index_or self.now.core.station.inbox i []) }
        ensures most { result ≤ self.now.core.limits.longest }
    {
        self.core.waiting_length(i)
    }

    /// Copies message `i` of the inbox, counted from 0, to the front of `out` and returns its
    /// length.
    pub fn waiting_at(&self, i: u8, out: &mut [u8]) -> usize
        requires there { i < length self.now.core.station.inbox }
        requires longest { self.now.core.limits.longest ≤ length out.old }
        ensures length { result ≡ length (slice_index_or self.now.core.station.inbox i []) }
        ensures out { out.new
            ≡ with_front (Some (slice_index_or self.now.core.station.inbox i [])) out.old }
    {
        self.core.waiting_at(i, out)
    }

    /// Returns whether the timer isn't off.
    pub fn timer_on(&self) -> bool
        ensures { result ≡ is_on self.now.core.station.timer }
    {
        self.core.timer_on()
    }

    /// Returns whether an ACK is owed, or data that carry it.
    pub fn owes_ack(&self) -> bool
        ensures { result ≡ is_ack self.now.core.station.reply }
    {
        self.core.owes_ack()
    }

    /// Returns the counters.
    pub fn counters(&self) -> &Counters
        ensures { result.now ≡ self.now.core.counters }
    {
        self.core.counters()
    }

    /// Returns the number of bytes of the line since it was cleared.
    pub fn offset(&self) -> u64
        ensures value { result ≡ self.now.line.offset }
        ensures text { (text : List ℕ) → StandsFor self.now.line text → result ≡ length text }
    {
        self.reader.offset()
    }

    /// Returns the number of bytes from the start byte of the unfinished frame on.
    pub fn open(&self) -> usize
        ensures value { result ≡ open_of self.now.line }
        ensures text { (text : List ℕ) → StandsFor self.now.line text
            → result ≡ open_at_end self.now.core.limits.longest text }
    {
        self.reader.open()
    }

    /// Returns the number of bytes of queued messages, of received messages, and of the unfinished
    /// frame; none for a frame that is too long.
    pub fn held(&self) -> usize
        ensures value { result ≡ held_of self.now }
        ensures text { (text : List ℕ) → StandsFor self.now.line text
            → result
            ≡ message_bytes self.now.core.station + kept_at_end self.now.core.limits.longest text }
        ensures within { result ≤ held_at_most self.now.core.limits }
    {
        self.core.bytes() + self.reader.kept()
    }

    /// Returns the sizes with which it was made.
    pub fn config(&self) -> Config
        ensures { result ≡ config_of self.now.core.limits self.now.syn }
    {
        let Station { config, .. } = self;
        *config
    }

    /// Returns the room that `poll` needs: the largest number of bytes that it writes.
    pub fn frame_room(&self) -> usize
        ensures { result ≡ self.now.syn + self.now.core.limits.longest + 10 }
    {
        self.config.frame_room()
    }

    /// States what holds for every station. Does nothing.
    pub fn holds(&self)
        ensures { IsSoundStation self.now }
    {
        self.core.holds();
    }
}
