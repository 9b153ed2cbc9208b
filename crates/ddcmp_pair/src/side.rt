//! One end of a pair: its station, and its history since the line was cleared.
mod receiver;
mod sender;

use crate::frames::Frames;
use crate::messages::Messages;
use crate::{Event, Reply};
use ddcmp_frame::Reader;
use ddcmp_proto::{Config, ConfigRefusal, Memory, Station};
use std::alloc::Global;
use std::marker::Model;

/// One end of a pair. It keeps the allocator for its histories.
pub(crate) struct Side {
    alloc: Global,
    station: Station,
    /// Reads the bytes that arrive once more, for the place of the good frames.
    reader: Reader,
    given: Messages,
    taken: Messages,
    sent: Frames,
    arrived: Vec<u8>,
    acknowledged: u64,
    starts: u32,
    place: Option<usize>,
    /// Room for a frame with its fill, or for a message.
    buffer: Vec<u8>,
}

// Manual, since a derived `Drop` is expanded wherever an end is dropped.
impl Drop for Side {
    fn drop(self) {
        let Side {
            alloc: _,
            station: _station,
            reader: _reader,
            given: _given,
            taken: _taken,
            sent: _sent,
            arrived: _arrived,
            acknowledged: _,
            starts: _,
            place: _,
            buffer: _buffer,
        } = self;
    }
}

impl Model for Side {
    ghost use Rattle.std.specs.Prelude.{◌≡◌, ◌+◌, ◌<◌, ◌^◌, length, vec_len};
    ghost use Rattle.ddcmp_pair.specs.Inside.Sides.{SideView, end_with, IsSoundEnd, HasRead};

    ghost Value = { SideView };

    ghost view = { λ s. record {
      state = end_with s.station s.given.all s.taken.all s.sent.all s.arrived.items
          s.acknowledged s.starts;
      place = s.place;
    } };

    ghost invariant = { λ s. HasRead s.station s.reader s.arrived.items
        × IsSoundEnd (end_with s.station s.given.all s.taken.all s.sent.all s.arrived.items
        s.acknowledged s.starts)
        × (vec_len s.buffer ≡ s.station.syn + s.station.core.limits.longest + 10)
        × (length s.given.all < 2 ^ 63) };
}

impl Side {
    ghost use Rattle.std.specs.Prelude.{◌≡◌, ◌⊎◌, ◌<◌, ◌≤◌, true, false, ◌&&◌, nat_le, [], length};
    ghost use Rattle.std.specs.Prelude.{slice_index_or, Some, None, is_some, Err, IsOk, IfOk};
    ghost use Rattle.std.specs.Prelude.{OnErr};
    ghost use Rattle.ddcmp_proto.specs.Config.{first_refusal};
    ghost use Rattle.ddcmp_frame.specs.Reader.{StandsFor};
    ghost use Rattle.ddcmp_core.specs.Store.{with_front};
    ghost use Rattle.ddcmp_core.specs.Table.{is_halted, answer_to_start};
    ghost use Rattle.ddcmp_pair.specs.Run.{new_end, after_start_here, after_event_here, started};
    ghost use Rattle.ddcmp_pair.specs.Run.{reply_here, is_honest_here, cleared, handed_up};
    ghost use Rattle.ddcmp_pair.specs.Run.{asks_here};
    ghost use Rattle.ddcmp_pair.specs.Choices.{after_choice_here};
    ghost use Rattle.ddcmp_pair.specs.Inside.Sides.{IsPlaced};

    /// Makes an end with an empty history, which acknowledges messages when they are taken if
    /// `by_user` is set.
    pub(crate) fn new(alloc: Global, config: Config, by_user: bool) -> Result<Side, ConfigRefusal>
        ensures made { IfOk result (λ s. s.state ≡ after_choice_here by_user (new_end config)) }
        ensures place { IfOk result (λ s. s.place ≡ Some 0) }
        ensures refused { (refusal : ConfigRefusal) → first_refusal config ≡ Some refusal → result
            ≡ Err refusal }
        ensures only { first_refusal config ≡ None → IsOk result
            ⊎ (result ≡ Err ConfigRefusal.Memory) }
    {
        let mut station = match Station::new(alloc, config) {
            Ok(station) => station,
            Err(refusal) => return Err(refusal),
        };
        // Not refused: a new station is halted, and its inbox is empty.
        let _chosen = station.acknowledge_on_take(by_user);
        let Ok(reader) = Reader::new(alloc, config.max) else {
            return Err(ConfigRefusal::Memory);
        };
        let Ok(buffer) = Vec::from_elem(alloc, 0u8, config.frame_room()) else {
            return Err(ConfigRefusal::Memory);
        };
        Ok(Side {
            alloc,
            station,
            reader,
            given: Messages::new(alloc),
            taken: Messages::new(alloc),
            sent: Frames::new(alloc),
            arrived: Vec::new(alloc),
            acknowledged: 0,
            starts: 0,
            place: Some(0),
            buffer,
        })
    }

    /// Applies an event at this end; `sent` are the frames that the other end has sent.
    pub(crate) fn apply(&mut self, event: &Event, sent: &Frames) -> Result<Reply, Memory>
        requires { IsPlaced self.old sent.now.all }
        ensures state { IsOk result → self.new.state ≡ after_event_here event.now self.old.state }
        ensures reply { IfOk result (λ reply. reply ≡ reply_here event.now self.old.state) }
        ensures placed { IsPlaced self.new sent.now.all }
        ensures honest { IsOk result → is_some self.new.place
            ≡ (is_honest_here event.now self.old.state sent.now.all && is_some self.old.place) }
        ensures memory { OnErr result (self.new ≡ self.old) }
        ensures asks { asks_here event.now self.old.state ≡ false → IsOk result }
    {
        match event {
            Event::Start(_here) => Ok(self.start()),
            Event::Halt(_here) => {
                self.station.halt();
                Ok(Reply::Halted)
            }
            Event::Send(_here, message) => self.send(message.as_slice()),
            Event::Poll(_here) => self.poll(),
            Event::Arrive(_here, bytes) => self.arrive(bytes.as_slice(), sent),
            Event::Expire(_here) => Ok(Reply::Expired(self.station.expire())),
            Event::Take(_here) => self.take(),
            Event::Clear => Ok(Reply::Nothing),
        }
    }

    fn start(&mut self) -> Reply
        ensures state { self.new ≡ record self.old { state = after_start_here self.old.state } }
        ensures reply { result ≡ started (answer_to_start self.old.state.core.station) }
    {
        match self.station.start() {
            Ok(dropped) => {
                self.starts = self.starts.saturating_add(1);
                Reply::Started(dropped)
            }
            Err(refusal) => Reply::StartRefused(refusal),
        }
    }

    /// Clears the history of this end, which is halted.
    pub(crate) fn clear(&mut self)
        requires { is_halted self.old.state.core.station.state ≡ true }
        ensures state { self.new.state ≡ cleared self.old.state }
        ensures place { self.new.place ≡ Some 0 }
    {
        self.station.clear_line();
        self.reader.reset();
        self.given.clear();
        self.taken.clear();
        self.sent.clear();
        self.arrived.clear();
        self.acknowledged = 0;
        self.starts = 0;
        self.place = Some(0);
    }

    /// Returns the number of messages accepted.
    pub(crate) fn given(&self) -> usize
        ensures { result ≡ length self.now.state.given }
    {
        self.given.len()
    }

    /// Returns message `i` of those accepted, counted from 0.
    pub(crate) fn given_at(&self, i: usize) -> &[u8]
        requires { i < length self.now.state.given }
        ensures { result.now ≡ slice_index_or self.now.state.given i [] }
    {
        self.given.at(i)
    }

    /// Returns the number of delivered messages.
    pub(crate) fn handed_up(&self) -> usize
        ensures { result ≡ length (handed_up self.now.state) }
    {
        self.taken.len() + self.station.waiting() as usize
    }

    /// Copies message `i` of those delivered, counted from 0, to the front of `out` and returns its
    /// length.
    pub(crate) fn handed_up_at(&self, i: usize, out: &mut [u8]) -> usize
        requires there { i < length (handed_up self.now.state) }
        requires longest { self.now.state.core.limits.longest ≤ length out.old }
        ensures length { result ≡ length (slice_index_or (handed_up self.now.state) i []) }
        ensures out { out.new
            ≡ with_front (Some (slice_index_or (handed_up self.now.state) i [])) out.old }
    {
        // The last delivered messages are in the inbox.
        let waiting = self.station.waiting() as usize;
        let left = self.taken.len() + waiting - i;
        if left <= waiting {
            return self.station.waiting_at((waiting - left) as u8, out);
        }
        let message = self.taken.at(i);
        out[..message.len()].copy_from_slice(message);
        message.len()
    }

    /// Returns how many messages were reported acknowledged.
    pub(crate) fn acknowledged(&self) -> u64
        ensures { result ≡ self.now.state.acknowledged }
    {
        self.acknowledged
    }

    /// Returns whether this end started at most once.
    pub(crate) fn began_once(&self) -> bool
        ensures { result ≡ nat_le self.now.state.starts 1 }
    {
        self.starts <= 1
    }

    /// Returns whether all arrivals here were honest.
    pub(crate) fn is_placed(&self) -> bool
        ensures { result ≡ is_some self.now.place }
    {
        self.place.is_some()
    }

    /// Returns the frames sent.
    pub(crate) fn sent(&self) -> &Frames
        ensures { result.now.all ≡ self.now.state.sent }
    {
        &self.sent
    }

    pub(crate) fn station(&self) -> &Station
        ensures core { result.now.core ≡ self.now.state.core }
        ensures syn { result.now.syn ≡ self.now.state.syn }
        ensures line { StandsFor result.now.line self.now.state.arrived }
    {
        &self.station
    }
}
