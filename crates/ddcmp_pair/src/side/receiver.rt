//! The receiver of an end: it feeds arrived bytes to the station, and follows the place of their
//! frames.
ghost use Rattle.std.specs.Prelude.{◌≡◌, ◌+◌, ◌-◌, ◌<◌, ◌≤◌, ◌^◌, ℕ, ◌&&◌, true, false, [], ◌∷◌};
ghost use Rattle.std.specs.Prelude.{◌++◌, length, take, drop, Some, is_some, IfSome, vec_len};
ghost use Rattle.std.specs.Prelude.{vec_capacity};
ghost use Rattle.ddcmp_frame.specs.Reader.{StandsFor};
ghost use Rattle.ddcmp_frame.specs.Reading.{good_frames};
ghost use Rattle.ddcmp_core.specs.Table.{is_halted, acknowledged_by};
ghost use Rattle.ddcmp_core.specs.Counting.{count_plus};
ghost use Rattle.ddcmp_proto.specs.Bytes.{after_piece, notices_of_piece};
ghost use Rattle.ddcmp_pair.specs.Place.{place_after as place_after_of, place_next, place_of};
ghost use Rattle.ddcmp_pair.specs.Run.{acknowledged_in, restarts_by, restarts_in};

use crate::frames::Frames;
use crate::side::Side;
use crate::{Notices, Reply};
use ddcmp_core::Notice;
use ddcmp_frame::{Header, Item, Reader};
use ddcmp_proto::{Memory, Station};

/// The notices, and the counts taken from them.
#[derive(Drop)]
struct NoticeTally {
    notices: Vec<Notice>,
    acknowledged: u64,
    starts: u32,
}

impl NoticeTally {
    /// Adds a notice for which there is room.
    fn hear(&mut self, notice: Notice)
        requires room { vec_len self.old.notices < vec_capacity self.old.notices }
        requires small { 0 < acknowledged_by (Some notice)
            → self.old.acknowledged + acknowledged_by (Some notice) < 2 ^ 64 }
        ensures notices { self.new.notices.items ≡ self.old.notices.items ++ notice ∷ [] }
        ensures acknowledged { self.new.acknowledged
            ≡ self.old.acknowledged + acknowledged_by (Some notice) }
        ensures starts { self.new.starts ≡ count_plus self.old.starts (restarts_by notice) }
        ensures len { vec_len self.new.notices ≡ vec_len self.old.notices + 1 }
        ensures capacity { vec_capacity self.new.notices ≡ vec_capacity self.old.notices }
    {
        self.notices.push_reserved(notice);
        match notice {
            Notice::Acknowledged(messages) | Notice::HandedUpAndAcknowledged(messages) => {
                self.acknowledged += messages as u64;
            }
            Notice::Restarted(_dropped) => self.starts = self.starts.saturating_add(1),
            _ => {}
        }
    }
}

/// Feeds the bytes from `from` on.
fn feed_all(station: &mut Station, arrived: &[u8], from: usize, heard: &mut NoticeTally)
    requires from { from ≤ length arrived.now }
    requires stands { StandsFor station.old.line (take from arrived.now) }
    requires room { vec_len heard.old.notices + (length arrived.now - from)
        ≤ vec_capacity heard.old.notices }
    requires small { is_halted station.old.core.station.state ≡ false
        → heard.old.acknowledged + length station.old.core.station.out < 2 ^ 64 }
    ensures stands { StandsFor station.new.line arrived.now }
    ensures state { station.new.core
        ≡ after_piece (take from arrived.now) (drop from arrived.now) station.old.core }
    ensures syn { station.new.syn ≡ station.old.syn }
    ensures notices { heard.new.notices.items ≡ heard.old.notices.items
        ++ notices_of_piece (take from arrived.now) (drop from arrived.now) station.old.core }
    ensures acknowledged { heard.new.acknowledged ≡ heard.old.acknowledged + acknowledged_in
        (notices_of_piece (take from arrived.now) (drop from arrived.now) station.old.core) }
    ensures starts { heard.new.starts ≡ count_plus heard.old.starts (restarts_in
        (notices_of_piece (take from arrived.now) (drop from arrived.now) station.old.core)) }
    // Messages that were reported acknowledged have left the queue.
    ensures leaves { heard.new.acknowledged + length station.new.core.station.out
        ≤ heard.old.acknowledged + length station.old.core.station.out }
    // A halted station stays halted, and reports nothing acknowledged.
    ensures halted { is_halted station.old.core.station.state ≡ true
        → (is_halted station.new.core.station.state ≡ true)
        × (heard.new.acknowledged ≡ heard.old.acknowledged) }
{
    let mut at = from;
    while at < arrived.len() {
        let fed = station.feed(&arrived[at..]);
        at += fed.used;
        if let Some(notice) = fed.notice {
            heard.hear(notice);
        }
    }
}

/// Returns one past the first frame, from `place` on, that equals this one.
fn place_after(sent: &Frames, place: usize, header: &Header, data: &[u8]) -> Option<usize>
    requires { place ≤ length sent.now.all }
    ensures value { result ≡ place_after_of (header.now, «data».now) sent.now.all place }
    ensures within { IfSome result (λ n. n ≤ length sent.now.all) }
{
    for i in place..sent.len() {
        if sent.is_at(i, header, data) {
            return Some(i + 1);
        }
    }
    None
}

/// Returns the place after the item that a byte completed: a good frame is searched after the one
/// before it.
fn next_place(item: Option<Item>, data: &[u8], sent: &Frames, place: Option<usize>) -> Option<usize>
    requires { IfSome place (λ n. n ≤ length sent.now.all) }
    ensures value { result ≡ place_next item «data».now sent.now.all place }
    ensures within { IfSome result (λ n. n ≤ length sent.now.all) }
{
    match item {
        Some(Item::Good(_at, header)) => place_after(sent, place?, &header, data),
        _ => place,
    }
}

/// Reads the bytes from `from` on, and follows the place of the good frames.
fn follow(
    reader: &mut Reader,
    arrived: &[u8],
    from: usize,
    sent: &Frames,
    place: Option<usize>,
) -> Option<usize>
    requires from { from ≤ length arrived.now }
    requires stands { StandsFor reader.old (take from arrived.now) }
    requires placed { (n : ℕ) → place ≡ Some n
        → (place_of (good_frames reader.old.max (take from arrived.now)) sent.now.all ≡ Some n)
        × (n ≤ length sent.now.all) }
    ensures stands { StandsFor reader.new arrived.now }
    ensures max { reader.new.max ≡ reader.old.max }
    ensures placed { (n : ℕ) → result ≡ Some n
        → (place_of (good_frames reader.old.max arrived.now) sent.now.all ≡ Some n)
        × (n ≤ length sent.now.all) }
    ensures known { is_some result ≡ (is_some
        (place_of (good_frames reader.old.max arrived.now) sent.now.all) && is_some place) }
{
    let mut place = place;
    let mut at = from;
    while at < arrived.len() {
        let pushed = reader.push_all(&arrived[at..]);
        at += pushed.used;
        place = next_place(pushed.item, reader.data(), sent, place);
    }
    place
}

impl Side {
    ghost use Rattle.std.specs.Prelude.{◌≡◌, IsOk, IfOk, OnErr};
    ghost use Rattle.ddcmp_pair.specs.Run.{after_arrival_here, notices_at};
    ghost use Rattle.ddcmp_pair.specs.Inside.Sides.{IsPlaced};

    /// Handles bytes that arrive.
    pub(super) fn arrive(&mut self, bytes: &[u8], sent: &Frames) -> Result<Reply, Memory>
        requires { IsPlaced self.old sent.now.all }
        ensures state { IsOk result → self.new.state
            ≡ after_arrival_here bytes.now self.old.state }
        ensures reply { IfOk result (λ reply. reply
            ≡ Reply.Notices (notices_at bytes.now self.old.state)) }
        ensures placed { IsPlaced self.new sent.now.all }
        ensures honest { IsOk result → is_some self.new.place ≡ (is_some (place_of
            (good_frames self.old.state.core.limits.longest
            (self.old.state.arrived ++ bytes.now)) sent.now.all) && is_some self.old.place) }
        ensures memory { OnErr result (self.new ≡ self.old) }
        ensures asks { length bytes.now ≡ 0 → IsOk result }
    {
        let notices = Vec::with_capacity(self.alloc, bytes.len())?;
        let from = self.arrived.len();
        self.arrived.extend_from_slice(bytes)?;
        let mut heard = NoticeTally {
            notices,
            acknowledged: self.acknowledged,
            starts: self.starts,
        };
        self.place = follow(&mut self.reader, &self.arrived, from, sent, self.place);
        feed_all(&mut self.station, &self.arrived, from, &mut heard);
        self.acknowledged = heard.acknowledged;
        self.starts = heard.starts;
        Ok(Reply::Notices(Notices::new(heard.notices)))
    }
}
