//! The bytes of the line.
ghost use Rattle.std.specs.Prelude.{◌≡◌, ◌≢◌, ◌+◌, ◌<◌, ◌≤◌, ◌^◌, ℕ, List, [], ◌++◌, unwrap_or};
ghost use Rattle.std.specs.Prelude.{length, take, option_map, Some, None};
ghost use Rattle.ddcmp_num.specs.Check.{check_of};
ghost use Rattle.ddcmp_frame.specs.Reader.{StandsFor, open_of};
ghost use Rattle.ddcmp_window.specs.Store.{with_front};
ghost use Rattle.ddcmp_core.specs.Table.{next, next_frame};
ghost use Rattle.ddcmp_proto.specs.Bytes.{frame_on_line, after_poll, after_piece, notices_of_piece};
ghost use Rattle.ddcmp_proto.specs.Station.{StationView, held_of};
ghost use Rattle.ddcmp_proto.specs.StationCalls.{Feeds, Polls};
ghost use Rattle.ddcmp_c.specs.Codes.{code_of_notices, acknowledged_of};
ghost use Rattle.ddcmp_c.specs.Calls.{Asks, Makes};

use crate::handle::{Handle, put_back, take_out};
use crate::values::{CLOSED, CNotice, LONG_LINE, OK, ROOM, notice_code};
use ddcmp_num::check;
use std::alloc::Global;

/// Handles bytes of the line, up to the first that yields a notice.
#[unsafe(no_mangle)]
pub extern "C" fn ddcmp_feed(
    alloc: Global,
    station: &mut Handle,
    piece: &[u8],
    used: &mut usize,
    notice: &mut CNotice,
) -> u32
    ensures closed { station.old.station ≡ None
        → (result ≡ CLOSED) × (station.new.station ≡ None) }
    ensures long { (s : StationView) → station.old.station ≡ Some s
        → 2 ^ 64 ≤ s.line.offset + length piece.now
        → (result ≡ LONG_LINE) × (station.new.station ≡ Some s) }
    ensures unused { result ≢ OK → (used.new ≡ 0) × (notice.new ≡ code_of_notices []) }
    ensures fed { (s : StationView) → station.old.station ≡ Some s
        → s.line.offset + length piece.now < 2 ^ 64 → result ≡ OK }
    ensures state { (s : StationView) (text : List ℕ) → station.old.station ≡ Some s
        → result ≡ OK → StandsFor s.line text → option_map (λ n. n.core) station.new.station
        ≡ Some (after_piece text (take used.new piece.now) s.core) }
    ensures stands { (s t : StationView) (text : List ℕ) → station.old.station ≡ Some s
        → station.new.station ≡ Some t → result ≡ OK → StandsFor s.line text
        → StandsFor t.line (text ++ take used.new piece.now) }
    ensures told { (s : StationView) (text : List ℕ) → station.old.station ≡ Some s
        → result ≡ OK → StandsFor s.line text → notice.new
        ≡ code_of_notices (notices_of_piece text (take used.new piece.now) s.core) }
    ensures first { (s : StationView) (text : List ℕ) (n : ℕ) → station.old.station ≡ Some s
        → result ≡ OK → StandsFor s.line text → n < used.new
        → notices_of_piece text (take n piece.now) s.core ≡ [] }
    ensures used { used.new ≤ length piece.now }
    ensures whole { result ≡ OK → notice.new.kind ≡ 0 → used.new ≡ length piece.now }
    ensures some { result ≡ OK → 0 < length piece.now → 0 < used.new }
    ensures call { result ≡ OK
        → Makes (Feeds (take used.new piece.now)) station.old.station station.new.station }
    // Messages that are reported acknowledged were removed. This needs no known text.
    ensures kept { (s : StationView) → station.old.station ≡ Some s → result ≡ OK
        → (t : StationView) × (station.new.station ≡ Some t)
        × (acknowledged_of notice.new + length t.core.station.out ≤ length s.core.station.out)
        × (t.line.offset ≡ s.line.offset + used.new) × (t.core.limits ≡ s.core.limits)
        × (t.syn ≡ s.syn) }
{
    *used = 0;
    *notice = notice_code(None);
    let Some(mut open) = take_out(alloc, station) else {
        return CLOSED;
    };
    if u64::MAX - open.offset() < piece.len() as u64 {
        put_back(station, open);
        return LONG_LINE;
    }
    let fed = open.feed(piece);
    put_back(station, open);
    *used = fed.used;
    *notice = notice_code(fed.notice);
    OK
}

/// Writes the next frame to the front of `out`, and returns its length, or 0 if there is none.
#[unsafe(no_mangle)]
pub extern "C" fn ddcmp_poll(
    alloc: Global,
    station: &mut Handle,
    out: &mut [u8],
    written: &mut usize,
) -> u32
    ensures closed { station.old.station ≡ None
        → (result ≡ CLOSED) × (station.new.station ≡ None) }
    ensures short { (s : StationView) → station.old.station ≡ Some s
        → length out.old < s.syn + s.core.limits.longest + 10
        → (result ≡ ROOM) × (station.new.station ≡ Some s) }
    ensures unwritten { result ≢ OK → (out.new ≡ out.old) × (written.new ≡ 0) }
    ensures state { (s : StationView) → station.old.station ≡ Some s
        → s.syn + s.core.limits.longest + 10 ≤ length out.old → (result ≡ OK)
        × (station.new.station ≡ Some (record s { core = after_poll s.core })) }
    ensures length { (s : StationView) → station.old.station ≡ Some s → result ≡ OK → written.new
        ≡ unwrap_or (option_map length
        (option_map (frame_on_line s.syn) (next_frame (next s.core.station)))) 0 }
    ensures out { (s : StationView) → station.old.station ≡ Some s → result ≡ OK → out.new
        ≡ with_front (option_map (frame_on_line s.syn) (next_frame (next s.core.station))) out.old }
    ensures call { result ≡ OK → Makes Polls station.old.station station.new.station }
{
    *written = 0;
    let Some(mut open) = take_out(alloc, station) else {
        return CLOSED;
    };
    if out.len() < open.frame_room() {
        put_back(station, open);
        return ROOM;
    }
    let polled = open.poll(out);
    put_back(station, open);
    *written = polled.unwrap_or(0);
    OK
}

/// Returns the length of the next frame, or 0 if there is none.
#[unsafe(no_mangle)]
pub extern "C" fn ddcmp_next_length(alloc: Global, station: &mut Handle) -> usize
    ensures { Asks 0
        (λ s. unwrap_or (option_map length
        (option_map (frame_on_line s.syn) (next_frame (next s.core.station)))) 0)
        station.old.station result station.new.station }
{
    let Some(open) = take_out(alloc, station) else {
        return 0;
    };
    let value = open.next_length().unwrap_or(0);
    put_back(station, open);
    value
}

/// Returns the size of the buffer that `ddcmp_poll` needs.
#[unsafe(no_mangle)]
pub extern "C" fn ddcmp_frame_room(alloc: Global, station: &mut Handle) -> usize
    ensures { Asks 0 (λ s. s.syn + s.core.limits.longest + 10)
        station.old.station result station.new.station }
{
    let Some(open) = take_out(alloc, station) else {
        return 0;
    };
    let value = open.frame_room();
    put_back(station, open);
    value
}

/// Returns the number of bytes of the line since it was cleared.
#[unsafe(no_mangle)]
pub extern "C" fn ddcmp_offset(alloc: Global, station: &mut Handle) -> u64
    ensures { Asks 0 (λ s. s.line.offset) station.old.station result station.new.station }
{
    let Some(open) = take_out(alloc, station) else {
        return 0;
    };
    let value = open.offset();
    put_back(station, open);
    value
}

/// Returns the number of bytes of the incomplete frame, from its start byte on.
#[unsafe(no_mangle)]
pub extern "C" fn ddcmp_open(alloc: Global, station: &mut Handle) -> usize
    ensures { Asks 0 (λ s. open_of s.line) station.old.station result station.new.station }
{
    let Some(open) = take_out(alloc, station) else {
        return 0;
    };
    let value = open.open();
    put_back(station, open);
    value
}

/// Returns the number of bytes of messages and of the incomplete frame.
#[unsafe(no_mangle)]
pub extern "C" fn ddcmp_held(alloc: Global, station: &mut Handle) -> usize
    ensures { Asks 0 held_of station.old.station result station.new.station }
{
    let Some(open) = take_out(alloc, station) else {
        return 0;
    };
    let value = open.held();
    put_back(station, open);
    value
}

/// Returns the CRC (block check) of a text.
#[unsafe(no_mangle)]
pub extern "C" fn ddcmp_check(text: &[u8]) -> u16
    ensures { result ≡ check_of text.now }
{
    check(text)
}
