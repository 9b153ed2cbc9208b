//! The connection between the laws of calls and the code: for each call of a station a function
//! that makes it, whose contract states that it is that call. A call that only returns something
//! has no such function: it has the station by a reference through which nothing changes.
ghost use Rattle.std.specs.Prelude.{◌≡◌, ◌+◌, ◌<◌, ◌≤◌, ◌^◌, ◌∷◌, ℕ, List, [], length, take, None};
ghost use Rattle.std.specs.Prelude.{if◌then◌else◌, is_ok, option_map, option_to_list, IfOk};
ghost use Rattle.ddcmp_frame.specs.Reader.{StandsFor};
ghost use Rattle.ddcmp_core.specs.Table.{acknowledged_by, answer_to_start, next, next_frame};
ghost use Rattle.ddcmp_proto.specs.Bytes.{frame_on_line, notices_of_piece};
ghost use Rattle.ddcmp_proto.specs.StationCalls.{HasDone, Starts, Halts, Sends, Polls, Feeds};
ghost use Rattle.ddcmp_proto.specs.StationCalls.{Expires, Takes, TakesArm, ClearsLine};
ghost use Rattle.ddcmp_proto.specs.StationCalls.{EntersMaintenance, SendsMaintenance};
ghost use Rattle.ddcmp_pair.specs.Run.{new_end, acknowledged_in};
ghost use Rattle.ddcmp_laws.specs.StationRuns.{IsStationAt, accepted_by, taken_by};

use ddcmp_proto::{Config, ConfigRefusal, Fed, SendRefusal, Seq, StartRefusal, Station};
use std::alloc::Global;

/// A new station is a new end of a run.
pub fn begins(alloc: Global, config: Config) -> Result<Station, ConfigRefusal>
    ensures { IfOk result (λ s. IsStationAt (new_end config) s) }
{
    Station::new(alloc, config)
}

/// Starts the station.
pub fn starts(station: &mut Station) -> Result<u8, StartRefusal>
    ensures done { HasDone Starts station.old station.new }
    ensures answer { result ≡ answer_to_start station.old.core.station }
{
    station.start()
}

/// Halts the station.
pub fn halts(station: &mut Station)
    ensures done { HasDone Halts station.old station.new }
{
    station.halt();
}

/// Queues a message. The run has it as accepted exactly if a number is returned.
pub fn sends(station: &mut Station, message: &[u8]) -> Result<Seq, SendRefusal>
    ensures done { HasDone (Sends message.now) station.old station.new }
    ensures accepted { accepted_by (Sends message.now) station.old
        ≡ (if is_ok result then message.now ∷ [] else []) }
{
    station.send(message)
}

/// Writes the next frame. A run has the frame as sent.
pub fn polls(station: &mut Station, out: &mut [u8]) -> Option<usize>
    requires { station.old.syn + station.old.core.limits.longest + 10 ≤ length out.old }
    ensures done { HasDone Polls station.old station.new }
    ensures bytes { option_map (λ n. take n out.new) result
        ≡ option_map (frame_on_line station.old.syn) (next_frame
        (next station.old.core.station)) }
{
    station.poll(out)
}

/// Handles bytes of the line and returns how many were used. The run counts the messages that the
/// notice reports acknowledged.
pub fn feeds(station: &mut Station, piece: &[u8]) -> Fed
    requires { station.old.line.offset + length piece.now < 2 ^ 64 }
    ensures done { HasDone (Feeds (take result.used piece.now)) station.old station.new }
    ensures acknowledged { (text : List ℕ) → StandsFor station.old.line text
        → acknowledged_in
        (notices_of_piece text (take result.used piece.now) station.old.core)
        ≡ acknowledged_by result.notice }
    ensures whole { result.notice ≡ None → result.used ≡ length piece.now }
{
    station.feed(piece)
}

/// Lets the reply timer expire.
pub fn expires(station: &mut Station) -> bool
    ensures done { HasDone Expires station.old station.new }
{
    station.expire()
}

/// Takes the first message. A run has it as taken.
pub fn takes(station: &mut Station, out: &mut [u8]) -> Option<usize>
    requires { station.old.core.limits.longest ≤ length out.old }
    ensures done { HasDone Takes station.old station.new }
    ensures taken { taken_by Takes station.old
        ≡ option_to_list (option_map (λ n. take n out.new) result) }
{
    station.take(out)
}

/// Asks whether the timer was started.
pub fn takes_arm(station: &mut Station) -> bool
    ensures done { HasDone TakesArm station.old station.new }
{
    station.take_arm()
}

/// Clears the line of a halted station.
pub fn clears_line(station: &mut Station) -> bool
    ensures done { HasDone ClearsLine station.old station.new }
{
    station.clear_line()
}

/// Enters maintenance.
pub fn enters_maintenance(station: &mut Station) -> Result<u8, StartRefusal>
    ensures done { HasDone EntersMaintenance station.old station.new }
    ensures answer { result ≡ answer_to_start station.old.core.station }
{
    station.enter_maintenance()
}

/// Queues a maintenance message.
pub fn sends_maintenance(station: &mut Station, message: &[u8]) -> Result<(), SendRefusal>
    ensures done { HasDone (SendsMaintenance message.now) station.old station.new }
{
    station.send_maintenance(message)
}
