//! A station driven over a line, turn by turn.
ghost use Rattle.std.specs.Prelude.{◌≡◌, ◌≢◌, ◌↔◌, ℕ, ◌+◌, ◌*◌, ◌<◌, ◌≤◌, ◌^◌, List, ◌++◌, true};
ghost use Rattle.std.specs.Prelude.{false, is_err, length, take, Option, Ok, Err, IfOk, OnOk};
ghost use Rattle.std.specs.Prelude.{OnErr};
ghost use Rattle.std.specs.Io.KnownBytes.{Consumes, Keeps, IsAtEnd};
ghost use Rattle.ddcmp_frame.specs.Reader.{StandsFor};
ghost use Rattle.ddcmp_core.specs.Table.{next_frame, next};
ghost use Rattle.ddcmp_proto.specs.Bytes.{after_poll, after_piece};
ghost use Rattle.ddcmp_station.specs.Driving.{Drives, devices_of, core_after_message, frame_bytes};
ghost use Rattle.ddcmp_station.specs.Driving.{core_after_mail};
ghost use Rattle.ddcmp_station.specs.Inside.Turns.{TurnEnds, WritesFrame, read_answers_of};
ghost use Rattle.ddcmp_frame.specs.Device.{Logs};
ghost use Rattle.ddcmp_station.specs.UserCalls.{Calls, calls_of_offer, calls_of_mail, TellsNotices};
ghost use Rattle.ddcmp_station.specs.UserCalls.{TellsPiece};

use crate::reply_timer::keep_time;
use crate::user::{Clock, User};
use ddcmp_frame::{Got, Sink, Source, Worst, write_all};
use ddcmp_io::LineFault;
use ddcmp_proto::{MAX_COUNT, MAX_SYN, Notice, State, Station};
use std::alloc::Global;

/// The largest number of bytes that are read in a turn.
pub const READ_ROOM: usize = 256;

/// The result of a call of `drive`.
#[derive(Clone, Copy, Debug, PartialEq, Eq)]
pub struct Driven {
    pub turns: u32,
    /// The number of bytes read.
    pub read: u64,
    /// The number of bytes written.
    pub written: u64,
}

/// The state after the turns so far.
#[derive(Drop)]
struct Tally {
    /// The deadline of the timer, if this call has set one.
    deadline: Option<u64>,
    read: u64,
    written: u64,
}

/// Runs a station over a line for a number of turns. In a turn the reply timer is handled, a
/// message of the user is sent, a frame is written, and the bytes of a read are handled: the
/// notices and then all received messages are passed to the user. An idle read is no fault. After a
/// fault of the line the station is halted. Start the station first, and pass no reader that has
/// failed.
pub fn drive<R: Source, W: Sink, U: User, C: Clock>(
    alloc: Global,
    station: &mut Station,
    reader: &mut R,
    writer: &mut W,
    user: &mut U,
    clock: &mut C,
    timer_ms: u32,
    turns: u32,
) -> Result<Driven, LineFault>
    requires fine { R.state reader.old ≢ Worst.Failed }
    requires whole { W.broken writer.old ≡ false }
    requires offset { station.old.line.offset + 256 * turns < 2 ^ 64 }
    ensures drives { Drives timer_ms turns station.old station.new
        (devices_of R.left R.state R.answers W.contents C.told reader.old reader.new
        writer.old writer.new clock.old clock.new) (Calls U.becomes user.old user.new) result }

    // When each fault is returned.
    ensures read { (result ≡ Err LineFault.Read) ↔ (R.state reader.new ≡ Worst.Failed) }
    ensures write { (result ≡ Err LineFault.Write) ↔ (W.broken writer.new ≡ true) }
    ensures ended { result ≡ Err LineFault.Ended → IsAtEnd (R.left reader.new) }
    ensures memory { result ≡ Err LineFault.Memory
        → (station.new ≡ station.old) × (reader.new ≡ reader.old) × (writer.new ≡ writer.old)
        × (user.new ≡ user.old) × (clock.new ≡ clock.old) }
{
    let Ok(mut frame) = Vec::from_elem(alloc, 0u8, station.frame_room()) else {
        return Err(LineFault::Memory);
    };
    // Room for a frame, for the message of the user, and for a received one.
    let frame = frame.as_mut_slice();
    let mut piece = [0; READ_ROOM];
    let mut tally = Tally {
        deadline: None,
        read: 0,
        written: 0,
    };
    for _done in 0..turns {
        match turn(
            station, reader, writer, user, clock, timer_ms, &mut tally, frame, &mut piece,
        ) {
            Ok(()) => {}
            Err(fault) => {
                station.halt();
                return Err(fault);
            }
        }
    }
    Ok(Driven {
        turns,
        read: tally.read,
        written: tally.written,
    })
}

/// Runs one turn.
fn turn<R: Source, W: Sink, U: User, C: Clock>(
    station: &mut Station,
    reader: &mut R,
    writer: &mut W,
    user: &mut U,
    clock: &mut C,
    timer_ms: u32,
    tally: &mut Tally,
    frame: &mut [u8],
    piece: &mut [u8; READ_ROOM],
) -> Result<(), LineFault>
    requires fine { R.state reader.old ≢ Worst.Failed }
    requires whole { W.broken writer.old ≡ false }
    requires room { station.old.syn + station.old.core.limits.longest + 10 ≤ length frame.old }
    requires offset { station.old.line.offset + 256 < 2 ^ 64 }
    requires read { tally.old.read + 256 < 2 ^ 64 }
    requires written { tally.old.written + MAX_COUNT + 10 + MAX_SYN < 2 ^ 64 }
    ensures takes { TurnEnds timer_ms station.old station.new tally.old tally.new
        (R.state reader.old)
        (devices_of R.left R.state R.answers W.contents C.told reader.old reader.new
        writer.old writer.new clock.old clock.new) (Calls U.becomes user.old user.new) result }
    ensures read { (result ≡ Err LineFault.Read) ↔ (R.state reader.new ≡ Worst.Failed) }
    ensures write { (result ≡ Err LineFault.Write) ↔ (W.broken writer.new ≡ true) }
    ensures ended { result ≡ Err LineFault.Ended → IsAtEnd (R.left reader.new) }
    ensures memory { result ≢ Err LineFault.Memory }
    ensures few { OnOk result ((tally.new.read ≤ tally.old.read + 256)
        × (tally.new.written ≤ tally.old.written + MAX_COUNT + 10 + MAX_SYN)) }
{
    keep_time(station, clock.now(), timer_ms, &mut tally.deadline);
    let _offered = offer_message(station, user, frame);
    let written = send_frame(station, writer, frame)?;
    let read = receive(station, reader, user, frame, piece)?;
    tally.written += written as u64;
    tally.read += read as u64;
    Ok(())
}

/// Asks the user for a message if the station accepts one, and sends it; returns its length. It is
/// at the front of the buffer.
#[tactic(auto, unfolding(crate::specs::UserCalls::Calls))]
fn offer_message<U: User>(station: &mut Station, user: &mut U, buffer: &mut [u8]) -> usize
    requires { station.old.core.limits.longest ≤ length buffer.old }
    ensures state { station.new
        ≡ record station.old {
          core = core_after_message
              (take result buffer.new) station.old.core;
        } }
    ensures seen { Calls U.becomes user.old user.new (calls_of_offer station.old.core
        (take result buffer.new)) }
{
    if station.state() != State::Running || !station.room() {
        return 0;
    }
    let longest = station.config().max as usize;
    let length = user.message(&mut buffer[..longest]);
    match station.send(&buffer[..length]) {
        Ok(_number) => length,
        Err(_nothing) => 0,
    }
}

/// Writes the next frame, if there is one; returns how many bytes were written.
fn send_frame<W: Sink>(
    station: &mut Station,
    writer: &mut W,
    buffer: &mut [u8],
) -> Result<usize, LineFault>
    requires whole { W.broken writer.old ≡ false }
    requires room { station.old.syn + station.old.core.limits.longest + 10 ≤ length buffer.old }
    ensures station { station.new ≡ record station.old { core = after_poll station.old.core } }
    ensures writes { WritesFrame (W.contents writer.old) (W.contents writer.new)
        (frame_bytes station.old.syn (next_frame (next station.old.core.station))) result }
    ensures within { IfOk result (λ n. n ≤ MAX_COUNT + 10 + MAX_SYN) }
    ensures broken { W.broken writer.new ≡ is_err result }
{
    match station.poll(buffer) {
        None => Ok(0),
        Some(length) => match write_all(writer, &buffer[..length]) {
            Ok(()) => Ok(length),
            Err(_failed) => Err(LineFault::Write),
        },
    }
}

/// Reads once, and handles what was read; returns how many bytes that is. They are at the front of
/// `piece`.
#[tactic(auto, unfolding(crate::specs::Driving::read_answer))]
fn receive<R: Source, U: User>(
    station: &mut Station,
    reader: &mut R,
    user: &mut U,
    buffer: &mut [u8],
    piece: &mut [u8; READ_ROOM],
) -> Result<usize, LineFault>
    requires fine { R.state reader.old ≢ Worst.Failed }
    requires room { station.old.core.limits.longest ≤ length buffer.old }
    requires offset { station.old.line.offset + 256 < 2 ^ 64 }
    ensures most { IfOk result (λ n. n ≤ 256) }
    ensures consumed { IfOk result (λ n. Consumes (R.left reader.old) (R.left reader.new)
        (take n piece.new)) }
    ensures stands { (text : List ℕ) → StandsFor station.old.line text
        → IfOk result (λ n. StandsFor station.new.line (text ++ take n piece.new)) }
    ensures state { (text : List ℕ) → StandsFor station.old.line text
        → IfOk result (λ n. station.new.core
        ≡ core_after_mail (after_piece text (take n piece.new) station.old.core)) }
    ensures offset { IfOk result (λ n. station.new.line.offset ≡ station.old.line.offset + n) }
    ensures limits { station.new.core.limits ≡ station.old.core.limits }
    ensures syn { station.new.syn ≡ station.old.syn }
    ensures refused { OnErr result (station.new ≡ station.old) }
    ensures nothing { OnErr result (Keeps (R.left reader.old) (R.left reader.new)) }
    ensures read { (result ≡ Err LineFault.Read) ↔ (R.state reader.new ≡ Worst.Failed) }
    ensures ended { result ≡ Err LineFault.Ended → IsAtEnd (R.left reader.new) }
    ensures fine { R.state reader.new ≡ Worst.Fine → (R.state reader.old ≡ Worst.Fine)
        × IfOk result (λ n. 0 < n) }
    ensures write { result ≢ Err LineFault.Write }
    ensures memory { result ≢ Err LineFault.Memory }
    ensures answers { Logs (R.answers reader.old) (R.answers reader.new) (read_answers_of result) }
    ensures seen { IfOk result (λ n. TellsPiece U.becomes station.old (take n piece.new) user.old
        user.new) }
    ensures unseen { OnErr result (user.new ≡ user.old) }
{
    let came = match reader.read(piece) {
        Got::Bytes(0) => return Err(LineFault::Ended),
        Got::Bytes(n) => n,
        Got::Idle => 0,
        Got::Failed => return Err(LineFault::Read),
    };
    feed_all(station, user, &piece[..came]);
    deliver(station, user, buffer);
    Ok(came)
}

/// Feeds a whole piece, and passes each notice to the user.
fn feed_all<U: User>(station: &mut Station, user: &mut U, piece: &[u8])
    requires { station.old.line.offset + length piece.now < 2 ^ 64 }
    ensures stands { (text : List ℕ) → StandsFor station.old.line text
        → StandsFor station.new.line (text ++ piece.now) }
    ensures state { (text : List ℕ) → StandsFor station.old.line text
        → station.new.core ≡ after_piece text piece.now station.old.core }
    ensures offset { station.new.line.offset ≡ station.old.line.offset + length piece.now }
    ensures limits { station.new.core.limits ≡ station.old.core.limits }
    ensures syn { station.new.syn ≡ station.old.syn }
    ensures seen { TellsNotices U.becomes station.old piece.now user.old user.new }
{
    let mut at = 0;
    while at < piece.len() {
        let fed = station.feed(&piece[at..]);
        at += fed.used;
        if let Some(notice) = fed.notice {
            user.notice(notice);
        }
    }
}

/// Takes all received messages and passes them to the user.
fn deliver<U: User>(station: &mut Station, user: &mut U, buffer: &mut [u8])
    requires { station.old.core.limits.longest ≤ length buffer.old }
    ensures state { station.new ≡ record station.old { core = core_after_mail station.old.core } }
    ensures seen { Calls U.becomes user.old user.new (calls_of_mail station.old.core) }
{
    while let Some(length) = station.take(buffer) {
        user.mail(&buffer[..length]);
    }
}
