//! Messages to send, and received messages.
ghost use Rattle.std.specs.Prelude.{◌≡◌, ◌≢◌, ◌↔◌, ◌<◌, ◌≤◌, [], unwrap_or, false, length};
ghost use Rattle.std.specs.Prelude.{slice_index_or, option_map, IsTrue, Some, None, Ok};
ghost use Rattle.std.specs.Prelude.{if◌then◌else◌};
ghost use Rattle.ddcmp_num.specs.declared.seq.Seq.{Seq as SeqValue};
ghost use Rattle.ddcmp_window.specs.Store.{first_message, with_front};
ghost use Rattle.ddcmp_core.specs.Table.{send_refusal as send_refusal_of, answer_to_send, may_send};
ghost use Rattle.ddcmp_core.specs.Table.{answer_to_send_maintenance, may_send_maintenance};
ghost use Rattle.ddcmp_core.specs.Table.{after_accept, after_take};
ghost use Rattle.ddcmp_proto.specs.Station.{StationView};
ghost use Rattle.ddcmp_proto.specs.StationCalls.{Sends, Takes, SendsMaintenance, with_state};
ghost use Rattle.ddcmp_c.specs.Codes.{code_of_send_answer, code_of_send_refusal};
ghost use Rattle.ddcmp_c.specs.Codes.{code_of_send_maintenance_answer};
ghost use Rattle.ddcmp_c.specs.Calls.{Asks, Makes};

use crate::handle::{Handle, put_back, take_out};
use crate::values::{ABSENT, CLOSED, OK, ROOM, refusal_code, send_code};
use std::alloc::Global;

/// Queues a message, and returns its number.
#[unsafe(no_mangle)]
pub extern "C" fn ddcmp_send(
    alloc: Global,
    station: &mut Handle,
    message: &[u8],
    number: &mut u8,
) -> u32
    ensures closed { station.old.station ≡ None
        → (result ≡ CLOSED) × (station.new.station ≡ None) }
    ensures state { (s : StationView) → station.old.station ≡ Some s → station.new.station
        ≡ Some (with_state s (if may_send s.core.limits s.core.station message.now
        then after_accept s.core.station message.now else s.core.station)) }
    ensures code { (s : StationView) → station.old.station ≡ Some s → result
        ≡ code_of_send_answer (answer_to_send s.core.limits s.core.station message.now) }
    ensures number { (s : StationView) (n : SeqValue) → station.old.station ≡ Some s
        → answer_to_send s.core.limits s.core.station message.now ≡ Ok n → number.new ≡ n.0 }
    ensures refused { result ≢ OK → (station.new.station ≡ station.old.station)
        × (number.new ≡ number.old) }
    ensures call { Makes (Sends message.now) station.old.station station.new.station }
{
    let Some(mut open) = take_out(alloc, station) else {
        return CLOSED;
    };
    let answer = open.send(message);
    put_back(station, open);
    send_code(answer, number)
}

/// Queues a maintenance message.
#[unsafe(no_mangle)]
pub extern "C" fn ddcmp_send_maintenance(alloc: Global, station: &mut Handle, message: &[u8]) -> u32
    ensures closed { station.old.station ≡ None
        → (result ≡ CLOSED) × (station.new.station ≡ None) }
    ensures state { (s : StationView) → station.old.station ≡ Some s → station.new.station
        ≡ Some (with_state s (if may_send_maintenance s.core.limits s.core.station message.now
        then after_accept s.core.station message.now else s.core.station)) }
    ensures code { (s : StationView) → station.old.station ≡ Some s → result
        ≡ code_of_send_maintenance_answer
        (answer_to_send_maintenance s.core.limits s.core.station message.now) }
    ensures refused { result ≢ OK → station.new.station ≡ station.old.station }
    ensures call { Makes (SendsMaintenance message.now) station.old.station station.new.station }
{
    let Some(mut open) = take_out(alloc, station) else {
        return CLOSED;
    };
    let answer = open.send_maintenance(message);
    put_back(station, open);
    match answer {
        Ok(()) => OK,
        Err(refusal) => refusal_code(refusal),
    }
}

/// Returns why a message would be refused, or `OK` if it wouldn't be.
#[unsafe(no_mangle)]
pub extern "C" fn ddcmp_send_refusal(alloc: Global, station: &mut Handle, message: &[u8]) -> u32
    ensures { Asks CLOSED
        (λ s. code_of_send_refusal (send_refusal_of s.core.limits s.core.station message.now))
        station.old.station result station.new.station }
{
    let Some(open) = take_out(alloc, station) else {
        return CLOSED;
    };
    let refusal = open.send_refusal(message);
    put_back(station, open);
    match refusal {
        None => OK,
        Some(refusal) => refusal_code(refusal),
    }
}

/// Returns whether the window has room.
#[unsafe(no_mangle)]
pub extern "C" fn ddcmp_room(alloc: Global, station: &mut Handle) -> bool
    ensures closed { station.old.station ≡ None → result ≡ false }
    ensures same { station.new.station ≡ station.old.station }
    ensures value { (s : StationView) → station.old.station ≡ Some s
        → IsTrue result ↔ (length s.core.station.out < s.core.limits.window) }
{
    let Some(open) = take_out(alloc, station) else {
        return false;
    };
    let value = open.room();
    put_back(station, open);
    value
}

/// Returns the number of queued messages.
#[unsafe(no_mangle)]
pub extern "C" fn ddcmp_outgoing(alloc: Global, station: &mut Handle) -> u8
    ensures { Asks 0 (λ s. length s.core.station.out)
        station.old.station result station.new.station }
{
    let Some(open) = take_out(alloc, station) else {
        return 0;
    };
    let value = open.outgoing();
    put_back(station, open);
    value
}

/// Moves the first message of the inbox to the front of `out`, and returns its length, or 0 if
/// there is none.
#[unsafe(no_mangle)]
pub extern "C" fn ddcmp_take(
    alloc: Global,
    station: &mut Handle,
    out: &mut [u8],
    taken: &mut usize,
) -> u32
    ensures closed { station.old.station ≡ None
        → (result ≡ CLOSED) × (station.new.station ≡ None) }
    ensures short { (s : StationView) → station.old.station ≡ Some s
        → length out.old < s.core.limits.longest
        → (result ≡ ROOM) × (station.new.station ≡ Some s) }
    ensures untaken { result ≢ OK → (out.new ≡ out.old) × (taken.new ≡ 0) }
    ensures state { (s : StationView) → station.old.station ≡ Some s
        → s.core.limits.longest ≤ length out.old → (result ≡ OK)
        × (station.new.station ≡ Some (with_state s (after_take s.core.station))) }
    ensures length { (s : StationView) → station.old.station ≡ Some s → result ≡ OK → taken.new
        ≡ unwrap_or (option_map length (first_message s.core.station.inbox)) 0 }
    ensures out { (s : StationView) → station.old.station ≡ Some s → result ≡ OK → out.new
        ≡ with_front (first_message s.core.station.inbox) out.old }
    ensures call { result ≡ OK → Makes Takes station.old.station station.new.station }
{
    *taken = 0;
    let Some(mut open) = take_out(alloc, station) else {
        return CLOSED;
    };
    if out.len() < open.config().max as usize {
        put_back(station, open);
        return ROOM;
    }
    let length = open.take(out);
    put_back(station, open);
    *taken = length.unwrap_or(0);
    OK
}

/// Returns the number of messages in the inbox.
#[unsafe(no_mangle)]
pub extern "C" fn ddcmp_waiting(alloc: Global, station: &mut Handle) -> u8
    ensures { Asks 0 (λ s. length s.core.station.inbox)
        station.old.station result station.new.station }
{
    let Some(open) = take_out(alloc, station) else {
        return 0;
    };
    let value = open.waiting();
    put_back(station, open);
    value
}

/// Returns the length of message `i` of the inbox, counted from 0, or 0 if there is none.
#[unsafe(no_mangle)]
pub extern "C" fn ddcmp_waiting_length(alloc: Global, station: &mut Handle, i: u8) -> usize
    ensures closed { station.old.station ≡ None → result ≡ 0 }
    ensures same { station.new.station ≡ station.old.station }
    ensures value { (s : StationView) → station.old.station ≡ Some s
        → i < length s.core.station.inbox
        → result ≡ length (slice_index_or s.core.station.inbox i []) }
    ensures none { (s : StationView) → station.old.station ≡ Some s
        → length s.core.station.inbox ≤ i → result ≡ 0 }
{
    let Some(open) = take_out(alloc, station) else {
        return 0;
    };
    let value = if i < open.waiting() {
        open.waiting_length(i)
    } else {
        0
    };
    put_back(station, open);
    value
}

/// Copies message `i` of the inbox, counted from 0, to the front of `out`, and returns its length.
#[unsafe(no_mangle)]
pub extern "C" fn ddcmp_waiting_at(
    alloc: Global,
    station: &mut Handle,
    i: u8,
    out: &mut [u8],
    written: &mut usize,
) -> u32
    ensures closed { station.old.station ≡ None → result ≡ CLOSED }
    ensures same { station.new.station ≡ station.old.station }
    ensures absent { (s : StationView) → station.old.station ≡ Some s
        → length s.core.station.inbox ≤ i → result ≡ ABSENT }
    ensures short { (s : StationView) → station.old.station ≡ Some s
        → i < length s.core.station.inbox → length out.old < s.core.limits.longest
        → result ≡ ROOM }
    ensures copied { (s : StationView) → station.old.station ≡ Some s
        → i < length s.core.station.inbox → s.core.limits.longest ≤ length out.old
        → (result ≡ OK) × (written.new ≡ length (slice_index_or s.core.station.inbox i []))
        × (out.new ≡ with_front (Some (slice_index_or s.core.station.inbox i [])) out.old) }
    ensures unwritten { result ≢ OK → (out.new ≡ out.old) × (written.new ≡ 0) }
{
    *written = 0;
    let Some(open) = take_out(alloc, station) else {
        return CLOSED;
    };
    if open.waiting() <= i {
        put_back(station, open);
        return ABSENT;
    }
    if out.len() < open.config().max as usize {
        put_back(station, open);
        return ROOM;
    }
    *written = open.waiting_at(i, out);
    put_back(station, open);
    OK
}
