//! A call of `drive` in memory.
use crate::stations::reading::{moments_of, pieces_of, slices_of};
use ddcmp_frame::failing::{BoundedSink, Pieces};
use ddcmp_station::{Driven, LineFault, Station, drive};
use std::alloc::Global;
use std::io;
use test_kit::{Moments, Recorder, number};

/// The parameters: the turns; the read and the write that fail (counted from 1; 0 stands for none);
/// how many bytes the sink takes; the input from the line; the clock; the messages of the user.
#[derive(Clone, Copy)]
struct Call<'a> {
    turns: u32,
    fails_at: usize,
    breaks_at: usize,
    most: usize,
    came: &'a str,
    moments: &'a str,
    offers: &'a str,
}

/// The result of a call.
#[derive(Drop)]
struct DriveOutcome<'a> {
    answer: Result<Driven, LineFault>,
    writer: BoundedSink<64>,
    user: Recorder<'a>,
}

/// Parses a line, in the order of `Call`.
fn call_of(rest: &str) -> Option<Call<'_>> {
    let mut words = rest.split(' ');
    Some(Call {
        turns: number(&mut words)?,
        fails_at: number(&mut words)? as usize,
        breaks_at: number(&mut words)? as usize,
        most: number(&mut words)? as usize,
        came: words.next()?,
        moments: words.next()?,
        offers: words.next()?,
    })
}

/// Makes the call, with a line that takes three bytes at a time and a timer of 1000 ms.
fn drives<'a>(
    alloc: Global,
    station: &mut Station,
    call: &Call<'_>,
    came: &[&[u8]],
    moments: &[u64],
    offers: &'a [&'a [u8]],
) -> Option<DriveOutcome<'a>> {
    if station.offset() >= 1_000_000 || call.most > 64 {
        return None;
    }
    let mut reader = Pieces::new(came).failing_at(call.fails_at);
    let mut writer = BoundedSink::<64>::full_at(call.most)
        .at_most(3)
        .failing_at(call.breaks_at);
    let mut user = Recorder::offering(offers);
    let mut clock = Moments { moments, next: 0 };
    let answer = drive(
        alloc,
        station,
        &mut reader,
        &mut writer,
        &mut user,
        &mut clock,
        1000,
        call.turns,
    );
    Some(DriveOutcome {
        answer,
        writer,
        user,
    })
}

/// Makes the call of a line, and prints its result.
pub fn perform(rt: &HostRuntime, station: &mut Station, rest: &str) -> io::Result<()> {
    match performed(rt, station, rest)? {
        Some(()) => println!(rt; "{:?}", station.state()),
        None => println!(rt; "no call"),
    }
}

fn performed(rt: &HostRuntime, station: &mut Station, rest: &str) -> io::Result<Option<()>> {
    let alloc = rt.alloc();
    let Some(call) = call_of(rest) else {
        return Ok(None);
    };
    let (Some(came), Some(offers)) = (pieces_of(alloc, call.came), pieces_of(alloc, call.offers))
    else {
        return Ok(None);
    };
    let (Some(came), Some(offers), Some(moments)) = (
        slices_of(alloc, &came),
        slices_of(alloc, &offers),
        moments_of(alloc, call.moments),
    ) else {
        return Ok(None);
    };
    match drives(alloc, station, &call, &came, &moments, &offers) {
        Some(told) => {
            tell(rt, &told)?;
            Ok(Some(()))
        }
        None => Ok(None),
    }
}

fn tell(rt: &HostRuntime, told: &DriveOutcome<'_>) -> io::Result<()> {
    println!(rt; "{:?}", told.answer)?;
    println!(rt; "wrote {}", hex::encode(rt.alloc(), told.writer.bytes())?)?;
    println!(rt; "saw {:?}", told.user.seen())?;
    println!(rt; "mail {}", hex::encode(rt.alloc(), told.user.mail())?)
}
