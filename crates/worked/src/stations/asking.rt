//! Calls of a station, and what they return.
use ddcmp_station::Station;
use std::io;
use test_kit::bytes_of;

/// Runs a word.
pub fn perform(rt: &HostRuntime, station: &mut Station, word: &str) -> io::Result<()> {
    match word {
        "start" => println!(rt; "{:?}", station.start()),
        "enter_maintenance" => println!(rt; "{:?}", station.enter_maintenance()),
        _ => tell(rt, station, word),
    }
}

/// Prints a value of the station, by a word.
fn tell(rt: &HostRuntime, station: &Station, word: &str) -> io::Result<()> {
    match word {
        "outgoing" => println!(rt; "{}", station.outgoing()),
        "waiting" => println!(rt; "{}", station.waiting()),
        "offset" => println!(rt; "{}", station.offset()),
        _ => count(rt, station, word),
    }
}

/// Prints a counter.
fn count(rt: &HostRuntime, station: &Station, word: &str) -> io::Result<()> {
    let counters = *station.counters();
    match word {
        "messages_sent" => println!(rt; "{}", counters.messages_sent),
        "expiries" => println!(rt; "{}", counters.expiries),
        "rep_sent" => println!(rt; "{}", counters.rep_sent),
        _ => println!(rt; "no question"),
    }
}

/// Passes it the bytes of a line or of a message.
pub fn with_bytes(
    rt: &HostRuntime,
    station: &mut Station,
    word: &str,
    digits: &str,
) -> io::Result<()> {
    let Some(bytes) = bytes_of(rt.alloc(), digits) else {
        return println!(rt; "no bytes");
    };
    if word == "feed" {
        feed(rt, station, &bytes)
    } else {
        println!(rt; "{:?}", station.send_maintenance(&bytes))
    }
}

/// Feeds it bytes, and prints how many it used.
fn feed(rt: &HostRuntime, station: &mut Station, piece: &[u8]) -> io::Result<()> {
    if station.offset() >= 1_000_000 || piece.len() >= 1_000_000 {
        return println!(rt; "too many bytes");
    }
    println!(rt; "{}", station.feed(piece).used)
}
