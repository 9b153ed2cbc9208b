//! Prints replies as text.
use ddcmp_pair::{Memory, Recovered, Reply, Settled, Station};
use std::io;

/// Prints a word, and bytes in hexadecimal.
pub fn bytes(rt: &HostRuntime, word: &str, bytes: &[u8]) -> io::Result<()> {
    println!(rt; "{word} {}", hex::encode(rt.alloc(), bytes)?)
}

pub fn replied(rt: &HostRuntime, replied: Result<Reply, Memory>) -> io::Result<()> {
    match replied {
        Ok(reply) => tell(rt, &reply),
        Err(_memory) => println!(rt; "memory"),
    }
}

fn tell(rt: &HostRuntime, reply: &Reply) -> io::Result<()> {
    match reply {
        Reply::Started(dropped) => println!(rt; "started dropped={dropped}"),
        Reply::StartRefused(refusal) => println!(rt; "start refused {refusal:?}"),
        Reply::Halted => println!(rt; "halted"),
        Reply::Accepted(number) => println!(rt; "accepted {}", number.0),
        Reply::SendRefused(refusal) => println!(rt; "send refused {refusal:?}"),
        Reply::Wrote(frame) => bytes(rt, "wrote", frame.as_slice()),
        Reply::Idle => println!(rt; "idle"),
        Reply::Notices(notices) => println!(rt; "notices {:?}", notices.as_slice()),
        Reply::Expired(was_on) => println!(rt; "expired {was_on}"),
        Reply::Took(message) => bytes(rt, "took", message.as_slice()),
        Reply::Nothing => println!(rt; "nothing"),
        Reply::Cleared => println!(rt; "cleared"),
        Reply::ClearRefused(refusal) => println!(rt; "clear refused {refusal:?}"),
    }
}

pub fn settled(rt: &HostRuntime, settled: Result<Settled, Memory>) -> io::Result<()> {
    match settled {
        Ok(told) => println!(rt; "settled {} quiet={}", told.exchanges, told.quiet),
        Err(_memory) => println!(rt; "memory"),
    }
}

pub fn recovered(rt: &HostRuntime, recovered: Result<Recovered, Memory>) -> io::Result<()> {
    match recovered {
        Ok(told) => println!(rt; "recovered {:?} quiet={}", told.exchanges, told.quiet),
        Err(_memory) => println!(rt; "memory"),
    }
}

/// Prints the state and the numbers; how many messages are queued, and how many are in the inbox;
/// and whether the timer is on.
pub fn look(rt: &HostRuntime, station: &Station) -> io::Result<()> {
    let numbers = station.numbers();
    println!(rt;
        "{:?} r={} n={} a={} t={}",
        station.state(),
        numbers.r.0,
        numbers.n.0,
        numbers.a.0,
        numbers.t.0
    )?;
    println!(rt;
        "outgoing={} waiting={} timer={}",
        station.outgoing(),
        station.waiting(),
        station.timer_on()
    )
}
