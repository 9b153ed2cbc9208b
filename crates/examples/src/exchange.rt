//! Two stations exchange a message. The program carries the bytes from one to the other.
ghost use Rattle.std.specs.Prelude.{◌≤◌, length};

use ddcmp_station::{Config, Station};
use std::alloc::Global;
use std::io;

const SIZES: Config = Config {
    max: 64,
    ..Config::DEFAULT
};

/// One end of the line.
#[derive(Drop)]
struct End {
    name: &'static str,
    station: Station,
}

impl End {
    fn new(alloc: Global, name: &'static str) -> Option<End> {
        let station = Station::new(alloc, SIZES).ok()?;
        Some(End { name, station })
    }

    fn start(&mut self, rt: &impl Print) -> io::Result<()> {
        let answer = self.station.start();
        println!(rt; "{} starts: {answer:?}", self.name)
    }

    fn send(&mut self, rt: &impl Print, message: &[u8]) -> io::Result<()> {
        let answer = self.station.send(message);
        println!(rt; "{} sends: {answer:?}", self.name)
    }

    /// Takes its first received message.
    fn take(&mut self, rt: &(impl Print + AllocGlobal)) -> io::Result<()> {
        let most = self.station.config().max as usize;
        let Ok(mut message) = Vec::from_elem(rt.alloc(), 0, most) else {
            return println!(rt; "no memory for a message");
        };
        match self.station.take(&mut message) {
            Some(n) => println!(rt; "{} takes {:?}", self.name, &message[..n]),
            None => println!(rt; "{} has no mail", self.name),
        }
    }

    /// Writes the next frame, if there is one and room for any, at the front of `out`: how many
    /// bytes it has.
    fn write(&mut self, out: &mut [u8]) -> usize
        ensures { result ≤ length out.old }
    {
        if out.len() < self.station.frame_room() {
            return 0;
        }
        self.station.poll(out).unwrap_or(0)
    }

    /// Receives a piece of the line. `feed` stops after each notice, so the rest is fed again.
    fn receive(&mut self, rt: &(impl Print + AllocGlobal), piece: &[u8]) -> io::Result<()> {
        println!(rt; "to {}: {}", self.name, hex::encode(rt.alloc(), piece)?)?;
        let mut rest = piece;
        while !rest.is_empty() {
            // The bytes of a line are counted in 64 bits.
            let counted = self.station.offset().checked_add(rest.len() as u64);
            if counted.is_none() {
                return println!(rt; "the line is full");
            }
            let fed = self.station.feed(rest);
            rest = &rest[fed.used..];
            if let Some(notice) = fed.notice {
                println!(rt; "{} tells {notice:?}", self.name)?;
            }
        }
        Ok(())
    }
}

/// The next frame of one end arrives at the other.
fn carry(rt: &(impl Print + AllocGlobal), from: &mut End, to: &mut End) -> io::Result<()> {
    let mut piece = [0; 128];
    let n = from.write(&mut piece);
    to.receive(rt, &piece[..n])
}

/// The ends start.
fn start(rt: &(impl Print + AllocGlobal), a: &mut End, b: &mut End) -> io::Result<()> {
    a.start(rt)?;
    b.start(rt)?;
    carry(rt, a, b)?;
    carry(rt, b, a)
}

/// A owes an ACK, and then has a message. Both frames go in one piece.
fn send_a_message(rt: &(impl Print + AllocGlobal), a: &mut End, b: &mut End) -> io::Result<()> {
    let mut piece = [0; 256];
    let ack = a.write(&mut piece);
    a.send(rt, b"abc")?;
    let n = ack + a.write(&mut piece[ack..]);
    b.receive(rt, &piece[..n])?;
    b.take(rt)?;
    carry(rt, b, a)
}

pub fn run(rt: &(impl Print + AllocGlobal)) -> io::Result<()> {
    let Some(mut a) = End::new(rt.alloc(), "A") else {
        return println!(rt; "no memory for A");
    };
    let Some(mut b) = End::new(rt.alloc(), "B") else {
        return println!(rt; "no memory for B");
    };
    start(rt, &mut a, &mut b)?;
    send_a_message(rt, &mut a, &mut b)
}
