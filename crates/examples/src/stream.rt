//! Two stations, each started once, are driven over a connection that gives the bytes that it took
//! in their order, in pieces. Each user is handed the first of the messages that the other gave, in
//! order, once, unchanged, and no more is reported acknowledged to it than the other received.
use crate::driving::Site;
use ddcmp_station::{Config, Driven, LineFault};
use std::io;

/// The most bytes that the connection gives at once, so that frames come in pieces.
const MOST: usize = 7;

/// One end of the connection, and how many bytes it has read of what the other wrote.
#[derive(Drop)]
struct End<'a, R> {
    site: Site<'a, R>,
    read: usize,
}

impl<'a, R: Print + AllocGlobal> End<'a, R> {
    fn started(rt: &'a R, name: &'static str, messages: &'a [&'a [u8]]) -> Option<Self> {
        let mut site = Site::new(rt, name, Config::DEFAULT, messages)?;
        let _number = site.start();
        Some(End { site, read: 0 })
    }

    /// A turn, in which the next bytes come of what the other end wrote.
    fn turn(&mut self, written: &[u8]) -> Result<Driven, LineFault> {
        let rest = written.get(self.read..).unwrap_or(&[]);
        let piece = &rest[..rest.len().min(MOST)];
        self.read = self.read.saturating_add(piece.len());
        self.site.drive(&[piece], 1)
    }
}

pub fn run(rt: &(impl Print + AllocGlobal)) -> io::Result<()> {
    let Some(mut a) = End::started(rt, "A", &[b"abc", b"de", b"f"]) else {
        return println!(rt; "no memory for A");
    };
    let Some(mut b) = End::started(rt, "B", &[b"xyz"]) else {
        return println!(rt; "no memory for B");
    };
    for _turn in 0..10u8 {
        let _done = a.turn(b.site.written());
        let _done = b.turn(a.site.written());
    }
    println!(rt; "the connection ends")
}
