//! A station is driven over a line in memory. In each turn `drive` looks after the timer, asks the
//! user for a message, writes a frame, reads, and passes the user what came.
use crate::driving::Site;
use ddcmp_station::Config;
use std::io;

const SIZES: Config = Config {
    max: 64,
    ..Config::DEFAULT
};
/// What the peer sends: STACK; nothing; ACK 1 and its own message `abc`; nothing.
const LINE: [&[u8]; 4] = [
    &[0x05, 0x07, 0xC0, 0x00, 0x00, 0x01, 0x48, 0x55],
    &[],
    &[
        0x05, 0x01, 0x00, 0x01, 0x00, 0x01, 0xAD, 0x95, 0x81, 0x03, 0x00, 0x00, 0x01, 0x01, 0x9A,
        0x41, 0x61, 0x62, 0x63, 0x38, 0x97,
    ],
    &[],
];

/// Four turns over a line that brings these pieces.
fn talk(rt: &(impl Print + AllocGlobal), line: &[&[u8]]) -> io::Result<()> {
    let Some(mut site) = Site::new(rt, "user", SIZES, &[b"abc"]) else {
        return println!(rt; "no memory for a station");
    };
    println!(rt; "starts: {:?}", site.start())?;
    println!(rt; "{:?}", site.drive(line, 4))?;
    println!(rt; "wrote {}", hex::encode(rt.alloc(), site.written())?)
}

pub fn run(rt: &(impl Print + AllocGlobal)) -> io::Result<()> {
    talk(rt, &LINE)
}
