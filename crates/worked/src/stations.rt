//! A station whose calls are made one after another, or that is driven. An example is a list of
//! lines, and its head has the sizes of a new station; the results are printed.
mod asking;
mod driven;
mod reading;

use ddcmp_station::Station;
use std::io;
use test_kit::config_of;

/// Runs a line.
fn perform(rt: &HostRuntime, station: &mut Station, line: &str) -> io::Result<()> {
    let (word, rest) = match line.split_once(' ') {
        Some(parts) => parts,
        None => (line, ""),
    };
    match word {
        "drive" => driven::perform(rt, station, rest),
        "feed" | "send_maintenance" => asking::with_bytes(rt, station, word, rest),
        _ => asking::perform(rt, station, word),
    }
}

/// Runs the lines with a new station.
pub fn run(rt: &HostRuntime, head: &str, lines: &str) -> io::Result<()> {
    let Some(config) = config_of(head) else {
        return println!(rt; "no sizes");
    };
    match Station::new(rt.alloc(), config) {
        Ok(mut station) => {
            for line in lines.lines() {
                perform(rt, &mut station, line)?;
            }
            Ok(())
        }
        Err(refusal) => println!(rt; "refused {refusal:?}"),
    }
}
