//! Lists of events between two ends. The head of an example has the sizes of both; the replies are
//! printed, and at the end a summary.
mod answers;
mod questions;
mod table;

use crate::pairs::table::Table;
use ddcmp_pair::{Bytes, Config, End, Event};
use std::alloc::Global;
use std::io;
use test_kit::{bytes_of, config_of};

/// Parses the sizes of both ends in a line `SIZES; SIZES; NAME`.
fn configs_of(head: &str) -> Option<(Config, Config)> {
    let (first, rest) = head.split_once("; ")?;
    let (second, _name) = rest.split_once("; ")?;
    Some((config_of(first)?, config_of(second)?))
}

fn end_of(word: &str) -> Option<End> {
    match word {
        "A" => Some(End::A),
        "B" => Some(End::B),
        _ => None,
    }
}

/// Returns the event at an end, by its word.
fn event_at(alloc: Global, word: &str, end: End, bytes: &str) -> Option<Event> {
    match word {
        "start" => Some(Event::Start(end)),
        "halt" => Some(Event::Halt(end)),
        "send" => Some(Event::Send(end, Bytes::new(bytes_of(alloc, bytes)?))),
        "poll" => Some(Event::Poll(end)),
        "arrive" => Some(Event::Arrive(end, Bytes::new(bytes_of(alloc, bytes)?))),
        "expire" => Some(Event::Expire(end)),
        "take" => Some(Event::Take(end)),
        _ => None,
    }
}

/// Runs a line, and prints the reply.
fn perform(rt: &HostRuntime, table: &mut Table, line: &str) -> io::Result<()> {
    let mut words = line.split(' ');
    let word = words.next().unwrap_or("");
    let Some(end) = end_of(words.next().unwrap_or("")) else {
        return questions::perform(rt, table, word);
    };
    match word {
        "look" => return answers::look(rt, table.station(end)),
        "open" => return println!(rt; "open={}", table.station(end).open()),
        _ => {}
    }
    match event_at(rt.alloc(), word, end, words.next().unwrap_or("")) {
        Some(event) => answers::replied(rt, table.step(event)),
        None => println!(rt; "no event"),
    }
}

/// Runs the lines between two new ends.
pub fn run(rt: &HostRuntime, head: &str, lines: &str) -> io::Result<()> {
    let Some((first, second)) = configs_of(head) else {
        return println!(rt; "no sizes");
    };
    let Some(mut table) = Table::new(rt.alloc(), first, second) else {
        return println!(rt; "no pair");
    };
    for line in lines.lines() {
        perform(rt, &mut table, line)?;
    }
    Ok(())
}
