//! Words about both ends: a clear, settles, and a summary since the line was cleared.
use crate::pairs::answers;
use crate::pairs::table::{LONGEST, Table};
use ddcmp_pair::{End, Event};
use std::io;

/// Runs a word, and prints the reply.
pub fn perform(rt: &HostRuntime, table: &mut Table, word: &str) -> io::Result<()> {
    match word {
        "clear" => answers::replied(rt, table.step(Event::Clear)),
        "settle" => answers::settled(rt, table.settle()),
        "round" => answers::settled(rt, table.round()),
        "recover" => answers::recovered(rt, table.recover()),
        "ready" => println!(rt; "ready={}", table.ready()),
        "done" => println!(rt; "done={}", table.done()),
        "premises" => println!(rt; "honest={} clean={}", table.honest(), table.clean()),
        "histories" => histories(rt, table),
        _ => println!(rt; "no event"),
    }
}

/// Prints the messages that each end accepted, those delivered at it, and how many it reported
/// acknowledged.
fn histories(rt: &HostRuntime, table: &Table) -> io::Result<()> {
    for end in [End::A, End::B] {
        println!(rt; "{end:?} acknowledged={}", table.acknowledged(end))?;
        given(rt, table, end)?;
        handed_up(rt, table, end)?;
    }
    Ok(())
}

fn given(rt: &HostRuntime, table: &Table, end: End) -> io::Result<()> {
    for i in 0..1000usize {
        let Some(message) = table.given_at(end, i) else {
            return Ok(());
        };
        answers::bytes(rt, "given", message)?;
    }
    Ok(())
}

fn handed_up(rt: &HostRuntime, table: &Table, end: End) -> io::Result<()> {
    let mut out = [0; LONGEST];
    for i in 0..1000usize {
        let Some(message) = table.handed_up_at(end, i, &mut out) else {
            return Ok(());
        };
        answers::bytes(rt, "handed up", message)?;
    }
    Ok(())
}
