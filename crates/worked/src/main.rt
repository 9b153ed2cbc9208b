//! Worked examples of the commands and of the crates below them. Their output is stored and
//! compared. The input has parts, each after a line with its name, and in a part examples, each
//! after a line that describes it.
#![tactic(auto)]

mod commands;
mod devices;
mod endings;
mod pairs;
mod pictures;
mod scripts;
mod stations;

use std::io::{self, Read};

/// The prefix of the name of a part.
const PART: &str = "##### ";

/// The prefix of an example.
const EXAMPLE: &str = "=== ";

/// Runs an example of a part.
fn run(rt: &HostRuntime, part: &str, head: &str, lines: &str) -> io::Result<()> {
    match part {
        "commands" => commands::run(rt, head, lines),
        "stations" => stations::run(rt, head, lines),
        "pairs" => pairs::run(rt, head, lines),
        "scripts" => scripts::run(rt, head, lines),
        "pictures" => pictures::run(rt, head, lines),
        "devices" => devices::run(rt, lines),
        "endings" => endings::run(rt, head),
        _ => println!(rt; "no part"),
    }
}

fn main(rt: HostRuntime) -> io::Result<()> {
    let mut input = String::new(rt.alloc());
    rt.stdin().read_to_string(&mut input)?;
    for text in input.as_str().split(PART).skip(1) {
        let (part, examples) = text.split_once('\n').unwrap_or((text, ""));
        println!(rt; "{PART}{part}")?;
        for example in examples.split(EXAMPLE).skip(1) {
            if let Some((head, lines)) = example.split_once('\n') {
                println!(rt; "{EXAMPLE}{head}")?;
                run(&rt, part, head, lines)?;
            }
        }
    }
    Ok(())
}
