//! Command lines. The head of an example has the arguments, and its lines are what the program
//! reads when it is run with them; what it writes and how it ends is printed. Arguments after `? `
//! are only parsed.
use ddcmp_cli::{NoCommand, parse_args};
use ddcmp_frame::{FromRead, ToWrite};
use std::io::{self, Write};

/// The prefix of arguments that are only parsed.
const READ: &str = "? ";

/// Returns the words of a line; the first is the program's name.
fn words_of<'a>(rt: &HostRuntime, line: &'a str) -> io::Result<Vec<&'a str>> {
    let mut words = Vec::new(rt.alloc());
    for word in line.split(' ') {
        words.push(word)?;
    }
    Ok(words)
}

/// Prints what arguments ask for.
fn tell(rt: &HostRuntime, line: &str) -> io::Result<()> {
    let words = words_of(rt, line)?;
    match parse_args(rt.alloc(), words.as_slice()) {
        Ok(command) => println!(rt; "{command:?}"),
        Err(NoCommand::Help(_)) => println!(rt; "help"),
        Err(NoCommand::Version(_)) => println!(rt; "version"),
        Err(NoCommand::Usage(text)) => print!(rt; "{text}"),
        Err(NoCommand::Memory) => println!(rt; "memory"),
    }
}

/// Prints what the program writes, and how it ends.
fn play(rt: &HostRuntime, line: &str, input: &str) -> io::Result<()> {
    let words = words_of(rt, line)?;
    let mut reader = FromRead::new(input.as_bytes());
    let mut writer = ToWrite::new(Vec::new(rt.alloc()));
    let ending = ddcmp_cli::run(rt, rt.alloc(), words.as_slice(), &mut reader, &mut writer);
    rt.stdout().write_all(writer.into_inner().as_slice())?;
    println!(rt; "{ending}-> {}", ending.status())
}

/// Parses the arguments, or runs the program with them.
pub fn run(rt: &HostRuntime, head: &str, lines: &str) -> io::Result<()> {
    match head.strip_prefix(READ) {
        Some(words) => tell(rt, words),
        None => play(rt, head, lines),
    }
}
