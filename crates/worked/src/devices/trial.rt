//! A script over devices that fail, are idle, or move a few bytes at a time.
use crate::devices::bad::Bad;
use ddcmp_frame::failing::{BoundedSink, Pieces};
use ddcmp_line::{Config, Pair, ScriptFault, script};
use std::alloc::Global;
use std::io::{self, Write};

/// What the devices do. Calls are counted from 1; 0 stands for none.
#[derive(Clone, Copy)]
struct Trial {
    /// How many bytes a read returns at most, which read is idle and which fails.
    read: usize,
    idle_at: usize,
    read_fails_at: usize,
    /// How many bytes a write takes at most, and which fails.
    write: usize,
    write_fails_at: usize,
    /// How many bytes the carrier returns at most, how it changes the first, and which carry fails.
    given: usize,
    by: u8,
    carry_fails_at: usize,
}

/// The result of a script.
struct ScriptOutcome {
    answer: Result<(), ScriptFault>,
    writer: BoundedSink<512>,
}

// Manual, since a derived `Drop` would be expanded wherever a value is dropped.
impl Drop for ScriptOutcome {
    fn drop(self) {
        let ScriptOutcome {
            answer: _answer,
            writer: _writer,
        } = self;
    }
}

const DEFAULT: Config = Config {
    window: 7,
    inbox: 8,
    max: 1500,
    syn: 0,
    restart: false,
};

/// Parses a line, in the order of `Trial`.
fn trial_of(line: &str) -> Option<Trial> {
    let mut words = line.split(' ');
    Some(Trial {
        read: words.next()?.parse::<usize>().ok()?,
        idle_at: words.next()?.parse::<usize>().ok()?,
        read_fails_at: words.next()?.parse::<usize>().ok()?,
        write: words.next()?.parse::<usize>().ok()?,
        write_fails_at: words.next()?.parse::<usize>().ok()?,
        given: words.next()?.parse::<usize>().ok()?,
        by: words.next()?.parse::<u8>().ok()?,
        carry_fails_at: words.next()?.parse::<usize>().ok()?,
    })
}

/// Runs the script between two new ends.
fn plays(alloc: Global, pair: &mut Pair, lines: &str, trial: Trial) -> Option<ScriptOutcome> {
    if trial.read == 0 || trial.write == 0 {
        return None;
    }
    let mut reader = Pieces::of(lines.as_bytes())
        .at_most(trial.read)
        .idle_at(trial.idle_at)
        .failing_at(trial.read_fails_at);
    let mut writer = BoundedSink::<512>::new()
        .at_most(trial.write)
        .failing_at(trial.write_fails_at);
    let mut carrier = Bad::new(trial.given, trial.by, trial.carry_fails_at);
    let answer = script(alloc, pair, &mut reader, &mut writer, &mut carrier);
    Some(ScriptOutcome { answer, writer })
}

/// Runs the script as a line requests, and prints what it wrote and its result.
pub fn perform(rt: &HostRuntime, lines: &str, line: &str) -> io::Result<()> {
    let Some(trial) = trial_of(line) else {
        return println!(rt; "no trial");
    };
    let Ok(mut pair) = Pair::new(rt.alloc(), DEFAULT, DEFAULT) else {
        return println!(rt; "no pair");
    };
    match plays(rt.alloc(), &mut pair, lines, trial) {
        Some(told) => {
            rt.stdout().write_all(told.writer.bytes())?;
            println!(rt; "| {:?}", told.answer)
        }
        None => println!(rt; "no call"),
    }
}
