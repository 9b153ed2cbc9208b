//! The units of the numbers of options, for usage errors.
use std::alloc::{AllocError, Global};

/// Returns the unit of the number of an option, if it has one.
fn unit_of(option: &str) -> Option<&'static str> {
    match option {
        "seconds" | "report" => Some("in seconds, as 3"),
        "timer-ms" | "linger-ms" | "delay" => Some("in milliseconds, as 300"),
        "lose" | "damage" => Some("in percent, as 10"),
        "baud" => Some("in bits per second, as 9600"),
        "max" => Some("in bytes, as 1500"),
        _ => None,
    }
}

/// Returns the unit that is meant, if clap's text is that of a number with something after it.
fn unit_meant(text: &str) -> Option<&'static str> {
    let value = text.strip_prefix("error: invalid value '")?;
    let (option, _) = value
        .split_once("' for '--")?
        .1
        .split_once(" <N>': invalid digit found")?;
    match value.as_bytes().first() {
        Some(b'0'..=b'9') => unit_of(option),
        _ => None,
    }
}

/// Adds a tip to clap's text for a number that has a unit, as 3s: which unit is meant.
pub(crate) fn with_unit(alloc: Global, text: String) -> Result<String, AllocError> {
    match (unit_meant(text.as_str()), text.as_str().split_once('\n')) {
        (Some(unit), Some((first, rest))) => {
            let mut tipped = String::from_str(alloc, first)?;
            for part in ["\n\n  tip: N is ", unit, "\n", rest] {
                tipped.push_str(part)?;
            }
            Ok(tipped)
        }
        _ => Ok(text),
    }
}
