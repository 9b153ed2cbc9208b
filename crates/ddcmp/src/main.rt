//! The program `ddcmp`: passes on arguments, streams and the exit status.
#![tactic(auto)]

use ddcmp_cli::{StandIns, report, run_args};
use ddcmp_frame::{FromRead, ToWrite};
use std::process::ExitCode;
use std::{env, io};

/// Returns whether the arguments are those of `link`, which no standard error holds up.
fn is_link(words: &io::Result<Vec<String>>) -> bool {
    match words {
        Ok(words) => words.get(1).map(|word| word.as_str()) == Some("link"),
        Err(_) => false,
    }
}

fn main(rt: HostRuntime) -> ExitCode {
    let _stand_ins = StandIns::new(&rt);
    let mut reader = FromRead::new(rt.stdin());
    let mut writer = ToWrite::new(rt.stdout());
    let words = env::args(&rt).and_then(|words| Ok(words.collect(rt.alloc())?));
    let is_brief = is_link(&words);
    let ending = run_args(&rt, rt.alloc(), words, &mut reader, &mut writer);
    report(&rt, rt.alloc(), &ending, is_brief);
    ExitCode::from(ending.status())
}
