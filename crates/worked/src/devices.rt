//! Scripts over devices and carriers that fail, move little or return something else. The lines of
//! an example are followed by lines on what the devices do; what is written, and the result after a
//! bar, is printed. Scripts over good devices are tested in `scripts`.
mod bad;
mod trial;

use std::io;

/// The separator between a script and the lines on what the devices do.
const TRIALS: &str = "---\n";

/// Runs a script once for each line after it.
pub fn run(rt: &HostRuntime, part: &str) -> io::Result<()> {
    let Some((lines, trials)) = part.split_once(TRIALS) else {
        return Ok(());
    };
    for trial in trials.lines() {
        println!(rt; "--- {trial}")?;
        trial::perform(rt, lines, trial)?;
    }
    Ok(())
}
