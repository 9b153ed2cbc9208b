//! Scripts between two ends. The head of an example has the sizes of both; what a script writes is
//! printed, and then its result. Over a connection it writes the same.
ghost use Rattle.std.specs.Prelude.{◌≡◌, false};

use ddcmp_frame::{FromRead, ToWrite};
use ddcmp_line::{Carrier, Config, Direct, Pair, Sockets, script};
use std::io::{self, Write};
use test_kit::config_of;

/// Plays a script between two new ends; returns what it wrote and its result.
fn play<C: Carrier>(
    rt: &HostRuntime,
    config: Config,
    lines: &str,
    carrier: &mut C,
) -> io::Result<Vec<u8>>
    requires { C.broken carrier.old ≡ false }
{
    let Ok(mut pair) = Pair::new(rt.alloc(), config, config) else {
        return Ok(Vec::from_array(rt.alloc(), *b"no pair\n")?);
    };
    let mut reader = FromRead::new(lines.as_bytes());
    let mut writer = ToWrite::new(Vec::new(rt.alloc()));
    let answer = script(rt.alloc(), &mut pair, &mut reader, &mut writer, carrier);
    let mut text = writer.into_inner();
    writeln!(text, "{answer:?}")?;
    Ok(text)
}

/// Plays a script over a carrier that returns what it is passed, and then over a connection, whose
/// text is printed if it differs.
pub fn run(rt: &HostRuntime, head: &str, lines: &str) -> io::Result<()> {
    let Some(config) = config_of(head) else {
        return println!(rt; "no sizes");
    };
    let text = play(rt, config, lines, &mut Direct)?;
    rt.stdout().write_all(text.as_slice())?;
    let over = play(rt, config, lines, &mut Sockets::new(rt)?)?;
    if over != text {
        println!(rt; "over a connection:")?;
        rt.stdout().write_all(over.as_slice())?;
    }
    Ok(())
}
