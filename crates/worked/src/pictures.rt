//! Pictures of runs between two ends. The head of an example has the format; the picture is
//! printed, and then the result. Over a connection it is the same.
ghost use Rattle.std.specs.Prelude.{◌≡◌, false};

use ddcmp_frame::{FromRead, ToWrite};
use ddcmp_line::{Carrier, Config, Direct, Pair, Sockets};
use ddcmp_picture::{DrawOptions, Picture, draw};
use std::io::{self, Write};

/// The format of a picture: `ladder` or `svg`, and `counters`.
#[derive(Clone, Copy, Drop)]
struct Wanted {
    picture: Picture,
    counted: bool,
}

fn wanted_in(head: &str) -> Option<Wanted> {
    let mut words = head.split(' ');
    let picture = match words.next()? {
        "ladder" => Picture::Ladder,
        "svg" => Picture::Svg,
        _ => return None,
    };
    let counted = words.next()? == "counters";
    Some(Wanted { picture, counted })
}

/// Returns the sizes of both ends: small ones, and with more SYN fill if the head ends with `syn`.
fn config_of(head: &str) -> Config {
    let syn = if head.ends_with("syn") { 4 } else { 0 };
    Config {
        window: 3,
        inbox: 2,
        max: 1500,
        syn,
        restart: false,
    }
}

/// Draws a script between two new ends; returns the picture and the result.
fn play<C: Carrier>(
    rt: &HostRuntime,
    head: &str,
    wanted: &Wanted,
    lines: &str,
    carrier: &mut C,
) -> io::Result<Vec<u8>>
    requires { C.broken carrier.old ≡ false }
{
    let config = config_of(head);
    let Ok(mut pair) = Pair::new(rt.alloc(), config, config) else {
        return Ok(Vec::from_array(rt.alloc(), *b"no pair\n")?);
    };
    let mut reader = FromRead::new(lines.as_bytes());
    let mut writer = ToWrite::new(Vec::new(rt.alloc()));
    let answer = draw(
        rt.alloc(),
        &mut pair,
        &mut reader,
        &mut writer,
        carrier,
        DrawOptions {
            picture: wanted.picture,
            counted: wanted.counted,
        },
    );
    let mut text = writer.into_inner();
    writeln!(text, "{answer:?}")?;
    Ok(text)
}

pub fn run(rt: &HostRuntime, head: &str, lines: &str) -> io::Result<()> {
    let Some(wanted) = wanted_in(head) else {
        return println!(rt; "no picture");
    };
    let text = play(rt, head, &wanted, lines, &mut Direct)?;
    rt.stdout().write_all(text.as_slice())?;
    let over = play(rt, head, &wanted, lines, &mut Sockets::new(rt)?)?;
    if over != text {
        println!(rt; "over a connection:")?;
        rt.stdout().write_all(over.as_slice())?;
    }
    Ok(())
}
