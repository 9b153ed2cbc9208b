//! `simulate` and `pair`: a script between two ends, as text or as a picture.
ghost use Rattle.std.specs.Prelude.{◌≡◌, ◌≢◌, ◌⊎◌, ◌↔◌, false, None, Some, IsTrue, List, ℕ};
ghost use Rattle.std.specs.Prelude.{IfSome, IsOk, is_some};
ghost use Rattle.std.specs.Option.{option_map};
ghost use Rattle.ddcmp_io.specs.Change.{source_change};
ghost use Rattle.ddcmp_io.specs.Input.{GaveMost};
ghost use Rattle.ddcmp_station.specs.Config.{first_refusal};
ghost use Rattle.ddcmp_cli.specs.Scripts.{Picks, RunsBetween, RunsBy, ScriptAsked};
ghost use Rattle.ddcmp_cli.specs.Scripts.{begun, pair_with};
ghost use Rattle.ddcmp_commands.specs.Endings.{TellsDevices, ending_of, script_fault, streams};

use ddcmp_args::{Beginning, ScriptArgs, ScriptView};
use ddcmp_commands::inputs::unopened;
use ddcmp_commands::usage::usage;
use ddcmp_commands::{Ending, Fault, Inputs};
use ddcmp_io::{Sink, Source, Worst};
use ddcmp_line::{Carrier, Direct, ScriptFault, script_with};
use ddcmp_net::Sockets;
use ddcmp_pair::{End, Event, Memory, Pair};
use ddcmp_picture::{DrawOptions, Picture, draw};
use std::alloc::Global;
use std::net::{Net, TcpStream};

/// The usage error for `--svg` with `--ladder`.
const TWO_PICTURES: &str = "'--svg' and '--ladder' can't be used together";

/// How the bytes between both ends are carried.
#[derive(Clone, Copy)]
pub enum Way {
    /// They arrive as they were sent, as in `simulate`.
    Simulated,
    /// Over a TCP connection, as in `pair`.
    Paired,
}

/// A script run that is requested.
#[derive(Clone, Copy)]
struct ScriptRun {
    way: Way,
    from: Beginning,
    picture: Option<Picture>,
    counted: bool,
}

/// Returns the picture that is requested, if any, or the usage error for two.
fn picture_of(alloc: Global, view: ScriptView) -> Result<Option<Picture>, Ending>
    ensures { Picks view result }
{
    match (view.svg, view.ladder) {
        (true, true) => Err(usage(alloc, TWO_PICTURES)),
        (true, false) => Ok(Some(Picture::Svg)),
        (false, true) => Ok(Some(Picture::Ladder)),
        (false, false) => Ok(None),
    }
}

/// Makes the pair that a script begins with; returns none if an allocation failed.
fn pair_of(alloc: Global, from: Beginning) -> Option<Pair>
    ensures made { IfSome result (λ pair. pair ≡ pair_with from) }
{
    let Ok(mut pair) = Pair::new_with(alloc, from.config, from.config, from.by_user) else {
        return None;
    };
    if !from.begun {
        return Some(pair);
    }
    match begin(&mut pair) {
        Ok(()) => Some(pair),
        Err(_refused) => None,
    }
}

/// Starts both ends, and exchanges frames until neither has one.
fn begin(pair: &mut Pair) -> Result<(), Memory>
    ensures begins { IsOk result → pair.new ≡ begun pair.old }
{
    let _first = pair.step(Event::Start(End::A))?;
    let _second = pair.step(Event::Start(End::B))?;
    let _settled = pair.settle()?;
    Ok(())
}

/// Converts the result of a script.
fn ended(played: Result<(), ScriptFault>) -> Ending
    ensures { result ≡ ending_of script_fault played }
{
    match played {
        Ok(()) => Ending::Done,
        Err(fault) => Ending::Fault(Fault::from(fault)),
    }
}

/// Runs a script over a carrier, and writes its text or a picture.
fn play<R: Source, W: Sink, C: Carrier>(
    alloc: Global,
    run: ScriptRun,
    carrier: &mut C,
    reader: &mut R,
    writer: &mut W,
) -> Ending
    requires fine { R.state reader.old ≡ Worst.Fine }
    requires whole { W.broken writer.old ≡ false }
    requires carrier { C.broken carrier.old ≡ false }
    requires silent { (c : C) → C.told c ≡ None }
    requires sizes { first_refusal run.from.config ≡ None }
    ensures runs { (input : List ℕ) → R.left reader.old ≡ Some input
        → RunsBetween (C.direct carrier.old) run.from run.counted (is_some run.picture)
        (streams input (R.left reader.new) (W.contents writer.old) (W.contents writer.new)) result }
    ensures devices { TellsDevices (source_change (R.left reader.old) (R.left reader.new)
        (R.state reader.new)) (W.broken writer.new) result }
    ensures carried { result ≡ Ending.Fault Fault.Carrier → IsTrue (C.broken carrier.new) }
{
    let counted = run.counted;
    let Some(mut pair) = pair_of(alloc, run.from) else {
        return Ending::Fault(Fault::Memory);
    };
    match run.picture {
        None => ended(script_with(alloc, &mut pair, reader, writer, carrier, counted)),
        Some(picture) => {
            let options = DrawOptions { picture, counted };
            ended(draw(alloc, &mut pair, reader, writer, carrier, options))
        }
    }
}

/// Runs a script over a carrier of this kind, which is made first.
fn play_by<N: Net<Stream = TcpStream>, R: Source, W: Sink>(
    net: &N,
    alloc: Global,
    run: ScriptRun,
    reader: &mut R,
    writer: &mut W,
) -> Ending
    requires fine { R.state reader.old ≡ Worst.Fine }
    requires whole { W.broken writer.old ≡ false }
    requires sizes { first_refusal run.from.config ≡ None }
    ensures runs { (input : List ℕ) → R.left reader.old ≡ Some input
        → RunsBy run.way run.from run.counted (is_some run.picture) (streams input
        (R.left reader.new) (W.contents writer.old) (W.contents writer.new)) result }
    ensures devices { TellsDevices (source_change (R.left reader.old) (R.left reader.new)
        (R.state reader.new)) (W.broken writer.new) result }
{
    match run.way {
        Way::Simulated => play(alloc, run, &mut Direct, reader, writer),
        Way::Paired => match Sockets::new(net) {
            Ok(mut sockets) => play(alloc, run, &mut sockets, reader, writer),
            Err(_unmade) => Ending::Fault(Fault::Carrier),
        },
    }
}

/// Runs `simulate` or `pair`: the script of a file, or of standard input if none is named.
pub fn script_asked<S: Net<Stream = TcpStream> + Inputs, R: Source, W: Sink>(
    system: &S,
    alloc: Global,
    way: Way,
    args: &ScriptArgs<'_>,
    reader: &mut R,
    writer: &mut W,
) -> Ending
    requires fine { R.state reader.old ≡ Worst.Fine }
    requires whole { W.broken writer.old ≡ false }
    requires sizes { first_refusal args.now.from.config ≡ None }
    ensures shows { (input : List ℕ) → R.left reader.old ≡ Some input
        → ScriptAsked way (S.held system.now) args.now (streams input (R.left reader.new)
        (W.contents writer.old) (W.contents writer.new)) result }
    ensures read { R.state reader.new ≢ Worst.Fine → result ≡ Ending.Fault Fault.Read }
    ensures read_only { option_map (λ name. name.now) args.now.file ≡ None
        → result ≡ Ending.Fault Fault.Read → (R.state reader.new ≢ Worst.Fine)
        ⊎ GaveMost (R.left reader.old) (R.left reader.new) }
    ensures write { (result ≡ Ending.Fault Fault.Write) ↔ IsTrue (W.broken writer.new) }
    ensures untouched { option_map (λ name. name.now) args.now.file ≢ None
        → reader.new ≡ reader.old }
{
    let picture = match picture_of(alloc, args.view) {
        Ok(picture) => picture,
        Err(refused) => return refused,
    };
    let run = ScriptRun {
        way,
        from: args.from,
        picture,
        counted: args.view.counters,
    };
    let Some(name) = args.file else {
        return play_by(system, alloc, run, reader, writer);
    };
    match system.open(name) {
        Ok(mut opened) => play_by(system, alloc, run, &mut opened, writer),
        Err(why) => unopened(alloc, name, why),
    }
}
