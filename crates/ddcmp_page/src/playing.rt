//! The scripts of `simulate`, over memory.
ghost use Rattle.std.specs.Prelude.{◌≡◌, ◌⊎◌, [], List, ℕ, Result, false, Some, None};
ghost use Rattle.std.specs.Prelude.{Err, IfErr, IfOk, IsOk};
ghost use Rattle.std.specs.Io.KnownBytes.{Appends};
ghost use Rattle.ddcmp_io.specs.Written.{AppendsPart};
ghost use Rattle.ddcmp_line.specs.declared.script_fault.ScriptFault.{ScriptFault as Fault};
ghost use Rattle.ddcmp_line.specs.ScriptEnds.{Plays};
ghost use Rattle.ddcmp_pair.specs.Run.{PairState};
ghost use Rattle.ddcmp_picture.specs.Drawn.{DrawsScript};
ghost use Rattle.ddcmp_proto.specs.declared.config.ConfigRefusal.{ConfigRefusal};
ghost use Rattle.ddcmp_proto.specs.Config.{first_refusal};
ghost use Rattle.ddcmp_page.specs.Codes.{code_of_config, code_of_script, line_of_script};
ghost use Rattle.ddcmp_page.specs.Handed.{Hands};
ghost use Rattle.ddcmp_page.specs.Played.{IsRun, around_by, begins, begun_by, pair_by, sizes_by};

use crate::codes::{MEMORY, pair_code, script_code};
use crate::output::hand;
use ddcmp_io::MemorySink;
use ddcmp_io::failing::Pieces;
use ddcmp_line::{ScriptFault, script_with};
use ddcmp_pair::{Config, Direct, End, Event, Memory, Pair};
use ddcmp_picture::{DrawOptions, Picture, draw};
use std::alloc::Global;

/// What a script begins with and how it is shown, for a page.
#[repr(C)]
#[derive(Clone, Copy)]
pub struct PageScript {
    pub window: u16,
    pub inbox: u16,
    pub max: u16,
    pub syn: u8,
    pub restart: u8,
    /// Not 0: both stations were started, and settled.
    pub begun: u8,
    /// Not 0: the counters are written at the end.
    pub counters: u8,
    /// 0: text; 1: a ladder; 2: SVG.
    pub shown: u8,
}

/// Returns the sizes of both stations.
fn sizes_of(asked: &PageScript) -> Config
    ensures { result ≡ sizes_by asked.now }
{
    Config {
        window: asked.window,
        inbox: asked.inbox,
        max: asked.max,
        syn: asked.syn,
        restart: asked.restart != 0,
    }
}

/// Starts both ends, and exchanges frames until neither has one.
fn begin(pair: &mut Pair) -> Result<(), Memory>
    ensures { IsOk result → pair.new ≡ begins pair.old }
{
    let _first = pair.step(Event::Start(End::A))?;
    let _second = pair.step(Event::Start(End::B))?;
    let _settled = pair.settle()?;
    Ok(())
}

/// Starts both ends, if that is asked.
fn begin_asked(asked: &PageScript, pair: &mut Pair) -> Result<(), Memory>
    ensures { IsOk result → pair.new ≡ begun_by asked.now pair.old }
{
    if asked.begun == 0 {
        return Ok(());
    }
    begin(pair)
}

/// Runs a script, and writes its text.
fn tell(
    alloc: Global,
    pair: &mut Pair,
    script: &[u8],
    kept: &mut MemorySink,
    counted: bool,
) -> Result<(), ScriptFault>
    requires whole { kept.old.refused ≡ false }
    requires empty { kept.old.bytes.items ≡ [] }
    ensures { Plays counted script.now (around_by pair.old pair.new)
        (Appends (Some []) (Some kept.new.bytes.items))
        (AppendsPart (Some []) (Some kept.new.bytes.items)) result }
{
    script_with(
        alloc,
        pair,
        &mut Pieces::of(script),
        kept,
        &mut Direct,
        counted,
    )
}

/// Runs a script, and draws it.
fn depict(
    alloc: Global,
    pair: &mut Pair,
    script: &[u8],
    kept: &mut MemorySink,
    picture: Picture,
    counted: bool,
) -> Result<(), ScriptFault>
    requires whole { kept.old.refused ≡ false }
    ensures { DrawsScript script.now (around_by pair.old pair.new) result }
{
    let options = DrawOptions { picture, counted };
    draw(
        alloc,
        pair,
        &mut Pieces::of(script),
        kept,
        &mut Direct,
        options,
    )
}

/// Runs a script, and shows it.
fn play(
    alloc: Global,
    asked: &PageScript,
    pair: &mut Pair,
    script: &[u8],
    kept: &mut MemorySink,
) -> Result<(), ScriptFault>
    requires whole { kept.old.refused ≡ false }
    requires empty { kept.old.bytes.items ≡ [] }
    ensures { IsRun asked.now script.now pair.old pair.new kept.new.bytes.items result }
{
    let counted = asked.counters != 0;
    match asked.shown {
        1 => depict(alloc, pair, script, kept, Picture::Ladder, counted),
        2 => depict(alloc, pair, script, kept, Picture::Svg, counted),
        _ => tell(alloc, pair, script, kept, counted),
    }
}

/// Makes the pair that a script begins with.
fn make(alloc: Global, asked: &PageScript) -> Result<Pair, u32>
    ensures made { IfOk result (λ pair. pair ≡ pair_by asked.now) }
    ensures sizes { (refusal : ConfigRefusal) → first_refusal (sizes_by asked.now) ≡ Some refusal
        → result ≡ Err (code_of_config refusal) }
    ensures memory { first_refusal (sizes_by asked.now) ≡ None
        → IfErr result (λ code. code ≡ MEMORY) }
{
    let sizes = sizes_of(asked);
    let mut pair = match Pair::new(alloc, sizes, sizes) {
        Ok(pair) => pair,
        Err(refusal) => return Err(pair_code(refusal)),
    };
    match begin_asked(asked, &mut pair) {
        Ok(()) => Ok(pair),
        Err(_refused) => Err(MEMORY),
    }
}

/// Runs a script, and puts what it shows into the front of `out`. If a line is wrong, `at` is its
/// number.
#[unsafe(no_mangle)]
pub extern "C" fn page_simulate(
    alloc: Global,
    asked: &PageScript,
    script: &[u8],
    out: &mut [u8],
    written: &mut usize,
    at: &mut u64,
) -> u32
    ensures sizes { (refusal : ConfigRefusal) → first_refusal (sizes_by asked.now) ≡ Some refusal
        → result ≡ code_of_config refusal }
    ensures runs { first_refusal (sizes_by asked.now) ≡ None → (result ≡ MEMORY)
        ⊎ ((by : Result (Unit {0}) Fault) × (output : List ℕ) × (after : PairState)
        × IsRun asked.now script.now (pair_by asked.now) after output by
        × (at.new ≡ line_of_script by)
        × Hands output (code_of_script by) out.old out.new written.new result) }
{
    *written = 0;
    *at = 0;
    let mut pair = match make(alloc, asked) {
        Ok(pair) => pair,
        Err(code) => return code,
    };
    let mut kept = MemorySink::new(alloc);
    let by = play(alloc, asked, &mut pair, script, &mut kept);
    let code = script_code(by, at);
    hand(&kept.bytes, code, out, written)
}
