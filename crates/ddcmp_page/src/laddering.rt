//! `explain --ladder`: two captured directions of one line.
ghost use Rattle.std.specs.Prelude.{◌≡◌, ◌⊎◌, ◌<◌, ◌≤◌, IsOk, List, ℕ, Result, false};
ghost use Rattle.ddcmp_frame.specs.Limits.{MAX_COUNT as MOST};
ghost use Rattle.ddcmp_explain.specs.declared.explain_fault.ExplainFault.{ExplainFault as Fault};
ghost use Rattle.ddcmp_page.specs.Codes.{code_of_input, place_of_input};
ghost use Rattle.ddcmp_page.specs.Handed.{Hands, HandsNothing};

use crate::codes::{MAX, input_code};
use crate::decoding::form_of;
use crate::output::hand;
use ddcmp_explain::ExplainFault;
use ddcmp_frame::MAX_COUNT;
use ddcmp_io::MemorySink;
use ddcmp_io::failing::Pieces;
use ddcmp_log::Side;
use ddcmp_tap::{Capture, DrawFault, draw_captures};
use std::alloc::Global;

/// How captures are read, and what is drawn of them.
#[derive(Clone, Copy)]
struct Reading {
    form: u8,
    discarded: bool,
    max: u16,
}

/// Draws two captures, up to a fault, and sets `of` to 1 if it is of the second.
fn draw(
    alloc: Global,
    reading: Reading,
    first: &[u8],
    second: &[u8],
    kept: &mut MemorySink,
    of: &mut u8,
) -> Result<(), ExplainFault>
    requires max { (0 < reading.max) × (reading.max ≤ MOST) }
    requires whole { kept.old.refused ≡ false }
    requires first { of.old ≡ 0 }
    ensures side { of.new ≤ 1 }
    ensures first { IsOk result → of.new ≡ 0 }
{
    let Reading {
        form,
        discarded,
        max,
    } = reading;
    let form = form_of(form);
    let Ok(mut one) = Capture::new(alloc, Pieces::of(first), form, Side::Caller, discarded, max)
    else {
        return Err(ExplainFault::Memory);
    };
    let Ok(mut two) = Capture::new(
        alloc,
        Pieces::of(second),
        form,
        Side::Called,
        discarded,
        max,
    ) else {
        return Err(ExplainFault::Memory);
    };
    match draw_captures(&mut one, &mut two, kept) {
        Ok(()) => Ok(()),
        Err(DrawFault::Write) => Err(ExplainFault::Memory),
        Err(DrawFault::Capture(Side::Caller, fault)) => Err(fault),
        Err(DrawFault::Capture(Side::Called, fault)) => {
            *of = 1;
            Err(fault)
        }
    }
}

/// Draws two captures as a ladder of text; the bytes of the first go to the right. A fault is that
/// of the second if `of` is 1.
#[unsafe(no_mangle)]
pub extern "C" fn page_ladder(
    alloc: Global,
    form: u8,
    discarded: bool,
    max: u16,
    first: &[u8],
    second: &[u8],
    out: &mut [u8],
    written: &mut usize,
    at: &mut u64,
    of: &mut u8,
) -> u32
    ensures zero { max ≡ 0 → result ≡ MAX }
    ensures above { MOST < max → result ≡ MAX }
    ensures nothing { (max ≡ 0) ⊎ (MOST < max)
        → HandsNothing out.old out.new written.new at.new × (of.new ≡ 0) }
    ensures draws { 0 < max → max ≤ MOST → (by : Result (Unit {0}) Fault) × (output : List ℕ)
        × (IsOk by → of.new ≡ 0) × (at.new ≡ place_of_input by)
        × Hands output (code_of_input by) out.old out.new written.new result }
    ensures side { of.new ≤ 1 }
{
    *written = 0;
    *at = 0;
    *of = 0;
    if max == 0 || MAX_COUNT < max {
        return MAX;
    }
    let mut kept = MemorySink::new(alloc);
    let reading = Reading {
        form,
        discarded,
        max,
    };
    let by = draw(alloc, reading, first, second, &mut kept, of);
    let code = input_code(by, at);
    hand(&kept.bytes, code, out, written)
}
