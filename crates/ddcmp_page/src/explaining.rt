//! `explain`, over memory.
ghost use Rattle.std.specs.Prelude.{◌≡◌, ◌⊎◌, ◌<◌, ◌≤◌, [], List, ℕ, Result, false};
ghost use Rattle.ddcmp_frame.specs.Limits.{MAX_COUNT as MOST};
ghost use Rattle.ddcmp_explain.specs.declared.explain_fault.ExplainFault.{ExplainFault as Fault};
ghost use Rattle.ddcmp_page.specs.Codes.{code_of_input, place_of_input};
ghost use Rattle.ddcmp_page.specs.Explained.{IsExplainedBy, style_of};
ghost use Rattle.ddcmp_page.specs.Handed.{Hands, HandsNothing};

use crate::codes::{MAX, input_code};
use crate::decoding::form_of;
use crate::output::hand;
use ddcmp_explain::{ExplainFault, Notation, Style, explain_with};
use ddcmp_frame::MAX_COUNT;
use ddcmp_io::MemorySink;
use ddcmp_io::failing::Pieces;
use std::alloc::Global;

/// Explains an input in the form with this number.
fn explain_form(
    alloc: Global,
    form: u8,
    input: &[u8],
    writer: &mut MemorySink,
    style: Style,
    max: u16,
) -> Result<(), ExplainFault>
    requires whole { writer.old.refused ≡ false }
    requires empty { writer.old.bytes.items ≡ [] }
    requires max { (0 < max) × (max ≤ MOST) }
    ensures { IsExplainedBy form style max input.now writer.new.bytes.items result }
{
    explain_with(
        alloc,
        &mut Pieces::of(input),
        writer,
        form_of(form),
        style,
        max,
    )
}

/// Explains an input: puts the lines of its items into the front of `out`, and returns 0, or the
/// code of a fault, whose place is `at`. If they don't fit, `written` is their length.
#[unsafe(no_mangle)]
pub extern "C" fn page_explain(
    alloc: Global,
    form: u8,
    json: bool,
    discarded: bool,
    max: u16,
    input: &[u8],
    out: &mut [u8],
    written: &mut usize,
    at: &mut u64,
) -> u32
    ensures zero { max ≡ 0 → result ≡ MAX }
    ensures above { MOST < max → result ≡ MAX }
    ensures nothing { (max ≡ 0) ⊎ (MOST < max)
        → HandsNothing out.old out.new written.new at.new }
    ensures explains { 0 < max → max ≤ MOST → (by : Result (Unit {0}) Fault) × (output : List ℕ)
        × IsExplainedBy form (style_of json discarded) max input.now output by
        × (at.new ≡ place_of_input by)
        × Hands output (code_of_input by) out.old out.new written.new result }
{
    *written = 0;
    *at = 0;
    if max == 0 || MAX_COUNT < max {
        return MAX;
    }
    let notation = if json {
        Notation::Json
    } else {
        Notation::Plain
    };
    let style = Style {
        notation,
        discarded,
    };
    let mut kept = MemorySink::new(alloc);
    let by = explain_form(alloc, form, input, &mut kept, style, max);
    let code = input_code(by, at);
    hand(&kept.bytes, code, out, written)
}
