//! The bytes that an input encodes.
ghost use Rattle.std.specs.Prelude.{◌≡◌, [], List, ℕ, Result};
ghost use Rattle.ddcmp_explain.specs.declared.explain_fault.ExplainFault.{ExplainFault as Fault};
ghost use Rattle.ddcmp_page.specs.Codes.{code_of_input, place_of_input};
ghost use Rattle.ddcmp_page.specs.Explained.{IsDecoded, form_by};
ghost use Rattle.ddcmp_page.specs.Handed.{Hands};

use crate::codes::input_code;
use crate::output::hand;
use ddcmp_explain::{ExplainFault, Form, InputBytes, InputForm, PIECE};
use ddcmp_io::failing::Pieces;
use std::alloc::Global;

/// Returns the form with a number: 0 is detected, 1 digits, 2 digits as in logs, 3 raw, 4 a dump.
pub(crate) fn form_of(form: u8) -> InputForm
    ensures { result ≡ form_by form }
{
    match form {
        1 => InputForm::As(Form::Hex),
        2 => InputForm::As(Form::Text),
        3 => InputForm::As(Form::Raw),
        4 => InputForm::As(Form::Dump),
        _ => InputForm::Detected,
    }
}

/// Appends the bytes that an input encodes, up to a fault, to `kept`.
fn decode(input: &[u8], form: InputForm, kept: &mut Vec<u8>) -> Result<(), ExplainFault>
    requires empty { kept.old.items ≡ [] }
    ensures { IsDecoded form input.now kept.new.items result }
{
    let mut reader = Pieces::of(input);
    let mut read = InputBytes::new(form);
    let mut piece = [0; PIECE];
    let mut bytes = [0; PIECE];
    loop {
        match read.next(&mut reader, &mut piece, &mut bytes) {
            Ok(Some(count)) => match kept.extend_from_slice(&bytes[..count]) {
                Ok(()) => {}
                Err(_refused) => return Err(ExplainFault::Memory),
            },
            Ok(None) => return Ok(()),
            Err(fault) => return Err(fault),
        }
    }
}

/// Puts the bytes that an input encodes, up to a fault, into the front of `out`, and returns 0, or
/// the code of the fault, whose place is `at`. If they don't fit, `written` is their
/// number.
#[unsafe(no_mangle)]
pub extern "C" fn page_bytes(
    alloc: Global,
    form: u8,
    input: &[u8],
    out: &mut [u8],
    written: &mut usize,
    at: &mut u64,
) -> u32
    ensures { (by : Result (Unit {0}) Fault) × (output : List ℕ)
        × IsDecoded (form_by form) input.now output by × (at.new ≡ place_of_input by)
        × Hands output (code_of_input by) out.old out.new written.new result }
{
    let mut kept = Vec::new(alloc);
    let by = decode(input, form_of(form), &mut kept);
    let code = input_code(by, at);
    hand(&kept, code, out, written)
}
