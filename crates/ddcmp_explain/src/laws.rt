//! What holds of inputs and of the output: functions without an effect, whose contracts are the
//! laws.
ghost use Rattle.std.specs.Prelude.{◌≡◌, List, ℕ, None, length};
ghost use Rattle.ddcmp_frame.specs.Reading.{ending};
ghost use Rattle.ddcmp_explain.specs.Digits.{bytes_of};
ghost use Rattle.ddcmp_explain.specs.Discarded.{Adjoin, count_in_all, parts};
ghost use Rattle.ddcmp_explain.specs.Explains.{refusal};
ghost use Rattle.ddcmp_explain.specs.Logs.{Log};

use crate::form::Form;

/// If skipped bytes are reported, every byte is in exactly one line: the first line begins at
/// offset 0, each other line where the one before it ends, and the last ends where the bytes do. So
/// the numbers of bytes in all lines add up to the number of bytes.
pub fn every_byte_is_in_one_line()
    ensures adjoin { (max : ℕ) (bytes : List ℕ)
        → Adjoin (ending max bytes).offset 0 (parts max bytes) (length bytes) }
    ensures counts { (max : ℕ) (bytes : List ℕ)
        → count_in_all (ending max bytes).offset (parts max bytes) ≡ length bytes }
{}

/// The text of a log, by its grammar, is decoded to the bytes that it encodes, and isn't refused.
pub fn logs_are_read()
    ensures bytes { (text bytes : List ℕ) → Log text bytes → bytes_of Form.Text text ≡ bytes }
    ensures whole { (text bytes : List ℕ) → Log text bytes → refusal Form.Text text ≡ None }
{}
