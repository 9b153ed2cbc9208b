//! The bytes that digits encode, chunk by chunk.
ghost use Rattle.std.specs.Prelude.{◌≡◌, ◌+◌, ◌≤◌, ◌<◌, ◌++◌, IfSome, List, ℕ, None, Some, length};
ghost use Rattle.std.specs.Prelude.{get_or, option_to_list, take};
ghost use Rattle.std.specs.Option.{ForSome};
ghost use Rattle.ddcmp_explain.specs.declared.form.Form.TheVariants as form;
ghost use Rattle.ddcmp_explain.specs.Digits.{IsSmall, hex_value as hex_value_of, left_in, spot_in};
ghost use Rattle.ddcmp_explain.specs.Digits.{unexpected_in};

use crate::hex_digits::{hex_value, is_blank};
use crate::hex_values::put_eight;
use crate::spot::Spot;

/// The initial number of bytes after which sixteen digits are looked for again.
const SHORTEST: usize = 16;

const LONGEST: usize = 1024;

/// Decodes digits; keeps the digit that is left over, and the state of the log parser.
#[derive(Drop)]
pub(crate) struct Decoder {
    pub(crate) high: Option<u8>,
    pub(crate) spot: Spot,
    ghost digit: { ForSome high (λ v. v < 16) },
    ghost small: { IsSmall spot },
}

/// The result of decoding a chunk: how many bytes it completed, and the index in the chunk of its
/// first byte that isn't allowed where it is.
#[derive(Clone, Copy)]
pub(crate) struct Decoded {
    pub(crate) count: usize,
    pub(crate) unexpected: Option<usize>,
}

impl Decoder {
    ghost use Rattle.ddcmp_explain.specs.Inside.Decoding.{Decodes};

    /// Returns a decoder that has read nothing.
    pub(crate) fn new() -> Self
        ensures none { result.high ≡ None }
        ensures spot { result.spot ≡ Spot.Between }
    {
        Decoder {
            high: None,
            spot: Spot::Between,
        }
    }

    /// Decodes pairs of digits, up to the first byte that is neither a digit nor blank.
    pub(crate) fn pair(&mut self, piece: &[u8], bytes: &mut [u8]) -> Decoded
        requires { length piece.now ≤ length bytes.old }
        ensures within { result.count ≤ length piece.now }
        ensures inside { IfSome result.unexpected (λ i. i < length piece.now) }
        ensures decodes { (seen : List ℕ) → unexpected_in form.Hex seen ≡ None
            → left_in form.Hex seen ≡ option_to_list self.old.high
            → Decodes form.Hex seen piece.now result bytes.new self.new.high }
        ensures spot { self.new.spot ≡ self.old.spot }
    {
        let mut count = 0;
        let mut i = 0;
        // If no sixteen digits are adjacent, they are looked for again after a wait, which doubles
        // up to a maximum.
        let mut tries_at = 0;
        let mut wait = SHORTEST;
        while i < piece.len() {
            if put_eight(piece, i, tries_at, self.high, bytes, count) {
                count += 8;
                i += 16;
                wait = SHORTEST;
                continue;
            }
            if tries_at <= i {
                tries_at = i + wait;
                wait = LONGEST.min(2 * wait);
            }
            match hex_value(piece[i]) {
                Some(digit) => match self.high {
                    Some(high) => {
                        bytes[count] = high * 16 + digit;
                        count += 1;
                        self.high = None;
                    }
                    None => match value_at(piece, i + 1) {
                        // Most digits are adjacent.
                        Some(low) => {
                            bytes[count] = digit * 16 + low;
                            count += 1;
                            i += 1;
                        }
                        None => self.high = Some(digit),
                    },
                },
                None => {
                    if !is_blank(piece[i]) {
                        return Decoded {
                            count,
                            unexpected: Some(i),
                        };
                    }
                }
            }
            i += 1;
        }
        Decoded {
            count,
            unexpected: None,
        }
    }

    /// Decodes a log, up to the first character that isn't allowed where it is.
    pub(crate) fn spell(&mut self, piece: &[u8], bytes: &mut [u8]) -> Decoded
        requires { length piece.now ≤ length bytes.old }
        ensures within { result.count ≤ length piece.now }
        ensures inside { IfSome result.unexpected (λ i. i < length piece.now) }
        ensures decodes { (seen : List ℕ) → unexpected_in form.Text seen ≡ None
            → spot_in form.Text seen ≡ self.old.spot
            → Decodes form.Text seen piece.now result bytes.new self.new.high }
        ensures spot { (seen : List ℕ) → unexpected_in form.Text seen ≡ None
            → spot_in form.Text seen ≡ self.old.spot → result.unexpected ≡ None
            → spot_in form.Text (seen ++ piece.now) ≡ self.new.spot }
    {
        let mut count = 0;
        let mut i = 0;
        while i < piece.len() {
            count = put(bytes, count, self.spot.complete(piece[i]));
            self.spot = self.spot.after(piece[i]);
            if self.spot.is_wrong() {
                return Decoded {
                    count,
                    unexpected: Some(i),
                };
            }
            i += 1;
        }
        self.high = self.spot.half();
        Decoded {
            count,
            unexpected: None,
        }
    }
}

/// Stores a byte after `count` others if one was completed; returns how many there are then.
#[inline(always)]
fn put(bytes: &mut [u8], count: usize, completed: Option<u8>) -> usize
    requires { count < length bytes.old }
    ensures within { result ≤ count + 1 }
    ensures put { take result bytes.new ≡ take count bytes.old ++ option_to_list completed }
{
    match completed {
        Some(byte) => {
            bytes[count] = byte;
            count + 1
        }
        None => count,
    }
}

/// Returns the value of the digit at `i`, if there is one.
#[inline(always)]
fn value_at(piece: &[u8], i: usize) -> Option<u8>
    ensures value { IfSome result (λ v. hex_value_of (get_or piece.now i 0) ≡ Some v) }
    ensures inside { IfSome result (λ v. (v < 16) × (i < length piece.now)) }
{
    if i < piece.len() {
        hex_value(piece[i])
    } else {
        None
    }
}
