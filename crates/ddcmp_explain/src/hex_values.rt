//! The bytes that sixteen hexadecimal digits encode.
ghost use Rattle.std.specs.Prelude.{◌≡◌, ◌+◌, ◌<◌, ◌≤◌, false, true, length, map, slice_index};
ghost use Rattle.std.specs.Prelude.{None};
ghost use Rattle.std.specs.Simd.Lanes.{Each1};
ghost use Rattle.ddcmp_explain.specs.declared.hex_digits.TheConstants.{HEX_VALUES};
ghost use Rattle.ddcmp_explain.specs.Digits.{pairs};
ghost use Rattle.ddcmp_explain.specs.Inside.Decoding.{PutsEight};

use std::simd::prelude::*;

/// Returns the values of sixteen digits of either case; 255 for a byte that isn't one.
#[inline(always)]
fn values_of(digits: u8x16) -> u8x16
    ensures { result ≡ map (λ c. slice_index HEX_VALUES c) digits }
{
    let decimal = digits - u8x16::splat(b'0');
    let letter = (digits | u8x16::splat(32)) - u8x16::splat(b'a');
    let by_letter = letter
        .simd_lt(u8x16::splat(6))
        .select(letter + u8x16::splat(10), u8x16::splat(255));
    decimal.simd_lt(u8x16::splat(10)).select(decimal, by_letter)
}

/// Packs sixteen values into bytes, two each, the high one first.
#[inline(always)]
fn bytes_of(values: u8x16) -> u8x8
    requires { Each1 (λ v. v < 16) values }
    ensures { result ≡ pairs values }
{
    let high = values.swizzle([0, 2, 4, 6, 8, 10, 12, 14]);
    let low = values.swizzle([1, 3, 5, 7, 9, 11, 13, 15]);
    high * u8x8::splat(16) + low
}

/// Decodes the sixteen digits from `i` on into eight bytes, if `i` has reached `tries_at`, no digit
/// is pending and all sixteen are digits; returns whether it did.
#[inline(always)]
pub(crate) fn put_eight(
    piece: &[u8],
    i: usize,
    tries_at: usize,
    high: Option<u8>,
    bytes: &mut [u8],
    count: usize,
) -> bool
    requires within { count ≤ i }
    requires inside { i < length piece.now }
    requires room { length piece.now ≤ length bytes.old }
    ensures put { result ≡ true → PutsEight piece.now i bytes.old count bytes.new }
    ensures alone { result ≡ true → high ≡ None }
    ensures kept { result ≡ false → bytes.new ≡ bytes.old }
{
    if i < tries_at || high.is_some() || piece.len() - i < 16 {
        return false;
    }
    let values = values_of(u8x16::from_slice(&piece[i..]));
    if values.simd_lt(u8x16::splat(16)).to_bitmask() != 0xFFFF {
        return false;
    }
    bytes_of(values).copy_to_slice(&mut bytes[count..]);
    true
}
