//! The text of a line, assembled in an array before it goes to a page. The position of the next
//! piece is passed on as a value, so that it can stay in a register.
ghost use Rattle.std.specs.Prelude.{◌≡◌, ◌+◌, ◌-◌, ◌^◌, ◌<◌, ◌≤◌, decimal, length};
ghost use Rattle.ddcmp_explain.specs.Inside.Putting.{Puts};

use crate::byte_texts::byte_text;
use itoa::write_digits;

/// Room for the text of an item without its data, and to spare.
pub(crate) const LINE: usize = 192;

/// Puts a text whose length the compiler knows after the first `at` bytes; returns where it ends.
/// It compiles to a plain store; a copy between slices would first check whether they overlap.
#[inline(always)]
pub(crate) fn put<const N: usize>(line: &mut [u8; LINE], at: usize, text: &[u8; N]) -> usize
    requires { at + N ≤ LINE }
    ensures { Puts line.old at line.new result text.now }
{
    let end = at + N;
    store(&mut line[at..end], text);
    end
}

/// Stores a text in a slice of its length.
#[inline(always)]
fn store<const N: usize>(place: &mut [u8], text: &[u8; N])
    requires { length place.old ≡ N }
    ensures { place.new ≡ text.now }
{
    match place.as_mut_array::<N>() {
        Some(array) => *array = *text,
        None => unreachable!(),
    }
}

/// Puts a text of any length.
pub(crate) fn put_slice(line: &mut [u8; LINE], at: usize, text: &[u8]) -> usize
    requires { at + length text.now ≤ LINE }
    ensures { Puts line.old at line.new result text.now }
{
    let end = at + text.len();
    line[at..end].copy_from_slice(text);
    end
}

/// Puts a number of one byte.
#[inline(always)]
pub(crate) fn put_byte(line: &mut [u8; LINE], at: usize, number: u8) -> usize
    requires { at + 3 ≤ LINE }
    ensures puts { Puts line.old at line.new result (decimal number) }
    ensures within { result ≤ at + 3 }
{
    let (digits, length) = byte_text(number);
    let _after_three = put(line, at, &digits);
    at + length
}

/// Puts a number of any size.
pub(crate) fn put_number(line: &mut [u8; LINE], at: usize, number: u64) -> usize
    requires { at + 20 ≤ LINE }
    ensures puts { Puts line.old at line.new result (decimal number) }
    ensures within { result ≤ at + 20 }
{
    let end = at + digits_in(number);
    let _begins = write_digits(number, line, end);
    end
}

/// The powers of ten that fit: entry `k` has `k + 1` digits.
#[rattlefmt::skip]
static POWERS: [u64; 20] = [
    1,
    10,
    100,
    1_000,
    10_000,
    100_000,
    1_000_000,
    10_000_000,
    100_000_000,
    1_000_000_000,
    10_000_000_000,
    100_000_000_000,
    1_000_000_000_000,
    10_000_000_000_000,
    100_000_000_000_000,
    1_000_000_000_000_000,
    10_000_000_000_000_000,
    100_000_000_000_000_000,
    1_000_000_000_000_000_000,
    10_000_000_000_000_000_000,
];

/// Returns how many decimal digits a number has: those of the highest power of two in it, or one
/// more. The decimal logarithm of 2 is a little above 1233 / 4096.
#[inline(always)]
fn digits_in(number: u64) -> usize
    ensures value { result ≡ length (decimal number) }
    ensures within { result ≤ 20 }
{
    if number < 10 {
        return 1;
    }
    let highest_bit = 63 - number.leading_zeros() as usize;
    let fewest = highest_bit * 1233 / 4096 + 1;
    if POWERS[fewest] <= number {
        fewest + 1
    } else {
        fewest
    }
}
