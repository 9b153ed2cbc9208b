//! Parts of text that are written to a page: numbers, and bytes as hexadecimal digits, sixteen at a
//! time.
ghost use Rattle.std.specs.Prelude.{◌≡◌, ◌+◌, ◌*◌, ◌/◌, ◌%◌, ◌<◌, ◌≤◌, ◌++◌, length, map};
ghost use Rattle.std.specs.Prelude.{slice_index, take};
ghost use Rattle.std.specs.Simd.Lanes.{Each1, chunk};
ghost use Rattle.ddcmp_io.specs.Written.{HandsOver, output_of};
ghost use Rattle.hex.specs.Hex.{encode_lower, lower_digits};

use crate::device::Sink;
use crate::page::Page;
use itoa::{Buffer, Integer};
use std::simd::prelude::*;

/// Writes a number in decimal digits.
pub fn write_number<W: Sink, I: Integer>(page: &mut Page, writer: &mut W, number: I)
    ensures { HandsOver (output_of W.broken W.contents writer.old page.old)
        (output_of W.broken W.contents writer.new page.new) (I.text number) }
{
    let mut buffer = Buffer::new();
    page.write(writer, buffer.format(number).as_bytes());
}

/// The maximum number of bytes of data that are converted to digits at once.
const CHUNK: usize = 512;

/// Returns the digits of sixteen values.
#[inline(always)]
fn digits_of(values: u8x16) -> u8x16
    requires { Each1 (λ v. v < 16) values }
    ensures { result ≡ map (λ v. slice_index lower_digits v) values }
{
    u8x16::from_array(*b"0123456789abcdef").swizzle_dyn(values)
}

/// Returns the first digit of each of sixteen bytes.
#[inline(always)]
fn high_digits(bytes: u8x16) -> u8x16
    ensures { result ≡ map (λ b. slice_index lower_digits (b / 16)) bytes }
{
    digits_of(bytes >> u8x16::splat(4))
}

/// Returns the second digit of each of sixteen bytes.
#[inline(always)]
fn low_digits(bytes: u8x16) -> u8x16
    ensures { result ≡ map (λ b. slice_index lower_digits (b % 16)) bytes }
{
    digits_of(bytes & u8x16::splat(15))
}

/// Puts the digits of sixteen bytes into an array.
#[inline(always)]
fn put_sixteen(bytes: &[u8], at: usize, digits: &mut [u8])
    requires bytes { at + 16 ≤ length bytes.now }
    requires digits { 2 * (at + 16) ≤ length digits.old }
    ensures { take (2 * (at + 16)) digits.new
        ≡ take (2 * at) digits.old ++ encode_lower (chunk at 16 bytes.now) }
{
    let sixteen = u8x16::from_slice(&bytes[at..]);
    let (first, second) = high_digits(sixteen).interleave(low_digits(sixteen));
    first.copy_to_slice(&mut digits[2 * at..]);
    second.copy_to_slice(&mut digits[2 * at + 16..]);
}

/// Puts the digits of bytes into the front of an array.
pub fn put_digits(bytes: &[u8], digits: &mut [u8])
    requires { 2 * length bytes.now ≤ length digits.old }
    ensures { take (2 * length bytes.now) digits.new ≡ encode_lower bytes.now }
{
    let mut at = 0;
    while at + 16 <= bytes.len() {
        put_sixteen(bytes, at, digits);
        at += 16;
    }
    match hex::encode_to_slice(&bytes[at..], &mut digits[2 * at..2 * bytes.len()]) {
        Ok(()) => {}
        Err(_other_length) => unreachable!(),
    }
}

/// Writes a few bytes as hexadecimal digits.
fn write_chunk<W: Sink>(page: &mut Page, writer: &mut W, bytes: &[u8])
    requires { length bytes.now ≤ CHUNK }
    ensures { HandsOver (output_of W.broken W.contents writer.old page.old)
        (output_of W.broken W.contents writer.new page.new) (encode_lower bytes.now) }
{
    page.make_room(writer, 2 * bytes.len());
    page.append_hex(bytes);
}

/// Writes bytes as hexadecimal digits.
pub fn write_hex<W: Sink>(page: &mut Page, writer: &mut W, bytes: &[u8])
    ensures { HandsOver (output_of W.broken W.contents writer.old page.old)
        (output_of W.broken W.contents writer.new page.new) (encode_lower bytes.now) }
{
    let mut at = 0;
    while at < bytes.len() {
        let end = at + CHUNK.min(bytes.len() - at);
        write_chunk(page, writer, &bytes[at..end]);
        at = end;
    }
}
