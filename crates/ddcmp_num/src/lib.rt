//! Numbers modulo 256 and the CRC (block check) of DDCMP.
#![tactic(auto)]

ghost use Rattle.std.specs.Prelude.{◌≡◌, ◌≢◌, ◌<◌, List, ℕ, ◌∷◌, ◌++◌};
ghost use Rattle.ddcmp_num.specs.Check.{check_of, check_pair};

mod block_check;
mod check_tables;
mod limits;
mod seq;

pub use block_check::Check;
use byteorder::{ByteOrder, LittleEndian};
use check_tables::byte_check;
pub use limits::{MAX_COUNT, MAX_WINDOW};
pub use seq::Seq;

/// Returns the CRC (block check) of a text: CRC-16 of the polynomial x^16 + x^15 + x^2 + 1, with
/// initial value 0, low bit of each byte first, not inverted (DDCMP 4.1, block check).
pub fn check(text: &[u8]) -> u16
    ensures value { result ≡ check_of text.now }

    // A text of the same length that differs in one byte has another CRC.
    ensures one_byte { (front back : List ℕ) (old new : ℕ) → text.now ≡ front ++ old ∷ back
        → new < 256 → new ≢ old → result ≢ check_of (front ++ new ∷ back) }
{
    let mut check = Check::new();
    check.push_all(text);
    check.value()
}

/// Returns the CRC of six bytes, those of a header: each by a table of its own, so that no look-up
/// waits for another.
#[inline(always)]
pub fn check_six(bytes: &[u8; 6]) -> u16
    ensures { result ≡ check_of bytes.now }
{
    let [a, b, c, d, e, f] = *bytes;
    byte_check(5, a)
        ^ byte_check(4, b)
        ^ byte_check(3, c)
        ^ byte_check(2, d)
        ^ byte_check(1, e)
        ^ byte_check(0, f)
}

/// Returns a CRC as it is written to the line: the low byte, then the high byte.
pub fn check_bytes(check: u16) -> [u8; 2]
    ensures { result ≡ check_pair check }
{
    let mut bytes = [0; 2];
    LittleEndian::write_u16(&mut bytes, check);
    bytes
}
