//! The CRC (block check), computed chunk by chunk.
ghost use Rattle.std.specs.Prelude.{◌≡◌, ◌<◌, ◌^◌, List, ℕ, [], ◌∷◌, ◌++◌};
ghost use Rattle.ddcmp_num.specs.Check.{check_of};

use crate::check_tables::byte_check;
use std::marker::Model;

/// A CRC (block check) that is computed chunk by chunk. Contracts see it as a number.
#[derive(Clone, Copy, Debug, PartialEq, Eq)]
pub struct Check {
    register: u16,
}

impl Model for Check {
    ghost Value = { ℕ };

    ghost view = { λ c. c.register };

    ghost inverse = { λ n. record { register = n } };
}

impl Check {
    /// Returns the CRC of no bytes.
    pub fn new() -> Self
        ensures { result ≡ check_of [] }
    {
        Check { register: 0 }
    }

    /// Adds one byte.
    pub fn push(&mut self, byte: u8)
        ensures { (text : List ℕ) → self.old ≡ check_of text
            → self.new ≡ check_of (text ++ byte ∷ []) }
    {
        let [low, high] = self.register.to_le_bytes();
        self.register = u16::from(high) ^ byte_check(0, low ^ byte);
    }

    /// Adds bytes.
    pub fn push_all(&mut self, bytes: &[u8])
        ensures { (text : List ℕ) → self.old ≡ check_of text
            → self.new ≡ check_of (text ++ bytes.now) }
    {
        let mut check = *self;
        let (sixteens, rest) = bytes.as_chunks::<16>();
        for sixteen in sixteens {
            check.push_sixteen(sixteen);
        }
        check.push_rest(rest);
        *self = check;
    }

    // The same for the few bytes after the blocks of 16.
    #[inline(always)]
    fn push_rest(&mut self, bytes: &[u8])
        ensures { (text : List ℕ) → self.old ≡ check_of text
            → self.new ≡ check_of (text ++ bytes.now) }
    {
        let mut check = *self;
        let (eights, rest) = bytes.as_chunks::<8>();
        for eight in eights {
            check.push_eight(eight);
        }
        for byte in rest {
            check.push(*byte);
        }
        *self = check;
    }

    // Each byte is looked up in the table for as many zero bytes as follow it here, so that no
    // look-up waits for another. The two that depend on the register are added last.
    #[inline(always)]
    fn push_sixteen(&mut self, bytes: &[u8; 16])
        ensures { (text : List ℕ) → self.old ≡ check_of text
            → self.new ≡ check_of (text ++ bytes.now) }
    {
        let [low, high] = self.register.to_le_bytes();
        let [a, b, c, d, e, f, g, h, i, j, k, l, m, n, o, p] = *bytes;
        let at_hand = byte_check(13, c)
            ^ byte_check(12, d)
            ^ byte_check(11, e)
            ^ byte_check(10, f)
            ^ byte_check(9, g)
            ^ byte_check(8, h)
            ^ byte_check(7, i)
            ^ byte_check(6, j)
            ^ byte_check(5, k)
            ^ byte_check(4, l)
            ^ byte_check(3, m)
            ^ byte_check(2, n)
            ^ byte_check(1, o)
            ^ byte_check(0, p);
        let waiting = byte_check(15, low ^ a) ^ byte_check(14, high ^ b);
        self.register = at_hand ^ waiting;
    }

    // The same for eight bytes.
    #[inline(always)]
    fn push_eight(&mut self, bytes: &[u8; 8])
        ensures { (text : List ℕ) → self.old ≡ check_of text
            → self.new ≡ check_of (text ++ bytes.now) }
    {
        let [low, high] = self.register.to_le_bytes();
        let [a, b, c, d, e, f, g, h] = *bytes;
        let at_hand = byte_check(5, c)
            ^ byte_check(4, d)
            ^ byte_check(3, e)
            ^ byte_check(2, f)
            ^ byte_check(1, g)
            ^ byte_check(0, h);
        let waiting = byte_check(7, low ^ a) ^ byte_check(6, high ^ b);
        self.register = at_hand ^ waiting;
    }

    /// Returns the CRC of all bytes added.
    pub fn value(&self) -> u16
        ensures { result ≡ self.now }
    {
        self.register
    }
}
