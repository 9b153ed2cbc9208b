//! The state of the parser of logs.
ghost use Rattle.std.specs.Prelude.{◌≡◌};
ghost use Rattle.ddcmp_explain.specs.Digits.{IsSmall, begins_with, completed_at, ends_with};
ghost use Rattle.ddcmp_explain.specs.Digits.{half_at, hex_value as hex_value_of};
ghost use Rattle.ddcmp_explain.specs.Digits.{is_between as is_between_byte, prefixed_then};
ghost use Rattle.ddcmp_explain.specs.Digits.{is_wrong as is_wrong_spot, spot_after, zero_then};

use crate::hex_digits::{hex_value, is_blank};

/// The state of the parser of logs after a character.
#[derive(Clone, Copy)]
pub(crate) enum Spot {
    /// Between two bytes.
    Between,
    /// After a zero that begins a byte, or `0x`.
    Zero,
    /// After `0x`.
    Prefixed,
    /// After the first digit of a byte, which has this value.
    Half(u8),
    /// In a comment.
    Comment,
    /// The character isn't allowed here.
    Wrong,
}

impl Spot {
    /// Returns the state after one more character.
    #[tactic(auto, unfolding(crate::specs::Digits::spot_after))]
    pub(crate) fn after(self, byte: u8) -> Spot
        ensures place { result ≡ spot_after self byte }
        ensures small { IsSmall result }
    {
        match self {
            Spot::Between => begin(byte),
            Spot::Zero => after_zero(byte),
            Spot::Prefixed => after_prefix(byte),
            Spot::Half(_) => end(byte),
            Spot::Comment if byte == b'\n' => Spot::Between,
            Spot::Comment => Spot::Comment,
            Spot::Wrong => Spot::Wrong,
        }
    }

    /// Returns the byte that one more character completes.
    #[tactic(auto, unfolding(crate::specs::Digits::completed_at))]
    pub(crate) fn complete(self, byte: u8) -> Option<u8>
        requires { IsSmall self }
        ensures { result ≡ completed_at self byte }
    {
        match self {
            Spot::Zero => hex_value(byte),
            Spot::Half(high) => match hex_value(byte) {
                Some(low) => Some(high * 16 + low),
                None => None,
            },
            Spot::Between | Spot::Prefixed | Spot::Comment | Spot::Wrong => None,
        }
    }

    /// Returns whether the character isn't allowed here.
    pub(crate) fn is_wrong(self) -> bool
        ensures { result ≡ is_wrong_spot self }
    {
        matches!(self, Spot::Wrong)
    }

    /// Returns the digit that is left over if the input ends here.
    pub(crate) fn half(self) -> Option<u8>
        ensures { result ≡ half_at self }
    {
        match self {
            Spot::Zero | Spot::Prefixed => Some(0),
            Spot::Half(high) => Some(high),
            Spot::Between | Spot::Comment | Spot::Wrong => None,
        }
    }
}

/// Returns the state after a character between two bytes.
fn begin(byte: u8) -> Spot
    ensures place { result ≡ begins_with (hex_value_of byte) byte }
    ensures small { IsSmall result }
{
    match hex_value(byte) {
        Some(0) => Spot::Zero,
        Some(high) => Spot::Half(high),
        None if is_between(byte) => Spot::Between,
        None if byte == b'#' => Spot::Comment,
        None => Spot::Wrong,
    }
}

fn after_zero(byte: u8) -> Spot
    ensures place { result ≡ zero_then (hex_value_of byte) byte }
    ensures small { IsSmall result }
{
    match hex_value(byte) {
        Some(_low) => Spot::Between,
        None if byte == b'x' || byte == b'X' => Spot::Prefixed,
        None => Spot::Wrong,
    }
}

fn after_prefix(byte: u8) -> Spot
    ensures place { result ≡ prefixed_then (hex_value_of byte) }
    ensures small { IsSmall result }
{
    match hex_value(byte) {
        Some(high) => Spot::Half(high),
        None => Spot::Wrong,
    }
}

/// Returns the state after the second digit of a byte.
fn end(byte: u8) -> Spot
    ensures place { result ≡ ends_with (hex_value_of byte) }
    ensures small { IsSmall result }
{
    match hex_value(byte) {
        Some(_low) => Spot::Between,
        None => Spot::Wrong,
    }
}

/// Returns whether a byte is a blank, colon, hyphen or comma.
fn is_between(byte: u8) -> bool
    ensures { result ≡ is_between_byte byte }
{
    is_blank(byte) || byte == b':' || byte == b'-' || byte == b','
}
