//! The form of an input, detected from its first bytes.
ghost use Rattle.std.specs.Prelude.{◌≡◌};
ghost use Rattle.ddcmp_explain.specs.Detection.{address_then, blanks_then, colon_then};
ghost use Rattle.ddcmp_explain.specs.Detection.{detected_at, detected_first};
ghost use Rattle.ddcmp_explain.specs.Detection.{is_text as is_text_byte, sight_after, start_then};

use crate::form::Form;

/// The detector's state: what the bytes so far may be the beginning of.
#[derive(Clone, Copy)]
pub(crate) enum Sight {
    /// Only line ends so far.
    Start,
    /// This many digits of an address so far.
    Address(u8),
    /// After the colon of an address of `xxd`.
    Colon,
    /// In the blanks after an address.
    Blanks,
    /// A digit of data follows an address.
    Dump,
    /// The first line doesn't begin with an address.
    Text,
    /// A byte isn't text.
    Raw,
}

impl Sight {
    /// Returns the state after one more byte.
    #[tactic(auto, unfolding(crate::specs::Detection::sight_after))]
    fn after(self, byte: u8) -> Sight
        ensures { result ≡ sight_after self byte }
    {
        if !is_text(byte) {
            return Sight::Raw;
        }
        match self {
            Sight::Start => at_start(byte),
            Sight::Address(count) => in_address(count, byte),
            Sight::Colon => at_colon(byte),
            Sight::Blanks => in_blanks(byte),
            Sight::Dump | Sight::Text | Sight::Raw => self,
        }
    }

    /// Returns the form of an input that begins with the bytes so far.
    fn detected(self) -> Form
        ensures { result ≡ detected_at self }
    {
        match self {
            Sight::Raw => Form::Raw,
            Sight::Dump => Form::Dump,
            Sight::Start | Sight::Address(_) | Sight::Colon | Sight::Blanks | Sight::Text =>
                Form::Text,
        }
    }
}

/// Returns whether a byte is printable ASCII, tab, CR or LF.
fn is_text(byte: u8) -> bool
    ensures { result ≡ is_text_byte byte }
{
    (b' '..=b'~').contains(&byte) || byte == b'\t' || byte == b'\r' || byte == b'\n'
}

fn at_start(byte: u8) -> Sight
    ensures { result ≡ start_then byte }
{
    if byte.is_ascii_hexdigit() {
        Sight::Address(1)
    } else if byte == b'\n' || byte == b'\r' {
        Sight::Start
    } else {
        Sight::Text
    }
}

fn in_address(count: u8, byte: u8) -> Sight
    ensures { result ≡ address_then count byte }
{
    if byte.is_ascii_hexdigit() {
        if count < 15 {
            Sight::Address(count + 1)
        } else {
            Sight::Text
        }
    } else if count < 6 {
        Sight::Text
    } else if byte == b':' {
        Sight::Colon
    } else {
        at_colon(byte)
    }
}

fn at_colon(byte: u8) -> Sight
    ensures { result ≡ colon_then byte }
{
    if byte == b' ' {
        Sight::Blanks
    } else {
        Sight::Text
    }
}

fn in_blanks(byte: u8) -> Sight
    ensures { result ≡ blanks_then byte }
{
    if byte.is_ascii_hexdigit() {
        Sight::Dump
    } else {
        at_colon(byte)
    }
}

/// Returns the form of an input that begins with these bytes.
pub(crate) fn detect(first: &[u8]) -> Form
    ensures { result ≡ detected_first first.now }
{
    let mut sight = Sight::Start;
    for byte in first.iter() {
        sight = sight.after(*byte);
    }
    sight.detected()
}
