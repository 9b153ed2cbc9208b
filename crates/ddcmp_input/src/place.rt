//! The place of a byte in a line of a dump.
ghost use Rattle.std.specs.Prelude.{◌≡◌};
ghost use Rattle.ddcmp_input.specs.Dump.{address_then, blanks_then, half_then, past_address};
ghost use Rattle.ddcmp_input.specs.Dump.{return_then};
ghost use Rattle.ddcmp_input.specs.Dump.{start_then, text_then, whole_then, place_after};
ghost use Rattle.ddcmp_input.specs.Dump.{place_of_kind};
ghost use Rattle.ddcmp_input.specs.Dump.{is_data_at, kind_of_byte, line_at, shown_at};

/// The place in a line of a dump of the last byte.
#[derive(Clone, Copy)]
pub enum Place {
    /// At the beginning of the line.
    Start,
    /// At this digit of the address, from 1.
    Address(u8),
    /// In the blanks before a byte.
    Blanks,
    /// At the first digit of a byte.
    High,
    /// At the second digit of a byte.
    Low,
    /// At the colon after an address of `xxd`.
    Colon,
    /// At the one blank before a group of `xxd`.
    Gap,
    /// At the first digit of a group, which has one byte or two.
    First,
    Second,
    Third,
    Fourth,
    /// In the column of text.
    Text,
    /// At a CR, which is allowed only before LF.
    Return,
    /// The line isn't one of a dump.
    Refused,
    /// The line begins with `*`, which stands for omitted lines.
    LeftOut,
}

/// The kind of a byte in a dump.
#[derive(Clone, Copy)]
pub(crate) enum Kind {
    Digit,
    Blank,
    Colon,
    /// `|` or `>`, before the column of text.
    Bar,
    Star,
    Return,
    LineFeed,
    Other,
}

#[inline(always)]
fn kind_of(byte: u8) -> Kind
    ensures { result ≡ kind_of_byte byte }
{
    if byte.is_ascii_hexdigit() {
        Kind::Digit
    } else if byte == b' ' {
        Kind::Blank
    } else if byte == b'\n' {
        Kind::LineFeed
    } else if byte == b':' {
        Kind::Colon
    } else if byte == b'|' || byte == b'>' {
        Kind::Bar
    } else if byte == b'*' {
        Kind::Star
    } else if byte == b'\r' {
        Kind::Return
    } else {
        Kind::Other
    }
}

impl Place {
    /// Returns the place of one more byte.
    #[inline(always)]
    #[tactic(auto, unfolding(crate::specs::Dump::place_after))]
    pub(crate) fn after(self, byte: u8) -> Place
        ensures { result ≡ place_after self byte }
    {
        self.after_kind(kind_of(byte))
    }

    #[inline(always)]
    fn after_kind(self, kind: Kind) -> Place
        ensures { result ≡ place_of_kind self kind }
    {
        match self {
            Place::Start => at_start(kind),
            Place::Address(count) => in_address(count, kind),
            Place::Blanks => in_blanks(kind),
            Place::High => at_half(kind, Place::Low),
            Place::Low => at_whole(kind, Place::Blanks, Place::Refused),
            Place::Colon => at_whole(kind, Place::Gap, Place::Refused),
            Place::Gap => at_whole(kind, Place::Text, Place::First),
            Place::First => at_half(kind, Place::Second),
            Place::Second => at_whole(kind, Place::Gap, Place::Third),
            Place::Third => at_half(kind, Place::Fourth),
            Place::Fourth => at_whole(kind, Place::Gap, Place::Refused),
            Place::Text => in_text(kind),
            Place::Return => at_return(kind),
            Place::Refused => Place::Refused,
            Place::LeftOut => Place::LeftOut,
        }
    }

    /// Returns the line number after a byte at this place: a line that has ended is counted.
    #[inline(always)]
    pub(crate) fn count(self, line: u64) -> u64
        ensures { result ≡ line_at self line }
    {
        match self {
            Place::Start => line.saturating_add(1),
            _ => line,
        }
    }

    /// Returns whether the byte at this place is a digit of data.
    #[inline(always)]
    fn is_data(self) -> bool
        ensures { result ≡ is_data_at self }
    {
        match self {
            Place::High
            | Place::Low
            | Place::First
            | Place::Second
            | Place::Third
            | Place::Fourth => true,
            _ => false,
        }
    }

    /// Returns what a byte at this place becomes: digits of data are kept, a line that isn't one of
    /// a dump becomes question marks, and everything else becomes blanks.
    #[inline(always)]
    #[tactic(auto, unfolding(crate::specs::Dump::shown_at))]
    pub(crate) fn shown(self, byte: u8) -> u8
        ensures { result ≡ shown_at self byte }
    {
        if self.is_data() {
            return byte;
        }
        match self {
            Place::Refused | Place::LeftOut => b'?',
            _ => b' ',
        }
    }
}

#[inline(always)]
fn at_start(kind: Kind) -> Place
    ensures { result ≡ start_then kind }
{
    match kind {
        Kind::Digit => Place::Address(1),
        Kind::LineFeed => Place::Start,
        Kind::Return => Place::Return,
        Kind::Star => Place::LeftOut,
        _ => Place::Refused,
    }
}

#[inline(always)]
fn in_address(count: u8, kind: Kind) -> Place
    ensures { result ≡ address_then count kind }
{
    match kind {
        Kind::Digit => {
            if count < 15 {
                Place::Address(count + 1)
            } else {
                Place::Refused
            }
        }
        _ => {
            if count < 6 {
                Place::Refused
            } else {
                after_address(kind)
            }
        }
    }
}

#[inline(always)]
fn after_address(kind: Kind) -> Place
    ensures { result ≡ past_address kind }
{
    match kind {
        Kind::Colon => Place::Colon,
        Kind::Blank => Place::Blanks,
        Kind::LineFeed => Place::Start,
        Kind::Return => Place::Return,
        _ => Place::Refused,
    }
}

#[inline(always)]
fn in_blanks(kind: Kind) -> Place
    ensures { result ≡ blanks_then kind }
{
    match kind {
        Kind::Digit => Place::High,
        Kind::Blank => Place::Blanks,
        Kind::Bar => Place::Text,
        Kind::LineFeed => Place::Start,
        Kind::Return => Place::Return,
        _ => Place::Refused,
    }
}

/// Returns the place after the first digit of a byte, if the second is at `second`.
#[inline(always)]
fn at_half(kind: Kind, second: Place) -> Place
    ensures { result ≡ half_then kind second }
{
    match kind {
        Kind::Digit => second,
        _ => Place::Refused,
    }
}

/// Returns the place after one at which no byte is incomplete: a blank, a digit or the end of the
/// line may follow.
#[inline(always)]
fn at_whole(kind: Kind, blank: Place, digit: Place) -> Place
    ensures { result ≡ whole_then kind blank digit }
{
    match kind {
        Kind::Digit => digit,
        Kind::Blank => blank,
        Kind::LineFeed => Place::Start,
        Kind::Return => Place::Return,
        _ => Place::Refused,
    }
}

#[inline(always)]
fn in_text(kind: Kind) -> Place
    ensures { result ≡ text_then kind }
{
    match kind {
        Kind::LineFeed => Place::Start,
        _ => Place::Text,
    }
}

#[inline(always)]
fn at_return(kind: Kind) -> Place
    ensures { result ≡ return_then kind }
{
    match kind {
        Kind::LineFeed => Place::Start,
        _ => Place::Refused,
    }
}
