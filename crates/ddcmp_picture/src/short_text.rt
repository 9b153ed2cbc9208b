//! Short texts: labels and notes.
ghost use Rattle.std.specs.Prelude.{◌≡◌, ◌≤◌, decimal, length};
ghost use Rattle.hex.specs.Hex.{encode_lower};
ghost use Rattle.ddcmp_picture.specs.declared.short_text.TheConstants.{SHOWN};
ghost use Rattle.ddcmp_picture.specs.ShortTexts.{no_text, text_in, with_byte, with_text};
ghost use Rattle.ddcmp_picture.specs.ShortTexts.{bytes_shown, is_blank};

use itoa::Buffer;

/// The maximum length of a short text in bytes; longer texts are truncated.
const ROOM: usize = 96;

/// The maximum number of bytes that are all shown.
const SHOWN: usize = 10;

/// A short text in ASCII.
#[derive(Clone, Copy, Drop)]
pub struct ShortText {
    bytes: [u8; ROOM],
    len: usize,
}

impl ShortText {
    pub(crate) fn new() -> Self
        ensures { result ≡ no_text }
    {
        ShortText {
            bytes: [b' '; ROOM],
            len: 0,
        }
    }

    pub(crate) fn is_blank(&self) -> bool
        ensures { result ≡ is_blank self.now }
    {
        self.len == 0
    }

    /// Returns the bytes of the text.
    pub fn as_slice(&self) -> &[u8]
        ensures { result.now ≡ text_in self.now }
    {
        &self.bytes[..self.len.min(ROOM)]
    }

    fn push(&mut self, byte: u8)
        ensures { self.new ≡ with_byte self.old byte }
    {
        if self.len < ROOM {
            self.bytes[self.len] = byte;
            self.len += 1;
        }
    }

    /// Appends a text.
    #[tactic(auto, using(crate::proofs::TextLaws::with_step, crate::proofs::TextLaws::with_none))]
    pub(crate) fn with(mut self, text: &[u8]) -> Self
        ensures { result ≡ with_text self text.now }
    {
        for byte in text {
            self.push(*byte);
        }
        self
    }

    /// Appends a number.
    pub(crate) fn with_number(self, number: u64) -> Self
        ensures { result ≡ with_text self (decimal number) }
    {
        let mut buffer = Buffer::new();
        self.with(buffer.format(number).as_bytes())
    }

    /// Appends a few bytes as hexadecimal digits.
    fn with_hex(self, bytes: &[u8]) -> Self
        requires { length bytes.now ≤ SHOWN }
        ensures { result ≡ with_text self (encode_lower bytes.now) }
    {
        let mut room = [0; 2 * SHOWN];
        let digits = &mut room[..2 * bytes.len()];
        match hex::encode_to_slice(bytes, digits) {
            Ok(()) => self.with(digits),
            Err(_other_length) => unreachable!(),
        }
    }

    /// Appends bytes as hexadecimal digits; of many only the first.
    #[tactic(auto, using(crate::proofs::TextLaws::with_append))]
    pub(crate) fn with_bytes(self, bytes: &[u8]) -> Self
        ensures { result ≡ with_text self (bytes_shown bytes.now) }
    {
        let is_long = bytes.len() > SHOWN;
        if is_long {
            return self
                .with_hex(&bytes[..6])
                .with(b".. (")
                .with_number(bytes.len() as u64)
                .with(b" bytes)");
        }
        self.with_hex(bytes)
    }
}
