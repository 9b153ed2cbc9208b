//! The bytes that an input encodes, chunk by chunk.
ghost use Rattle.std.specs.Prelude.{◌≡◌, ◌≢◌, ◌+◌, ◌<◌, ◌≤◌, ◌^◌, IfSome, None, Some, length, take};
ghost use Rattle.std.specs.Prelude.{true, Option};
ghost use Rattle.std.specs.Option.{option_map};
ghost use Rattle.ddcmp_io.specs.Device.{ReadGives, worse};
ghost use Rattle.ddcmp_io.specs.Input.{GivesWithin};
ghost use Rattle.ddcmp_explain.specs.Inside.Decoding.{chunk_in};

use crate::decoder::{Decoded, Decoder};
use crate::detection::detect;
use crate::explain_fault::ExplainFault;
use crate::form::{Form, InputForm};
use crate::opening::{OPENING, Opening, read_opening};
use ddcmp_input::Dump;
use ddcmp_io::input::read_within;
use ddcmp_io::{Got, Source, Worst};

/// How many bytes of input are read at once.
pub const PIECE: usize = 16384;

/// How far an input was read. Call `next` until it returns no more bytes or a fault.
#[derive(Drop)]
pub struct InputBytes {
    /// Whether the form is still to be detected.
    pub(crate) detects: bool,
    pub(crate) form: Form,
    pub(crate) decoder: Decoder,
    pub(crate) dump: Dump,
    /// How many bytes were read.
    pub(crate) seen: u64,
    /// Whether these are all.
    pub(crate) ended: bool,
    /// The index of the first byte that isn't allowed where it is.
    pub(crate) unexpected: Option<u64>,
    ghost begins: { detects ≡ true → seen ≡ 0 },
    ghost fits: { seen < 2 ^ 64 },
}

/// Reads once, at most `room` bytes: raw bytes into `bytes`, others, to be decoded, into `piece`.
fn read_chunk<R: Source>(
    reader: &mut R,
    form: Form,
    piece: &mut [u8; PIECE],
    bytes: &mut [u8; PIECE],
    room: u64,
) -> Got
    requires fine { R.state reader.old ≢ Worst.Failed }
    requires some { 0 < room }
    ensures bytes { ReadGives (R.left reader.old) (R.left reader.new) result
        (chunk_in form piece.new bytes.new) }
    ensures within { GivesWithin result room }
    ensures worst { R.state reader.new ≡ worse (R.state reader.old) result }
{
    match form {
        Form::Raw => read_within(reader, bytes, room),
        Form::Hex | Form::Text | Form::Dump => read_within(reader, piece, room),
    }
}

/// Returns the index in an input of a byte of a chunk, before which `seen` bytes were read.
fn index_in(seen: u64, index: Option<usize>) -> Option<u64>
    requires { IfSome index (λ i. seen + i < 2 ^ 64) }
    ensures { result ≡ option_map (λ i. seen + i) index }
{
    match index {
        Some(index) => Some(seen + index as u64),
        None => None,
    }
}

impl InputBytes {
    ghost use Rattle.std.specs.Prelude.{◌-◌, ◌++◌, false, true, [], List, ℕ};
    ghost use Rattle.std.specs.Io.KnownBytes.{IsAtEnd};
    ghost use Rattle.ddcmp_explain.specs.Detection.{detected_first};
    ghost use Rattle.ddcmp_explain.specs.Digits.{bytes_of};
    ghost use Rattle.ddcmp_explain.specs.Explains.{fault_in};
    ghost use Rattle.ddcmp_explain.specs.Reads.{Ended, Gives, IsNext, IsRead, Reads};
    ghost use Rattle.ddcmp_explain.specs.Inside.Reading.{AddsBytes, DecodesIn};

    /// Returns the state in which nothing was read.
    pub fn new(written: InputForm) -> InputBytes
        ensures begins { result.seen ≡ 0 }
        ensures reads { (input : List ℕ) → Reads written input [] (Some input) result }
    {
        match written {
            InputForm::As(form) => InputBytes::begun(false, false, form),
            InputForm::Detected => InputBytes::begun(true, false, Form::Text),
        }
    }

    /// Returns the state in which nothing was read of an input in a form.
    fn begun(detects: bool, ended: bool, form: Form) -> InputBytes
        ensures begins { result.seen ≡ 0 }
        ensures detects { result.detects ≡ detects }
        ensures ended { result.ended ≡ ended }
        ensures read { IsRead form [] result }
    {
        InputBytes {
            detects,
            form,
            decoder: Decoder::new(),
            dump: Dump::new(),
            seen: 0,
            ended,
            unexpected: None,
        }
    }

    /// Reads a chunk, by way of `piece`, and puts the bytes that it encodes into the front of
    /// `bytes`; returns how many, which may be none, or that an input of whole bytes has ended.
    pub fn next<R: Source>(
        &mut self,
        reader: &mut R,
        piece: &mut [u8; PIECE],
        bytes: &mut [u8; PIECE],
    ) -> Result<Option<usize>, ExplainFault>
        ensures next { IsNext self.old self.new (R.state reader.new) result }
        ensures gives { R.state reader.old ≡ Worst.Fine
            → (written : InputForm) (input seen : List ℕ)
            → Reads written input seen (R.left reader.old) self.old
            → Gives written input seen (R.left reader.new) self.new bytes.new result }
    {
        if reader.worst() != Worst::Fine || self.seen == u64::MAX {
            return Err(ExplainFault::Read);
        }
        if self.detects {
            return self.open(reader, piece, bytes);
        }
        match self.unexpected {
            Some(index) => Err(self.refused(ExplainFault::NotHex(index))),
            None if self.ended => self.finish(),
            None => self.read(reader, piece, bytes),
        }
    }

    /// Reads the first bytes, and detects their form.
    fn open<R: Source>(
        &mut self,
        reader: &mut R,
        piece: &mut [u8; PIECE],
        bytes: &mut [u8; PIECE],
    ) -> Result<Option<usize>, ExplainFault>
        requires fine { R.state reader.old ≡ Worst.Fine }
        requires detects { self.old.detects ≡ true }
        ensures next { IsNext self.old self.new (R.state reader.new) result }
        ensures gives { (input : List ℕ) → R.left reader.old ≡ Some input
            → Gives InputForm.Detected input [] (R.left reader.new) self.new bytes.new result }
    {
        let mut first = [0; OPENING];
        match read_opening(reader, &mut first) {
            Opening::Whole => Ok(Some(self.begin(&first, false, piece, bytes))),
            Opening::Ended(n) => Ok(Some(self.begin(&first[..n], true, piece, bytes))),
            Opening::Failed => Err(ExplainFault::Read),
        }
    }

    /// Takes the first bytes, all of the input if `is_ended`, in the form detected from them.
    fn begin(
        &mut self,
        first: &[u8],
        is_ended: bool,
        piece: &mut [u8; PIECE],
        bytes: &mut [u8; PIECE],
    ) -> usize
        requires size { length first.now ≤ 64 }
        ensures within { result ≤ length first.now }
        ensures seen { self.new.seen ≡ length first.now }
        ensures ended { self.new.ended ≡ is_ended }
        ensures detects { self.new.detects ≡ false }
        ensures read { IsRead (detected_first first.now) first.now self.new }
        ensures bytes { bytes_of (detected_first first.now) first.now ≡ take result bytes.new }
    {
        *self = InputBytes::begun(false, is_ended, detect(first));
        piece[..first.len()].copy_from_slice(first);
        bytes[..first.len()].copy_from_slice(first);
        self.decode(piece, first.len(), bytes)
    }

    /// Reads a chunk after the first bytes.
    fn read<R: Source>(
        &mut self,
        reader: &mut R,
        piece: &mut [u8; PIECE],
        bytes: &mut [u8; PIECE],
    ) -> Result<Option<usize>, ExplainFault>
        requires fine { R.state reader.old ≡ Worst.Fine }
        requires opened { self.old.detects ≡ false }
        requires expected { self.old.unexpected ≡ None }
        requires room { self.old.seen < 2 ^ 64 - 1 }
        ensures next { IsNext self.old self.new (R.state reader.new) result }
        ensures gives { (written : InputForm) (input seen : List ℕ)
            → Reads written input seen (R.left reader.old) self.old
            → Gives written input seen (R.left reader.new) self.new bytes.new result }
    {
        let room = u64::MAX - self.seen;
        match read_chunk(reader, self.form, piece, bytes, room) {
            Got::Bytes(0) => self.finish(),
            Got::Bytes(n) => Ok(Some(self.decode(piece, n, bytes))),
            Got::Idle | Got::Failed => Err(ExplainFault::Read),
        }
    }

    /// Takes a chunk of `n` bytes; returns how many bytes it encodes.
    fn decode(&mut self, piece: &mut [u8; PIECE], n: usize, bytes: &mut [u8; PIECE]) -> usize
        requires size { n ≤ PIECE }
        requires room { self.old.seen + n < 2 ^ 64 }
        requires opened { self.old.detects ≡ false }
        ensures within { result ≤ n }
        ensures seen { self.new.seen ≡ self.old.seen + n }
        ensures ended { self.new.ended ≡ self.old.ended }
        ensures detects { self.new.detects ≡ false }
        ensures adds { (form : Form) (seen : List ℕ) → self.old.unexpected ≡ None
            → length seen ≡ self.old.seen → IsRead form seen self.old
            → AddsBytes form seen (take n (chunk_in form piece.old bytes.old)) self.new
            (take result bytes.new) }
    {
        let decoded = self.decode_in_form(piece, n, bytes);
        self.unexpected = index_in(self.seen, decoded.unexpected);
        self.seen += n as u64;
        decoded.count
    }

    /// Decodes a chunk of `n` bytes in its form.
    fn decode_in_form(
        &mut self,
        piece: &mut [u8; PIECE],
        n: usize,
        bytes: &mut [u8; PIECE],
    ) -> Decoded
        requires { n ≤ PIECE }
        ensures others { self.new
            ≡ record self.old { decoder = self.new.decoder; dump = self.new.dump } }
        ensures within { result.count ≤ n }
        ensures inside { IfSome result.unexpected (λ i. i < n) }
        ensures decodes { (form : Form) (seen : List ℕ) → self.old.unexpected ≡ None
            → IsRead form seen self.old
            → DecodesIn form seen (take n (chunk_in form piece.old bytes.old)) result
            (take result.count bytes.new) self.new }
    {
        match self.form {
            Form::Hex => self.decoder.pair(&piece[..n], bytes),
            Form::Text => self.decoder.spell(&piece[..n], bytes),
            Form::Raw => Decoded {
                count: n,
                unexpected: None,
            },
            Form::Dump => {
                self.dump.blank(&mut piece[..n]);
                self.decoder.pair(&piece[..n], bytes)
            }
        }
    }

    /// Returns the fault for an input whose digits are refused.
    fn refused(&self, digits: ExplainFault) -> ExplainFault
        ensures { result ≡ fault_in self.now.form self.now.dump digits }
    {
        match self.form {
            Form::Dump => ExplainFault::Line(self.dump.not_dumped()),
            Form::Hex | Form::Text | Form::Raw => digits,
        }
    }

    /// Returns whether an input that has ended consists of whole bytes.
    fn finish(&self) -> Result<Option<usize>, ExplainFault>
        ensures ends { (form : Form) (seen : List ℕ) (left : Option (List ℕ))
            → self.now.unexpected ≡ None → IsRead form seen self.now → IsAtEnd left
            → length seen < 2 ^ 64 - 1 → Ended form seen left result }
        ensures next { (old : InputBytes) → IsNext old self.now Worst.Fine result }
    {
        match self.decoder.high {
            None => Ok(None),
            Some(_) => Err(self.refused(ExplainFault::Odd)),
        }
    }
}
