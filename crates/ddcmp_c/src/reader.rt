//! A reader without a station, for tools, and writing of frames.
ghost use Rattle.std.specs.Prelude.{◌≡◌, ◌≢◌, ◌⊎◌, ◌↔◌, ◌+◌, ◌<◌, ◌≤◌, ◌^◌, ℕ, List, [], ◌++◌};
ghost use Rattle.std.specs.Prelude.{IsTrue, length, take, drop, Some, None};
ghost use Rattle.ddcmp_frame.specs.declared.header.Header.{Header as HeaderValue};
ghost use Rattle.ddcmp_frame.specs.Wire.{wire, IsFrame};
ghost use Rattle.ddcmp_frame.specs.Reading.{items, open_at_end};
ghost use Rattle.ddcmp_frame.specs.Reader.{ReaderView, StandsFor, items_given, LentBeside};
ghost use Rattle.ddcmp_frame.specs.Reader.{EndsWith, open_of, frame_length};
ghost use Rattle.ddcmp_c.specs.Frames.{given_item, taken_header, taken_item};

use crate::frame_values::{CHeader, CItem, header_of_c, item_for_c};
use crate::reader_handle::{ReaderHandle, put_back, take_out};
use crate::values::{BAD_COUNT, BAD_HEADER, CLOSED, LONG_LINE, MAX, MEMORY, OK, OPEN, ROOM};
use ddcmp_frame::laws::wire_length;
use ddcmp_frame::{Header, MAX_COUNT, Reader, ReaderRefusal, write_frame};
use std::alloc::Global;

/// Makes a reader of frames with at most `max` bytes of data in a handle that has none.
#[unsafe(no_mangle)]
pub extern "C" fn ddcmp_reader_new(alloc: Global, max: u16, reader: &mut ReaderHandle) -> u32
    ensures open { reader.old.reader ≢ None → result ≡ OPEN }
    ensures zero { reader.old.reader ≡ None → max ≡ 0 → result ≡ MAX }
    ensures above { reader.old.reader ≡ None → MAX_COUNT < max → result ≡ MAX }
    ensures within { reader.old.reader ≡ None → 0 < max → max ≤ MAX_COUNT
        → (result ≡ OK) ⊎ (result ≡ MEMORY) }
    ensures made { reader.old.reader ≡ None → result ≡ OK → (r : ReaderView)
        × (reader.new.reader ≡ Some r) × (r.max ≡ max) × (r.lent ≡ []) × StandsFor r [] }
    ensures failed { result ≢ OK → reader.new.reader ≡ reader.old.reader }
{
    match take_out(alloc, reader) {
        Some(open) => {
            put_back(reader, open);
            OPEN
        }
        None => match Reader::new(alloc, max) {
            Ok(made) => match Box::new(alloc, made) {
                Ok(boxed) => {
                    put_back(reader, boxed);
                    OK
                }
                Err(_) => MEMORY,
            },
            Err(ReaderRefusal::MaxZero) => MAX,
            Err(ReaderRefusal::MaxAbove16383) => MAX,
            Err(ReaderRefusal::Memory) => MEMORY,
        },
    }
}

/// Frees the reader of a handle, which has none from then on.
#[unsafe(no_mangle)]
pub extern "C" fn ddcmp_reader_free(alloc: Global, reader: &mut ReaderHandle)
    ensures { reader.new.reader ≡ None }
{
    let _open = take_out(alloc, reader);
}

/// Copies the data that the last push lent to the front of `out`, and returns their length.
fn copy_data(reader: &Reader, out: &mut [u8]) -> usize
    requires { length reader.now.lent ≤ length out.old }
    ensures length { result ≡ length reader.now.lent }
    ensures out { out.new ≡ reader.now.lent ++ drop result out.old }
{
    let lent = reader.data();
    let end = lent.len();
    out[..end].copy_from_slice(lent);
    end
}

/// Takes the bytes of a chunk, up to and including the first that completes an item, and copies the
/// data of a good frame to the front of `out`.
#[unsafe(no_mangle)]
pub extern "C" fn ddcmp_reader_push(
    alloc: Global,
    reader: &mut ReaderHandle,
    piece: &[u8],
    used: &mut usize,
    item: &mut CItem,
    out: &mut [u8],
    written: &mut usize,
) -> u32
    ensures closed { reader.old.reader ≡ None → result ≡ CLOSED }
    ensures short { (r : ReaderView) → reader.old.reader ≡ Some r → length out.old < r.max
        → result ≡ ROOM }
    ensures long { (r : ReaderView) → reader.old.reader ≡ Some r → r.max ≤ length out.old
        → 2 ^ 64 ≤ r.offset + length piece.now → result ≡ LONG_LINE }
    ensures pushed { (r : ReaderView) → reader.old.reader ≡ Some r → r.max ≤ length out.old
        → r.offset + length piece.now < 2 ^ 64 → result ≡ OK }
    ensures same { result ≢ OK → reader.new.reader ≡ reader.old.reader }
    ensures unused { result ≢ OK → (used.new ≡ 0) × (item.new ≡ given_item None)
        × (out.new ≡ out.old) × (written.new ≡ 0) }
    // The reader has read these bytes, and has returned their items.
    ensures stands { (r t : ReaderView) (text : List ℕ) → reader.old.reader ≡ Some r
        → reader.new.reader ≡ Some t → result ≡ OK → StandsFor r text
        → StandsFor t (text ++ take used.new piece.now) }
    ensures item { (r t : ReaderView) (text : List ℕ) → reader.old.reader ≡ Some r
        → reader.new.reader ≡ Some t → result ≡ OK → StandsFor r text
        → items r.max (text ++ take used.new piece.now) ≡ items r.max text
        ++ items_given (taken_item item.new) t.lent }
    // Fields that the item doesn't have are 0.
    ensures given { item.new ≡ given_item (taken_item item.new) }
    // No byte before the last one used completed an item.
    ensures first { (r : ReaderView) (text : List ℕ) (n : ℕ) → reader.old.reader ≡ Some r
        → result ≡ OK → StandsFor r text → n < used.new
        → items r.max (text ++ take n piece.now) ≡ items r.max text }
    ensures used { used.new ≤ length piece.now }
    ensures whole { result ≡ OK → item.new.kind ≡ 0 → used.new ≡ length piece.now }
    ensures some { result ≡ OK → 0 < length piece.now → 0 < used.new }
    // The data of a good item are copied; with the header they are the last bytes.
    ensures copied { (t : ReaderView) → reader.new.reader ≡ Some t → result ≡ OK
        → LentBeside (taken_item item.new) t.lent × (written.new ≡ length t.lent)
        × (out.new ≡ t.lent ++ drop written.new out.old) }
    ensures wire { (r t : ReaderView) (text : List ℕ) → reader.old.reader ≡ Some r
        → reader.new.reader ≡ Some t → result ≡ OK → StandsFor r text
        → EndsWith (taken_item item.new) t.lent (text ++ take used.new piece.now) }
    // This needs no known text.
    ensures kept { (r : ReaderView) → reader.old.reader ≡ Some r → result ≡ OK
        → (t : ReaderView) × (reader.new.reader ≡ Some t) × (t.max ≡ r.max)
        × (t.offset ≡ r.offset + used.new) × (written.new ≤ r.max) }
{
    *used = 0;
    *item = item_for_c(None);
    *written = 0;
    let Some(mut open) = take_out(alloc, reader) else {
        return CLOSED;
    };
    if out.len() < open.max() as usize {
        put_back(reader, open);
        return ROOM;
    }
    if u64::MAX - open.offset() < piece.len() as u64 {
        put_back(reader, open);
        return LONG_LINE;
    }
    let taken = open.push_all(piece);
    *used = taken.used;
    *item = item_for_c(taken.item);
    *written = copy_data(&open, out);
    put_back(reader, open);
    OK
}

/// Returns the number of bytes of the incomplete frame, from its start byte on; 0 without a reader.
#[unsafe(no_mangle)]
pub extern "C" fn ddcmp_reader_open(alloc: Global, reader: &mut ReaderHandle) -> usize
    ensures closed { reader.old.reader ≡ None → result ≡ 0 }
    ensures same { reader.new.reader ≡ reader.old.reader }
    ensures value { (r : ReaderView) → reader.old.reader ≡ Some r → result ≡ open_of r }
    ensures text { (r : ReaderView) (text : List ℕ) → reader.old.reader ≡ Some r
        → StandsFor r text → result ≡ open_at_end r.max text }
{
    let Some(open) = take_out(alloc, reader) else {
        return 0;
    };
    let value = open.open();
    put_back(reader, open);
    value
}

/// Resets the reader.
#[unsafe(no_mangle)]
pub extern "C" fn ddcmp_reader_reset(alloc: Global, reader: &mut ReaderHandle) -> u32
    ensures closed { reader.old.reader ≡ None
        → (result ≡ CLOSED) × (reader.new.reader ≡ None) }
    ensures reset { (r : ReaderView) → reader.old.reader ≡ Some r → (result ≡ OK)
        × ((t : ReaderView) × (reader.new.reader ≡ Some t) × (t.max ≡ r.max) × (t.lent ≡ [])
        × StandsFor t []) }
{
    let Some(mut open) = take_out(alloc, reader) else {
        return CLOSED;
    };
    open.reset();
    put_back(reader, open);
    OK
}

/// Returns whether a header and data make a frame.
fn is_frame(header: &Header, message: &[u8]) -> bool
    ensures frame { IsTrue result ↔ IsFrame header.now message.now }
    ensures length { IsTrue result
        → length (wire header.now message.now) ≡ frame_length header.now }
{
    wire_length();
    match header {
        Header::Data(h) => h.count as usize == message.len(),
        Header::Maint(h) => h.count as usize == message.len(),
        Header::Control(_h) => message.is_empty(),
    }
}

/// Writes a frame to the front of `out`; returns its length.
#[unsafe(no_mangle)]
pub extern "C" fn ddcmp_write_frame(
    header: &CHeader,
    message: &[u8],
    out: &mut [u8],
    written: &mut usize,
) -> u32
    ensures header { taken_header header.now ≡ None → result ≡ BAD_HEADER }
    ensures count { (h : HeaderValue) → taken_header header.now ≡ Some h
        → (¬ IsFrame h message.now) → result ≡ BAD_COUNT }
    ensures short { (h : HeaderValue) → taken_header header.now ≡ Some h
        → IsFrame h message.now → length out.old < length (wire h message.now)
        → result ≡ ROOM }
    ensures written { (h : HeaderValue) → taken_header header.now ≡ Some h
        → IsFrame h message.now → length (wire h message.now) ≤ length out.old
        → (result ≡ OK) × (written.new ≡ length (wire h message.now))
        × (out.new ≡ wire h message.now ++ drop written.new out.old) }
    ensures unwritten { result ≢ OK → (out.new ≡ out.old) × (written.new ≡ 0) }
{
    *written = 0;
    let Some(asked) = header_of_c(header) else {
        return BAD_HEADER;
    };
    if !is_frame(&asked, message) {
        return BAD_COUNT;
    }
    if out.len() < asked.frame_length() {
        return ROOM;
    }
    *written = write_frame(&asked, message, out);
    OK
}
