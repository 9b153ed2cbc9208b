//! Calls whose contracts state more than tests need: each has a function of its own here that
//! promises nothing.
use ddcmp_frame::failing::BoundedSink;
use ddcmp_frame::plain::PlainReader;
use ddcmp_frame::{Got, Item, Reader, Sink, Source, Worst};
use std::alloc::Global;
use std::fmt::Debug;
use std::process::Abort;
use std::test::Fail;

/// Checks that a value is as expected.
pub fn is<T: PartialEq + Debug + Drop>(rt: &impl Abort, told: T, wanted: T) {
    assert_eq!(rt; told, wanted);
}

pub fn reader_of(alloc: Global, max: u16) -> Result<Reader, Fail> {
    Ok(Reader::new(alloc, max).ok().ok_or("no reader")?)
}

pub fn plain_of(alloc: Global, max: u16) -> Result<PlainReader, Fail> {
    Ok(PlainReader::new(alloc, max).ok().ok_or("no plain reader")?)
}

/// Pushes a byte.
pub fn push(rt: &impl Abort, reader: &mut Reader, byte: u8) -> Option<Item> {
    assert!(rt; reader.offset() < 1_000_000);
    reader.push(byte)
}

/// Pushes a byte to the other reader.
pub fn push_plain(rt: &impl Abort, reader: &mut PlainReader, byte: u8) -> Option<Item> {
    assert!(rt; reader.offset() < 1_000_000);
    reader.push(byte)
}

/// Pushes a chunk; returns how many of its bytes were used, and the item that they completed.
pub fn push_all(rt: &impl Abort, reader: &mut Reader, piece: &[u8]) -> (usize, Option<Item>) {
    assert!(rt; reader.offset() < 1_000_000 && piece.len() < 1_000_000);
    let taken = reader.push_all(piece);
    (taken.used, taken.item)
}

/// Returns how many bytes are open and buffered, and the offset.
pub fn counts(reader: &Reader) -> (usize, usize, u64) {
    (reader.open(), reader.kept(), reader.offset())
}

/// Returns the same for the other reader.
pub fn counts_plain(reader: &PlainReader) -> (usize, usize, u64) {
    (reader.open(), reader.kept(), reader.offset())
}

/// Returns the data of the last item.
pub fn data(reader: &Reader) -> &[u8] {
    reader.data()
}

pub fn data_plain(reader: &PlainReader) -> &[u8] {
    reader.data()
}

pub fn reset(reader: &mut Reader) {
    reader.reset();
}

/// Reads once; returns the result, and the worst status so far.
pub fn read<S: Source>(rt: &impl Abort, source: &mut S, buf: &mut [u8]) -> (Got, Worst) {
    assert!(rt; source.worst() != Worst::Failed);
    let got = source.read(buf);
    (got, source.worst())
}

/// Writes once; returns the result, and whether the sink has failed.
pub fn write<const N: usize>(
    rt: &impl Abort,
    sink: &mut BoundedSink<N>,
    bytes: &[u8],
) -> (Option<usize>, bool) {
    assert!(rt; !sink.failed() && !bytes.is_empty());
    let taken = sink.write(bytes);
    (taken, sink.failed())
}
