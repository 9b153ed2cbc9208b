//! Both readers side by side, byte by byte and in chunks.
use crate::frames::calls::{
    counts, counts_plain, data, data_plain, is, plain_of, push, push_all, push_plain, reader_of,
};
use crate::frames::vectors::frames;
use ddcmp_frame::plain::PlainReader;
use ddcmp_frame::{Item, Reader};
use std::alloc::{AllocError, Global};
use std::process::Abort;
use std::test::Fail;

/// Maximum lengths of data: the largest COUNT, all that the frames here have, and too little for
/// some and for most of them.
const MAXIMA: [u16; 4] = [16383, 3, 2, 1];

/// The frames of the published layouts, one after another.
fn published(alloc: Global) -> Result<Vec<u8>, AllocError> {
    let mut text = Vec::new(alloc);
    for bytes in frames() {
        text.extend_from_slice(bytes)?;
    }
    Ok(text)
}

/// Checks the other values of the two readers, which have taken the same bytes.
fn same_state(rt: &impl Abort, reader: &Reader, plain: &PlainReader) {
    is(rt, data(reader), data_plain(plain));
    is(rt, counts(reader), counts_plain(plain));
}

/// Checks that every call has the same result after every byte.
fn same_by_bytes(rt: &impl Abort, alloc: Global, max: u16, text: &[u8]) -> Result<(), Fail> {
    let mut reader = reader_of(alloc, max)?;
    let mut plain = plain_of(alloc, max)?;
    for byte in text {
        is(
            rt,
            push(rt, &mut reader, *byte),
            push_plain(rt, &mut plain, *byte),
        );
        same_state(rt, &reader, &plain);
    }
    Ok(())
}

/// Returns the item of the plain reader for these bytes: at the last of them, if at any.
fn item_of(rt: &impl Abort, plain: &mut PlainReader, bytes: &[u8]) -> Option<Item> {
    let mut given = None;
    for byte in bytes {
        is(rt, given, None);
        given = push_plain(rt, plain, *byte);
    }
    given
}

/// Two readers that take the same bytes.
#[derive(Drop)]
struct Both {
    reader: Reader,
    plain: PlainReader,
}

impl Both {
    fn new(alloc: Global, max: u16) -> Result<Both, Fail> {
        Ok(Both {
            reader: reader_of(alloc, max)?,
            plain: plain_of(alloc, max)?,
        })
    }

    /// Feeds one reader bytes up to an item, and the plain one as many; returns how many. Checks
    /// that both return the same item, and their other calls the same values.
    fn takes_some(&mut self, rt: &impl Abort, rest: &[u8]) -> usize {
        let (used, item) = push_all(rt, &mut self.reader, rest);
        let wanted = item_of(rt, &mut self.plain, rest.get(..used).unwrap_or(&[]));
        is(rt, item, wanted);
        same_state(rt, &self.reader, &self.plain);
        used
    }

    /// Feeds both a chunk.
    fn takes(&mut self, rt: &impl Abort, piece: &[u8]) {
        let mut at = 0usize;
        for _byte in piece {
            if at < piece.len() {
                at = at.saturating_add(self.takes_some(rt, &piece[at..]));
            }
        }
        is(rt, at, piece.len());
    }
}

/// Checks that both return the same items if one reader takes chunks of a length, and have the same
/// values after each item and each chunk.
fn same_in_pieces(
    rt: &impl Abort,
    alloc: Global,
    max: u16,
    text: &[u8],
    len: usize,
) -> Result<(), Fail> {
    let mut both = Both::new(alloc, max)?;
    assert!(rt; 0 < len);
    for piece in text.chunks(len) {
        both.takes(rt, piece);
    }
    Ok(())
}

/// Checks both readers byte by byte and in chunks.
fn same(rt: &impl Abort, alloc: Global, text: &[u8]) -> Result<(), Fail> {
    for max in MAXIMA {
        same_by_bytes(rt, alloc, max, text)?;
        for len in [1, 2, 3, 7, 8, 9, text.len()] {
            same_in_pieces(rt, alloc, max, text, len)?;
        }
    }
    Ok(())
}

#[test]
fn published_frames(rt: HostRuntime) -> Result<(), Fail> {
    let alloc = rt.alloc();
    let text = published(alloc)?;
    assert_eq!(rt; text.len(), 157);
    same(&rt, alloc, &text)
}

/// The same frames with each byte changed in turn.
#[test]
fn changed_frames(rt: HostRuntime) -> Result<(), Fail> {
    let alloc = rt.alloc();
    let mut text = published(alloc)?;
    for i in 0..text.len() {
        text[i] ^= 0xFF;
        same(&rt, alloc, &text)?;
        text[i] ^= 0xFF;
    }
    Ok(())
}

/// Candidates that all fail, each begun within the one before.
#[test]
fn start_bytes_alone(rt: HostRuntime) -> Result<(), Fail> {
    same(&rt, rt.alloc(), &[0x05; 300])
}

/// Returns whether an item is a good frame at offset 0.
fn is_first(item: Option<Item>) -> bool {
    matches!(item, Some(Item::Good(0, _)))
}

/// A chunk yields one item at most, and an empty one none.
#[test]
fn up_to_an_item(rt: HostRuntime) -> Result<(), Fail> {
    let mut reader = reader_of(rt.alloc(), 16383)?;
    let text = published(rt.alloc())?;
    let (used, item) = push_all(&rt, &mut reader, &text);
    is(&rt, used, 8);
    assert!(rt; is_first(item));
    is(&rt, push_all(&rt, &mut reader, &[]), (0, None));
    is(&rt, push_all(&rt, &mut reader, &[0x96; 5]), (5, None));
    let (open, _kept, _offset) = counts(&reader);
    is(&rt, open, 0);
    Ok(())
}
