//! Functions of both readers for the bytes of a frame that they hold.
ghost use Rattle.std.specs.Prelude.{◌≡◌, ◌+◌, ◌<◌, ◌≤◌, ◌↔◌, ℕ, IfOk, length, drop, Some, None};
ghost use Rattle.std.specs.Prelude.{vec_len, vec_capacity, if◌then◌else◌};
ghost use Rattle.ddcmp_frame.specs.Reading.{count_of as count_in, is_data_right as data_right_in};
ghost use Rattle.ddcmp_frame.specs.Resume.{from_start};
ghost use Rattle.ddcmp_frame.specs.Spelling.{IsBytes};

use crate::header::{Header, is_start};
use crate::item::Item;
use crate::reader::ReaderRefusal;
use ddcmp_num::{MAX_COUNT, check, check_bytes};
use std::alloc::Global;

/// Allocates memory for a frame with at most `max` bytes of data, or returns why a reader refuses
/// this size.
pub(crate) fn frame_buffer(alloc: Global, max: u16) -> Result<Vec<u8>, ReaderRefusal>
    ensures zero { (result ≡ Err ReaderRefusal.MaxZero) ↔ (max ≡ 0) }
    ensures above { (result ≡ Err ReaderRefusal.MaxAbove16383) ↔ (MAX_COUNT < max) }
    ensures memory { result ≡ Err ReaderRefusal.Memory → (0 < max) × (max ≤ MAX_COUNT) }
    ensures empty { IfOk result (λ buffer. vec_len buffer ≡ 0) }
    ensures room { IfOk result (λ buffer. max + 10 ≤ vec_capacity buffer) }
{
    if max == 0 {
        return Err(ReaderRefusal::MaxZero);
    }
    if max > MAX_COUNT {
        return Err(ReaderRefusal::MaxAbove16383);
    }
    match Vec::with_capacity(alloc, max as usize + 10) {
        Ok(buffer) => Ok(buffer),
        Err(_) => Err(ReaderRefusal::Memory),
    }
}

/// Returns the item of a candidate that fails: only the first in a loss of synchronism is reported.
pub(crate) fn loss(lost: bool, at: u64) -> Option<Item>
    ensures { result ≡ (if lost then None else Some (Item.HeaderCheck at)) }
{
    if lost {
        None
    } else {
        Some(Item::HeaderCheck(at))
    }
}

/// Drops the first byte, and the bytes after it up to the next start byte.
pub(crate) fn resume(buffer: &mut Vec<u8>)
    requires { 0 < vec_len buffer.old }
    ensures items { buffer.new.items ≡ from_start (drop 1 buffer.old.items) }
    ensures shorter { vec_len buffer.new < vec_len buffer.old }
    ensures room { vec_capacity buffer.new ≡ vec_capacity buffer.old }
{
    let mut from = 1;
    while from < buffer.len() && !is_start(buffer[from]) {
        from += 1;
    }
    let kept = buffer.len() - from;
    buffer.copy_within(from.., 0);
    buffer.truncate(kept);
}

/// Returns COUNT, if the header has one.
#[inline(always)]
pub(crate) fn count_of(header: &Header) -> Option<usize>
    ensures value { result ≡ count_in header.now }
    ensures small { (n : ℕ) → result ≡ Some n → (0 < n) × (n ≤ MAX_COUNT) }
{
    match header {
        Header::Data(fields) => Some(fields.count as usize),
        Header::Maint(fields) => Some(fields.count as usize),
        Header::Control(_) => None,
    }
}

/// Returns whether the CRC after `count` bytes of data is right.
#[tactic(auto, unfolding(crate::specs::Reading::is_data_right))]
pub(crate) fn data_right(bytes: &[u8], count: usize) -> bool
    requires { count + 10 ≤ length bytes.now }
    ensures right { result ≡ data_right_in count bytes.now }
    ensures bytes { IsBytes bytes.now }
{
    let right = check_bytes(check(&bytes[8..8 + count]));
    bytes[count + 8] == right[0] && bytes[count + 9] == right[1]
}
