//! A store for which calls are made one after another, and each call once without failing
//! allocations.

use crate::windows::inboxes::takes_in_sequence;
use crate::windows::senders::{
    fills_the_window, gives_without_numbers, keeps_until_acknowledged, numbers_wrap,
};
use ddcmp_window::{Memory, RingStore, SlotStore, Store};
use std::alloc::Global;
use std::process::Abort;
use std::test::Fail;

/// A call of a store, with its arguments and its expected result.
#[derive(Clone, Copy)]
enum Row {
    Push(&'static [u8]),
    DropFront(u8),
    Clear,
    Limit(u8),
    Longest(u16),
    Room(bool),
    Bytes(usize),
    Len(u8),
    Length(u8, usize),
    Copy(u8, usize),
    /// What is in the buffer to which messages are written.
    Wrote([u8; 4]),
}

/// Two messages of at most three bytes.
const IN_ORDER: &[Row] = &[
    Row::Limit(2),
    Row::Longest(3),
    Row::Push(b"abc"),
    Row::Room(true),
    Row::Push(b"d"),
    Row::Room(false),
    Row::Bytes(4),
    Row::DropFront(1),
    Row::Push(b"efg"),
    Row::Length(0, 1),
    Row::Length(1, 3),
    Row::Copy(0, 1),
    Row::Wrote([b'd', 0, 0, 0]),
    Row::Copy(1, 3),
    Row::Wrote([b'e', b'f', b'g', 0]),
    Row::DropFront(2),
    Row::Len(0),
    Row::Push(b"h"),
    Row::Clear,
    Row::Len(0),
];

fn in_order() -> &'static [Row] {
    IN_ORDER
}

/// Returns whether a store, or the buffer, is as in the row.
fn is_told<S: Store>(store: &S, out: &[u8; 4], row: Row) -> bool {
    match row {
        Row::Limit(answer) => store.limit() == answer,
        Row::Longest(answer) => store.longest() == answer,
        Row::Room(answer) => store.room() == answer,
        Row::Bytes(answer) => store.bytes() == answer,
        Row::Len(answer) => store.len() == answer,
        Row::Length(i, answer) => i < store.len() && store.length(i) == answer,
        Row::Wrote(bytes) => *out == bytes,
        _ => false,
    }
}

/// Returns whether a message of at least one byte fits, and is appended.
fn is_pushed<S: Store>(store: &mut S, message: &[u8]) -> bool {
    if !store.room() || message.is_empty() || message.len() > store.longest() as usize {
        return false;
    }
    store.push(message);
    true
}

/// Returns whether there are this many messages, which are removed.
fn is_dropped<S: Store>(store: &mut S, count: u8) -> bool {
    if store.len() < count {
        return false;
    }
    store.drop_front(count);
    true
}

/// Returns whether there is a message `i` with this length, and copies it to the buffer.
fn is_copied<S: Store>(store: &S, out: &mut [u8; 4], i: u8, length: usize) -> bool {
    i < store.len() && store.length(i) <= 4 && store.copy(i, out) == length
}

/// Returns whether a store does what the row expects.
fn is_done<S: Store>(store: &mut S, out: &mut [u8; 4], row: Row) -> bool {
    match row {
        Row::Push(message) => is_pushed(store, message),
        Row::DropFront(count) => is_dropped(store, count),
        Row::Copy(i, length) => is_copied(store, out, i, length),
        Row::Clear => {
            store.clear();
            true
        }
        _ => is_told(store, out, row),
    }
}

/// Checks that each row is as expected.
fn keeps_in_order<S: Store + Drop>(rt: &impl Abort, mut store: S) {
    let mut out = [0; 4];
    for (i, row) in in_order().iter().enumerate() {
        assert!(rt; is_done(&mut store, &mut out, *row), "row {i}");
    }
}

#[test]
fn slots_serve_a_window(rt: HostRuntime) -> Result<(), Fail> {
    keeps_until_acknowledged(&rt, SlotStore::new(rt.alloc(), 3, 4)?);
    gives_without_numbers(&rt, SlotStore::new(rt.alloc(), 3, 4)?);
    numbers_wrap(&rt, SlotStore::new(rt.alloc(), 1, 4)?);
    fills_the_window(&rt, SlotStore::new(rt.alloc(), 255, 4)?);
    takes_in_sequence(&rt, SlotStore::new(rt.alloc(), 1, 4)?);
    keeps_in_order(&rt, SlotStore::new(rt.alloc(), 2, 3)?);
    Ok(())
}

#[test]
fn a_ring_serves_a_window(rt: HostRuntime) -> Result<(), Fail> {
    keeps_until_acknowledged(&rt, RingStore::new(rt.alloc(), 3, 4)?);
    gives_without_numbers(&rt, RingStore::new(rt.alloc(), 3, 4)?);
    numbers_wrap(&rt, RingStore::new(rt.alloc(), 1, 4)?);
    fills_the_window(&rt, RingStore::new(rt.alloc(), 255, 4)?);
    takes_in_sequence(&rt, RingStore::new(rt.alloc(), 1, 4)?);
    keeps_in_order(&rt, RingStore::new(rt.alloc(), 2, 3)?);
    Ok(())
}

/// Returns whether a ring of these sizes is made, if they are in range.
fn is_made(alloc: Global, limit: u8, longest: u16) -> bool {
    if limit == 0 || longest == 0 || longest > 16383 {
        return false;
    }
    match RingStore::new(alloc, limit, longest) {
        Ok(ring) => ring.longest() == longest,
        Err(_memory) => false,
    }
}

/// No allocation fails.
#[test]
fn rings_are_made(rt: HostRuntime) {
    for limit in [1, 2, 7, 127, 255] {
        for longest in [1, 2, 1500, 16383] {
            assert!(rt; is_made(rt.alloc(), limit, longest), "{limit} {longest}");
        }
    }
}

/// Run with one allocation after another failing; in the other tests none may fail.
#[test]
fn refused_memory_is_told(rt: HostRuntime) {
    match SlotStore::new(rt.alloc(), 3, 4) {
        Ok(store) => assert!(rt; store.limit() == 3),
        Err(refused) => assert!(rt; refused == Memory),
    }
}

#[test]
fn refused_memory_for_a_ring_is_told(rt: HostRuntime) {
    match RingStore::new(rt.alloc(), 3, 4) {
        Ok(store) => assert!(rt; store.limit() == 3),
        Err(refused) => assert!(rt; refused == Memory),
    }
}

/// If no allocation fails, a run of these tests is like any other.
#[test]
fn ample_memory_is_enough(rt: HostRuntime) {
    assert!(rt; SlotStore::new(rt.alloc(), 3, 4).is_ok());
    assert!(rt; RingStore::new(rt.alloc(), 3, 4).is_ok());
}
