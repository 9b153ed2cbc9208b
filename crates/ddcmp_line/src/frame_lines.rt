//! The frames on both lines, or what is left of them.
ghost use Rattle.std.specs.Prelude.{◌≡◌, ◌∷◌, ◌+◌, ◌<◌, ◌≤◌, ◌==◌, [], length, drop, true, false};
ghost use Rattle.std.specs.Prelude.{MatchOption, List, ℕ};
ghost use Rattle.ddcmp_line.specs.Script.{changed, taken_off, with_change, has_byte};

use ddcmp_pair::{Bytes, End, Reply};
use std::alloc::Global;
use std::collections::VecDeque;
use std::marker::Model;

/// What is left of a frame of which some bytes have arrived.
#[derive(Drop)]
pub(crate) struct FrameLeft {
    bytes: Vec<u8>,
    /// How many of its bytes have arrived or are lost.
    gone: usize,
}

impl Model for FrameLeft {
    ghost use Rattle.std.specs.Prelude.{◌≤◌, List, ℕ, drop, vec_len};

    ghost Value = { List ℕ };

    ghost view = { λ f. drop f.gone f.bytes.items };

    ghost invariant = { λ f. f.gone ≤ vec_len f.bytes };
}

impl FrameLeft {
    /// Returns a whole frame.
    pub(crate) fn new(bytes: Bytes) -> Self
        ensures { result ≡ bytes }
    {
        FrameLeft {
            bytes: bytes.into_vec(),
            gone: 0,
        }
    }

    /// Returns the bytes that are left.
    pub(crate) fn as_slice(&self) -> &[u8]
        ensures { result.now ≡ self.now }
    {
        &self.bytes[self.gone..]
    }

    /// Removes the first `n` bytes.
    pub(crate) fn advance(&mut self, n: usize)
        requires { n ≤ length self.old }
        ensures { self.new ≡ drop n self.old }
    {
        self.gone += n;
    }

    /// Changes a byte by exclusive or.
    pub(crate) fn change(&mut self, at: usize, by: u8)
        requires { at < length self.old }
        ensures { self.new ≡ changed at by self.old }
    {
        self.bytes[self.gone + at] ^= by;
    }
}

/// The frames on the lines of both ends: those that an end wrote and that haven't arrived.
#[derive(Drop)]
pub(crate) struct FrameLines {
    pub(crate) a: VecDeque<FrameLeft>,
    pub(crate) b: VecDeque<FrameLeft>,
}

impl Model for FrameLines {
    ghost use Rattle.ddcmp_line.specs.Script.{Between};

    ghost Value = { Between };

    ghost view = { λ l. record { a = l.a.items; b = l.b.items } };
}

impl FrameLines {
    ghost use Rattle.ddcmp_line.specs.Script.{cleared_by, nothing_between, frames_of};
    ghost use Rattle.ddcmp_line.specs.Script.{with_frames};
    ghost use Rattle.ddcmp_core.specs.Store.{first_message};

    /// Returns two empty lines.
    pub(crate) fn new(alloc: Global) -> Self
        ensures { result ≡ nothing_between }
    {
        FrameLines {
            a: VecDeque::new(alloc),
            b: VecDeque::new(alloc),
        }
    }

    /// Empties both lines.
    pub(crate) fn clear(&mut self)
        ensures { self.new ≡ nothing_between }
    {
        self.a.clear();
        self.b.clear();
    }

    /// Returns whether a line has no frame.
    pub(crate) fn is_empty(&self, end: End) -> bool
        ensures { result ≡ (length (frames_of end self.now) == 0) }
    {
        match end {
            End::A => self.a.is_empty(),
            End::B => self.b.is_empty(),
        }
    }

    /// Empties both lines, if this is the reply to a Clear that was done.
    pub(crate) fn clear_after(&mut self, reply: &Reply)
        ensures { self.new ≡ cleared_by reply.now self.old }
    {
        match reply {
            Reply::Cleared => self.clear(),
            _ => {}
        }
    }

    /// Returns what is left of the first frame of a line.
    pub(crate) fn front(&self, end: End) -> Option<&[u8]>
        ensures { MatchOption result (frames_of end self.now ≡ [])
            (λ front. frames_of end self.now ≡ front.now ∷ drop 1 (frames_of end self.now)) }
    {
        match end {
            End::A => front_of(&self.a),
            End::B => front_of(&self.b),
        }
    }

    /// Removes the first `n` bytes of the first frame of a line, and the frame if none are left.
    pub(crate) fn take_off(&mut self, end: End, n: usize)
        ensures { self.new ≡ with_frames end (taken_off n (frames_of end self.old)) self.old }
    {
        match end {
            End::A => take_off(&mut self.a, n),
            End::B => take_off(&mut self.b, n),
        }
    }

    /// Removes the first frame of a line.
    pub(crate) fn pop(&mut self, end: End) -> Option<FrameLeft>
        ensures frames { self.new ≡ with_frames end (drop 1 (frames_of end self.old)) self.old }
        ensures front { result ≡ first_message (frames_of end self.old) }
    {
        match end {
            End::A => self.a.pop_front(),
            End::B => self.b.pop_front(),
        }
    }

    /// Changes byte `at` of the first frame of a line by exclusive or, if the frame has that byte.
    pub(crate) fn change_front(&mut self, end: End, at: usize, by: u8) -> bool
        ensures frames { self.new
            ≡ with_frames end (with_change at by (frames_of end self.old)) self.old }
        ensures answer { result ≡ has_byte at (frames_of end self.old) }
    {
        match end {
            End::A => change_front(&mut self.a, at, by),
            End::B => change_front(&mut self.b, at, by),
        }
    }
}

/// Returns what is left of the first frame.
fn front_of(frames: &VecDeque<FrameLeft>) -> Option<&[u8]>
    ensures { MatchOption result (frames.now.items ≡ [])
        (λ front. frames.now.items ≡ front.now ∷ drop 1 frames.now.items) }
{
    match frames.front() {
        Some(front) => Some(front.as_slice()),
        None => None,
    }
}

/// Removes the first `n` bytes of the first frame, and the frame if none are left.
fn take_off(frames: &mut VecDeque<FrameLeft>, n: usize)
    ensures { frames.new.items ≡ taken_off n frames.old.items }
{
    let Some(front) = frames.front_mut() else {
        return;
    };
    if n < front.as_slice().len() {
        front.advance(n);
    } else {
        let _gone = frames.pop_front();
    }
}

/// Changes byte `at` of the first frame by exclusive or, if the frame has that byte.
fn change_front(frames: &mut VecDeque<FrameLeft>, at: usize, by: u8) -> bool
    ensures frames { frames.new.items ≡ with_change at by frames.old.items }
    ensures answer { result ≡ has_byte at frames.old.items }
{
    let Some(front) = frames.front_mut() else {
        return false;
    };
    if front.as_slice().len() <= at {
        return false;
    }
    front.change(at, by);
    true
}
