//! A dump that is read in chunks.
ghost use Rattle.std.specs.Prelude.{◌≡◌};

use crate::place::Place;
use std::marker::Model;
use thiserror::Error;

/// Why a line isn't one of a dump, with its number from 1.
#[derive(Clone, Copy, Debug, PartialEq, Eq, Error)]
pub enum NotDumped {
    #[error("line {0}: not a line of a dump")]
    NotALine(u64),
    /// `hexdump` and `od` write `*` for lines that repeat the one before them.
    #[error("line {0}: repeated lines left out (*): dump with -v")]
    Star(u64),
}

/// The place up to which a dump was read.
#[derive(Drop)]
pub struct Dump {
    place: Place,
    line: u64,
}

impl Model for Dump {
    ghost use Rattle.ddcmp_input.specs.Dump.{DumpView};

    ghost Value = { DumpView };

    ghost view = { λ d. record { place = d.place; line = d.line } };
}

impl Dump {
    ghost use Rattle.ddcmp_input.specs.Dump.{dump_after, dump_begun, not_dumped, shown_from};

    /// Returns the state before the first line.
    pub fn new() -> Self
        ensures { result ≡ dump_begun }
    {
        Dump {
            place: Place::Start,
            line: 1,
        }
    }

    /// Takes a chunk, and replaces everything but the digits of data by blanks. From a line on that
    /// isn't one of a dump, everything becomes question marks.
    pub fn blank(&mut self, piece: &mut [u8])
        ensures shown { piece.new ≡ shown_from self.old.place piece.old }
        ensures state { self.new ≡ dump_after self.old piece.old }
    {
        for byte in piece.iter_mut() {
            self.place = self.place.after(*byte);
            self.line = self.place.count(self.line);
            *byte = self.place.shown(*byte);
        }
    }

    /// Returns why the current line isn't one of a dump.
    pub fn not_dumped(&self) -> NotDumped
        ensures { result ≡ not_dumped self.now }
    {
        match self.place {
            Place::LeftOut => NotDumped::Star(self.line),
            _ => NotDumped::NotALine(self.line),
        }
    }
}
