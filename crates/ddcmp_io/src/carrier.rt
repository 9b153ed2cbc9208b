//! Carriers of bytes from one end of a line to the other.
ghost use Rattle.std.specs.Prelude.{◌≡◌, [], length, take, true, false, None, is_err, IfOk, IsOk};
ghost use Rattle.std.specs.Prelude.{IsTrue, OnErr, Bool, List, Option};

use crate::device::LineFault;

/// An end of a line.
#[derive(Clone, Copy, Debug)]
pub enum End {
    A,
    B,
}

impl End {
    ghost use Rattle.ddcmp_io.specs.Ends.{other};

    /// Returns the other end.
    pub fn other(self) -> End
        ensures { result ≡ other self }
    {
        match self {
            End::A => End::B,
            End::B => End::A,
        }
    }
}

/// A carrier of bytes from one end of a line to the other.
pub trait Carrier {
    ghost use Rattle.std.specs.Prelude.{◌≤◌};
    ghost use Rattle.ddcmp_io.specs.Device.{Logs};
    ghost use Rattle.ddcmp_io.specs.Carriages.{Carriage, HasCarried};

    // What was passed to it and what it returned, carry by carry, if this is known.
    ghost told: { Self → Option (List Carriage) } = { λ _. None };

    // Whether it returns the bytes that it is passed.
    ghost direct: { Self → Bool } = { λ _. false };

    // Whether no carry fails.
    ghost sure: { Self → Bool } = { λ _. false };

    // Whether a carry has failed.
    ghost broken: { Self → Bool };

    /// Carries bytes away from an end, and returns how many arrive at the other, at the front of
    /// `out`.
    fn carry(&mut self, from: End, bytes: &[u8], out: &mut [u8]) -> Result<usize, LineFault>
        requires whole { broken self.old ≡ false }
        requires room { length out.old ≡ length bytes.now }
        ensures within { IfOk result (λ n. n ≤ length bytes.now) }
        ensures carried { IfOk result (λ n. HasCarried (direct self.old) (told self.old)
            (told self.new) (record { from = from; bytes = bytes.now; came = take n out.new })) }
        ensures nothing { OnErr result (Logs (told self.old) (told self.new) []) }
        ensures direct { direct self.new ≡ direct self.old }
        ensures sure { sure self.old ≡ true → IsOk result }
        ensures broken { broken self.new ≡ is_err result };

    /// Returns whether a carry has failed.
    fn failed(&self) -> bool
        ensures { result ≡ broken self.now };

    /// Returns whether no carry fails, so that nothing needs to be written before one.
    fn is_sure(&self) -> bool
        ensures { IsTrue result → sure self.now ≡ true }
    {
        false
    }
}

/// A carrier that returns the bytes that it is passed.
#[derive(Clone, Copy, Drop)]
pub struct Direct;

impl Carrier for Direct {
    ghost direct = { λ _. true };

    ghost sure = { λ _. true };

    ghost broken = { λ _. false };

    fn carry(&mut self, _from: End, bytes: &[u8], out: &mut [u8]) -> Result<usize, LineFault> {
        out[..bytes.len()].copy_from_slice(bytes);
        Ok(bytes.len())
    }

    fn failed(&self) -> bool {
        false
    }

    fn is_sure(&self) -> bool {
        true
    }
}
