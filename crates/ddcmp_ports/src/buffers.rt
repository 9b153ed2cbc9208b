//! The loop.
ghost use Rattle.std.specs.Prelude.{◌≡◌, ◌≢◌, ◌⊎◌, IfOk, Some, [], false, true};
ghost use Rattle.ddcmp_ports.specs.declared.port.Port.{Port as PortValue};
ghost use Rattle.ddcmp_ports.specs.Running.{GoesOn, Held, RestsAt, Rests, Trace, put, same};
ghost use Rattle.ddcmp_ports.specs.Holding.{held_of};

use crate::chunk::Chunk;
use crate::machine::Machine;
use crate::port::{Need, News, Opening, Port, Transfer};
use crate::system::System;
use std::alloc::{AllocError, Global};

/// After how many turns the ports are polled although something moved, so that none starves
/// another.
const TURNS: u64 = 16;

/// How many times bytes are given before another port is served.
const PARTS: u64 = 64;

/// Bytes that were read at each port and that the machine hasn't used.
pub struct Buffers {
    pub input: Chunk,
    pub output: Chunk,
    pub errors: Chunk,
    pub first: Chunk,
    pub second: Chunk,
}

// Manual, since a derived `Drop` is expanded wherever they are dropped.
impl Drop for Buffers {
    fn drop(self) {
        let Buffers {
            input: _input,
            output: _output,
            errors: _errors,
            first: _first,
            second: _second,
        } = self;
    }
}

/// Writes what is pending for a port; returns whether anything moved.
fn write<M: Machine, S: System>(port: Port, machine: &mut M, system: &mut S) -> bool
    ensures on { (held : Held) → GoesOn M.has M.asked machine.old held (S.trace system.old)
        machine.new held (S.trace system.new) }
    ensures idle { result ≡ false → machine.new ≡ machine.old }
    ensures written { result ≡ false → (M.pending machine.new port ≡ [])
        ⊎ ((S.stuck system.new port).write ≡ true) }
    ensures stuck { (q : PortValue) → same port q ≡ false
        → S.stuck system.new q ≡ S.stuck system.old q }
    ensures moment { S.moment system.new ≡ S.moment system.old }
{
    let pending = machine.pending(port);
    if pending.is_empty() {
        return false;
    }
    match system.write(port, pending) {
        Transfer::Bytes(n) => machine.took(port, n),
        Transfer::Nothing => return false,
        Transfer::Over(why) => machine.told(port, News::Broken(why)),
    }
    true
}

/// Reads a port if nothing is held, and gives what is held; returns whether anything moved.
fn read<M: Machine, S: System>(
    port: Port,
    chunk: &mut Chunk,
    machine: &mut M,
    system: &mut S,
) -> bool
    requires needed { M.needs machine.old port ≡ Need.Bytes }
    ensures on { (held : Held) → held port ≡ chunk.old
        → GoesOn M.has M.asked machine.old held (S.trace system.old)
        machine.new (put port chunk.new held) (S.trace system.new) }
    ensures idle { result ≡ false → machine.new ≡ machine.old }
    ensures chunk { result ≡ false → (chunk.new ≡ []) × (chunk.old ≡ []) }
    ensures read { result ≡ false → (S.stuck system.new port).read ≡ true }
    ensures write { result ≡ false
        → (S.stuck system.new port).write ≡ (S.stuck system.old port).write }
    ensures stuck { (q : PortValue) → same port q ≡ false
        → S.stuck system.new q ≡ S.stuck system.old q }
    ensures moment { S.moment system.new ≡ S.moment system.old }
{
    if chunk.is_empty() {
        match chunk.read(port, system) {
            Transfer::Bytes(_) => {}
            Transfer::Nothing => return false,
            Transfer::Over(why) => {
                machine.told(port, News::Ended(why));
                return true;
            }
        }
    }
    give(port, chunk, machine);
    true
}

/// Gives the machine what is held, as far as it is needed.
fn give<M: Machine>(port: Port, chunk: &mut Chunk, machine: &mut M)
    ensures { (trace : Trace) (held : Held) → held port ≡ chunk.old
        → GoesOn M.has M.asked machine.old held trace machine.new (put port chunk.new held) trace }
{
    for _part in 0..PARTS {
        if chunk.is_empty() || !needs_bytes(port, machine) {
            return;
        }
        let n = machine.give(port, chunk.rest());
        chunk.used(n);
    }
}

/// Returns whether bytes are needed.
fn needs_bytes<M: Machine>(port: Port, machine: &M) -> bool
    ensures { result ≡ true → M.needs machine.now port ≡ Need.Bytes }
{
    matches!(machine.needs(port), Need::Bytes)
}

/// Opens a port, if that is possible now; returns whether anything moved.
fn open<M: Machine, S: System>(
    port: Port,
    chunk: &mut Chunk,
    machine: &mut M,
    system: &mut S,
) -> bool
    requires needed { M.needs machine.old port ≡ Need.Opening }
    ensures on { (held : Held) → held port ≡ chunk.old
        → GoesOn M.has M.asked machine.old held (S.trace system.old)
        machine.new (put port chunk.new held) (S.trace system.new) }
    ensures idle { result ≡ false → machine.new ≡ machine.old }
    ensures chunk { result ≡ false → chunk.new ≡ chunk.old }
    ensures open { result ≡ false → (S.stuck system.new port).opening ≡ true }
    ensures write { result ≡ false
        → (S.stuck system.new port).write ≡ (S.stuck system.old port).write }
    ensures stuck { (q : PortValue) → same port q ≡ false
        → S.stuck system.new q ≡ S.stuck system.old q }
    ensures moment { S.moment system.new ≡ S.moment system.old }
{
    match system.open(port) {
        Opening::Done(peer) => {
            chunk.clear();
            machine.told(port, News::Opened(peer));
        }
        Opening::Reported(event) => machine.told(port, News::Reported(event)),
        Opening::Later => return false,
        Opening::Failed(why) => machine.told(port, News::Refused(why)),
    }
    true
}

/// Has the peer at a port learn that no more bytes will be written.
fn shut<M: Machine, S: System>(port: Port, machine: &mut M, system: &mut S)
    requires needed { M.needs machine.old port ≡ Need.Shutting }
    ensures on { (held : Held) → GoesOn M.has M.asked machine.old held (S.trace system.old)
        machine.new held (S.trace system.new) }
    ensures stuck { (q : PortValue) → same port q ≡ false
        → S.stuck system.new q ≡ S.stuck system.old q }
    ensures moment { S.moment system.new ≡ S.moment system.old }
{
    system.shut(port);
    machine.was_shut(port);
}

/// Closes a port.
fn close<M: Machine, S: System>(port: Port, machine: &mut M, system: &mut S)
    requires needed { M.needs machine.old port ≡ Need.Closing }
    ensures on { (held : Held) → GoesOn M.has M.asked machine.old held (S.trace system.old)
        machine.new held (S.trace system.new) }
    ensures stuck { (q : PortValue) → same port q ≡ false
        → S.stuck system.new q ≡ S.stuck system.old q }
    ensures moment { S.moment system.new ≡ S.moment system.old }
{
    system.close(port);
    machine.was_closed(port);
}

/// Does what is needed of a port; returns whether anything moved.
fn serve<M: Machine, S: System>(
    port: Port,
    chunk: &mut Chunk,
    machine: &mut M,
    system: &mut S,
) -> bool
    ensures on { (held : Held) → held port ≡ chunk.old
        → GoesOn M.has M.asked machine.old held (S.trace system.old)
        machine.new (put port chunk.new held) (S.trace system.new) }
    ensures idle { result ≡ false → machine.new ≡ machine.old }
    ensures chunk { result ≡ false → chunk.new ≡ chunk.old }
    ensures rests { result ≡ false → RestsAt (M.needs machine.new port)
        (M.pending machine.new port) chunk.new (S.stuck system.new port) }
    ensures stuck { (q : PortValue) → same port q ≡ false
        → S.stuck system.new q ≡ S.stuck system.old q }
    ensures moment { S.moment system.new ≡ S.moment system.old }
{
    let went = write(port, machine, system);
    let came = meet(port, chunk, machine, system);
    went || came
}

/// Reads, opens, shuts or closes a port, as is needed; returns whether anything moved.
fn meet<M: Machine, S: System>(
    port: Port,
    chunk: &mut Chunk,
    machine: &mut M,
    system: &mut S,
) -> bool
    ensures on { (held : Held) → held port ≡ chunk.old
        → GoesOn M.has M.asked machine.old held (S.trace system.old)
        machine.new (put port chunk.new held) (S.trace system.new) }
    ensures idle { result ≡ false → machine.new ≡ machine.old }
    ensures chunk { result ≡ false → chunk.new ≡ chunk.old }
    ensures used { result ≡ false → M.needs machine.new port ≡ Need.Bytes
        → (chunk.new ≡ []) × ((S.stuck system.new port).read ≡ true) }
    ensures opened { result ≡ false → M.needs machine.new port ≡ Need.Opening
        → (S.stuck system.new port).opening ≡ true }
    ensures shut { result ≡ false → M.needs machine.new port ≢ Need.Shutting }
    ensures closed { result ≡ false → M.needs machine.new port ≢ Need.Closing }
    ensures write { result ≡ false
        → (S.stuck system.new port).write ≡ (S.stuck system.old port).write }
    ensures stuck { (q : PortValue) → same port q ≡ false
        → S.stuck system.new q ≡ S.stuck system.old q }
    ensures moment { S.moment system.new ≡ S.moment system.old }
{
    match machine.needs(port) {
        Need::Nothing => false,
        Need::Bytes => read(port, chunk, machine, system),
        Need::Opening => open(port, chunk, machine, system),
        Need::Shutting => {
            shut(port, machine, system);
            true
        }
        Need::Closing => {
            close(port, machine, system);
            true
        }
    }
}

impl Buffers {
    /// Allocates all the memory that it will need: for at most so many bytes of standard input, and
    /// of each line.
    pub fn new(alloc: Global, input: usize, line: usize) -> Result<Buffers, AllocError>
        ensures { IfOk result (λ made. (p : PortValue) → held_of made p ≡ []) }
    {
        Ok(Buffers {
            input: Chunk::new(alloc, input)?,
            output: Chunk::new(alloc, 0)?,
            errors: Chunk::new(alloc, 0)?,
            first: Chunk::new(alloc, line)?,
            second: Chunk::new(alloc, line)?,
        })
    }

    /// Serves each port once, without waiting; returns whether anything moved.
    fn pass<M: Machine, S: System>(&mut self, machine: &mut M, system: &mut S) -> bool
        ensures on { GoesOn M.has M.asked machine.old (held_of self.old) (S.trace system.old)
            machine.new (held_of self.new) (S.trace system.new) }
        ensures idle { result ≡ false → machine.new ≡ machine.old }
        ensures rests { result ≡ false → Rests (M.needs machine.new) (M.pending machine.new)
            (held_of self.new) (S.stuck system.new) }
        ensures moment { S.moment system.new ≡ S.moment system.old }
    {
        let input = serve(Port::Input, &mut self.input, machine, system);
        let output = serve(Port::Output, &mut self.output, machine, system);
        let errors = serve(Port::Errors, &mut self.errors, machine, system);
        let first = serve(Port::First, &mut self.first, machine, system);
        let second = serve(Port::Second, &mut self.second, machine, system);
        input || output || errors || first || second
    }
}

/// Runs a machine over a system until it has ended.
pub fn run<M: Machine, S: System>(
    buffers: &mut Buffers,
    machine: &mut M,
    system: &mut S,
) -> M::Outcome
    ensures on { GoesOn M.has M.asked machine.old (held_of buffers.old) (S.trace system.old)
        machine.new (held_of buffers.new) (S.trace system.new) }
    ensures outcome { M.outcome machine.new ≡ Some result }
{
    for turn in 0..u64::MAX {
        let now = system.now();
        machine.pass_time(now);
        if let Some(outcome) = machine.outcome() {
            return outcome;
        }
        if buffers.pass(machine, system) {
            if turn % TURNS == 0 {
                system.poll();
            }
            continue;
        }
        if machine.rests() {
            continue;
        }
        let most_ms = machine.wakes_at().saturating_sub(now);
        if !system.wait(machine, buffers, most_ms) {
            return machine.stop();
        }
    }
    machine.stop()
}
