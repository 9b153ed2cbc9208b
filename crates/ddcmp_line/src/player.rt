//! Plays a script: reads its lines, and runs their commands between two ends.
ghost use Rattle.std.specs.Prelude.{◌≡◌, ◌≢◌, ◌⊎◌, ◌↔◌, ◌+◌, ◌-◌, ◌<◌, ◌≤◌, ◌^◌, ◌∷◌, [], false};
ghost use Rattle.std.specs.Prelude.{Bool, List, ℕ, Option, Some, None, Err, OnErr, IsTrue, length};
ghost use Rattle.std.specs.Io.KnownBytes.{Appends, Consumes};
ghost use Rattle.ddcmp_io.specs.Written.{AppendsPart, Output, output_of};
ghost use Rattle.ddcmp_pair.specs.Run.{PairState};
ghost use Rattle.ddcmp_io.specs.Change.{sink_change, source_change};
ghost use Rattle.ddcmp_io.specs.Carriages.{Carriage};
ghost use Rattle.ddcmp_line.specs.Script.{nothing_between};
ghost use Rattle.ddcmp_line.specs.ScriptEnds.{Around, around, IsPlayed, PausedBefore, Plays};
ghost use Rattle.ddcmp_line.specs.Inside.ScriptProgress.{HasDone, IsPlaying, PlaysOut, Stops};
ghost use Rattle.ddcmp_line.specs.Inside.ScriptProgress.{Takes, moment, course, fresh, played};
ghost use Rattle.ddcmp_line.specs.Inside.ScriptSteps.{TellsDevices};

use crate::closing::write_closing;
use crate::command::without_cr;
use crate::nowhere::Nowhere;
use crate::performer::{Stage, Undone};
use crate::script_fault::ScriptFault;
use crate::view::View;
use ddcmp_io::input::read_within;
use ddcmp_io::{Got, Page, Sink, Source, Worst};
use ddcmp_pair::{Carrier, Pair, Unwatched};
use std::alloc::Global;

/// How many bytes of a script are read at once.
const PIECE: usize = 4096;

/// How far a script was read and played.
#[derive(Drop)]
struct Player {
    stage: Stage,
    /// The part of the current line that was read.
    line: Vec<u8>,
    /// How many lines are done.
    number: u64,
    seen: u64,
}

impl Player {
    /// Returns a player that has read nothing.
    fn new(alloc: Global) -> Self
        ensures seen { result.seen ≡ 0 }
        ensures number { result.number ≡ 0 }
        ensures line { result.line.items ≡ [] }
        ensures lines { result.stage.lines ≡ nothing_between }
        ensures page { result.stage.page ≡ [] }
    {
        Player {
            stage: Stage::new(alloc),
            line: Vec::new(alloc),
            number: 0,
            seen: 0,
        }
    }

    /// Takes a byte of the script; if it is LF, runs the line that it ends.
    fn take_byte<W: Sink, C: Carrier, V: View>(
        &mut self,
        pair: &mut Pair,
        view: &mut V,
        writer: &mut W,
        carrier: &mut C,
        byte: u8,
    ) -> Result<(), Undone>
        requires whole { C.broken carrier.old ≡ false }
        requires few { self.old.number < 2 ^ 64 - 1 }
        ensures seen { self.new.seen ≡ self.old.seen }
        ensures number { self.new.number ≤ self.old.number + 1 }
        ensures refused { OnErr result (self.new.number ≡ self.old.number) }
        ensures devices { TellsDevices
            (output_of W.broken W.contents writer.new self.new.stage.page) (C.broken carrier.new)
            result }
        ensures direct { C.direct carrier.new ≡ C.direct carrier.old }
        ensures takes { Takes (byte ∷ []) (C.direct carrier.old)
            (moment self.old (output_of W.broken W.contents writer.old self.old.stage.page)
            pair.old (C.told carrier.old))
            (moment self.new (output_of W.broken W.contents writer.new self.new.stage.page)
            pair.new (C.told carrier.new)) result }
    {
        if byte != b'\n' {
            return match self.line.push(byte) {
                Ok(()) => Ok(()),
                Err(_refused) => Err(Undone::Memory),
            };
        }
        match self
            .stage
            .do_line(pair, view, writer, carrier, without_cr(&self.line))
        {
            Ok(()) => {
                self.line.clear();
                self.number += 1;
                Ok(())
            }
            Err(stop) => Err(stop),
        }
    }

    /// Takes a chunk of the script, and runs the lines that it completes.
    fn take<W: Sink, C: Carrier, V: View>(
        &mut self,
        pair: &mut Pair,
        view: &mut V,
        writer: &mut W,
        carrier: &mut C,
        piece: &[u8],
    ) -> Result<(), Undone>
        requires whole { C.broken carrier.old ≡ false }
        requires few { self.old.number + length piece.now < 2 ^ 64 }
        ensures seen { self.new.seen ≡ self.old.seen }
        ensures number { self.new.number ≤ self.old.number + length piece.now }
        ensures refused { OnErr result (self.new.number < self.old.number + length piece.now) }
        ensures devices { TellsDevices
            (output_of W.broken W.contents writer.new self.new.stage.page) (C.broken carrier.new)
            result }
        ensures direct { C.direct carrier.new ≡ C.direct carrier.old }
        ensures takes { Takes piece.now (C.direct carrier.old)
            (moment self.old (output_of W.broken W.contents writer.old self.old.stage.page)
            pair.old (C.told carrier.old))
            (moment self.new (output_of W.broken W.contents writer.new self.new.stage.page)
            pair.new (C.told carrier.new)) result }
    {
        for i in 0..piece.len() {
            match self.take_byte(pair, view, writer, carrier, piece[i]) {
                Ok(()) => {}
                Err(stop) => return Err(stop),
            }
        }
        Ok(())
    }

    /// Writes what is buffered; returns the fault.
    fn stop<W: Sink>(&mut self, writer: &mut W, stop: Undone) -> ScriptFault
        requires few { self.old.number < 2 ^ 64 - 1 }
        requires write { stop ≡ Undone.Write → IsTrue (W.broken writer.old) }
        requires one { stop ≡ Undone.Carrier → (W.broken writer.old ≡ false)
            × (self.old.stage.page ≡ []) }
        ensures seen { self.new.seen ≡ self.old.seen }
        ensures read { result ≢ ScriptFault.Read }
        ensures write { (result ≡ ScriptFault.Write) ↔ IsTrue (W.broken writer.new) }
        ensures carrier { (result ≡ ScriptFault.Carrier) ↔ (stop ≡ Undone.Carrier) }
        ensures plays { (counted : Bool) (input : List ℕ) (x : Around) (sink : Option (List ℕ))
            → Stops input self.old.number (course (fresh sink)
            (output_of W.broken W.contents writer.old self.old.stage.page) x) stop
            → Plays counted input x (Appends sink (W.contents writer.new))
            (AppendsPart sink (W.contents writer.new)) (Err result) }
    {
        if stop == Undone::Carrier {
            return ScriptFault::Carrier;
        }
        if self.stage.page.flush(writer).is_err() {
            return ScriptFault::Write;
        }
        match stop {
            Undone::NoCommand => ScriptFault::Line(self.number + 1),
            Undone::NotHex => ScriptFault::Hex(self.number + 1),
            Undone::Write => ScriptFault::Write,
            Undone::Memory => ScriptFault::Memory,
            Undone::Carrier => ScriptFault::Carrier,
        }
    }

    /// Runs the last line, if it doesn't end with LF.
    fn end_input<W: Sink, C: Carrier, V: View>(
        &mut self,
        pair: &mut Pair,
        view: &mut V,
        writer: &mut W,
        carrier: &mut C,
    ) -> Result<(), Undone>
        requires whole { C.broken carrier.old ≡ false }
        ensures seen { self.new.seen ≡ self.old.seen }
        ensures number { self.new.number ≡ self.old.number }
        ensures devices { TellsDevices
            (output_of W.broken W.contents writer.new self.new.stage.page) (C.broken carrier.new)
            result }
        ensures ends { (input : List ℕ) (p : PairState) (d : Bool)
            (log : Option (List Carriage)) (start : Output) → C.direct carrier.old ≡ d
            → HasDone input []
            (played self.old.line.items self.old.number self.old.stage.lines)
            (course start (output_of W.broken W.contents writer.old self.old.stage.page)
            (around p pair.old d log (C.told carrier.old)))
            → PlaysOut input self.new.number
            (course start (output_of W.broken W.contents writer.new self.new.stage.page)
            (around p pair.new d log (C.told carrier.new))) result }
    {
        if self.line.is_empty() {
            return Ok(());
        }
        self.stage.do_line(pair, view, writer, carrier, &self.line)
    }

    /// Runs what is left of the input, and writes the last lines.
    fn finish<W: Sink, C: Carrier, V: View>(
        &mut self,
        pair: &mut Pair,
        view: &mut V,
        writer: &mut W,
        carrier: &mut C,
        counted: bool,
    ) -> Result<(), ScriptFault>
        requires whole { C.broken carrier.old ≡ false }
        requires few { self.old.number < 2 ^ 64 - 1 }
        ensures seen { self.new.seen ≡ self.old.seen }
        ensures read { result ≢ Err ScriptFault.Read }
        ensures write { (result ≡ Err ScriptFault.Write) ↔ IsTrue (W.broken writer.new) }
        ensures carrier { (result ≡ Err ScriptFault.Carrier) ↔ IsTrue (C.broken carrier.new) }
        ensures plays { (input : List ℕ) (p : PairState) (d : Bool)
            (log : Option (List Carriage)) (sink : Option (List ℕ)) → C.direct carrier.old ≡ d
            → HasDone input []
            (played self.old.line.items self.old.number self.old.stage.lines)
            (course (fresh sink) (output_of W.broken W.contents writer.old self.old.stage.page)
            (around p pair.old d log (C.told carrier.old)))
            → Plays counted input (around p pair.new d log (C.told carrier.new))
            (Appends sink (W.contents writer.new))
            (AppendsPart sink (W.contents writer.new)) result }
    {
        match self.end_input(pair, view, writer, carrier) {
            Ok(()) => {}
            Err(stop) => return Err(self.stop(writer, stop)),
        }
        write_closing(&mut self.stage.page, writer, pair, counted);
        match self.stage.page.flush(writer) {
            Ok(()) => Ok(()),
            Err(_failed) => Err(ScriptFault::Write),
        }
    }

    /// Plays the script to its end.
    fn take_all<R: Source, W: Sink, C: Carrier, V: View, O: Sink>(
        &mut self,
        pair: &mut Pair,
        view: &mut V,
        reader: &mut R,
        writer: &mut W,
        shown: &mut O,
        carrier: &mut C,
        counted: bool,
    ) -> Result<(), ScriptFault>
        requires fine { R.state reader.old ≡ Worst.Fine }
        requires shown { O.broken shown.old ≡ false }
        requires whole { C.broken carrier.old ≡ false }
        requires seen { self.old.seen ≡ 0 }
        requires number { self.old.number ≡ 0 }
        ensures consumed { (seen : List ℕ) × (length seen ≡ self.new.seen)
            × Consumes (R.left reader.old) (R.left reader.new) seen }
        ensures read { R.state reader.new ≢ Worst.Fine → result ≡ Err ScriptFault.Read }
        ensures read_only { result ≡ Err ScriptFault.Read
            → (R.state reader.new ≢ Worst.Fine) ⊎ (self.new.seen ≡ 2 ^ 64 - 1) }
        ensures read_most { self.new.seen ≡ 2 ^ 64 - 1 → result ≡ Err ScriptFault.Read }
        ensures write { (result ≡ Err ScriptFault.Write) ↔ IsTrue (W.broken writer.new) }
        ensures carrier { (result ≡ Err ScriptFault.Carrier) ↔ IsTrue (C.broken carrier.new) }
        ensures paused { (input rest : List ℕ) (p : PairState) (d : Bool)
            (log : Option (List Carriage)) (sink : Option (List ℕ)) → C.direct carrier.old ≡ d
            → IsPlaying input (R.left reader.old)
            (played self.old.line.items self.old.number self.old.stage.lines)
            (course (fresh sink) (output_of W.broken W.contents writer.old self.old.stage.page)
            (around p pair.old d log (C.told carrier.old)))
            → result ≡ Err ScriptFault.Read → self.new.seen ≢ 2 ^ 64 - 1
            → R.left reader.new ≡ Some rest
            → PausedBefore rest input (around p pair.new d log (C.told carrier.new))
            (Appends sink (W.contents writer.new)) }
        ensures plays { (input : List ℕ) (p : PairState) (d : Bool)
            (log : Option (List Carriage)) (sink : Option (List ℕ)) → C.direct carrier.old ≡ d
            → IsPlaying input (R.left reader.old)
            (played self.old.line.items self.old.number self.old.stage.lines)
            (course (fresh sink) (output_of W.broken W.contents writer.old self.old.stage.page)
            (around p pair.old d log (C.told carrier.old)))
            → Plays counted input (around p pair.new d log (C.told carrier.new))
            (Appends sink (W.contents writer.new))
            (AppendsPart sink (W.contents writer.new)) result }
        // If the view stops, the script ends as after an allocation failure.
        ensures shown { result ≢ Err ScriptFault.Memory → O.broken shown.new ≡ false }
    {
        let mut piece = [0; PIECE];
        while self.seen < u64::MAX {
            if self.stage.page.flush(writer).is_err() {
                return Err(ScriptFault::Write);
            }
            if !view.show(shown) {
                return Err(ScriptFault::Memory);
            }
            let n = match read_within(reader, &mut piece, u64::MAX - self.seen) {
                Got::Bytes(0) => return self.finish(pair, view, writer, carrier, counted),
                Got::Bytes(n) => n,
                _ => return Err(ScriptFault::Read),
            };
            self.seen += n as u64;
            // A reader that has returned the maximum number of bytes counts as failed.
            if self.seen == u64::MAX {
                return Err(ScriptFault::Read);
            }
            match self.take(pair, view, writer, carrier, &piece[..n]) {
                Ok(()) => {}
                Err(stop) => return Err(self.stop(writer, stop)),
            }
        }
        unreachable!()
    }
}

/// Runs a script: writes the result of each line, and a last line with the totals.
pub fn script<R: Source, W: Sink, C: Carrier>(
    alloc: Global,
    pair: &mut Pair,
    reader: &mut R,
    writer: &mut W,
    carrier: &mut C,
) -> Result<(), ScriptFault>
    requires fine { R.state reader.old ≡ Worst.Fine }
    requires whole { W.broken writer.old ≡ false }
    requires carrier { C.broken carrier.old ≡ false }
    ensures { IsPlayed false (around pair.old pair.new (C.direct carrier.old)
        (C.told carrier.old) (C.told carrier.new))
        (source_change (R.left reader.old) (R.left reader.new) (R.state reader.new))
        (sink_change (W.contents writer.old) (W.contents writer.new) (W.broken writer.new))
        (C.broken carrier.new) result }
{
    script_with(alloc, pair, reader, writer, carrier, false)
}

/// Runs a script: writes the result of each line, the counters of both stations if `counted` is
/// set, and a last line with the totals.
pub fn script_with<R: Source, W: Sink, C: Carrier>(
    alloc: Global,
    pair: &mut Pair,
    reader: &mut R,
    writer: &mut W,
    carrier: &mut C,
    counted: bool,
) -> Result<(), ScriptFault>
    requires fine { R.state reader.old ≡ Worst.Fine }
    requires whole { W.broken writer.old ≡ false }
    requires carrier { C.broken carrier.old ≡ false }
    ensures { IsPlayed counted (around pair.old pair.new (C.direct carrier.old)
        (C.told carrier.old) (C.told carrier.new))
        (source_change (R.left reader.old) (R.left reader.new) (R.state reader.new))
        (sink_change (W.contents writer.old) (W.contents writer.new) (W.broken writer.new))
        (C.broken carrier.new) result }
{
    let mut nothing = Nowhere;
    script_over(
        alloc,
        pair,
        &mut Unwatched,
        reader,
        writer,
        &mut nothing,
        carrier,
        counted,
    )
}

/// Runs a script, and has a view show it on a sink. For the pair, the carrier and the result it
/// promises what `script` does. If the view stops, the script ends as after an allocation failure.
/// The caller has to check whether the sink failed.
pub fn script_viewed<R: Source, W: Sink, C: Carrier, V: View>(
    alloc: Global,
    pair: &mut Pair,
    view: &mut V,
    reader: &mut R,
    writer: &mut W,
    carrier: &mut C,
) -> Result<(), ScriptFault>
    requires fine { R.state reader.old ≡ Worst.Fine }
    requires whole { W.broken writer.old ≡ false }
    requires carrier { C.broken carrier.old ≡ false }
    ensures played { IsPlayed false (around pair.old pair.new (C.direct carrier.old)
        (C.told carrier.old) (C.told carrier.new))
        (source_change (R.left reader.old) (R.left reader.new) (R.state reader.new))
        (sink_change None None false) (C.broken carrier.new) result }
    ensures whole { result ≢ Err ScriptFault.Memory → W.broken writer.new ≡ false }
{
    let mut text = Nowhere;
    script_over(alloc, pair, view, reader, &mut text, writer, carrier, false)
}

/// Runs a script: writes its text to `writer`, and what the view shows to `shown`.
fn script_over<R: Source, W: Sink, C: Carrier, V: View, O: Sink>(
    alloc: Global,
    pair: &mut Pair,
    view: &mut V,
    reader: &mut R,
    writer: &mut W,
    shown: &mut O,
    carrier: &mut C,
    counted: bool,
) -> Result<(), ScriptFault>
    requires fine { R.state reader.old ≡ Worst.Fine }
    requires whole { W.broken writer.old ≡ false }
    requires shown { O.broken shown.old ≡ false }
    requires carrier { C.broken carrier.old ≡ false }
    ensures played { IsPlayed counted (around pair.old pair.new (C.direct carrier.old)
        (C.told carrier.old) (C.told carrier.new))
        (source_change (R.left reader.old) (R.left reader.new) (R.state reader.new))
        (sink_change (W.contents writer.old) (W.contents writer.new) (W.broken writer.new))
        (C.broken carrier.new) result }
    ensures shown { result ≢ Err ScriptFault.Memory → O.broken shown.new ≡ false }
{
    let mut player = Player::new(alloc);
    let done = player.take_all(pair, view, reader, writer, shown, carrier, counted);
    pair.is_run();
    done
}
