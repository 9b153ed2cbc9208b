//! A tap over a system, and its log.
ghost use Rattle.std.specs.Prelude.{◌≡◌, ◌≢◌, ◌+◌, ◌↔◌, ◌⊎◌, [], Err, IsTrue, List, Ok, Some, ℕ};
ghost use Rattle.std.specs.Prelude.{false, length};
ghost use Rattle.ddcmp_ports.specs.Holding.{held_of};
ghost use Rattle.ddcmp_ports.specs.Running.{Passage, no_passage};
ghost use Rattle.ddcmp_ports.specs.declared.port.Port.{Port as PortValue};
ghost use Rattle.ddcmp_ports.specs.declared.port.Port.TheVariants.{First, Second};
ghost use Rattle.ddcmp_log.specs.Items.{HasTold};
ghost use Rattle.ddcmp_log.specs.Logged.{logged_last};
ghost use Rattle.ddcmp_tap.specs.Tapping.{EndsItself, PassesBetween, Taps, last_lines, log_at};
ghost use Rattle.ddcmp_tap.specs.Tapping.{stamp_of};
ghost use Rattle.ddcmp_tap.specs.Logging.{Says, WritesText};
ghost use Rattle.ddcmp_tap.specs.declared.tap_fault.TapFault.{TapFault as TapFaultValue};

use crate::machine::{Tap, TapPause};
use crate::tap_fault::{CarrierFault, TapFault};
use ddcmp_io::{Sink, write_all};
use ddcmp_log::Side;
use ddcmp_ports::{Buffers, System, run};

/// Runs a tap, which was just made, over a system whose first and second line are open, until both
/// sides have ended or one has failed. Writes its lines as bytes are received, and then the last
/// line of each side.
pub fn run_tap<S: System, W: Sink>(
    buffers: &mut Buffers,
    tap: &mut Tap,
    system: &mut S,
    writer: &mut W,
) -> Result<(), TapFault>
    requires tap { Taps tap.old [] }
    requires new { tap.old.written ≡ 0 }
    requires held { (p : PortValue) → held_of buffers.old p ≡ [] }
    requires fresh { (p : PortValue) (t : Passage) → S.trace system.old p ≡ Some t
        → t ≡ no_passage }
    requires whole { W.broken writer.old ≡ false }
    ensures taps { (says : Says [] tap.old.log.notation tap.old.log.times tap.old.log.max
        (W.contents writer.old) (W.contents writer.new) result)
        × ((one two : Passage) → S.trace system.new First ≡ Some one
        → S.trace system.new Second ≡ Some two → PassesBetween says.pieces result one two) }
    ensures carrier { (why : CarrierFault) → result ≢ Err (TapFault.Carrier why) }
    ensures broken { (result ≡ Err TapFault.Report) ↔ IsTrue (W.broken writer.new) }
{
    for pause in 0..u64::MAX {
        match run(buffers, tap, system) {
            TapPause::Logging => match write_lines(tap, writer) {
                Ok(()) => {}
                Err(fault) => return Err(fault),
            },
            TapPause::Ended(ended) => return end(tap, writer, ended),
        }
    }
    Err(TapFault::Memory)
}

/// Writes the last line of each side, unless an allocation failed; returns how the tap ends.
fn end<W: Sink>(tap: &mut Tap, writer: &mut W, ended: Result<(), TapFault>) -> Result<(), TapFault>
    requires whole { W.broken writer.old ≡ false }
    requires own { EndsItself ended }
    ensures memory { ended ≡ Err TapFault.Memory
        → (result ≡ Err TapFault.Memory) × (writer.new ≡ writer.old) }
    ensures wrote { ended ≢ Err TapFault.Memory → (up down : List ℕ)
        → HasTold tap.old.up.log.frames tap.old.up.log.items up
        → HasTold tap.old.down.log.frames tap.old.down.log.items down
        → WritesText (W.contents writer.old) (W.contents writer.new) result
        (last_lines tap.old up down) }
    ensures stays { tap.new ≡ record tap.old { text = tap.new.text } }
    ensures done { result ≡ Ok tt → ended ≡ Ok tt }
    ensures carrier { (why : CarrierFault) → result ≢ Err (TapFault.Carrier why) }
    ensures broken { (result ≡ Err TapFault.Report) ↔ IsTrue (W.broken writer.new) }
{
    match ended {
        Err(TapFault::Memory) => return ended,
        Ok(()) | Err(_) => {}
    }
    match conclude(tap, writer) {
        Ok(()) => ended,
        Err(fault) => Err(fault),
    }
}

/// Writes the lines of a tap.
fn write_lines<W: Sink>(tap: &mut Tap, writer: &mut W) -> Result<(), TapFault>
    requires whole { W.broken writer.old ≡ false }
    ensures wrote { WritesText (W.contents writer.old) (W.contents writer.new) result tap.old.text }
    ensures counted { result ≡ Ok tt → tap.new ≡ record tap.old {
      text = [];
      written = tap.old.written + length tap.old.text;
    } }
    ensures fault { (fault : TapFaultValue) → result ≡ Err fault
        → (fault ≡ TapFault.Report) ⊎ (fault ≡ TapFault.Memory) }
    ensures broken { (result ≡ Err TapFault.Report) ↔ IsTrue (W.broken writer.new) }
{
    match write_all(writer, tap.text()) {
        Ok(()) => {}
        Err(_failed) => return Err(TapFault::Report),
    }
    if tap.was_logged() {
        Ok(())
    } else {
        Err(TapFault::Memory)
    }
}

/// Writes the last line of each side.
fn conclude<W: Sink>(tap: &mut Tap, writer: &mut W) -> Result<(), TapFault>
    requires whole { W.broken writer.old ≡ false }
    ensures wrote { (up down : List ℕ) → HasTold tap.old.up.log.frames tap.old.up.log.items up
        → HasTold tap.old.down.log.frames tap.old.down.log.items down
        → WritesText (W.contents writer.old) (W.contents writer.new) result
        (last_lines tap.old up down) }
    ensures stays { tap.new ≡ record tap.old { text = tap.new.text } }
    ensures fault { (fault : TapFaultValue) → result ≡ Err fault
        → (fault ≡ TapFault.Report) ⊎ (fault ≡ TapFault.Memory) }
    ensures broken { (result ≡ Err TapFault.Report) ↔ IsTrue (W.broken writer.new) }
{
    match write_last(tap, writer, Side::Caller) {
        Ok(()) => write_last(tap, writer, Side::Called),
        Err(fault) => Err(fault),
    }
}

/// Writes the last line of a side.
fn write_last<W: Sink>(tap: &mut Tap, writer: &mut W, side: Side) -> Result<(), TapFault>
    requires whole { W.broken writer.old ≡ false }
    ensures wrote { (told : List ℕ)
        → HasTold (log_at side tap.old).frames (log_at side tap.old).items told
        → WritesText (W.contents writer.old) (W.contents writer.new) result
        (logged_last tap.old.log.notation (stamp_of tap.old) side tap.old.log.max told) }
    ensures stays { tap.new ≡ record tap.old { text = tap.new.text } }
    ensures fault { (fault : TapFaultValue) → result ≡ Err fault
        → (fault ≡ TapFault.Report) ⊎ (fault ≡ TapFault.Memory) }
    ensures broken { (result ≡ Err TapFault.Report) ↔ IsTrue (W.broken writer.new) }
{
    match tap.finish(side) {
        Ok(()) => {}
        Err(_refused) => return Err(TapFault::Memory),
    }
    match write_all(writer, tap.text()) {
        Ok(()) => Ok(()),
        Err(_failed) => Err(TapFault::Report),
    }
}
