//! A station of the default sizes, driven over a line.
ghost use Rattle.std.specs.Prelude.{◌≡◌, ◌≢◌, ◌⊎◌, ◌≤◌, ◌↔◌, true, false, length};
ghost use Rattle.std.specs.Io.KnownBytes.{IsAtEnd};
ghost use Rattle.ddcmp_net.specs.Serving.{Serves};
ghost use Rattle.ddcmp_station.specs.Driving.{devices_of};
ghost use Rattle.ddcmp_net.specs.Serving.{default_config as config_of};
ghost use Rattle.ddcmp_io.specs.declared.device.LineFault.{LineFault as LineFaultValue};

use crate::reporter::{Reporter, write_end};
use crate::serve_fault::ServeFault;
use ddcmp_io::{Sink, Source, Worst};
use ddcmp_station::{Clock, Config, LineFault, Station, drive};
use std::alloc::Global;

/// The maximum length of a message that a served station sends or receives, in bytes.
pub const SERVED_MAX: u16 = 1500;

/// Returns the sizes of a served station.
fn default_config(restart: bool) -> Config
    ensures { result ≡ config_of restart }
{
    Config {
        window: 7,
        inbox: 8,
        max: SERVED_MAX,
        syn: 0,
        restart,
    }
}

/// Makes a station, starts it and drives it over a line for some turns. The report has a line for
/// each notice and each received message, in order; then the counters, if `counted` is set; and a
/// last line. The station sends one message as soon as it runs, if `send` isn't empty.
pub fn serve<R: Source, W: Sink, P: Sink, C: Clock>(
    alloc: Global,
    reader: &mut R,
    writer: &mut W,
    report: &mut P,
    clock: &mut C,
    send: &[u8],
    turns: u32,
    timer_ms: u32,
    restart: bool,
    counted: bool,
) -> Result<(), ServeFault>
    requires fine { R.state reader.old ≢ Worst.Failed }
    requires whole { W.broken writer.old ≡ false }
    requires report { P.broken report.old ≡ false }
    requires short { length send.now ≤ 1500 }
    ensures serves { result ≢ Err ServeFault.Config → Serves timer_ms turns restart counted
        send.now (devices_of R.left R.state R.answers W.contents C.told reader.old reader.new
        writer.old writer.new clock.old clock.new) (P.broken report.new) (P.contents report.old)
        (P.contents report.new) result }

    // When each fault is returned.
    ensures read { (result ≡ Err (ServeFault.Line LineFault.Read))
        ↔ (R.state reader.new ≡ Worst.Failed) }
    ensures write { (result ≡ Err (ServeFault.Line LineFault.Write))
        ↔ (W.broken writer.new ≡ true) }
    ensures ended { result ≡ Err (ServeFault.Line LineFault.Ended) → IsAtEnd (R.left reader.new) }
    ensures told { (result ≡ Err ServeFault.Report) ↔ ((P.broken report.new ≡ true)
        × ((fault : LineFaultValue) → result ≢ Err (ServeFault.Line fault))) }
    ensures memory { (result ≡ Err ServeFault.Config)
        ⊎ (result ≡ Err (ServeFault.Line LineFault.Memory))
        → (reader.new ≡ reader.old) × (writer.new ≡ writer.old) × (clock.new ≡ clock.old)
        × (report.new ≡ report.old) }
{
    let Ok(mut station) = Station::new(alloc, default_config(restart)) else {
        return Err(ServeFault::Config);
    };
    let _dropped = station.start();
    let mut user = Reporter::new(report, send);
    match drive(
        alloc,
        &mut station,
        reader,
        writer,
        &mut user,
        clock,
        timer_ms,
        turns,
    ) {
        Ok(driven) => {
            match write_end(report, &driven, &station, counted) {
                Ok(()) => Ok(()),
                Err(_failed) => Err(ServeFault::Report),
            }
        }
        Err(fault) => Err(ServeFault::Line(fault)),
    }
}
