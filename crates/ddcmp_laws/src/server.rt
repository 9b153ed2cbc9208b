//! A served station is a driven station.
ghost use Rattle.std.specs.Prelude.{◌≢◌, ℕ, Bool, List, Result, Err};
ghost use Rattle.ddcmp_io.specs.Written.{Known};
ghost use Rattle.ddcmp_io.specs.declared.device.LineFault.TheVariants.{Memory};
ghost use Rattle.ddcmp_station.specs.Driving.{Devices};
ghost use Rattle.ddcmp_net.specs.declared.serve_fault.ServeFault.{ServeFault as ServeFaultValue};
ghost use Rattle.ddcmp_net.specs.declared.serve_fault.ServeFault.TheVariants.{Line};
ghost use Rattle.ddcmp_net.specs.Serving.{Serves};
ghost use Rattle.ddcmp_laws.specs.Driven.{DriveCall};
ghost use Rattle.ddcmp_laws.specs.Served.{IsServed};

/// The contract of `serve` states that a new station was started and driven by one call of `drive`,
/// so that the laws of driven stations apply to it.
pub fn served_is_driven()
    ensures { (milliseconds turns : ℕ) (restart counted : Bool) (send : List ℕ) (devices : Devices)
        (failed : Bool) (report report_after : Known)
        (answer : Result (Unit {0}) ServeFaultValue)
        → answer ≢ Err (Line Memory)
        → Serves milliseconds turns restart counted send devices failed report report_after answer
        → (call : DriveCall)
        × IsServed milliseconds restart counted send call devices failed report report_after }
{}
