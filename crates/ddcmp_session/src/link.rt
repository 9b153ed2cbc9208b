//! A link, from its options to its end.
ghost use Rattle.std.specs.Prelude.{◌≡◌, ◌≢◌, ◌<◌, Err, Ok, ℕ, Some, false, is_ok, true};
ghost use Rattle.ddcmp_proto.specs.Config.{first_refusal};
ghost use Rattle.ddcmp_proto.specs.declared.config.ConfigRefusal.{ConfigRefusal as Refusal};
ghost use Rattle.ddcmp_session.specs.Session.{SessionView};
ghost use Rattle.ddcmp_session.specs.NewRun.{ReportsNew, RunsNew, served_of};
ghost use Rattle.ddcmp_session.specs.declared.devices.DeviceFault.{DeviceFault as FaultValue};
ghost use Rattle.ddcmp_session.specs.declared.link.LinkOutcome.{LinkOutcome as LinkOutcomeValue};

use crate::buffers::{Buffers, Stop};
use crate::devices::{DeviceFault, Devices};
use crate::session::Session;
use ddcmp_io::LineKind;
use ddcmp_station::ConfigRefusal;
use ddcmp_streams::Options;
use std::alloc::Global;

/// How a link ended that wasn't stopped.
#[derive(Clone, Copy)]
pub enum LinkOutcome {
    /// All of the input was delivered.
    Delivered,
    /// All messages of the input were delivered, but a part of it was refused.
    SomeRefused,
    /// All messages of the input were delivered, but one of the peer was refused since it was too
    /// long.
    TooLong,
}

/// The reason why a link ended before all was delivered.
#[derive(Clone, Copy)]
pub enum LinkFault<R> {
    /// Its options were refused, or an allocation failed.
    Refused(ConfigRefusal),
    /// Its run was stopped.
    Stopped(Stop<R>),
}

/// Makes a session with these options, and runs it over these devices to its end, over one line of
/// this kind after the other.
pub fn run_link<D: Devices>(
    alloc: Global,
    options: Options,
    kind: LineKind,
    devices: &mut D,
) -> Result<LinkOutcome, LinkFault<D::Refusal>>
    ensures refused { (refusal : Refusal) → first_refusal options.config ≡ Some refusal
        → result ≡ Err (LinkFault.Refused refusal) }
    ensures unused { (refusal : Refusal) → result ≡ Err (LinkFault.Refused refusal)
        → D.traffic devices.new ≡ D.traffic devices.old }
    ensures ran { ((refusal : Refusal) → result ≢ Err (LinkFault.Refused refusal))
        → (last : SessionView) × RunsNew (is_ok result) options kind (D.traffic devices.old) last
        (D.traffic devices.new) }
    ensures served { (served : LinkOutcomeValue) → result ≡ Ok served → (last : SessionView)
        × RunsNew true options kind (D.traffic devices.old) last (D.traffic devices.new)
        × (last.course.lost ≡ 0)
        × (served ≡ served_of last) }
    ensures lost { (count : ℕ) → result ≡ Err (LinkFault.Stopped (Stop.Lost count))
        → (last : SessionView)
        × RunsNew false options kind (D.traffic devices.old) last (D.traffic devices.new)
        × (count ≡ last.course.lost)
        × (0 < count) }
    ensures left { result ≡ Err (LinkFault.Stopped Stop.Left) → (last : SessionView)
        × RunsNew false options kind (D.traffic devices.old) last (D.traffic devices.new)
        × (last.course.has_run ≡ false) }
    ensures unread { result ≡ Err (LinkFault.Stopped Stop.Unread) → (last : SessionView)
        × RunsNew false options kind (D.traffic devices.old) last (D.traffic devices.new)
        × (last.course.lost ≡ 0) }
    ensures reports { (fault : FaultValue) → fault ≢ DeviceFault.Time
        → result ≡ Err (LinkFault.Stopped (Stop.Device fault))
        → ReportsNew options kind (D.traffic devices.old) (D.traffic devices.new) fault }
{
    let mut session = match Session::new(alloc, options, kind) {
        Ok(session) => session,
        Err(refusal) => return Err(LinkFault::Refused(refusal)),
    };
    let Ok(mut buffers) = Buffers::new(alloc) else {
        return Err(LinkFault::Refused(ConfigRefusal::Memory));
    };
    match buffers.run_to_end(&mut session, devices) {
        Ok(()) => Ok(served(&session)),
        Err(stop) => Err(LinkFault::Stopped(stop)),
    }
}

/// Returns how a run that ended well is reported.
fn served(session: &Session) -> LinkOutcome
    ensures { result ≡ served_of session.now.state }
{
    if session.has_too_long() {
        return LinkOutcome::TooLong;
    }
    if session.was_refused() {
        return LinkOutcome::SomeRefused;
    }
    LinkOutcome::Delivered
}
