//! Two links as pipes, in the bytes of their devices alone.
ghost use Rattle.std.specs.Prelude.{◌≡◌, ◌≢◌, Err, List, Ok, Some, false, ℕ};
ghost use Rattle.ddcmp_io.specs.declared.carrier.End.{End};
ghost use Rattle.ddcmp_proto.specs.declared.config.ConfigRefusal.{ConfigRefusal as Refusal};
ghost use Rattle.ddcmp_session.specs.Traffic.{LineAct, Traffic, no_traffic};
ghost use Rattle.ddcmp_session.specs.declared.link.LinkOutcome.{LinkOutcome as LinkOutcomeValue};
ghost use Rattle.ddcmp_laws.specs.Arrival.{BytesArrive, BytesBegin, IsBinary, IsOneLine, IsStream};
ghost use Rattle.ddcmp_laws.specs.ArrivalInLines.{IsInLines, LinesArrive, LinesBegin};
ghost use Rattle.ddcmp_laws.specs.Traces.{IsHonest};

use ddcmp_session::{Devices, LineKind, LinkFault, LinkOutcome, Options, run_link};
use std::alloc::Global;

/// Runs two links over devices that report their bytes.
///
/// Suppose that each opened at most one line, and that in some order of what both did there, at
/// each moment, the good frames in what each had received were a subsequence of those in what the
/// other had written. Then what the second wrote to its output is a prefix of the messages that the
/// first read from its input, however both end; and it is all of them if the first ends well and
/// the second isn't to acknowledge early, however it ends, or if both end well.
pub fn bytes_arrive<D: Devices, E: Devices>(
    alloc: Global,
    options: Options,
    other_options: Options,
    kind: LineKind,
    other_kind: LineKind,
    devices: &mut D,
    other_devices: &mut E,
) -> (
    Result<LinkOutcome, LinkFault<D::Refusal>>,
    Result<LinkOutcome, LinkFault<E::Refusal>>,
)
    ensures begins { (t u : Traffic)
        → ((why : Refusal) → result.0 ≢ Err (LinkFault.Refused why))
        → ((why : Refusal) → result.1 ≢ Err (LinkFault.Refused why))
        → D.traffic devices.old ≡ Some no_traffic
        → E.traffic other_devices.old ≡ Some no_traffic
        → D.traffic devices.new ≡ Some t → E.traffic other_devices.new ≡ Some u
        → IsBinary options → IsBinary other_options → IsOneLine options other_options t u
        → BytesBegin options t u }
    ensures whole { (outcome other_outcome : LinkOutcomeValue) (t u : Traffic)
        → result.0 ≡ Ok outcome → result.1 ≡ Ok other_outcome
        → D.traffic devices.old ≡ Some no_traffic
        → E.traffic other_devices.old ≡ Some no_traffic
        → D.traffic devices.new ≡ Some t → E.traffic other_devices.new ≡ Some u
        → IsBinary options → IsBinary other_options → IsOneLine options other_options t u
        → BytesArrive options t u }
    ensures written { (outcome : LinkOutcomeValue) (t u : Traffic)
        → result.0 ≡ Ok outcome
        → ((why : Refusal) → result.1 ≢ Err (LinkFault.Refused why))
        → D.traffic devices.old ≡ Some no_traffic
        → E.traffic other_devices.old ≡ Some no_traffic
        → D.traffic devices.new ≡ Some t → E.traffic other_devices.new ≡ Some u
        → IsBinary options → IsBinary other_options → other_options.acknowledge_early ≡ false
        → IsOneLine options other_options t u → BytesArrive options t u }
{
    let first = run_link(alloc, options, kind, devices);
    let second = run_link(alloc, other_options, other_kind, other_devices);
    (first, second)
}

/// Runs two links over devices that report their bytes, their messages in lines.
///
/// Suppose the same of their line. Then the digits of the lines `mail` in what the second wrote to
/// its output are those of a prefix of the messages in the input of the first, however both end;
/// and of all of them if the first has read all of its input and ends well, and the second isn't to
/// acknowledge early, however it ends, or ends well. No other line of that output begins with
/// `mail `.
pub fn lines_arrive<D: Devices, E: Devices>(
    alloc: Global,
    options: Options,
    other_options: Options,
    kind: LineKind,
    other_kind: LineKind,
    devices: &mut D,
    other_devices: &mut E,
) -> (
    Result<LinkOutcome, LinkFault<D::Refusal>>,
    Result<LinkOutcome, LinkFault<E::Refusal>>,
)
    ensures begins { (t u : Traffic)
        → ((why : Refusal) → result.0 ≢ Err (LinkFault.Refused why))
        → ((why : Refusal) → result.1 ≢ Err (LinkFault.Refused why))
        → D.traffic devices.old ≡ Some no_traffic
        → E.traffic other_devices.old ≡ Some no_traffic
        → D.traffic devices.new ≡ Some t → E.traffic other_devices.new ≡ Some u
        → IsInLines options → IsInLines other_options → IsOneLine options other_options t u
        → LinesBegin options t u }
    ensures whole { (outcome other_outcome : LinkOutcomeValue) (t u : Traffic)
        → result.0 ≡ Ok outcome → result.1 ≡ Ok other_outcome
        → D.traffic devices.old ≡ Some no_traffic
        → E.traffic other_devices.old ≡ Some no_traffic
        → D.traffic devices.new ≡ Some t → E.traffic other_devices.new ≡ Some u
        → IsInLines options → IsInLines other_options → IsOneLine options other_options t u
        → LinesArrive options t u }
    ensures written { (outcome : LinkOutcomeValue) (t u : Traffic)
        → result.0 ≡ Ok outcome
        → ((why : Refusal) → result.1 ≢ Err (LinkFault.Refused why))
        → D.traffic devices.old ≡ Some no_traffic
        → E.traffic other_devices.old ≡ Some no_traffic
        → D.traffic devices.new ≡ Some t → E.traffic other_devices.new ≡ Some u
        → IsInLines options → IsInLines other_options → other_options.acknowledge_early ≡ false
        → IsOneLine options other_options t u → LinesArrive options t u }
{
    let first = run_link(alloc, options, kind, devices);
    let second = run_link(alloc, other_options, other_kind, other_devices);
    (first, second)
}

/// A line is honest if at each moment what each end has received is a prefix of what the other has
/// written, as over a connection.
pub fn streams_are_honest()
    ensures { (max other_max : ℕ) (order : List (End × LineAct)) → IsStream order
        → IsHonest max other_max order }
{}
