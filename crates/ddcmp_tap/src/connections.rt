//! The connections of a tap: it accepts callers at one address, connects to another for each, and
//! forwards between the two.
ghost use Rattle.std.specs.Prelude.{◌≡◌, ◌≢◌, ◌<◌, ◌≤◌, ◌↔◌, ◌⊎◌, Err, IfSome, IsTrue, None, false};
ghost use Rattle.std.specs.Prelude.{is_err};
ghost use Rattle.ddcmp_io.specs.Written.{Writes};
ghost use Rattle.ddcmp_frame.specs.Limits.{MAX_COUNT};
ghost use Rattle.ddcmp_tap.specs.Logging.{Says, head_of};
ghost use Rattle.ddcmp_tap.specs.InTurn.{Lasts, PassesOver, SaysInTurn};

use crate::direction::ROOM;
use crate::machine::Tap;
use crate::running::run_tap;
use crate::socket_options::keep_alive;
use crate::sockets::Sides;
use crate::tap_fault::{CarrierFault, Stage, TapFault};
use crate::tap_log::TapLog;
use ddcmp_io::{Sink, WriteFailed, write_all};
use ddcmp_log::LogNotation;
use ddcmp_ports::Buffers;
use mio::net::TcpStream;
use std::alloc::Global;
use std::io::{self, Eprint, ErrorKind};
use std::net::{self, Net, OpenListener, SocketAddr, TcpListener, ToSocketAddrs};
use std::os::fd::AsRawFd;
use std::time;

/// The heading of a ladder: which side is which.
const LADDER_HEAD: &[u8] =
    b"> who connected to the tap                         whom the tap connected to <\n";

/// Writes the heading of the log.
fn write_head<W: Sink>(writer: &mut W, notation: LogNotation) -> Result<(), WriteFailed>
    requires whole { W.broken writer.old ≡ false }
    ensures written { Writes (W.contents writer.old) (W.contents writer.new) result
        (head_of notation) }
    ensures broken { W.broken writer.new ≡ is_err result }
{
    match notation {
        LogNotation::Plain | LogNotation::Json => Ok(()),
        LogNotation::Ladder => write_all(writer, LADDER_HEAD),
    }
}

/// Makes a connection nonblocking, with TCP_NODELAY and keepalive.
fn prompt(stream: net::TcpStream) -> io::Result<TcpStream> {
    stream.set_nodelay(true)?;
    stream.set_nonblocking(true)?;
    let stream = TcpStream::from_std(stream);
    keep_alive(stream.as_raw_fd());
    Ok(stream)
}

/// The connection of a caller, and its address.
#[derive(Drop)]
struct Caller {
    stream: TcpStream,
    peer: SocketAddr,
}

/// Returns the next connection to a listener.
fn accept_next<L: OpenListener<Stream = net::TcpStream>>(listener: &L) -> io::Result<Caller> {
    for _caller in 0..u64::MAX {
        match listener.accept() {
            Ok((stream, peer)) => {
                let stream = prompt(stream)?;
                return Ok(Caller { stream, peer });
            }
            // The caller may have disconnected already.
            Err(error) => match error.kind() {
                ErrorKind::ConnectionAborted | ErrorKind::Interrupted => {}
                _ => return Err(error),
            },
        }
    }
    Err(io::Error::from(ErrorKind::Interrupted))
}

/// Prints the address of a listener whose port was chosen by the system.
fn report_port<E: Eprint, L: OpenListener>(system: &E, listener: &L, name: &str) {
    if !name.ends_with(":0") {
        return;
    }
    if let Ok(addr) = listener.local_addr() {
        let _ = eprintln!(system; "ddcmp: listening {addr}");
    }
}

/// Returns the first connection to an address.
fn accept_first<S: Net<Stream = net::TcpStream> + Eprint>(
    system: &S,
    name: &str,
) -> io::Result<Caller> {
    let listener = TcpListener::bind(system, name)?;
    report_port(system, &listener, name);
    accept_next(&listener)
}

/// Returns a connection to an address.
fn connect_to<N: Net<Stream = net::TcpStream>>(net: &N, name: &str) -> io::Result<TcpStream> {
    prompt(net::TcpStream::connect(net, name)?)
}

/// Returns why there is no connection at an address: this error, or that no host has its name.
fn carrier_fault<N: Net>(net: &N, stage: Stage, name: &str, error: &io::Error) -> CarrierFault
    ensures stage { result.stage ≡ stage }
{
    let is_unknown = match name.to_socket_addrs(net) {
        Ok(_found) => false,
        Err(unknown) => unknown.kind() != ErrorKind::InvalidInput,
    };
    CarrierFault {
        stage,
        cause: if is_unknown { None } else { Some(error.kind()) },
    }
}

/// Returns the fault of a tap that can't wait for both sides.
fn no_waiting(error: &io::Error) -> TapFault
    ensures { (result ≡ TapFault.Memory)
        ⊎ ((why : CarrierFault) × (result ≡ TapFault.Carrier why)) }
{
    match error.kind() {
        ErrorKind::OutOfMemory => TapFault::Memory,
        kind => TapFault::Carrier(CarrierFault {
            stage: Stage::Wait,
            cause: Some(kind),
        }),
    }
}

/// Waits at one address until someone connects, connects to the other, and forwards between the two
/// until both have ended. Writes the log line by line as bytes are received; prints why a side
/// failed on standard error.
pub fn tap<S: Net<Stream = net::TcpStream> + Eprint + time::Clock, W: Sink>(
    system: &S,
    alloc: Global,
    listen: &str,
    connect: &str,
    log: TapLog,
    writer: &mut W,
) -> Result<(), TapFault>
    requires whole { W.broken writer.old ≡ false }
    requires low { 0 < log.max }
    requires high { log.max ≤ MAX_COUNT }
    ensures says { Says (head_of log.notation) log.notation log.times log.max
        (W.contents writer.old) (W.contents writer.new) result }
    ensures carrier { (why : CarrierFault) → result ≡ Err (TapFault.Carrier why)
        → writer.new ≡ writer.old }
    ensures broken { (result ≡ Err TapFault.Report) ↔ IsTrue (W.broken writer.new) }
{
    match accept_first(system, listen) {
        Ok(caller) => carry(system, alloc, caller, connect, log, writer),
        Err(error) => Err(TapFault::Carrier(carrier_fault(system, Stage::Listen, listen, &error))),
    }
}

/// Connects to an address for a caller, and forwards between the two until both have ended.
fn carry<S: Net<Stream = net::TcpStream> + Eprint + time::Clock, W: Sink>(
    system: &S,
    alloc: Global,
    caller: Caller,
    connect: &str,
    log: TapLog,
    writer: &mut W,
) -> Result<(), TapFault>
    requires whole { W.broken writer.old ≡ false }
    requires low { 0 < log.max }
    requires high { log.max ≤ MAX_COUNT }
    ensures says { Says (head_of log.notation) log.notation log.times log.max
        (W.contents writer.old) (W.contents writer.new) result }
    ensures carrier { (why : CarrierFault) → result ≡ Err (TapFault.Carrier why)
        → writer.new ≡ writer.old }
    ensures broken { (result ≡ Err TapFault.Report) ↔ IsTrue (W.broken writer.new) }
{
    let Caller { stream, peer } = caller;
    let called = match connect_to(system, connect) {
        Ok(called) => called,
        Err(error) => {
            let why = carrier_fault(system, Stage::Connect, connect, &error);
            return Err(TapFault::Carrier(why));
        }
    };
    let mut sides = match Sides::new(system, alloc, stream, called) {
        Ok(sides) => sides,
        Err(error) => return Err(no_waiting(&error)),
    };
    let log = TapLog {
        notation: log.notation,
        times: log.times,
        began: sides.began(),
        report: log.report,
        max: log.max,
    };
    let ended = between(alloc, &mut sides, log, writer);
    sides.report(system, &peer, &connect);
    ended
}

/// Returns the fault if it ends the tap, and not just the connection of one caller. None if both
/// sides ended, one failed, or the other address can't be reached, which is printed.
fn lasting<S: Eprint>(system: &S, connect: &str, ended: Result<(), TapFault>) -> Option<TapFault>
    ensures lasts { IfSome result (λ fault. (ended ≡ Err fault) × Lasts fault) }
    ensures passes { result ≡ None → PassesOver ended }
{
    match ended {
        Ok(()) | Err(TapFault::Read | TapFault::Write) => None,
        Err(TapFault::Carrier(why)) => match why.stage {
            Stage::Connect => {
                let reason = why.reason();
                let _ = eprintln!(system; "ddcmp: connect {connect}: {reason}");
                None
            }
            Stage::Listen | Stage::Wait => Some(TapFault::Carrier(why)),
        },
        Err(TapFault::Report) => Some(TapFault::Report),
        Err(TapFault::Memory) => Some(TapFault::Memory),
    }
}

/// Listens at one address, and serves one caller after another as `tap` serves one; others wait
/// meanwhile. A fault of a side ends only its connection. Returns why the tap ends.
pub fn tap_again<S: Net<Stream = net::TcpStream> + Eprint + time::Clock, W: Sink>(
    system: &S,
    alloc: Global,
    listen: &str,
    connect: &str,
    log: TapLog,
    writer: &mut W,
) -> TapFault
    requires whole { W.broken writer.old ≡ false }
    requires low { 0 < log.max }
    requires high { log.max ≤ MAX_COUNT }
    ensures says { SaysInTurn log.notation log.times log.max
        (W.contents writer.old) (W.contents writer.new) result }
    ensures lasts { Lasts result }
    ensures broken { (result ≡ TapFault.Report) ↔ IsTrue (W.broken writer.new) }
{
    let listener = match TcpListener::bind(system, listen) {
        Ok(listener) => listener,
        Err(error) => return TapFault::Carrier(carrier_fault(
            system,
            Stage::Listen,
            listen,
            &error,
        )),
    };
    report_port(system, &listener, listen);
    for turn in 0..u64::MAX {
        let caller = match accept_next(&listener) {
            Ok(caller) => caller,
            Err(error) => {
                return TapFault::Carrier(carrier_fault(system, Stage::Listen, listen, &error));
            }
        };
        let ended = carry(system, alloc, caller, connect, log, writer);
        if let Some(fault) = lasting(system, connect, ended) {
            return fault;
        }
    }
    TapFault::Carrier(CarrierFault {
        stage: Stage::Listen,
        cause: Some(ErrorKind::Other),
    })
}

/// Forwards between two sides, below the heading of the log.
fn between<S: Net + Eprint + time::Clock, W: Sink>(
    alloc: Global,
    sides: &mut Sides<'_, S>,
    log: TapLog,
    writer: &mut W,
) -> Result<(), TapFault>
    requires whole { W.broken writer.old ≡ false }
    requires low { 0 < log.max }
    requires high { log.max ≤ MAX_COUNT }
    ensures says { Says (head_of log.notation) log.notation log.times log.max
        (W.contents writer.old) (W.contents writer.new) result }
    ensures met { (why : CarrierFault) → result ≢ Err (TapFault.Carrier why) }
    ensures broken { (result ≡ Err TapFault.Report) ↔ IsTrue (W.broken writer.new) }
{
    let Ok(mut tap) = Tap::new(alloc, log) else {
        return Err(TapFault::Memory);
    };
    let Ok(mut buffers) = Buffers::new(alloc, 0, ROOM) else {
        return Err(TapFault::Memory);
    };
    if write_head(writer, log.notation).is_err() {
        return Err(TapFault::Report);
    }
    run_tap(&mut buffers, &mut tap, sides, writer)
}
