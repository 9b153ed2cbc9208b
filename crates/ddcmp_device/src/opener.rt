//! Opens a line by its name.
ghost use Rattle.std.specs.Prelude.{◌≡◌, ◌≢◌, ◌+◌, ◌-◌, ◌^◌, IfErr, IfOk, None, Some, false, min};
ghost use Rattle.std.specs.Prelude.{true};
ghost use Rattle.std.specs.declared.net.socket_addr.SocketAddr.{SocketAddr as AddrValue};
ghost use Rattle.ddcmp_ports.specs.LineNames.{line_kind, open_fault_of};
ghost use Rattle.ddcmp_device.specs.Opening.{Begins, SameIfNotYet, Opens, event_of};
ghost use Rattle.ddcmp_device.specs.Opening.{line_of};
ghost use Rattle.ddcmp_io.specs.declared.line_kind.LineKind.TheVariants as kind;

use crate::line::Line;
use crate::place::LinePlace;
use crate::socket::{prepare_datagrams, prepare_stream};
use ddcmp_ports::{Cause, LineEvent, LineName, OpenFault, OpenRefusal};
use mio::Poll;
use mio::net::{TcpListener, TcpStream, UdpSocket};
use std::fs::{self, File, Files, OpenOptions, TryLockError};
use std::io::{self, ErrorKind};
use std::net::{self, IpAddr, Net, OpenListener, SocketAddr, ToSocketAddrs};
use std::os::fd::AsRawFd;
use std::os::unix::fs::FileTypeExt;

/// Opens a line, once or repeatedly.
pub struct Opener<'a> {
    pub name: LineName<'a>,
    /// The host whose callers are accepted; if there is none, all are.
    pub only: Option<&'a str>,
    /// The listener, while it listens.
    pub listener: Option<TcpListener>,
    /// The address that it listened at last: the name may leave the port to the system.
    bound: Option<SocketAddr>,
    /// A connection that isn't made yet.
    pub connecting: Option<TcpStream>,
    /// The index of its address among those of the name.
    which: usize,
    /// Why the connection before it failed.
    failed: Option<ErrorKind>,
}

// Manual, since a derived `Drop` would be expanded wherever a value is dropped.
impl Drop for Opener<'_> {
    fn drop(self) {
        let Opener {
            name: _,
            only: _,
            listener: _listener,
            bound: _,
            connecting: _connecting,
            which: _,
            failed: _,
        } = self;
    }
}

/// A line, or the state of its opening.
#[derive(Drop)]
pub enum Opened {
    Line(Line),
    /// A line of datagrams, its own address and its peer's.
    Bound(Line, SocketAddr, SocketAddr),
    /// A connection, and its peer.
    Connected(Line, SocketAddr),
    /// A connection to this address was begun.
    Connecting(SocketAddr),
    /// It listens for callers at this address.
    Listening(SocketAddr),
    /// A caller at this address was refused.
    Refused(SocketAddr),
    /// Nobody has connected yet, the connection isn't made yet, or the line isn't one that listens.
    NotYet,
}

impl Opened {
    /// Returns the event to be reported, if there is one.
    pub fn event(&self) -> Option<LineEvent>
        ensures { result ≡ event_of self.now }
    {
        match self {
            Opened::Bound(_, local, peer) => Some(LineEvent::Bound(*local, *peer)),
            Opened::Connected(_, peer) => Some(LineEvent::Connected(*peer)),
            Opened::Connecting(peer) => Some(LineEvent::Connecting(*peer)),
            Opened::Listening(addr) => Some(LineEvent::Listening(*addr)),
            Opened::Refused(peer) => Some(LineEvent::Refused(*peer)),
            Opened::Line(_) | Opened::NotYet => None,
        }
    }

    /// Returns the line, if it is open.
    pub fn into_line(self) -> Option<Line>
        ensures { result ≡ line_of self }
    {
        match self {
            Opened::Line(line) | Opened::Bound(line, _, _) => Some(line),
            Opened::Connected(line, _) => Some(line),
            Opened::Connecting(_) | Opened::Listening(_) | Opened::Refused(_) | Opened::NotYet =>
                None,
        }
    }
}

/// Returns the refusal for an error of the system.
fn refused_by(error: &io::Error) -> OpenRefusal {
    refused(Cause::System(error.kind()))
}

fn refused(cause: Cause) -> OpenRefusal
    ensures { result ≡ record { cause = cause; is_remote = false } }
{
    OpenRefusal {
        cause,
        is_remote: false,
    }
}

impl<'a> Opener<'a> {
    /// Makes an opener for a line of this name. Of callers it accepts those of the host `only`, or
    /// all.
    pub fn new(name: LineName<'a>, only: Option<&'a str>) -> Opener<'a>
        ensures name { result.name ≡ name.entry }
        ensures only { result.only ≡ only.entry }
    {
        Opener {
            name,
            only,
            listener: None,
            bound: None,
            connecting: None,
            which: 0,
            failed: None,
        }
    }

    /// Returns the fault of a line of this name that couldn't be opened.
    pub(crate) fn fault(&self, refused: OpenRefusal) -> OpenFault<'a>
        ensures { result ≡ open_fault_of self.now.name refused }
    {
        self.name.open_fault(refused)
    }

    /// Listens if the line is one for callers; else returns `NotYet`.
    pub(crate) fn listen<N: Net<Stream = net::TcpStream, Listener = net::TcpListener>>(
        &mut self,
        net: &N,
        poll: &Poll,
        place: &mut LinePlace,
    ) -> Result<Opened, OpenRefusal>
        ensures { IfOk result (Begins (line_kind self.old.name)) }
    {
        let LineName::Listen(name) = self.name else {
            return Ok(Opened::NotYet);
        };
        let listens = match self.bound {
            Some(addr) => listening_again(net, poll, place, addr),
            None => listening(net, poll, place, name),
        };
        match listens {
            Ok((listener, addr)) => {
                self.listener = Some(listener);
                self.bound = Some(addr);
                Ok(Opened::Listening(addr))
            }
            Err(cause) => Err(refused(cause)),
        }
    }

    /// Opens the line, accepts a caller, or checks whether a connection is made. Listens first, if
    /// the line is one for callers and doesn't listen yet.
    pub fn open<S>(
        &mut self,
        system: &S,
        poll: &Poll,
        place: &mut LinePlace,
    ) -> Result<Opened, OpenRefusal>
    where
        S: Net<Stream = net::TcpStream, Listener = net::TcpListener> + Files<File = File>,
        ensures opened { IfOk result (Opens (line_kind self.old.name)) }
        ensures begun { IfOk result (SameIfNotYet self.old.connecting self.new.connecting) }
        ensures listens { IfOk result (SameIfNotYet self.old.listener self.new.listener) }
    {
        match self.name {
            LineName::Connect(name) => self.connect(system, poll, place, name),
            LineName::Listen(_) => match &self.listener {
                None => self.listen(system, poll, place),
                Some(listener) => match accepted(system, listener, poll, place, self.only) {
                    Ok(opened) => Ok(opened),
                    Err(error) => Err(refused_by(&error)),
                },
            },
            LineName::Udp { local, remote } => bound(system, poll, place, local, remote),
            LineName::Device(path) => device(system, poll, place, path),
        }
    }

    /// Ends the listening, so that the port refuses callers, until `open` is called again.
    pub fn refuse_callers(&mut self)
        ensures { self.new ≡ record self.old { listener = None } }
    {
        self.listener = None;
    }

    /// Connects to the addresses of a name, one after the other, without blocking.
    fn connect<N: Net>(
        &mut self,
        net: &N,
        poll: &Poll,
        place: &mut LinePlace,
        name: &str,
    ) -> Result<Opened, OpenRefusal>
        ensures opened { IfOk result (Opens kind.Connect) }
        ensures begun { IfOk result (SameIfNotYet self.old.connecting self.new.connecting) }
        ensures listener { self.new.listener ≡ self.old.listener }
    {
        if let Some(stream) = self.connecting.take() {
            match peer_of(&stream) {
                Ok(Some(peer)) => {
                    self.restart();
                    return Ok(Opened::Connected(Line::Stream(stream), peer));
                }
                Ok(None) => {
                    self.connecting = Some(stream);
                    return Ok(Opened::NotYet);
                }
                Err(kind) => self.fails(kind),
            }
        }
        for _address in 0..u64::MAX {
            let addr = match address(net, name, self.which) {
                Ok(Some(addr)) => addr,
                Ok(None) => break,
                Err(cause) => {
                    self.restart();
                    return Err(refused(cause));
                }
            };
            match begin_connecting(net, poll, place, addr) {
                Ok(stream) => {
                    self.connecting = Some(stream);
                    return Ok(Opened::Connecting(addr));
                }
                Err(error) => self.fails(error.kind()),
            }
        }
        let kind = self.failed.unwrap_or(ErrorKind::InvalidInput);
        self.restart();
        Err(refused(Cause::System(kind)))
    }

    /// Records that an address failed, so that the next one is tried.
    fn fails(&mut self, kind: ErrorKind)
        ensures { self.new ≡ record self.old {
          failed = Some kind;
          which = min (self.old.which + 1) (2 ^ 64 - 1);
        } }
    {
        self.failed = Some(kind);
        self.which = self.which.saturating_add(1);
    }

    /// Has the next connection begin with the first address of its name.
    fn restart(&mut self)
        ensures { self.new ≡ record self.old { failed = None; which = 0 } }
    {
        self.failed = None;
        self.which = 0;
    }
}

/// Returns the peer of a connection, once it is made, or why it failed.
fn peer_of(stream: &TcpStream) -> Result<Option<SocketAddr>, ErrorKind> {
    match stream.take_error() {
        Ok(Some(error)) | Err(error) => return Err(error.kind()),
        Ok(None) => {}
    }
    match stream.peer_addr() {
        Ok(peer) => Ok(Some(peer)),
        Err(error) => match error.kind() {
            ErrorKind::NotConnected => Ok(None),
            kind => Err(kind),
        },
    }
}

/// Begins to connect to an address.
fn begin_connecting<N: Net>(
    net: &N,
    poll: &Poll,
    place: &mut LinePlace,
    addr: SocketAddr,
) -> io::Result<TcpStream> {
    let mut stream = TcpStream::connect(net, addr)?;
    prepare_stream(&stream);
    place.add_socket(poll, &mut stream)?;
    Ok(stream)
}

/// Returns a listener at the first address of a name that can be listened at, and that address.
fn listening<N: Net<Stream = net::TcpStream, Listener = net::TcpListener>>(
    net: &N,
    poll: &Poll,
    place: &mut LinePlace,
    name: &str,
) -> Result<(TcpListener, SocketAddr), Cause> {
    let mut failed = ErrorKind::InvalidInput;
    for index in 0..usize::MAX {
        let Some(addr) = address(net, name, index)? else {
            break;
        };
        match listening_at(net, poll, place, addr) {
            Ok(listens) => return Ok(listens),
            Err(error) => failed = error.kind(),
        }
    }
    Err(Cause::System(failed))
}

fn listening_at<N: Net<Stream = net::TcpStream, Listener = net::TcpListener>>(
    net: &N,
    poll: &Poll,
    place: &mut LinePlace,
    addr: SocketAddr,
) -> io::Result<(TcpListener, SocketAddr)> {
    let listener = net::TcpListener::bind(net, addr)?;
    let addr = listener.local_addr()?;
    listener.set_nonblocking(true)?;
    let mut listener = TcpListener::from_std(listener);
    place.add_listener(poll, &mut listener)?;
    Ok((listener, addr))
}

/// Returns a listener at the address of an earlier one, and that address.
fn listening_again<N: Net<Stream = net::TcpStream, Listener = net::TcpListener>>(
    net: &N,
    poll: &Poll,
    place: &mut LinePlace,
    addr: SocketAddr,
) -> Result<(TcpListener, SocketAddr), Cause> {
    match listening_at(net, poll, place, addr) {
        Ok(listens) => Ok(listens),
        Err(error) => Err(Cause::System(error.kind())),
    }
}

/// Returns whether a caller may have the line: one of this host, or any.
fn may_call<N: Net>(net: &N, only: Option<&str>, peer: SocketAddr) -> bool
    ensures { only.entry ≡ None → result ≡ true }
{
    match only {
        None => true,
        Some(host) => is_of_host(net, host, peer.ip().to_canonical()),
    }
}

/// Returns whether a host has this address; it is looked up unless it is an address itself.
fn is_of_host<N: Net>(net: &N, host: &str, ip: IpAddr) -> bool {
    let Ok(found) = (host, 0u16).to_socket_addrs(net) else {
        return false;
    };
    for addr in found {
        if addr.ip().to_canonical() == ip {
            return true;
        }
    }
    false
}

/// Accepts the first caller who hasn't disconnected since, or refuses him.
fn accepted<N: Net>(
    net: &N,
    listener: &TcpListener,
    poll: &Poll,
    place: &mut LinePlace,
    only: Option<&str>,
) -> io::Result<Opened>
    ensures opened { IfOk result (Opens kind.Listen) }
    ensures any { only.entry ≡ None → IfOk result (λ opened. (peer : AddrValue)
        → opened ≢ Opened.Refused peer) }
{
    for _caller in 0..u64::MAX {
        match listener.accept() {
            Ok((mut stream, peer)) => {
                if !may_call(net, only, peer) {
                    // More callers may be pending, and the next wait is to report them again.
                    place.ask_callers(poll, listener.as_raw_fd())?;
                    return Ok(Opened::Refused(peer));
                }
                prepare_stream(&stream);
                place.add_socket(poll, &mut stream)?;
                return Ok(Opened::Connected(Line::Stream(stream), peer));
            }
            Err(error) => match error.kind() {
                // More callers may be pending, and the next wait wouldn't report them again.
                ErrorKind::Interrupted | ErrorKind::ConnectionAborted => {}
                ErrorKind::WouldBlock => return Ok(Opened::NotYet),
                _ => return Err(error),
            },
        }
    }
    Ok(Opened::NotYet)
}

/// Returns the address of this index among those of a name.
fn address<N: Net>(net: &N, name: &str, index: usize) -> Result<Option<SocketAddr>, Cause> {
    match name.to_socket_addrs(net) {
        Ok(mut found) => Ok(found.nth(index)),
        Err(error) => Err(misnamed(name, error.kind())),
    }
}

/// Returns what is wrong with a name of which no address was found, for this reason.
fn misnamed(name: &str, kind: ErrorKind) -> Cause {
    match name.rsplit_once(':') {
        None if is_port(name) => Cause::NoHost,
        Some(("", port)) if is_port(port) => Cause::NoHost,
        Some((_, port)) if !is_port(port) => Cause::NoPort,
        _ if kind == ErrorKind::InvalidInput => Cause::System(kind),
        _ => Cause::UnknownHost,
    }
}

/// Returns whether a word is the number of a port.
fn is_port(word: &str) -> bool {
    word.parse::<u16>().is_ok()
}

/// Returns the address of this index of one end of a line of datagrams; an error if there is none
/// at all.
fn address_of_end<N: Net>(
    net: &N,
    name: &str,
    index: usize,
    is_remote: bool,
) -> Result<Option<SocketAddr>, OpenRefusal>
    ensures { IfErr result (λ refused. refused.is_remote ≡ is_remote) }
{
    match address(net, name, index) {
        Ok(None) if index == 0 => Err(OpenRefusal {
            cause: Cause::UnknownHost,
            is_remote,
        }),
        // Nobody can receive there.
        Ok(Some(addr)) if is_remote && addr.port() == 0 => Err(OpenRefusal {
            cause: Cause::System(ErrorKind::InvalidInput),
            is_remote,
        }),
        Ok(found) => Ok(found),
        Err(cause) => Err(OpenRefusal { cause, is_remote }),
    }
}

/// Returns the first address of the remote end that has the family of a local one.
fn address_like<N: Net>(
    net: &N,
    remote: &str,
    local: SocketAddr,
) -> Result<Option<SocketAddr>, OpenRefusal> {
    for index in 0..usize::MAX {
        match address_of_end(net, remote, index, true) {
            Ok(Some(addr)) if addr.is_ipv4() != local.is_ipv4() => {}
            found => return found,
        }
    }
    Ok(None)
}

/// Returns the first address of the local end whose family the remote end has too, and that of the
/// remote end.
fn addresses<N: Net>(
    net: &N,
    local: &str,
    remote: &str,
) -> Result<(SocketAddr, SocketAddr), OpenRefusal> {
    for index in 0..usize::MAX {
        let Some(here) = address_of_end(net, local, index, false)? else {
            break;
        };
        if let Some(there) = address_like(net, remote, here)? {
            return Ok((here, there));
        }
    }
    Err(OpenRefusal {
        cause: Cause::OtherFamily,
        is_remote: true,
    })
}

fn bound<N: Net>(
    net: &N,
    poll: &Poll,
    place: &mut LinePlace,
    local: &str,
    remote: &str,
) -> Result<Opened, OpenRefusal>
    ensures { IfOk result (Opens kind.Datagrams) }
{
    let (local, remote) = addresses(net, local, remote)?;
    match bind(net, poll, place, local) {
        Ok((socket, local)) => Ok(Opened::Bound(Line::Datagrams(socket, remote), local, remote)),
        Err(error) => Err(refused_by(&error)),
    }
}

/// Binds a socket of datagrams to an address, and returns that: the port may be left to the system.
fn bind<N: Net>(
    net: &N,
    poll: &Poll,
    place: &mut LinePlace,
    local: SocketAddr,
) -> io::Result<(UdpSocket, SocketAddr)> {
    let mut socket = UdpSocket::bind(net, local)?;
    let local = socket.local_addr()?;
    prepare_datagrams(&socket);
    place.add_socket(poll, &mut socket)?;
    Ok((socket, local))
}

/// Opens a character device for nonblocking reads and writes, and locks it; nothing else is opened
/// for writing.
fn device<S: Files<File = File>>(
    files: &S,
    poll: &Poll,
    place: &mut LinePlace,
    path: &str,
) -> Result<Opened, OpenRefusal>
    ensures { IfOk result (Opens kind.Device) }
{
    let kind = match fs::metadata(files, path) {
        Ok(metadata) => metadata.file_type(),
        Err(error) => return Err(refused_by(&error)),
    };
    if kind.is_dir() {
        return Err(refused(Cause::System(ErrorKind::IsADirectory)));
    }
    if !kind.is_char_device() {
        return Err(refused(Cause::NotDevice));
    }
    let file = match OpenOptions::new().read(true).write(true).open(files, path) {
        Ok(file) => file,
        Err(error) => return Err(refused_by(&error)),
    };
    if let Err(TryLockError::WouldBlock) = file.try_lock() {
        return Err(refused(Cause::InUse));
    }
    if os::set_nonblocking(file.as_raw_fd(), true) < 0 {
        return Err(refused(Cause::System(ErrorKind::Other)));
    }
    place.add_device(poll, file.as_raw_fd());
    Ok(Opened::Line(Line::Device(file)))
}
