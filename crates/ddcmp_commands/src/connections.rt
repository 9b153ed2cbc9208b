//! The connections of stations.
ghost use Rattle.std.specs.Prelude.{◌≡◌, false, IfOk};
ghost use Rattle.ddcmp_io.specs.Device.{worst_of, has_failed};

use ddcmp_args::Role;
use ddcmp_io::{FromRead, Sink, Source, ToWrite, Worst};
use ddcmp_net::{accept, connect};
use std::io;
use std::net::TcpStream;

/// A connection: a reader and a writer.
#[derive(Drop)]
pub struct Connection<R, W> {
    pub reader: R,
    pub writer: W,
}

/// A system that makes the connections of stations.
pub trait Connections {
    ghost use Rattle.std.specs.Prelude.{◌≡◌, ◌≢◌, ℕ, List, Some, IfSome, is_some, not, false};
    ghost use Rattle.ddcmp_io.specs.declared.device.Worst.TheVariants.{Fine};
    ghost use Rattle.ddcmp_commands.specs.Connections.{Peers};

    type Reader: Source + Drop;

    type Writer: Sink + Drop;

    // What is known of its connections.
    ghost peers: { Self → Peers };

    /// Connects to a peer that listens at an address, or listens there and accepts a connection.
    fn connection(&self, role: Role, addr: &str) -> Option<Connection<Self::Reader, Self::Writer>>
        ensures opens { (peers self.now).opens role addr.now ≢ Some (not (is_some result)) }
        ensures fine { IfSome result (λ c. Self.Reader.state c.reader ≡ Fine) }
        ensures whole { IfSome result (λ c. Self.Writer.broken c.writer ≡ false) }
        ensures gives { IfSome result (λ c. (bytes : List ℕ)
            → (peers self.now).gives role addr.now ≡ Some bytes
            → Self.Reader.left c.reader ≡ Some bytes) };
}

/// Returns both directions of a stream.
fn both_ways(stream: TcpStream) -> io::Result<Connection<FromRead<TcpStream>, ToWrite<TcpStream>>>
    ensures fine { IfOk result (λ c. worst_of c.reader ≡ Worst.Fine) }
    ensures whole { IfOk result (λ c. has_failed c.writer ≡ false) }
{
    let sending = stream.try_clone()?;
    Ok(Connection {
        reader: FromRead::new(stream),
        writer: ToWrite::new(sending),
    })
}

/// Connections over TCP.
impl Connections for HostRuntime {
    ghost use Rattle.ddcmp_commands.specs.Connections.{no_peers_known};

    type Reader = FromRead<TcpStream>;

    type Writer = ToWrite<TcpStream>;

    ghost peers = { λ _. no_peers_known };

    fn connection(
        &self,
        role: Role,
        addr: &str,
    ) -> Option<Connection<FromRead<TcpStream>, ToWrite<TcpStream>>> {
        let stream = match role {
            Role::Connect => connect(self, addr),
            Role::Listen => accept(self, addr),
        };
        match both_ways(stream.ok()?) {
            Ok(connection) => Some(connection),
            Err(_unreported) => None,
        }
    }
}
